//! The loop of the listener for scrapes.
ghost use Rattle.std.specs.Prelude.{◌≡◌, ◌≢◌, ◌⊎◌, All, IfErr, IfSome, None, map};
ghost use Rattle.mc_scraping.specs.Yielding.{IsFirstToYield, holder_of};
ghost use Rattle.mc_scraping.specs.declared.yielding.Holder.{Holder};
ghost use Rattle.mc_scraping.specs.declared.yielding.Holder.TheVariants as Holder;

use crate::answering::Answering;
use crate::boards::Boards;
use crate::resting::rest_after;
use crate::visit::Visit;
use crate::yielding::{Holder, first_to_yield};
use mc_model::Fault;
use mio::net::{TcpListener, TcpStream};
use mio::{Events, Interest, Poll, Token, Waker};
use std::alloc::Global;
use std::fs::Files;
use std::hash::RandomState;
use std::io::ErrorKind;
use std::net::Net;
use std::sync::Wait;
use std::sync::atomic::{AtomicBool, Ordering};
use std::thread;
use std::time::{Clock, Duration, Instant};

/// How many connections there are at most, and how many streams are accepted in a round.
const MOST_VISITS: usize = 16;

/// After how many seconds a connection is closed at the latest, whatever it does.
const MOST_SECONDS: u64 = 10;

/// How many events a poll reports at most.
const EVENTS: usize = 64;

/// How long a poll waits at most while there are connections, so that they are closed in time, or
/// the listener failed, in milliseconds.
const TICK_MILLIS: u64 = 1_000;

/// The token of the listener, after those of the connections.
const LISTENER: Token = Token(MOST_VISITS);

/// The token of the waker.
const WAKER: Token = Token(MOST_VISITS + 1);

/// Stops the loop of a listener for scrapes.
#[derive(Drop)]
pub struct Stop {
    is_stopped: AtomicBool,
    waker: Waker,
}

impl Stop {
    /// Stops the loop. If it can't be woken it stops after its next event.
    pub fn stop(&self) {
        self.is_stopped.store(true, Ordering::SeqCst);
        let _ = self.waker.wake();
    }
}

/// The listener for scrapes, with its connections.
#[derive(Drop)]
pub struct Scraper {
    listener: TcpListener,
    boards: Boards,
    poll: Poll,
    events: Events,
    visits: Vec<Option<Visit>>,
    // The listener failed, and is to be asked again even if no event reports it.
    is_troubled: bool,
    // More streams may wait than the last round has accepted.
    is_crowded: bool,
    // By these the fields of requests are hashed, whose names clients choose.
    keys: RandomState,
    alloc: Global,
}

/// Returns the loop of a listener without connections, which answers by these boards, and what
/// stops it.
///
/// Returns `Memory` if memory runs out, and `Input` if the poll can't be made or the listener can't
/// be registered.
pub fn new_scraper<R: Net>(
    rt: &R,
    alloc: Global,
    keys: RandomState,
    listener: TcpListener,
    boards: Boards,
) -> Result<(Scraper, Stop), Fault>
    ensures { IfErr result (λ fault. (fault ≡ Fault.Memory) ⊎ (fault ≡ Fault.Input)) }
{
    let mut listener = listener;
    let Ok(poll) = Poll::new(rt) else {
        return Err(Fault::Input);
    };
    let registered = poll
        .registry()
        .register(&mut listener, LISTENER, Interest::READABLE);
    let (Ok(()), Ok(waker)) = (registered, Waker::new(poll.registry(), WAKER)) else {
        return Err(Fault::Input);
    };
    let mut visits = Vec::with_capacity(alloc, MOST_VISITS)?;
    for _ in 0..MOST_VISITS {
        visits.push(None)?;
    }
    let scraper = Scraper {
        listener,
        boards,
        poll,
        events: Events::with_capacity(alloc, EVENTS)?,
        visits,
        is_troubled: false,
        is_crowded: false,
        keys,
        alloc,
    };
    let stop = Stop {
        is_stopped: AtomicBool::new(false),
        waker,
    };
    Ok((scraper, stop))
}

/// Returns whether there is a connection at this place that is to be served: there is an event for
/// it, or it has more to do.
fn is_ready(events: &Events, place: usize, visit: &Option<Visit>) -> bool {
    match visit {
        Some(visit) => {
            visit.has_more || events.iter().any(|event| event.token() == Token(place))
        }
        None => false,
    }
}

impl Scraper {
    /// Returns the place for a stream that comes now: a free one, or else that of the connection
    /// that was idle longest, of those to which no answer is being sent if there is one. `None` if
    /// all have begun just now.
    fn place_for_new(&self, now: Instant) -> Option<usize>
        ensures some { IfSome result (λ place. (holder : Holder) × (holder ≢ Holder.New)
            × IsFirstToYield (map (holder_of now) self.now.visits.items) place holder) }
        ensures none { result ≡ None →
            All (λ visit. holder_of now visit ≡ Holder.New) self.now.visits.items }
    {
        let (place, holder) = first_to_yield(&self.visits, now)?;
        match holder {
            Holder::New => None,
            _ => Some(place),
        }
    }

    /// Gives a stream this place, whose connection is closed if there is one. A stream that can't
    /// be registered is closed, and the listener is noted to be asked again.
    fn admit(&mut self, stream: TcpStream, place: usize, now: Instant) {
        let Some(visit) = self.visits.get_mut(place) else {
            return;
        };
        *visit = None;
        let mut stream = stream;
        let both = Interest::READABLE | Interest::WRITABLE;
        let registry = self.poll.registry();
        if registry.register(&mut stream, Token(place), both).is_ok() {
            *visit = Some(Visit::new(self.alloc, self.keys, stream, now));
        } else {
            self.is_troubled = true;
        }
    }

    /// Accepts the streams that wait, as many as there are places at most. Where none is free the
    /// connection is closed that was idle longest, so that whoever sends a request soon is answered
    /// soon, however many others send none. A listener that fails is noted to be asked again.
    fn accept_waiting(&mut self, now: Instant) {
        self.is_troubled = false;
        self.is_crowded = false;
        for _ in 0..MOST_VISITS {
            let Some(place) = self.place_for_new(now) else {
                break;
            };
            match self.listener.accept() {
                Ok((stream, _)) => self.admit(stream, place, now),
                Err(error) => {
                    self.is_troubled |= error.kind() != ErrorKind::WouldBlock;
                    return;
                }
            }
        }
        self.is_crowded = true;
    }

    /// Closes the connections that have had their time.
    fn close_late(&mut self, now: Instant) {
        let most = Duration::from_secs(MOST_SECONDS);
        for place in self.visits.iter_mut() {
            let is_late = match place {
                Some(visit) => now.duration_since(visit.begun) >= most,
                None => false,
            };
            if is_late {
                *place = None;
            }
        }
    }

    /// Serves the connections that are ready, all by the same numbers: those that are shown once
    /// the first request is there. If memory runs out for an answer its connection is closed.
    fn serve_ready<R: Files>(&mut self, rt: &R, now: Instant) {
        let mut answering = Answering::new(rt, self.alloc, &self.boards);
        for (number, place) in self.visits.iter_mut().enumerate() {
            if !is_ready(&self.events, number, place) {
                continue;
            }
            let stays = match place {
                Some(visit) => visit.serve(&mut answering, now),
                None => false,
            };
            if !stays {
                *place = None;
            }
        }
    }

    /// Returns how long a poll may wait: not at all if a connection is to be served without an
    /// event or streams may wait, a second if there are connections, so that they are closed in
    /// time, or if the listener failed, and otherwise until an event comes.
    fn timeout(&self) -> Option<Duration> {
        let mut visits = self.visits.iter().flatten();
        if self.is_crowded || visits.any(|visit| visit.has_more) {
            return Some(Duration::ZERO);
        }
        let is_idle = self.visits.iter().all(|visit| visit.is_none());
        (!is_idle || self.is_troubled).then_some(Duration::from_millis(TICK_MILLIS))
    }

    /// Polls once, serves the connections that are ready, closes those that have had their time,
    /// and accepts others. Then rests, so that no more than a part of a processor is used whatever
    /// comes.
    ///
    /// Returns `Input` if the poll or the clock fails.
    fn make_round<R: Clock + Files>(&mut self, rt: &R) -> Result<(), Fault> {
        let timeout = self.timeout();
        if self.poll.poll(&mut self.events, timeout).is_err() {
            return Err(Fault::Input);
        }
        let Ok(now) = Instant::now(rt) else {
            return Err(Fault::Input);
        };
        self.serve_ready(rt, now);
        self.close_late(now);
        self.accept_waiting(now);
        let Ok(spent) = now.elapsed(rt) else {
            return Err(Fault::Input);
        };
        thread::sleep(rt, rest_after(spent));
        Ok(())
    }

    /// Answers scrapes until the loop is stopped, or its poll or the clock fails: then nobody is
    /// answered any more, and all else goes on.
    pub fn run<R: Wait + Clock + Files>(&mut self, rt: &R, stop: &Stop) {
        for _ in rt.forever() {
            if stop.is_stopped.load(Ordering::SeqCst) || self.make_round(rt).is_err() {
                return;
            }
        }
    }
}
