//! The acceptor's loop.
ghost use Rattle.std.specs.Prelude.{◌≡◌, IfOk, MatchResult, OnOk};
ghost use Rattle.mc_net.specs.Beginning.{HaltsServing};

use crate::beginning::Begin;
use crate::event_loop::poll_events;
use crate::halt::Halt;
use crate::handing::{Accepted, accept_one};
use crate::listener::{BoundListener, RoleListener};
use crate::mailbox::{Mailboxes, Signal};
use mc_connections::is_admin;
use mc_model::Fault;
use mio::unix::SourceFd;
use mio::{Events, Interest, Poll, Token};
use std::alloc::Global;
use std::os::fd::AsRawFd;
use std::sync::Wait;
use std::time::Duration;

/// How many events a poll of the acceptor reports at most.
const EVENTS: usize = 64;

/// How many streams are accepted at one listener in a round at most, so that the other listeners
/// are served soon.
const ACCEPTS: u32 = 64;

/// How long the acceptor waits at most before it retries a listener that failed, in milliseconds.
const PAUSE_MILLIS: u64 = 50;

/// How long the workers' loops have to begin: this many polls of a millisecond that report nothing.
const POLLS_TO_BEGIN: u32 = 10_000;

/// The listeners, and the poll that reports their streams.
#[derive(Drop)]
pub(crate) struct Acceptor {
    pub(crate) listeners: Vec<RoleListener<BoundListener>>,
    poll: Poll,
    events: Events,
    // How many streams have been handed over, of tenants and administrators.
    handed: u64,
    // How many of tenants have been, and how many are to be; 0 for no end.
    done: u64,
    most: u64,
    // How many rounds there were. Each begins one listener after the one at which the last began.
    rounds: usize,
    // A listener failed, and is to be retried even if no event reports it.
    is_troubled: bool,
    // More streams may be waiting at a listener, which is to be asked again at once.
    has_more: bool,
    // The poll reports the streams of the listeners, since the first log.
    is_registered: bool,
}

impl Acceptor {
    /// Returns an acceptor of these listeners that has accepted nothing.
    ///
    /// Returns `Memory` if memory runs out.
    pub(crate) fn new(
        alloc: Global,
        poll: Poll,
        listeners: Vec<RoleListener<BoundListener>>,
        most: u64,
    ) -> Result<Acceptor, Halt>
        ensures listeners { IfOk result (λ acceptor. acceptor.listeners ≡ listeners) }
        ensures most { IfOk result (λ acceptor. acceptor.most ≡ most) }
    {
        let events = Events::with_capacity(alloc, EVENTS)?;
        Ok(Acceptor {
            listeners,
            poll,
            events,
            handed: 0,
            done: 0,
            most,
            rounds: 0,
            is_troubled: false,
            has_more: false,
            is_registered: false,
        })
    }

    fn is_done(&self) -> bool {
        self.most > 0 && self.done >= self.most
    }

    /// Accepts the streams that wait at one listener, `ACCEPTS` at most.
    ///
    /// A listener that fails, or at which more may be waiting, is noted to be asked again. Returns
    /// the errors of `accept_one`.
    fn accept_waiting<R: Wait>(
        &mut self,
        rt: &R,
        number: usize,
        mailboxes: &Mailboxes,
    ) -> Result<(), Halt>
        ensures { self.new.listeners ≡ self.old.listeners }
    {
        for _ in 0..ACCEPTS {
            if self.is_done() {
                return Ok(());
            }
            let Some(open) = self.listeners.get(number) else {
                return Ok(());
            };
            let counts = !is_admin(open.role());
            let mut handed = self.handed;
            let accepted = accept_one(rt, open, &mailboxes.of_workers, &mut handed)?;
            self.handed = handed;
            match accepted {
                Accepted::One if counts => self.done = self.done.wrapping_add(1),
                Accepted::One => {}
                Accepted::None => return Ok(()),
                Accepted::Failed => {
                    self.is_troubled = true;
                    return Ok(());
                }
            }
        }
        self.has_more = true;
        Ok(())
    }

    /// Returns how long a poll may wait: not at all if more streams may be waiting, `PAUSE_MILLIS`
    /// if a listener failed, and otherwise until an event comes.
    fn timeout(&self) -> Option<Duration> {
        if self.has_more {
            return Some(Duration::ZERO);
        }
        self.is_troubled
            .then_some(Duration::from_millis(PAUSE_MILLIS))
    }

    /// Polls once, and accepts at each listener for which there is an event, or at all of them if
    /// one is to be asked again.
    ///
    /// Returns `Poll` if the poll fails, and the errors of `accept_one`.
    fn poll_and_accept<R: Wait>(&mut self, rt: &R, mailboxes: &Mailboxes) -> Result<(), Halt>
        ensures { self.new.listeners ≡ self.old.listeners }
    {
        let timeout = self.timeout();
        poll_events(&mut self.poll, &mut self.events, timeout)?;
        let asks_all = self.is_troubled || self.has_more;
        self.is_troubled = false;
        self.has_more = false;
        self.rounds = self.rounds.wrapping_add(1);
        let count = self.listeners.len();
        for turn in 0..count {
            let number = self.rounds.wrapping_add(turn) % count;
            if asks_all
                || self
                    .events
                    .iter()
                    .any(|event| event.token() == Token(number))
            {
                self.accept_waiting(rt, number, mailboxes)?;
            }
        }
        Ok(())
    }

    /// Waits until every worker's loop has begun, so that no stream is handed to a thread that
    /// never runs.
    ///
    /// Polls that report something don't count, so that clients who connect don't shorten the wait.
    /// All listeners that are registered are asked afterwards, since polls here drop what they
    /// report. Returns `Memory` if a loop doesn't begin in time, for example because the system
    /// refuses its thread, and `Poll` if a poll fails.
    fn await_workers<R: Wait>(&mut self, rt: &R, mailboxes: &Mailboxes) -> Result<(), Halt>
        ensures listeners { self.new.listeners ≡ self.old.listeners }
        ensures more { OnOk result (self.new.has_more ≡ self.old.is_registered) }
    {
        let pause = Some(Duration::from_millis(1));
        let mut idle_polls = 0u32;
        for _ in rt.forever() {
            if mailboxes.has_begun(rt) {
                self.has_more = self.is_registered;
                return Ok(());
            }
            if idle_polls >= POLLS_TO_BEGIN {
                return Err(Halt::Memory);
            }
            poll_events(&mut self.poll, &mut self.events, pause)?;
            if self.events.is_empty() {
                idle_polls = idle_polls.saturating_add(1);
            }
        }
        unreachable!()
    }

    /// Registers the listeners, once. The next poll reports those at which streams are waiting
    /// already.
    ///
    /// Returns `Poll` if one of them can't be registered.
    fn register_listeners(&mut self) -> Result<(), Halt>
        ensures { self.new.listeners ≡ self.old.listeners }
    {
        if self.is_registered {
            return Ok(());
        }
        for number in 0..self.listeners.len() {
            let Some(listener) = self.listeners.get(number) else {
                break;
            };
            let descriptor = listener.as_raw_fd();
            let registry = self.poll.registry();
            let token = Token(number);
            let registered = registry.register(
                &mut SourceFd(&descriptor),
                token,
                Interest::READABLE,
            );
            if registered.is_err() {
                return Err(Halt::Poll);
            }
        }
        self.is_registered = true;
        Ok(())
    }

    /// Accepts until `most` streams of tenants were handed over or another loop has failed, and
    /// then signals to the workers that no more come; or until a worker has signalled that the log
    /// is full. Streams that came before the log began are accepted in any case, `ACCEPTS` of each
    /// listener, so that logs that are full at once keep nobody waiting.
    ///
    /// Returns the errors of `poll_and_accept`, and `Poll` if a worker can't be woken.
    fn accept_all<R: Wait>(&mut self, rt: &R, mailboxes: &Mailboxes) -> Result<(), Halt>
        ensures { self.new.listeners ≡ self.old.listeners }
    {
        if self.has_more {
            self.poll_and_accept(rt, mailboxes)?;
        }
        for _ in rt.forever() {
            let signal = mailboxes.of_acceptor.signal(rt);
            if self.is_done() || signal == Signal::Halted {
                return mailboxes.tell_workers(rt, Signal::Closed);
            }
            if signal == Signal::Full {
                return Ok(());
            }
            self.poll_and_accept(rt, mailboxes)?;
        }
        unreachable!()
    }

    /// Begins once all workers' loops have begun, and only then accepts.
    ///
    /// Returns the errors of `await_workers`, `register_listeners` and `accept_all`, and the fault
    /// of `begin`.
    fn begin_and_accept<R: Wait, B: Begin<O>, O>(
        &mut self,
        rt: &R,
        mailboxes: &Mailboxes,
        begin: &B,
        state: &mut O,
    ) -> Result<(), Fault>
        ensures listeners { self.new.listeners ≡ self.old.listeners }
        ensures outcome { MatchResult result (λ _. B.done begin.now state.old state.new)
            (HaltsServing (B.done begin.now) (B.stopped begin.now) state.old state.new) }
    {
        self.await_workers(rt, mailboxes)?;
        self.register_listeners()?;
        begin.begin(rt, state)?;
        self.accept_all(rt, mailboxes)?;
        Ok(())
    }

    /// Runs the acceptor's loop. If it fails, all other loops are signalled to end.
    ///
    /// Returns the errors of `begin_and_accept`.
    pub(crate) fn run<R: Wait, B: Begin<O>, O>(
        &mut self,
        rt: &R,
        mailboxes: &Mailboxes,
        begin: &B,
        state: &mut O,
    ) -> Result<(), Fault>
        ensures listeners { self.new.listeners ≡ self.old.listeners }
        ensures outcome { MatchResult result (λ _. B.done begin.now state.old state.new)
            (HaltsServing (B.done begin.now) (B.stopped begin.now) state.old state.new) }
    {
        let outcome = self.begin_and_accept(rt, mailboxes, begin, state);
        if outcome.is_err() {
            mailboxes.halt(rt);
        }
        outcome
    }
}
