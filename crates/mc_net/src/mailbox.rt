//! Where the acceptor leaves streams for a worker, and how loops are signalled to end.
ghost use Rattle.std.specs.Prelude.{◌<◌, ⊤, OnOk, vec_len};

use crate::halt::Halt;
use crate::handing::Receive;
use crate::offers::{Offer, Offers};
use mc_connections::{Arrival, WAKER};
use mio::net::TcpStream;
use mio::{Registry, Waker};
use std::io;
use std::sync::{Mutex, Wait};

/// What a loop is signalled while a log is served. Signals come in this order, and none is taken
/// back.
#[derive(Clone, Copy, Debug, PartialEq, Eq, PartialOrd, Ord)]
pub(crate) enum Signal {
    /// The loop hasn't begun yet.
    Starting,
    /// More streams may come.
    Open,
    /// No more streams come.
    Closed,
    /// The log is to be closed: commands are left to the next one, and no more streams are accepted
    /// while it is served.
    Full,
    /// Another loop has failed, and this one is to end.
    Halted,
}

#[derive(Drop)]
struct Inbox {
    offers: Offers,
    signal: Signal,
    // The loop has ended, or is about to, and looks for no more offers.
    has_left: bool,
}

/// A loop's offers and signal under a lock, and the waker of its poll. The acceptor has none.
#[derive(Drop)]
pub(crate) struct Mailbox {
    inbox: Mutex<Inbox>,
    waker: Waker,
}

/// Wakes a loop.
///
/// Returns `Poll` if that fails, as for a failed poll.
fn wake(waker: &Waker) -> Result<(), Halt> {
    match waker.wake() {
        Ok(()) => Ok(()),
        Err(_) => Err(Halt::Poll),
    }
}

impl Mailbox {
    /// Returns a mailbox with these offers for the loop whose poll has this registry.
    ///
    /// Returns the system's error if no waker can be made.
    pub(crate) fn new(offers: Offers, registry: &Registry) -> io::Result<Mailbox> {
        let inbox = Inbox {
            offers,
            signal: Signal::Starting,
            has_left: false,
        };
        Ok(Mailbox {
            inbox: Mutex::new(inbox),
            waker: Waker::new(registry, WAKER)?,
        })
    }

    /// Returns the last signal.
    pub(crate) fn signal<R: Wait>(&self, rt: &R) -> Signal {
        self.inbox.lock(rt).signal
    }

    /// Takes the offer that comes next out of the queues.
    ///
    /// Returns the signal as an error if none waits or the loop is to end.
    pub(crate) fn next<R: Wait>(&self, rt: &R) -> Result<Offer, Signal> {
        let mut guard = self.inbox.lock(rt);
        let inbox = &mut *guard;
        if inbox.signal == Signal::Halted {
            return Err(Signal::Halted);
        }
        match inbox.offers.pop() {
            Some(offer) => Ok(offer),
            None => Err(inbox.signal),
        }
    }

    /// Puts an offer into its tenant's queue, and wakes the loop; gives it back if the loop has
    /// ended. If that queue is full or can't grow the stream is closed.
    ///
    /// Returns `Poll` if the loop can't be woken.
    fn put<R: Wait>(&self, rt: &R, offer: Offer) -> Result<Option<Offer>, Halt> {
        // The lock is given back before the wake, which is a system call.
        let pushed = {
            let mut guard = self.inbox.lock(rt);
            let inbox = &mut *guard;
            if inbox.has_left {
                return Ok(Some(offer));
            }
            inbox.offers.push(offer)
        };
        if pushed {
            wake(&self.waker)?;
        }
        Ok(None)
    }

    /// Puts an offer back, behind the others of its tenant, as `put` does.
    pub(crate) fn put_back<R: Wait>(&self, rt: &R, offer: Offer) {
        let mut guard = self.inbox.lock(rt);
        let inbox = &mut *guard;
        let _ = inbox.offers.push(offer);
    }

    /// Notes that the loop ends, unless an offer has come by now. Returns whether it ends.
    pub(crate) fn leave<R: Wait>(&self, rt: &R) -> bool {
        let mut guard = self.inbox.lock(rt);
        let inbox = &mut *guard;
        inbox.has_left = inbox.offers.is_empty();
        inbox.has_left
    }

    /// Sets the signal, unless it is already this one or a later one. Returns whether it did.
    pub(crate) fn raise<R: Wait>(&self, rt: &R, signal: Signal) -> bool {
        let mut guard = self.inbox.lock(rt);
        let inbox = &mut *guard;
        let rises = inbox.signal < signal;
        if rises {
            inbox.signal = signal;
        }
        rises
    }

    /// Sets the signal back, for the next log. Offers stay in the queue.
    fn reset<R: Wait>(&self, rt: &R) {
        let mut guard = self.inbox.lock(rt);
        let inbox = &mut *guard;
        inbox.signal = Signal::Starting;
        inbox.has_left = false;
    }

    /// Sets the signal as `raise` does, and wakes the loop if it did.
    ///
    /// Returns `Poll` if the loop can't be woken.
    pub(crate) fn tell<R: Wait>(&self, rt: &R, signal: Signal) -> Result<(), Halt> {
        if !self.raise(rt, signal) {
            return Ok(());
        }
        wake(&self.waker)
    }
}

impl Receive<TcpStream> for Mailbox {
    // Nothing is proved about what is behind a lock.
    ghost received = { λ _ _. ⊤ };

    /// Puts an arrival into the queue, and wakes the worker.
    ///
    /// If the queue is full or can't grow the stream is closed; no other is affected. Returns
    /// `Poll` if the worker can't be woken.
    fn receive<R: Wait>(&self, rt: &R, arrival: Arrival<TcpStream>) -> Result<(), Halt>
        ensures { OnOk result ⊤ }
    {
        // The offer never comes back: no loop leaves its mailbox before the last stream has come.
        let _ = self.put(
            rt,
            Offer {
                arrival,
                refusals: 0,
            },
        )?;
        Ok(())
    }
}

/// The mailboxes of the acceptor and of at least one worker.
#[derive(Drop)]
pub(crate) struct Mailboxes {
    /// One for each worker.
    pub(crate) of_workers: Vec<Mailbox>,
    pub(crate) of_acceptor: Mailbox,
    ghost some: { 0 < vec_len of_workers },
}

impl Mailboxes {
    /// Returns whether every worker's loop has begun or is to end.
    pub(crate) fn has_begun<R: Wait>(&self, rt: &R) -> bool {
        self.of_workers
            .iter()
            .all(|mailbox| mailbox.signal(rt) != Signal::Starting)
    }

    /// Passes on an offer for which the worker of this number has no place: to the next one that
    /// serves, unless each has had none. Its stream is closed then.
    ///
    /// Returns `Poll` if that worker can't be woken.
    pub(crate) fn pass_on<R: Wait>(&self, rt: &R, number: usize, offer: Offer) -> Result<(), Halt> {
        let count = self.of_workers.len();
        let mut offer = offer;
        for step in 1..count {
            offer.refusals = offer.refusals.saturating_add(1);
            if offer.refusals >= count {
                return Ok(());
            }
            let Some(mailbox) = self.of_workers.get(number.wrapping_add(step) % count) else {
                return Ok(());
            };
            match mailbox.put(rt, offer)? {
                Some(back) => offer = back,
                None => return Ok(()),
            }
        }
        Ok(())
    }

    /// Wakes all workers but the one of this number.
    pub(crate) fn wake_others(&self, number: usize) {
        for (other, mailbox) in self.of_workers.iter().enumerate() {
            if other != number {
                // A worker that can't be woken catches up at its next event.
                let _ = wake(&mailbox.waker);
            }
        }
    }

    /// Signals the acceptor and all workers that the log is to be closed.
    ///
    /// Returns `Poll` if one of them can't be woken; those after it aren't signalled then.
    pub(crate) fn tell_full<R: Wait>(&self, rt: &R) -> Result<(), Halt> {
        self.of_acceptor.tell(rt, Signal::Full)?;
        self.tell_workers(rt, Signal::Full)
    }

    /// Sets all signals back, before the loops begin on the next log.
    pub(crate) fn reset<R: Wait>(&self, rt: &R) {
        self.of_acceptor.reset(rt);
        for mailbox in &self.of_workers {
            mailbox.reset(rt);
        }
    }

    /// Signals all loops to end, after one has failed. The acceptor comes first, so that it accepts
    /// nothing more.
    pub(crate) fn halt<R: Wait>(&self, rt: &R) {
        // A loop that can't be woken sees the signal at its next event.
        let _ = self.of_acceptor.tell(rt, Signal::Halted);
        for mailbox in &self.of_workers {
            let _ = mailbox.tell(rt, Signal::Halted);
        }
    }

    /// Sends a signal to all workers.
    ///
    /// Returns `Poll` if one of them can't be woken; those after it aren't signalled then.
    pub(crate) fn tell_workers<R: Wait>(&self, rt: &R, signal: Signal) -> Result<(), Halt> {
        for mailbox in &self.of_workers {
            mailbox.tell(rt, signal)?;
        }
        Ok(())
    }
}
