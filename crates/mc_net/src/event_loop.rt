//! A worker's event loop.
ghost use Rattle.std.specs.List.{list_any};
ghost use Rattle.std.specs.Prelude.{◌≡◌, ◌↔◌, ◌⊎◌, ◌*◌, ◌≤◌, Bool, false, length, IfErr, IfOk, IfSome, IsTrue, None, Some};
ghost use Rattle.std.specs.Duration.{as_nanos};
ghost use Rattle.mc_connections.specs.Round.{NoConnectionWaits, is_wake};
ghost use Rattle.mc_connections.specs.Serving.{HasComeTo};
ghost use Rattle.mc_connections.specs.Working.{IsNewFor, KeepsPlaces, Works};
ghost use Rattle.mc_connections.specs.declared.arrival.Admission.{Admission};
ghost use Rattle.mc_connections.specs.declared.places.TheConstants.{MOST_CONNECTIONS};
ghost use Rattle.mc_net.specs.declared.event_loop.TheConstants.{RETRY_MILLIS};
ghost use Rattle.mc_net.specs.Running.{ClosesAt, HasStopped, HasWorked, standing_at};
ghost use Rattle.mio.specs.Events.{items};
ghost use Rattle.uc_worker.specs.Going.{CatchesUp};
ghost use Rattle.uc_worker.specs.Steps.{HasReadOn};
ghost use Rattle.uc_worker.specs.Worker.{IsClosing, IsUpToDate, seat_of, tenants_of};
ghost use Rattle.uc_worker.specs.declared.worker.Worker.{Worker};

use crate::ended::Ended;
use crate::halt::Halt;
use crate::mailbox::{Mailboxes, Signal};
use crate::offers::Offer;
use crate::publishing::{publish, publish_tallies};
use mc_conn::PULL_BYTES;
use mc_connections::{Admission, MOST_CONNECTIONS, PastConnections, ReadyQueue};
use mc_counters::Publisher;
use mio::{Events, Poll};
use std::alloc::Global;
use std::sync::Wait;
use std::time::Duration;
use uc_worker::{Gate, Worker};

/// How many events a poll of a worker reports at most.
const EVENTS: usize = 256;

/// How many arrivals a worker admits between two polls: few, so that those who are here are served
/// meanwhile, and connections whose clients are already gone make room for later ones.
const ARRIVALS: u32 = 8;

/// Each time that a worker's history has grown past a multiple of this many places in a round, the
/// others are woken to catch up. A worker catches up with at most as many between two polls.
const STRIDE: usize = 4_096;

/// How many polls of `LINGER_MILLIS` that report nothing a loop makes at its end for streams that
/// close: two seconds.
const LINGER_POLLS: u32 = 200;

/// How many polls it makes for them in total at most, so that nobody who goes on sending keeps it.
const LINGER_POLLS_IN_TOTAL: u32 = 100_000;

/// How long each of these polls waits at most, in milliseconds.
const LINGER_MILLIS: u64 = 10;

/// How long a worker waits at most for an event, in milliseconds, before it tries again to catch up
/// after memory was refused to that.
const RETRY_MILLIS: u64 = 100;

/// What a worker's event loop works with: its connections, and the poll that reports their events.
#[derive(Drop)]
pub(crate) struct EventLoop {
    pub(crate) ready: ReadyQueue,
    poll: Poll,
    events: Events,
    // The worker stopped catching up at its bound, so that more may be decided.
    is_behind: bool,
    // Memory was refused while the worker caught up, so that it may not have replayed all.
    is_starved: bool,
    // How many bytes the commands of the log keep that the worker has replayed.
    bytes: u64,
    // A log is closed where its commands keep as many.
    most_bytes: u64,
    // Shows the worker's numbers, if somebody may look on.
    publisher: Option<Publisher>,
    alloc: Global,
}

/// Returns whether a history that has grown from one length to another has passed a multiple of
/// `STRIDE`.
fn passes_stride(before: usize, after: usize) -> bool {
    before / STRIDE != after / STRIDE
}

/// Waits for events, no longer than the timeout if there is one.
///
/// Returns `Poll` if the poll fails.
pub(crate) fn poll_events(
    poll: &mut Poll,
    events: &mut Events,
    timeout: Option<Duration>,
) -> Result<(), Halt> {
    match poll.poll(events, timeout) {
        Ok(()) => Ok(()),
        Err(_) => Err(Halt::Poll),
    }
}

impl EventLoop {
    /// Returns an event loop without connections, for logs of this many tenants, for each of which
    /// `reserve` places are kept. A log is closed once its commands keep `most_bytes` bytes. The
    /// worker's numbers are shown by the publisher, if there is one.
    ///
    /// Returns `Memory` if memory runs out.
    pub(crate) fn new(
        alloc: Global,
        poll: Poll,
        tenants: usize,
        reserve: usize,
        most_bytes: u64,
        publisher: Option<Publisher>,
    ) -> Result<EventLoop, Halt>
        requires { tenants * reserve ≤ MOST_CONNECTIONS }
        ensures new { IfOk result (λ event_loop. IsNewFor tenants event_loop.ready.connections) }
        ensures reserve { IfOk result
            (λ event_loop. KeepsPlaces reserve event_loop.ready.connections) }
        ensures bytes { IfOk result (ClosesAt most_bytes) }
    {
        let events = Events::with_capacity(alloc, EVENTS)?;
        let ready = ReadyQueue::new(alloc, tenants, reserve)?;
        Ok(EventLoop {
            ready,
            poll,
            events,
            is_behind: false,
            is_starved: false,
            bytes: 0,
            most_bytes,
            publisher,
            alloc,
        })
    }

    /// Returns the connections that have ended here.
    pub(crate) fn into_ended(self) -> PastConnections
        ensures { result ≡ self.ready.connections.ended }
    {
        self.ready.connections.ended.again()
    }

    /// Admits an arrival; if there is no place for it here, it is passed on.
    ///
    /// Returns `Poll` if another worker can't be woken.
    fn admit<R: Wait>(
        &mut self,
        rt: &R,
        mailboxes: &Mailboxes,
        number: usize,
        offer: Offer,
    ) -> Result<(), Halt>
        ensures works { (until : Bool) (worker : Worker) →
            Works until (standing_at worker self.old) (standing_at worker self.new) }
        // What comes is the offer's arrival, with its role.
        ensures came { (outcome : Admission) ×
            HasComeTo self.old.ready.connections self.new.ready.connections offer.arrival outcome }
    {
        mc_connections::laws::work_adds_up();
        let Offer { arrival, refusals } = offer;
        let registry = self.poll.registry();
        match self.ready.connections.admit(self.alloc, registry, arrival) {
            Admission::NoPlace(arrival) => {
                mailboxes.pass_on(rt, number, Offer { arrival, refusals })
            }
            Admission::Admitted(_) | Admission::UnknownRole | Admission::Unregistered => Ok(()),
        }
    }

    /// Admits the arrivals in the mailbox of this number, `ARRIVALS` at most. One for which there is
    /// no place goes back behind the others while some connections haven't been served yet, since
    /// their clients may have left: so nobody is refused a place for one that has never been served.
    /// It is the last one then, so that a round looks through the connections once at most.
    ///
    /// Returns the signal that follows them, or `None` if more may be left. Returns `Poll` if
    /// another worker can't be woken.
    fn admit_arrivals<R: Wait>(
        &mut self,
        rt: &R,
        mailboxes: &Mailboxes,
        number: usize,
    ) -> Result<Option<Signal>, Halt>
        ensures { (until : Bool) (worker : Worker) →
            Works until (standing_at worker self.old) (standing_at worker self.new) }
    {
        mc_connections::laws::work_adds_up();
        let Some(mailbox) = mailboxes.of_workers.get(number) else {
            return Err(Halt::Elsewhere);
        };
        for _ in 0..ARRIVALS {
            let offer = match mailbox.next(rt) {
                Ok(offer) => offer,
                Err(signal) => return Ok(Some(signal)),
            };
            if self.ready.connections.holds_back(offer.arrival.role()) {
                mailbox.put_back(rt, offer);
                return Ok(None);
            }
            self.admit(rt, mailboxes, number, offer)?;
        }
        Ok(None)
    }

    /// Waits until the streams that close have ended, for about two seconds. Polls that report
    /// something don't count, so that a client that sends doesn't shorten the wait of others.
    fn linger(&mut self, buffer: &mut [u8; PULL_BYTES])
        ensures { self.new.ready.connections ≡ self.old.ready.connections }
    {
        let timeout = Some(Duration::from_millis(LINGER_MILLIS));
        let mut idle_polls = 0u32;
        for _ in 0..LINGER_POLLS_IN_TOTAL {
            if self.ready.closing.is_empty() || idle_polls >= LINGER_POLLS {
                return;
            }
            if poll_events(&mut self.poll, &mut self.events, timeout).is_err() {
                return;
            }
            if self.events.is_empty() {
                idle_polls = idle_polls.saturating_add(1);
            }
            self.ready.closing.serve_events(&self.events, buffer);
        }
    }

    /// Catches up with `STRIDE` places at most. Notes whether more may be decided, and whether
    /// memory was refused.
    fn catch_up<G: Gate>(&mut self, worker: &mut Worker<'_>, gate: &mut G)
        ensures catches_up { CatchesUp worker.old worker.new }
        // If it notes neither, all that was decided is replayed, up to a place that was empty.
        ensures read { self.new.is_behind ≡ false → self.new.is_starved ≡ false →
            HasReadOn (seat_of worker.new) × IsUpToDate worker.new }
        ensures same { self.new.ready.connections ≡ self.old.ready.connections }
    {
        let caught_up = worker.catch_up_some(STRIDE, gate);
        self.is_starved = caught_up.is_err();
        self.is_behind = caught_up.unwrap_or(false);
    }

    /// Serves the connections that are to be served, and then catches up with `STRIDE` places at
    /// most. Wakes the other workers if the log has grown a lot meanwhile. Returns whether this
    /// worker was woken. If `until_done` is set, commands are left to the next log once this one is
    /// closing.
    ///
    /// Returns `Memory` if memory runs out.
    fn make_round<G: Gate>(
        &mut self,
        until_done: bool,
        worker: &mut Worker<'_>,
        gate: &mut G,
        buffer: &mut [u8; PULL_BYTES],
        mailboxes: &Mailboxes,
        number: usize,
    ) -> Result<bool, Halt>
        requires { self.old.ready.connections.tenants ≡ length (tenants_of worker.old) }
        ensures works { Works until_done (standing_at worker.old self.old)
            (standing_at worker.new self.new) }
        ensures woken { IfOk result
            (λ is_woken. is_woken ≡ list_any is_wake (items self.old.events)) }
    {
        mc_connections::laws::work_adds_up();
        let known = worker.history().len();
        let events = &self.events;
        let is_woken = self
            .ready
            .serve_round(until_done, worker, gate, buffer, events)?;
        let tenants = self.ready.connections.tenants();
        publish_tallies(&mut self.publisher, tenants, &mut self.ready.tallies);
        self.ready.closing.register_new(self.poll.registry());
        if passes_stride(known, worker.history().len()) {
            mailboxes.wake_others(number);
        }
        self.catch_up(worker, gate);
        self.bytes = self.bytes.saturating_add(worker.bytes_from(known));
        Ok(is_woken)
    }

    /// Returns how long a poll may wait: not at all if arrivals may be left in the mailbox, a
    /// connection is to be served without an event or more may be decided in the log;
    /// `RETRY_MILLIS` if memory was refused while the worker caught up; and otherwise until an
    /// event comes.
    fn timeout(&self, may_have_arrivals: bool) -> Option<Duration>
        // It waits without an end just where nothing is left that no event would report.
        ensures none { (result ≡ None) ↔ (may_have_arrivals ≡ false)
            × NoConnectionWaits self.now.ready × (self.now.is_behind ≡ false)
            × (self.now.is_starved ≡ false) }
        // And it waits for a while only where nothing is left but a retry.
        ensures some { IfSome result (λ time. (as_nanos time ≡ 0)
            ⊎ (as_nanos time ≡ RETRY_MILLIS * 1000000) × (may_have_arrivals ≡ false)
            × NoConnectionWaits self.now.ready × (self.now.is_behind ≡ false)) }
    {
        if may_have_arrivals || !self.ready.may_wait() || self.is_behind {
            return Some(Duration::ZERO);
        }
        self.is_starved
            .then_some(Duration::from_millis(RETRY_MILLIS))
    }

    /// Returns whether the log is to be closed: another loop has signalled so, fewer places are
    /// left than there are workers, or its commands keep as many bytes as a log's may.
    fn is_to_close(&self, worker: &Worker<'_>, signal: Option<Signal>) -> bool
        ensures { IsTrue result ↔ (signal ≡ Some Signal.Full) ⊎ IsClosing worker.now
            ⊎ (self.now.most_bytes ≤ self.now.bytes) }
    {
        signal == Some(Signal::Full) || worker.is_closing() || self.bytes >= self.most_bytes
    }

    /// Serves the streams that the acceptor leaves in the mailbox of this number, until no more
    /// come and every connection has ended. Streams that close have about two seconds to end then.
    /// If `until_done` is set it also ends, as `Full`, once the log is to be closed; all other
    /// loops are signalled then, so that they end too.
    ///
    /// Returns `Memory` if memory runs out, and `Poll` if a poll or a waker fails. Returns
    /// `Elsewhere` if another loop has failed; this loop's connections are closed then.
    pub(crate) fn run<R: Wait, G: Gate>(
        &mut self,
        rt: &R,
        until_done: bool,
        worker: &mut Worker<'_>,
        gate: &mut G,
        mailboxes: &Mailboxes,
        number: usize,
    ) -> Result<Ended, Halt>
        requires { self.old.ready.connections.tenants ≡ length (tenants_of worker.old) }
        ensures worked { IfOk result (HasWorked until_done
            (standing_at worker.old self.old) (standing_at worker.new self.new)) }
        // Also where it fails, it has done nothing else.
        ensures stopped { IfErr result (λ _. HasStopped until_done
            (standing_at worker.old self.old) (standing_at worker.new self.new)) }
        ensures tenants { self.new.ready.connections.tenants ≡ length (tenants_of worker.new) }
    {
        mc_connections::laws::work_adds_up();
        let Some(mailbox) = mailboxes.of_workers.get(number) else {
            return Err(Halt::Elsewhere);
        };
        mailbox.raise(rt, Signal::Open);
        let mut buffer = [0u8; PULL_BYTES];
        // Arrivals may be left from when an earlier log was served.
        let mut signal = None;
        self.bytes = worker.bytes_from(0);
        for _ in rt.forever() {
            let connections = &self.ready.connections;
            publish(&mut self.publisher, connections, worker, self.bytes);
            if signal == Some(Signal::Halted) {
                self.ready.connections.clear();
                return Err(Halt::Elsewhere);
            }
            if signal == Some(Signal::Closed) && self.ready.connections.is_empty() {
                if mailbox.leave(rt) {
                    self.linger(&mut buffer);
                    return Ok(Ended::Done);
                }
                // An arrival was passed on to this worker meanwhile.
                signal = None;
            }
            if until_done && self.is_to_close(worker, signal) {
                mailboxes.tell_full(rt)?;
                return Ok(Ended::Full);
            }
            let timeout = self.timeout(signal.is_none());
            poll_events(&mut self.poll, &mut self.events, timeout)?;
            let woken = self.make_round(until_done, worker, gate, &mut buffer, mailboxes, number)?;
            if woken || signal.is_none() {
                signal = self.admit_arrivals(rt, mailboxes, number)?;
            }
        }
        unreachable!()
    }
}
