//! Where streams come in, and the event loops that serve them. No worker is part of it, so that
//! connections outlive the workers that serve them.
ghost use Rattle.std.specs.List.{AllZip};
ghost use Rattle.std.specs.Prelude.{◌≡◌, ◌*◌, ◌<◌, ◌≤◌, ⊤, true, All, IfOk, List, MatchResult, length, not, vec_len};
ghost use Rattle.mc_conn.specs.Owed.{IsAmong};
ghost use Rattle.mc_connections.specs.InTurn.{InTurn};
ghost use Rattle.mc_connections.specs.declared.places.TheConstants.{MOST_CONNECTIONS};
ghost use Rattle.mc_net.specs.Beginning.{HaltsServing};
ghost use Rattle.mc_net.specs.Halting.{IsNetworkFault};
ghost use Rattle.mc_net.specs.Returning.{returned_of};
ghost use Rattle.mc_net.specs.Running.{ClosesAt, HasBeenServedBy, HaveServedAt, IsEmptyLoop, IsFor, IsNewLoop, KeepsAt, each_followed_by, listeners_of};
ghost use Rattle.uc_worker.specs.AllWorkers.{AreOnOneRun};
ghost use Rattle.uc_worker.specs.Going.{Continues};

use crate::accepting::Acceptor;
use crate::beginning::Begin;
use crate::ended::Ended;
use crate::event_loop::EventLoop;
use crate::halt::Halt;
use crate::listener::{BoundListener, RoleListener};
use crate::mailbox::{Mailbox, Mailboxes};
use crate::offers::Offers;
use crate::running::{first_failure, on_one_run, parted, run_all, threads_of};
use crate::worker_thread::Returned;
use mc_conn::Role;
use mc_connections::MOST_CONNECTIONS;
use mc_counters::Publisher;
use mc_model::Fault;
use mio::Poll;
use std::alloc::{AllocError, Global};
use std::mem;
use std::net::Net;
use std::sync::Wait;
use std::thread::Threads;
use uc_log::Log;
use uc_worker::{Gate, Worker};

/// How large a front is, and how much it serves.
#[derive(Clone, Copy, Debug)]
pub struct FrontSettings {
    /// How many workers each log has.
    pub workers: usize,
    /// How many tenants each log has.
    pub tenants: usize,
    /// How many of its places for connections each worker keeps for each tenant.
    pub reserve: usize,
    /// A log that another may follow is closed once its commands keep this many bytes, before all
    /// its places are taken.
    pub log_bytes: u64,
    /// How many streams of tenants are accepted; 0 for no end.
    pub connections: u64,
}

/// The acceptor with its listeners, the event loops with their connections, and each loop's
/// mailbox.
///
/// A front is served by the workers of one log after another: connections stay, whichever log their
/// commands are on.
#[derive(Drop)]
pub struct Front {
    acceptor: Acceptor,
    mailboxes: Mailboxes,
    /// One for each worker.
    pub(crate) event_loops: Vec<EventLoop>,
    /// How many tenants each log has.
    pub(crate) tenants: usize,
    ghost known: { All (IsFor tenants) event_loops.items },
}

/// Returns a poll, and the mailbox that wakes it, for arrivals of this many tenants.
///
/// Returns `Memory` if memory runs out, and `Poll` if either can't be made.
fn new_poll<R: Net>(rt: &R, alloc: Global, tenants: usize) -> Result<(Poll, Mailbox), Halt> {
    let Ok(poll) = Poll::new(rt) else {
        return Err(Halt::Poll);
    };
    match Mailbox::new(Offers::new(alloc, tenants)?, poll.registry()) {
        Ok(mailbox) => Ok((poll, mailbox)),
        Err(_) => Err(Halt::Poll),
    }
}

/// Returns the event loops of a front with these settings, one for each worker, and the mailbox of
/// each. The first loops show their workers' numbers, each by one of the publishers.
///
/// Returns `Memory` if memory runs out, and `Poll` if a poll or a mailbox can't be made.
fn new_event_loops<R: Net>(
    rt: &R,
    alloc: Global,
    settings: FrontSettings,
    publishers: Vec<Publisher>,
) -> Result<(Vec<Mailbox>, Vec<EventLoop>), Halt>
    requires { settings.tenants * settings.reserve ≤ MOST_CONNECTIONS }
    ensures mailboxes { IfOk result (λ pair. vec_len pair.0 ≡ settings.workers) }
    ensures many { IfOk result (λ pair. vec_len pair.1 ≡ settings.workers) }
    ensures new { IfOk result (λ pair. All (IsNewLoop settings.tenants) pair.1.items) }
    ensures reserve { IfOk result (λ pair. All (KeepsAt settings.reserve) pair.1.items) }
    ensures bytes { IfOk result (λ pair. All (ClosesAt settings.log_bytes) pair.1.items) }
{
    let mut mailboxes = Vec::new(alloc);
    let mut event_loops = Vec::new(alloc);
    let mut publishers = publishers.into_iter();
    for _ in 0..settings.workers {
        let (poll, mailbox) = new_poll(rt, alloc, settings.tenants)?;
        mailboxes.push(mailbox)?;
        event_loops.push(EventLoop::new(
            alloc,
            poll,
            settings.tenants,
            settings.reserve,
            settings.log_bytes,
            publishers.next(),
        )?)?;
    }
    Ok((mailboxes, event_loops))
}

/// Returns these listeners with their roles, in order.
///
/// Returns `Memory` if memory runs out.
fn role_listeners(
    alloc: Global,
    listeners: Vec<(Role, BoundListener)>,
) -> Result<Vec<RoleListener<BoundListener>>, Halt>
    ensures { IfOk result (λ all. listeners_of all.items ≡ listeners.items) }
{
    let mut all = Vec::new(alloc);
    for (role, socket) in listeners {
        all.push(RoleListener::new(role, socket))?;
    }
    Ok(all)
}

impl Front {
    /// Returns the front of these listeners, with these settings. Between two rounds the first
    /// workers show their numbers, each by one of the publishers, of which no clause speaks.
    ///
    /// Returns `Memory` if memory runs out, and `Input` if a poll or a mailbox can't be made.
    pub fn new<R: Net>(
        rt: &R,
        alloc: Global,
        settings: FrontSettings,
        listeners: Vec<(Role, BoundListener)>,
        publishers: Vec<Publisher>,
    ) -> Result<Front, Fault>
        requires reserves { settings.tenants * settings.reserve ≤ MOST_CONNECTIONS }
        requires some { (0 < settings.workers) × (0 < vec_len listeners) }
        requires roles { All (λ listener. IsAmong listener.0 settings.tenants) listeners.items }
        ensures many { IfOk result (λ front. vec_len front.event_loops ≡ settings.workers) }
        ensures tenants { IfOk result (λ front. front.tenants ≡ settings.tenants) }
        // Nobody has been served yet.
        ensures new { IfOk result
            (λ front. All (IsNewLoop settings.tenants) front.event_loops.items) }
        ensures reserve { IfOk result
            (λ front. All (KeepsAt settings.reserve) front.event_loops.items) }
        ensures bytes { IfOk result
            (λ front. All (ClosesAt settings.log_bytes) front.event_loops.items) }
        ensures connections { IfOk result (λ front. front.acceptor.most ≡ settings.connections) }
        ensures listeners { IfOk result
            (λ front. listeners_of front.acceptor.listeners.items ≡ listeners.items) }
        ensures faults { MatchResult result (λ _. ⊤) IsNetworkFault }
    {
        let (of_workers, event_loops) = new_event_loops(rt, alloc, settings, publishers)?;
        let (poll, of_acceptor) = new_poll(rt, alloc, settings.tenants)?;
        let listeners = role_listeners(alloc, listeners)?;
        let acceptor = Acceptor::new(alloc, poll, listeners, settings.connections)?;
        let mailboxes = Mailboxes {
            of_workers,
            of_acceptor,
        };
        Ok(Front {
            acceptor,
            mailboxes,
            event_loops,
            tenants: settings.tenants,
        })
    }

    /// Lets these workers of one log serve, each at the event loop of its index and in a thread of
    /// its own if one can be made, until no more streams are to come and every connection has
    /// ended: that is `Done`. Unless the log is the last one, serving also ends, as `Full`, once a
    /// worker finds that its log is closing, or that its commands keep as many bytes as a log's
    /// may: then commands wait and are first on the next log, and the connections and the streams
    /// that come stay with the front. Returns the workers in their order; places may be left.
    ///
    /// When every worker's loop has begun, and before anything is accepted, `begin` is called,
    /// once, with the state. Returns `Memory` if a loop doesn't begin within about ten seconds, for
    /// example because the system refuses its thread, or if memory runs out outside a connection
    /// and the queues. Returns `Input` if a poll or a waker fails, or a listener can't be
    /// registered, and the fault of `begin` if that returns one. All loops have ended then, and
    /// every connection is closed.
    ///
    /// Which streams are accepted, which worker gets each, when serving ends and what a fault
    /// leaves of the loops are in no clause: these say what workers and connections have come to
    /// where it ends without a fault.
    pub fn serve_generation<'a, R, G, B, O>(
        &mut self,
        rt: &R,
        alloc: Global,
        log: &'a Log,
        workers: Vec<Worker<'a>>,
        gates: Vec<G>,
        is_last: bool,
        begin: &B,
        state: &mut O,
    ) -> Result<(Vec<Worker<'a>>, Ended), Fault>
    where
        R: Threads + Wait + Sync,
        G: Gate + Send + Drop,
        B: Begin<O>,
        requires logs { All (λ worker. worker.log.now ≡ log.now) workers.items }
        requires tenants { self.old.tenants ≡ length log.now.settings.tenants }
        requires loops { vec_len self.old.event_loops ≡ vec_len workers }
        requires gates { vec_len gates ≡ vec_len workers }
        // Each worker admitted arrivals and served its loop's connections, those left there too.
        ensures served { IfOk result (λ pair. HaveServedAt (not is_last) pair.1
            workers.entry.items self.old.event_loops.items pair.0.items
            self.new.event_loops.items) }
        // So whoever has served there before, now this log's workers have too.
        ensures in_turn { IfOk result (λ pair. (past : List InTurn) →
            AllZip HasBeenServedBy past self.old.event_loops.items →
            AllZip HasBeenServedBy (each_followed_by past workers.entry.items pair.0.items)
            self.new.event_loops.items) }
        // If it is done no connection is left; and the last log is served until then.
        ensures done { IfOk result
            (λ pair. pair.1 ≡ Ended.Done → All IsEmptyLoop self.new.event_loops.items) }
        ensures last { IfOk result (λ pair. is_last ≡ true → pair.1 ≡ Ended.Done) }
        // Each worker that comes back is the same one, later on, and still of the log.
        ensures back { IfOk result (λ pair. AllZip Continues workers.entry.items pair.0.items) }
        ensures logs { IfOk result
            (λ pair. All (λ worker. worker.log.now ≡ log.entry.now) pair.0.items) }
        // One run of the log, from its opening, has all their calls, each worker's in order, and no
        // other events of theirs.
        ensures run { IfOk result (λ pair. AreOnOneRun pair.0.items) }
        // It has as many event loops as before unless a fault ended it, and as many tenants.
        ensures loops { IfOk result
            (λ _. vec_len self.new.event_loops ≡ vec_len self.old.event_loops) }
        ensures tenants { self.new.tenants ≡ self.old.tenants }
        // It accepts at the same listeners, in order, for the same roles, after a fault too.
        ensures listeners { listeners_of self.new.acceptor.listeners.items
            ≡ listeners_of self.old.acceptor.listeners.items }
        // It began with the state; or the network failed, before that or after; or that stopped.
        ensures outcome { MatchResult result (λ _. B.done begin.now state.old state.new)
            (HaltsServing (B.done begin.now) (B.stopped begin.now) state.old state.new) }
    {
        mc_connections::laws::work_adds_up();
        let Front {
            acceptor,
            mailboxes,
            event_loops,
            tenants: _,
        } = self;
        mailboxes.reset(rt);
        let lent = mem::replace(event_loops, Vec::new(alloc));
        let mut threads = threads_of(alloc, log, workers, gates, lent)?;
        run_all(
            rt,
            !is_last,
            mailboxes,
            acceptor,
            &mut threads,
            begin,
            state,
        )?;
        first_failure(&threads)?;
        let (workers, left, ended) = parted(alloc, threads)?;
        *event_loops = left;
        let workers = on_one_run(log, workers);
        // No loop ends as full on the last log.
        Ok((workers, if is_last { Ended::Done } else { ended }))
    }

    /// Returns these workers, each with the connections that have ended at the event loop of its
    /// index.
    ///
    /// Returns an error if memory runs out.
    pub(crate) fn into_returned<'a>(
        self,
        alloc: Global,
        workers: Vec<Worker<'a>>,
    ) -> Result<Vec<Returned<'a>>, AllocError>
        requires { vec_len self.event_loops ≡ vec_len workers }
        ensures { IfOk result
            (λ back. back.items ≡ returned_of workers.entry.items self.event_loops.items) }
    {
        let mut back = Vec::with_capacity(alloc, workers.len())?;
        let mut event_loops = self.event_loops.into_iter();
        for worker in workers {
            let Some(event_loop) = event_loops.next() else {
                unreachable!();
            };
            let ended = event_loop.into_ended();
            back.push(Returned { worker, ended })?;
        }
        Ok(back)
    }
}
