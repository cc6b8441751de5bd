//! Serving logs one after another: a log is closed, and the next one is opened over its tables.
ghost use Rattle.std.specs.List.{AllZip};
ghost use Rattle.std.specs.Prelude.{◌≡◌, ◌↔◌, ◌⊎◌, ◌<◌, ◌≤◌, ⊤, All, None, true, false, ℕ, IfErr, IfOk, IfSome, IsTrue, List, MatchResult, length};
ghost use Rattle.mc_connections.specs.InTurn.{InTurn};
ghost use Rattle.mc_model.specs.State.{TableState};
ghost use Rattle.mc_net.specs.Beginning.{HaltsServing};
ghost use Rattle.mc_net.specs.Halting.{IsNetworkFault};
ghost use Rattle.mc_net.specs.Running.{IsEmptyLoop, IsNewLoop, each_followed_by};
ghost use Rattle.mc_server.specs.Crew.{AreWorkersOf};
ghost use Rattle.mc_server.specs.Logs.{AreOpenedOver, AreServedBy, CanBeFollowed, Closes, IsFrontOf, IsNextLog, LogsWere, ServesTo, WereServedAt, tables_over};
ghost use Rattle.mc_server.specs.declared.generations.TheConstants.{MOST_PLACES};
ghost use Rattle.uc_worker.specs.AllWorkers.{AreOnOneRun};
ghost use Rattle.uc_worker.specs.Going.{CatchesUp, Continues};

use crate::crew::{drop_workers, meet_and_close, open_workers};
use crate::opened::Opened;
use crate::scraping::LogWatch;
use mc_model::Fault;
use mc_net::{Begin, Ended, Front};
use std::alloc::Global;
use std::sync::Wait;
use std::thread;
use std::thread::{JoinHandle, Threads};
use std::time::Clock;
use uc_log::Log;
use uc_worker::{Base, Hashing, Next, Open, Worker, catch_up_all, turn_over};

/// What serving a log has come to.
#[derive(Drop)]
pub(crate) enum Served {
    /// Every connection has ended, and this many places of the log were used.
    Done(usize),
    /// The log is closed, of which this many places were used, and this one follows it.
    Full(usize, Next),
}

/// What a closed log leaves: itself, and the tables that it was opened over, unless they were
/// empty.
#[derive(Drop)]
struct Closed {
    log: Log,
    base: Option<Base>,
}

/// What goes on from log to log besides the front: the watch, and what the last closed log has left
/// until that is freed.
#[derive(Drop)]
struct TurnOvers<'a> {
    watch: &'a mut LogWatch,
    // What the last closed log has left, until the next one is served.
    closed: Option<Closed>,
    // The thread that frees it then, until that next one is closed.
    freeing: Option<JoinHandle<()>>,
}

impl TurnOvers<'_> {
    /// Begins to free what the last closed log has left, if there was one, in a thread of its own:
    /// so neither the loops nor the acceptor wait for that while the next log is served. If no
    /// thread can be made it is freed before this returns.
    fn free_closed<R: Threads>(&mut self, rt: &R)
        ensures { self.new.closed ≡ None }
    {
        if let Some(closed) = self.closed.take() {
            // A closure that gets no thread is dropped here, with what it was to free.
            self.freeing = thread::spawn(rt, move || drop(closed)).ok();
        }
    }

    /// Waits until all that earlier logs have left is freed. So there are two logs in memory at most,
    /// the one that is closed now and the one that follows it, even where logs are filled faster
    /// than they are freed; mostly it was freed long before.
    fn await_freed<R: Threads>(&mut self, rt: &R)
        ensures { self.new.freeing ≡ None }
    {
        if let Some(freeing) = self.freeing.take() {
            freeing.join(rt);
        }
    }
}

/// Does nothing when the loops have begun: only what begins first is announced.
struct Unannounced;

impl Begin<()> for Unannounced {
    ghost done = { λ _ _ _. ⊤ };

    ghost stopped = { λ _ _ _ _. ⊥ };

    fn begin<R: Wait>(&self, _rt: &R, _state: &mut ()) -> Result<(), Fault> {
        Ok(())
    }
}

/// Returns whether each worker has replayed `used` places of its log, and `places` more changes can
/// get uniques in its tables.
fn can_be_followed(workers: &[Worker<'_>], used: usize, places: u64) -> bool
    ensures { IsTrue result ↔ All (CanBeFollowed used places) workers.now }
{
    workers.iter().all(|worker| worker.history().len() == used && worker.has_room(places))
}

/// Closes a log whose workers serve no more, and opens the one that follows it. Returns also how
/// many places of it were used, which all of its workers have replayed.
///
/// Returns `None` if the changes of a whole log couldn't all get uniques, or memory runs out.
fn next_log(alloc: Global, log: &Log, workers: &mut [Worker<'_>]) -> Option<(usize, Next)>
    requires workers { AreWorkersOf log.now.settings log.now workers.old }
    requires some { 0 < length workers.old }
    ensures later { AllZip CatchesUp workers.old workers.new }
    ensures fits { IfSome result (λ pair. IsNextLog log.now.settings pair.1) }
    ensures few { IfSome result (λ pair. pair.0 ≤ log.now.settings.places) }
    ensures closes { IfSome result (λ pair. Closes workers.old pair.0 pair.1.base.tables.items) }
{
    uc_worker::laws::workers_go_on();
    let Ok(()) = catch_up_all(workers) else {
        return None;
    };
    let Some(first) = workers.first() else {
        unreachable!()
    };
    let used = first.history().len();
    if !can_be_followed(workers, used, log.settings().places()) {
        return None;
    }
    match turn_over(alloc, workers, log.settings()) {
        Ok(next) => Some((used, next)),
        Err(_) => None,
    }
}

/// Lets the workers of a log serve at the front, as `Front::serve_generation` does.
///
/// Returns the errors of that, and `Memory` if memory runs out.
fn serve_part<'a, R: Threads + Wait + Sync, B: Begin<S>, S>(
    rt: &R,
    alloc: Global,
    front: &mut Front,
    log: &'a Log,
    workers: Vec<Worker<'a>>,
    is_last: bool,
    begin: &B,
    state: &mut S,
) -> Result<(Vec<Worker<'a>>, Ended), Fault>
    requires workers { AreWorkersOf log.now.settings log.now workers.items }
    requires front { IsFrontOf log.now.settings front.old }
    ensures in_turn { IfOk result (λ pair. (who : List InTurn) → AreServedBy who front.old →
        AreServedBy (each_followed_by who workers.entry.items pair.0.items) front.new) }
    ensures done { IfOk result
        (λ pair. pair.1 ≡ Ended.Done → All IsEmptyLoop front.new.event_loops.items) }
    ensures last { IfOk result (λ pair. is_last ≡ true → pair.1 ≡ Ended.Done) }
    ensures back { IfOk result (λ pair. AllZip Continues workers.entry.items pair.0.items) }
    ensures workers { IfOk result
        (λ pair. AreWorkersOf log.entry.now.settings log.entry.now pair.0.items) }
    ensures run { IfOk result (λ pair. AreOnOneRun pair.0.items) }
    ensures front { IfOk result (λ _. IsFrontOf log.entry.now.settings front.new) }
    ensures outcome { MatchResult result (λ _. B.done begin.now state.old state.new)
        (HaltsServing (B.done begin.now) (B.stopped begin.now) state.old state.new) }
{
    let gates = vec![in alloc; Open; workers.len()]?;
    front.serve_generation(rt, alloc, log, workers, gates, is_last, begin, state)
}

/// Serves a log with these workers until every connection has ended, or until it is closed, which
/// the watch is notified of, and the next one is opened. That waits for the freeing of what earlier
/// logs have left, if it isn't over by then. Where none can follow, its workers go on to the end:
/// commands after its last place are answered `SERVER_ERROR log full`.
///
/// Returns the errors of `serve_part`.
fn serve_log<'a, R: Threads + Wait + Clock + Sync, B: Begin<S>, S>(
    rt: &R,
    alloc: Global,
    turn_overs: &mut TurnOvers<'_>,
    front: &mut Front,
    log: &'a Log,
    workers: Vec<Worker<'a>>,
    is_last: bool,
    begin: &B,
    state: &mut S,
) -> Result<Served, Fault>
    requires workers { AreWorkersOf log.now.settings log.now workers.items }
    requires some { 0 < log.now.settings.workers }
    requires front { IsFrontOf log.now.settings front.old }
    ensures serves { IfOk result (λ served. (logs places : ℕ) (who : List InTurn)
        (tables : List TableState) → LogsWere log.entry.now.settings logs places who tables →
        AreServedBy who front.old →
        AreOpenedOver log.entry.now.settings log.entry.now tables workers.entry.items →
        ServesTo log.entry.now.settings is_last logs places front.new served) }
    ensures front { IfOk result (λ _. IsFrontOf log.entry.now.settings front.new) }
    // Once the next log is open no thread frees an earlier one.
    ensures freed { IfOk result (λ served. (used : ℕ) (next : Next) →
        served ≡ Served.Full used next → turn_overs.new.freeing ≡ None) }
    ensures outcome { MatchResult result (λ _. B.done begin.now state.old state.new)
        (HaltsServing (B.done begin.now) (B.stopped begin.now) state.old state.new) }
{
    let (workers, ended) = serve_part(rt, alloc, front, log, workers, is_last, begin, state)?;
    match ended {
        Ended::Done => return Ok(Served::Done(meet_and_close(alloc, log, workers)?)),
        Ended::Full => turn_overs.watch.note_close(rt),
    }
    // Only then, so that the time is part of the turn over's.
    turn_overs.await_freed(rt);
    let mut workers = workers;
    if let Some((used, next)) = next_log(alloc, log, &mut workers) {
        drop_workers(rt, workers);
        return Ok(Served::Full(used, next));
    }
    let (workers, _) = serve_part(rt, alloc, front, log, workers, true, &Unannounced, &mut ())?;
    Ok(Served::Done(meet_and_close(alloc, log, workers)?))
}

/// Opens the workers of a log, and serves it as `serve_log` does, while what the log before has left
/// is freed. What this one leaves is kept for when the next one is served.
///
/// Returns the errors of `serve_log`, and `Memory` if memory runs out.
fn serve_opened<R: Threads + Wait + Clock + Sync, B: Begin<S>, S>(
    rt: &R,
    alloc: Global,
    hashing: Hashing,
    turn_overs: &mut TurnOvers<'_>,
    front: &mut Front,
    opened: Opened,
    is_last: bool,
    begin: &B,
    state: &mut S,
) -> Result<Served, Fault>
    requires some { 0 < opened.log.settings.workers }
    requires front { IsFrontOf opened.log.settings front.old }
    ensures serves { IfOk result (λ served. (logs places : ℕ) (who : List InTurn) →
        LogsWere opened.log.settings logs places who (tables_over opened.log opened.base) →
        AreServedBy who front.old →
        ServesTo opened.log.settings is_last logs places front.new served) }
    ensures front { IfOk result (λ _. IsFrontOf opened.log.settings front.new) }
    ensures outcome { MatchResult result (λ _. B.done begin.now state.old state.new)
        (HaltsServing (B.done begin.now) (B.stopped begin.now) state.old state.new) }
{
    let Opened { log, passes, base } = opened;
    let workers = open_workers(rt, alloc, hashing, &log, passes, &base)?;
    turn_overs.free_closed(rt);
    turn_overs.watch.note_begin(rt);
    let served = serve_log(
        rt, alloc, turn_overs, front, &log, workers, is_last, begin, state,
    )?;
    turn_overs.closed = Some(Closed { log, base });
    Ok(served)
}

/// Serves the next log, as `serve_opened` does.
///
/// Returns `Memory` if memory runs out or a worker's loop doesn't begin, and `Input` if waiting for
/// connections fails.
fn serve_next<R: Threads + Wait + Clock + Sync>(
    rt: &R,
    alloc: Global,
    hashing: Hashing,
    turn_overs: &mut TurnOvers<'_>,
    front: &mut Front,
    next: Next,
    is_last: bool,
) -> Result<Served, Fault>
    requires next { IsNextLog next.log.settings next }
    requires some { 0 < next.log.settings.workers }
    requires front { IsFrontOf next.log.settings front.old }
    ensures serves { IfOk result (λ served. (logs places : ℕ) (who : List InTurn) →
        LogsWere next.log.settings logs places who next.base.tables.items →
        AreServedBy who front.old →
        ServesTo next.log.settings is_last logs places front.new served) }
    ensures front { IfOk result (λ _. IsFrontOf next.log.settings front.new) }
    ensures faults { IfErr result IsNetworkFault }
{
    let opened = Opened::over(next);
    serve_opened(
        rt,
        alloc,
        hashing,
        turn_overs,
        front,
        opened,
        is_last,
        &Unannounced,
        &mut (),
    )
}

/// How many places of earlier logs are used in total at most before the last one begins, so that
/// the number of all that are used has 64 bits: four logs' places less than these can hold.
const MOST_PLACES: u64 = u64::MAX - 4_194_304;

/// Returns whether the log of this number, counted from 1, is the last one of `most` logs (0: no
/// end), or of as many as may have places. Of the logs before it `total` places were used.
fn is_last_log(most: u64, number: u64, total: u64) -> bool
    ensures last { result ≡ true → (0 < most) × (most ≤ number) ⊎ (MOST_PLACES < total) }
    ensures more { result ≡ false → (most ≡ 0) ⊎ (number < most) }
    ensures total { result ≡ false → total ≤ MOST_PLACES }
{
    (most > 0 && number >= most) || total > MOST_PLACES
}

/// Serves logs one after another at a front at which nobody has been served yet, `most` at most (0:
/// without an end), the first of which is this one. The watch is notified when each begins and when
/// one is closed before the last. Returns how many places were used in total.
///
/// Returns the errors of `serve_log`.
pub(crate) fn serve_logs<R: Threads + Wait + Clock + Sync, B: Begin<S>, S>(
    rt: &R,
    alloc: Global,
    hashing: Hashing,
    watch: &mut LogWatch,
    front: &mut Front,
    opened: Opened,
    most: u64,
    begin: &B,
    state: &mut S,
) -> Result<u64, Fault>
    requires empty { opened.base ≡ None }
    requires some { 0 < opened.log.settings.workers }
    requires places { opened.log.settings.places ≤ 1048576 }
    requires front { IsFrontOf opened.log.settings front.old }
    requires new { All (IsNewLoop (length opened.log.settings.tenants))
        front.old.event_loops.items }
    ensures served { IfOk result
        (λ number. WereServedAt opened.log.settings most number front.new) }
    ensures outcome { MatchResult result (λ _. B.done begin.now state.old state.new)
        (HaltsServing (B.done begin.now) (B.stopped begin.now) state.old state.new) }
{
    // The law from which it follows that all were answered, by what they asked for.
    mc_connections::laws::commands_answer_who_asked();
    let mut number = 1;
    let mut total = 0;
    let mut is_last = is_last_log(most, number, total);
    let mut turn_overs = TurnOvers {
        watch,
        closed: None,
        freeing: None,
    };
    let first = serve_opened(
        rt,
        alloc,
        hashing,
        &mut turn_overs,
        front,
        opened,
        is_last,
        begin,
        state,
    )?;
    let mut served = first;
    for _ in rt.forever() {
        let (used, next) = match served {
            Served::Done(last) => return Ok(total + last as u64),
            Served::Full(used, next) => (used, next),
        };
        number = number.saturating_add(1);
        total += used as u64;
        is_last = is_last_log(most, number, total);
        served = serve_next(rt, alloc, hashing, &mut turn_overs, front, next, is_last)?;
    }
    unreachable!()
}
