//! The workers of wfmc, before and after they serve.
ghost use Rattle.std.specs.List.{AllZip};
ghost use Rattle.std.specs.Prelude.{◌≡◌, [], All, IfOk, IsOkUnless, MatchResult, Ok, length, map, slice_get, Some, ℕ};
ghost use Rattle.mc_model.specs.declared.fault.Fault.TheVariants as faults;
ghost use Rattle.mc_server.specs.Crew.{AgreesWith, AreWorkersOf, MeetAndClose, MeetsAnother};
ghost use Rattle.mc_server.specs.Logs.{AreOpenedOver, FitsOver, OpensOver, tables_over};
ghost use Rattle.uc_worker.specs.Going.{CatchesUp};
ghost use Rattle.uc_worker.specs.declared.worker.Worker.{Worker};
ghost use Rattle.uc_worker.specs.Worker.{IsUpToDate, history_of, openings_of, seat_of};
ghost use Rattle.uc_log.specs.Passes.{IsNew, IsUnusedPass, seat};
ghost use Rattle.uc_worker.specs.AllWorkers.{AreOfLog};

use mc_model::Fault;
use std::alloc::Global;
use std::thread;
use std::thread::Threads;
use uc_log::{Log, Pass};
use uc_worker::all_workers::find_run_of_all;
use uc_worker::{Base, Hashing, Open, Worker};

/// The log that workers are opened on, and the base that they are opened over, if there is one.
#[derive(Clone, Copy)]
struct Below<'a> {
    log: &'a Log,
    base: &'a Option<Base>,
}

impl<'a> Below<'a> {
    /// Opens a worker with this pass of the log: over the tables of the base if there is one, and
    /// with empty tables otherwise.
    ///
    /// Returns `Memory` if memory runs out.
    fn open_worker(&self, alloc: Global, hashing: Hashing, pass: Pass) -> Result<Worker<'a>, Fault>
        requires unused { IsUnusedPass self.now.log.now pass }
        requires base { FitsOver self.now.log.now self.now.base.now }
        ensures log { IfOk result (λ worker. worker.log.now ≡ self.now.log.now) }
        ensures seat { IfOk result (λ worker. seat_of worker ≡ seat pass) }
        ensures history { IfOk result (λ worker. history_of worker ≡ []) }
        ensures openings { IfOk result
            (λ worker. openings_of worker ≡ tables_over self.now.log.now self.now.base.now) }
        ensures memory { IsOkUnless result faults.Memory }
    {
        match self.base {
            Some(base) => Worker::open_over(alloc, self.log, pass, base),
            None => Worker::open(alloc, hashing, self.log, pass),
        }
    }
}

/// Returns the workers in order, if each was opened.
///
/// Returns `Memory` if one wasn't, or memory runs out.
fn all_opened<'a>(
    alloc: Global,
    opened: Vec<Result<Worker<'a>, Fault>>,
) -> Result<Vec<Worker<'a>>, Fault>
    requires faults { All (λ one. IsOkUnless one faults.Memory) opened.items }
    ensures outcome { MatchResult result
        (λ workers. opened.entry.items ≡ map (λ (worker : Worker). Ok worker) workers.items)
        (λ fault. fault ≡ faults.Memory) }
{
    let mut workers = Vec::with_capacity(alloc, opened.len())?;
    for one in opened {
        workers.push(one?)?;
    }
    Ok(workers)
}

/// Returns a worker for each pass of the log, in the passes' order: over the tables of the base if
/// there is one, and with empty tables otherwise. They are opened side by side, since each
/// allocates its history and marks, in threads of their own where these can be made.
///
/// Returns `Memory` if memory runs out.
pub(crate) fn open_workers<'a, R: Threads + Sync>(
    rt: &R,
    alloc: Global,
    hashing: Hashing,
    log: &'a Log,
    passes: Vec<Pass>,
    base: &'a Option<Base>,
) -> Result<Vec<Worker<'a>>, Fault>
    requires passes { (number : ℕ) (pass : _) → slice_get passes.items number ≡ Some pass
        → IsNew log.now number pass }
    requires unused { (number : ℕ) (pass : _) → slice_get passes.items number ≡ Some pass
        → IsUnusedPass log.now pass }
    requires count { length passes.items ≡ log.now.settings.workers }
    requires base { FitsOver log.now base.now }
    ensures outcome { MatchResult result
        (λ workers. AreOpenedOver log.now.settings log.now (tables_over log.now base.now)
        workers.items)
        (λ fault. fault ≡ faults.Memory) }
{
    let below = Below { log, base };
    let opened = thread::map_vec(
        rt,
        passes,
        &|pass: Pass| -> Result<Worker<'_>, Fault>
            requires { IsUnusedPass below.log.now pass × FitsOver below.log.now below.base.now }
            ensures { OpensOver below.entry.log.now
                (tables_over below.entry.log.now below.entry.base.now) pass result }
        { below.open_worker(alloc, hashing, pass) },
    )?;
    all_opened(alloc, opened)
}

/// Drops workers. They are dropped side by side, since each frees its tables and its history, in
/// threads of their own where these can be made.
pub(crate) fn drop_workers<R: Threads + Sync>(rt: &R, workers: Vec<Worker<'_>>) {
    // If memory runs out for that, those that are left are dropped all the same.
    let _ = thread::map_vec(rt, workers, &|worker: Worker<'_>| drop(worker));
}

/// Lets a worker meet the others, one after another, and returns those.
///
/// Returns `Memory` if memory runs out; some of them may not have met it then.
fn meet_others<'a>(
    alloc: Global,
    one: &mut Worker<'a>,
    others: Vec<Worker<'a>>,
) -> Result<Vec<Worker<'a>>, Fault>
    requires log { AreOfLog one.old.log.now others.items }
    requires whole { IsUpToDate one.old }
    ensures outcome { MatchResult result
        (λ met. AllZip (MeetsAnother one.old one.new) others.entry.items met.items
        × IsUpToDate one.new)
        (λ fault. fault ≡ faults.Memory) }
    ensures later { CatchesUp one.old one.new }
{
    let mut met = Vec::with_capacity(alloc, others.len())?;
    for other in others {
        let mut other = other;
        one.meet(&mut other)?;
        met.push(other)?;
    }
    Ok(met)
}

/// Lets a worker meet the others until it learns nothing more by that, so that all have the same
/// history. Returns the others.
///
/// Returns `Memory` if memory runs out; some of them may not have met it then.
fn meet_until_all_agree<'a>(
    alloc: Global,
    one: &mut Worker<'a>,
    others: Vec<Worker<'a>>,
) -> Result<Vec<Worker<'a>>, Fault>
    requires log { AreOfLog one.old.log.now others.items }
    requires whole { IsUpToDate one.old }
    ensures outcome { MatchResult result
        (λ met. AllZip (AgreesWith one.new) others.entry.items met.items × IsUpToDate one.new)
        (λ fault. fault ≡ faults.Memory) }
    ensures later { CatchesUp one.old one.new }
{
    let mut others = others;
    loop {
        let known = one.history().len();
        others = meet_others(alloc, one, others)?;
        if one.history().len() == known {
            return Ok(others);
        }
    }
}

/// Lets all workers of a log meet until none of them learns anything more by that, and so closes
/// the log: they have one history then, which has all that any of them had, and one run has all
/// that they have done. Returns the length of that history.
///
/// Returns `Memory` if memory runs out.
pub(crate) fn meet_and_close(
    alloc: Global,
    log: &Log,
    workers: Vec<Worker<'_>>,
) -> Result<usize, Fault>
    requires { AreWorkersOf log.now.settings log.now workers.items }
    ensures outcome { MatchResult result (MeetAndClose workers.entry.items)
        (λ fault. fault ≡ faults.Memory) }
{
    let mut others = workers;
    let Some(mut last) = others.pop() else {
        unreachable!()
    };
    last.catch_up(&mut Open)?;
    let mut workers = meet_until_all_agree(alloc, &mut last, others)?;
    let used = last.history().len();
    workers.push(last)?;
    find_run_of_all(log, &mut workers);
    Ok(used)
}
