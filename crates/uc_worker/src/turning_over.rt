//! Closing a log whose workers have replayed the same number of its places, and opening a new one
//! over their tables.
ghost use Rattle.std.specs.List.{AllZip};
ghost use Rattle.std.specs.Prelude.{◌≡◌, ◌↔◌, ◌<◌, ◌∷◌, ℕ, All, List, Some, [], length, slice_get, IfOk, IsOkUnless, IsTrue, OnOk};
ghost use Rattle.mc_model.specs.declared.fault.Fault.TheVariants as faults;
ghost use Rattle.mc_model.specs.Replay.{EachStands, HaveRoom};
ghost use Rattle.uc_cells.specs.Sighting.{entries};
ghost use Rattle.uc_log.specs.Passes.{IsNew, IsUnusedPass};
ghost use Rattle.uc_worker.specs.AllWorkers.{AreOnOneRun};
ghost use Rattle.uc_worker.specs.Going.{CatchesUp};
ghost use Rattle.uc_worker.specs.Steps.{HasReadOn};
ghost use Rattle.uc_worker.specs.TurningOver.{AllCanTurnOver, CanMeetAll, HaveOneHistory, IsAsBefore};
ghost use Rattle.uc_worker.specs.Worker.{IsUpToDate, history_of, openings_of, seat_of, tables_of};

use crate::all_workers::find_one_run;
use crate::gate::Open;
use crate::worker::Worker;
use mc_items::Items;
use mc_items::tables::{copies_of, have_room};
use mc_model::{Fault, Settings};
use mc_replica::laws::a_log_leaves_one_list_of_tables;
use std::alloc::Global;
use std::slice;
use uc_log::{Log, Pass};

/// The tables of all tenants as a closed log has left them, indexed by tenant number.
#[derive(Drop)]
pub struct Base {
    pub(crate) tables: Vec<Items>,
}

impl Base {
    /// Returns each tenant's table, indexed by tenant number.
    pub fn tables(&self) -> &[Items]
        ensures { result.now ≡ self.now.tables.items }
    {
        self.tables.as_slice()
    }

    /// Returns whether in each of the tables this many more changes can get uniques of 64 bits.
    pub fn has_room(&self, places: u64) -> bool
        ensures { IsTrue result ↔ HaveRoom self.now.tables.items places }
    {
        have_room(&self.tables, places)
    }
}

/// A log on which nothing has been done, its passes by the workers' numbers, and the tables that
/// its workers are to be opened over.
#[derive(Drop)]
pub struct Next {
    pub log: Log,
    pub passes: Vec<Pass>,
    pub base: Base,
}

/// Lets each of these workers catch up, one after another. If no other does anything meanwhile, all
/// have replayed the same number of places then.
///
/// Returns `Memory` if memory runs out: each worker may have caught up with some of the log then.
pub fn catch_up_all(workers: &mut [Worker<'_>]) -> Result<(), Fault>
    ensures catches { AllZip CatchesUp workers.old workers.new }
    // Each has read on as far as `Worker::catch_up` does, when it was its turn.
    ensures read { OnOk result (All (λ worker. HasReadOn (seat_of worker)) workers.new) }
    ensures all { OnOk result (All IsUpToDate workers.new) }
    ensures memory { IsOkUnless result faults.Memory }
{
    for number in 0..workers.len() {
        workers[number].catch_up(&mut Open)?;
    }
    Ok(())
}

/// Lets two workers meet that have replayed the same number of places, and all that they have
/// learned: neither learns anything.
fn meet_done<'a>(one: &mut Worker<'a>, other: &mut Worker<'a>) -> Result<(), Fault>
    requires log { one.old.log.now ≡ other.old.log.now }
    requires up_to_date { IsUpToDate one.old × IsUpToDate other.old }
    requires equal { length (history_of one.old) ≡ length (history_of other.old) }
    ensures before { IsAsBefore one.old one.new × IsAsBefore other.old other.new }
    ensures same { OnOk result (history_of one.new ≡ history_of other.new) }
    ensures memory { IsOkUnless result faults.Memory }
{
    a_log_leaves_one_list_of_tables();
    // What their tables stand for, before and after.
    let _ = one.replica.history();
    let _ = other.replica.history();
    let met = one.meet(other);
    let _ = one.replica.history();
    let _ = other.replica.history();
    met
}

/// Lets a worker meet the others one by one, all of which have replayed as many places as it has.
fn meet_all<'a>(worker: &mut Worker<'a>, others: &mut [Worker<'a>]) -> Result<(), Fault>
    requires { CanMeetAll worker.old others.old }
    ensures before { IsAsBefore worker.old worker.new × AllZip IsAsBefore others.old others.new }
    ensures same { OnOk result
        (All (λ other. history_of other ≡ history_of worker.old) others.old) }
    ensures memory { IsOkUnless result faults.Memory }
{
    for number in 0..others.len() {
        meet_done(worker, &mut others[number])?;
    }
    Ok(())
}

/// What can meet others of its kind. Generic code over it may split a slice of workers in two,
/// which isn't proved for a type with a lifetime.
trait Meets: Sized {
    /// The first can meet these.
    ghost can_meet: { Self → List Self → Type 0 };

    /// The second is the first, as it was before.
    ghost stays: { Self → Self → Type 0 };

    /// Both know the same.
    ghost agrees: { Self → Self → Type 0 };

    /// All that these know lies on one run.
    ghost on_one_run: { List Self → Type 0 };

    fn meet_others(&mut self, others: &mut [Self]) -> Result<(), Fault>
        requires { can_meet self.old others.old }
        ensures before { stays self.old self.new × AllZip stays others.old others.new }
        ensures same { OnOk result (All (λ other. agrees other self.old) others.old) }
        ensures run { OnOk result (on_one_run (self.new ∷ others.new)) }
        ensures memory { IsOkUnless result faults.Memory };
}

impl Meets for Worker<'_> {
    ghost can_meet = { CanMeetAll };

    ghost stays = { IsAsBefore };

    ghost agrees = { λ other one. history_of other ≡ history_of one };

    ghost on_one_run = { AreOnOneRun };

    fn meet_others(&mut self, others: &mut [Self]) -> Result<(), Fault> {
        meet_all(self, others)?;
        find_one_run(self, others);
        Ok(())
    }
}

/// Lets the first of a list meet all others.
fn meet_first<W: Meets>(all: &mut [W]) -> Result<(), Fault>
    requires some { 0 < length all.old }
    requires can_meet { (first : W) (others : List W) → all.old ≡ first ∷ others →
        W.can_meet first others }
    ensures before { AllZip W.stays all.old all.new }
    ensures same { OnOk result ((first : W) (others : List W) → all.old ≡ first ∷ others →
        All (λ other. W.agrees other first) others) }
    ensures run { OnOk result (W.on_one_run all.new) }
    ensures memory { IsOkUnless result faults.Memory }
{
    let Some((first, others)) = all.split_first_mut() else {
        unreachable!()
    };
    first.meet_others(others)
}

/// Returns copies of the tables of the first worker. Returns `Memory` if memory runs out.
fn base_of(alloc: Global, workers: &[Worker<'_>]) -> Result<Base, Fault>
    requires { 0 < length workers.now }
    ensures tables { IfOk result (λ base. (first : _) → slice_get workers.now 0 ≡ Some first →
        base.tables.items ≡ tables_of first) }
    ensures stands { IfOk result (λ base. (first : _) → slice_get workers.now 0 ≡ Some first →
        EachStands (openings_of first) (entries (history_of first)) base.tables.items) }
    ensures memory { IsOkUnless result faults.Memory }
{
    let Some(first) = workers.first() else {
        unreachable!()
    };
    // What its tables stand for.
    let _ = first.replica.history();
    Ok(Base {
        tables: copies_of(alloc, first.replica.tables())?,
    })
}

/// Opens a new log with these settings, over copies of the tables of the workers of a log that is
/// closed: they have replayed the same number of its places, and all that they have learned.
///
/// The workers meet first, so that each command that one of them has answered stands in the history
/// of all, and its effect in the tables that the new log begins with. One that is left out could
/// still announce where places are left, and the new log wouldn't know. The quotas there are those
/// of the tables; the settings only say how many tenants there are.
///
/// Returns `Memory` if memory runs out. In either case each worker's log, opening tables, history
/// and tables are what they were, and it has learned and announced nothing.
pub fn turn_over(
    alloc: Global,
    workers: &mut [Worker<'_>],
    settings: &Settings,
) -> Result<Next, Fault>
    requires { AllCanTurnOver settings.now workers.old }
    // Whatever comes of it, log, history and tables of each worker are what they were.
    ensures before { AllZip IsAsBefore workers.old workers.new }
    // All have replayed the same, so what one of them has answered stands in the log that is
    // closed.
    ensures same { OnOk result (HaveOneHistory workers.new) }
    // One run of the log that is closed, from its opening, has all calls of these workers' seats,
    // in order, and no other events of theirs.
    ensures run { OnOk result (AreOnOneRun workers.new) }
    // The new log begins with the tables that the workers have,
    ensures base { IfOk result (λ next. (first : _) → slice_get workers.old 0 ≡ Some first →
        next.base.tables.items ≡ tables_of first) }
    // each of which is the one that the closed log was opened over, after its tenant's own commands
    // in the workers' history.
    ensures stands { IfOk result (λ next. (first : _) → slice_get workers.old 0 ≡ Some first →
        EachStands (openings_of first) (entries (history_of first)) next.base.tables.items) }
    ensures room { IfOk result (λ next. HaveRoom next.base.tables.items settings.now.places) }
    ensures tenants { IfOk result
        (λ next. length next.base.tables.items ≡ length settings.now.tenants) }
    ensures settings { IfOk result (λ next. next.log.settings ≡ settings.now) }
    ensures count { IfOk result (λ next. length next.passes.items ≡ settings.now.workers) }
    ensures passes { IfOk result (λ next. (number : ℕ) (pass : _) →
        slice_get next.passes.items number ≡ Some pass → IsNew next.log number pass) }
    ensures unused { IfOk result (λ next. (number : ℕ) (pass : _) →
        slice_get next.passes.items number ≡ Some pass → IsUnusedPass next.log pass) }
    ensures memory { IsOkUnless result faults.Memory }
{
    meet_first(workers)?;
    let base = base_of(alloc, workers)?;
    let (log, passes) = Log::open(alloc, settings)?;
    Ok(Next { log, passes, base })
}

/// Opens a new log as `turn_over` does, over copies of the tables of the only worker of a log that
/// is closed. It has nobody to meet.
///
/// Returns `Memory` if memory runs out.
pub fn turn_over_alone(
    alloc: Global,
    worker: &Worker<'_>,
    settings: &Settings,
) -> Result<Next, Fault>
    requires alone { worker.now.log.now.settings.workers ≡ 1 }
    requires ready { AllCanTurnOver settings.now (worker.now ∷ []) }
    // The new log begins with the worker's tables, each of which is the one that the closed log was
    // opened over, after its tenant's own commands in the worker's history.
    ensures base { IfOk result (λ next. next.base.tables.items ≡ tables_of worker.now) }
    ensures stands { IfOk result (λ next. EachStands (openings_of worker.now)
        (entries (history_of worker.now)) next.base.tables.items) }
    ensures room { IfOk result (λ next. HaveRoom next.base.tables.items settings.now.places) }
    ensures tenants { IfOk result
        (λ next. length next.base.tables.items ≡ length settings.now.tenants) }
    ensures settings { IfOk result (λ next. next.log.settings ≡ settings.now) }
    ensures count { IfOk result (λ next. length next.passes.items ≡ settings.now.workers) }
    ensures passes { IfOk result (λ next. (number : ℕ) (pass : _) →
        slice_get next.passes.items number ≡ Some pass → IsNew next.log number pass) }
    ensures unused { IfOk result (λ next. (number : ℕ) (pass : _) →
        slice_get next.passes.items number ≡ Some pass → IsUnusedPass next.log pass) }
    ensures memory { IsOkUnless result faults.Memory }
{
    let base = base_of(alloc, slice::from_ref(worker))?;
    let opened = Log::open(alloc, settings)?;
    Ok(Next {
        log: opened.0,
        passes: opened.1,
        base,
    })
}
