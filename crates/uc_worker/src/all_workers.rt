//! All workers of a log find one run of it that has all that they have done.
ghost use Rattle.std.specs.List.{AllZip};
ghost use Rattle.std.specs.Prelude.{◌≡◌, ◌<◌, ◌∷◌, All, List, [], length};
ghost use Rattle.lists.specs.Lists.{BeginsWith};
ghost use Rattle.uc_places.specs.Calls.{WitnessWith, Witnesses};
ghost use Rattle.uc_places.specs.Run.{witnessed_by};
ghost use Rattle.uc_worker.specs.AllWorkers.{AreOfItsLog, AreOfLog, AreOnOneRun, TakesNoStep, WasSo, own_part};
ghost use Rattle.uc_worker.specs.Going.{CatchesUp};
ghost use Rattle.uc_worker.specs.TurningOver.{IsAsBefore};
ghost use Rattle.uc_worker.specs.Worker.{own_desk, seat_of};

use crate::worker::Worker;
use uc_log::Log;
use uc_places::laws::a_worker_stays_between_two_moments;

impl<'a> Worker<'a> {
    /// Keeps the run of the log up to now.
    fn witness(&mut self)
        ensures run { Witnesses (own_desk self.old) (own_desk self.new) (own_part self.old ∷ []) }
        ensures still { TakesNoStep self.old self.new }
    {
        self.log.witness(&mut self.pass);
    }

    /// Keeps the run of the log up to now, which has all that both workers have done.
    fn witness_with(&mut self, other: &mut Worker<'a>)
        requires { self.old.log.now ≡ other.old.log.now }
        ensures run { WitnessWith (own_desk self.old) (own_desk other.old) (own_desk self.new)
            (own_desk other.new) }
        ensures still { TakesNoStep self.old self.new × TakesNoStep other.old other.new }
    {
        self.log.witness_with(&mut self.pass, &mut other.pass);
    }
}

/// Lets a worker keep the run together with each of the others in turn.
fn witness_each<'a>(worker: &mut Worker<'a>, others: &mut [Worker<'a>])
    requires { All (λ other. other.log.now ≡ worker.old.log.now) others.old }
    ensures worker { TakesNoStep worker.old worker.new }
    ensures others { AllZip TakesNoStep others.old others.new }
    ensures goes_on { BeginsWith (witnessed_by (seat_of worker.new))
        (witnessed_by (seat_of worker.old)) }
    ensures each { All (λ other. WasSo (own_part worker.old).size
        (witnessed_by (seat_of worker.old)) (witnessed_by (seat_of worker.new)) (own_part other))
        others.old }
{
    for number in 0..others.len() {
        worker.witness_with(&mut others[number]);
    }
}

/// Lets a worker and others of its log find one run that has all that they have done.
///
/// None of them has done anything between the two moments at which the worker keeps the run with
/// it. So the run that the worker keeps after the first round has the same calls of each.
pub(crate) fn find_one_run<'a>(worker: &mut Worker<'a>, others: &mut [Worker<'a>])
    requires { All (λ other. other.log.now ≡ worker.old.log.now) others.old }
    ensures worker { TakesNoStep worker.old worker.new }
    ensures others { AllZip TakesNoStep others.old others.new }
    ensures run { AreOnOneRun (worker.new ∷ others.new) }
{
    a_worker_stays_between_two_moments();
    witness_each(worker, others);
    worker.witness();
    witness_each(worker, others);
}

/// What can find one run with others of its kind. Generic code over it may split a slice of workers
/// in two, which isn't proved for a type with a lifetime.
trait FindsRun: Sized {
    /// The first is of one log with these.
    ghost is_of_one_log: { Self → List Self → Type 0 };

    /// The second is the first, which has taken no step.
    ghost stays: { Self → Self → Type 0 };

    /// All that these have done lies on one run.
    ghost on_one_run: { List Self → Type 0 };

    fn find_run_with(&mut self, others: &mut [Self])
        requires { is_of_one_log self.old others.old }
        ensures still { stays self.old self.new × AllZip stays others.old others.new }
        ensures run { on_one_run (self.new ∷ others.new) };
}

impl FindsRun for Worker<'_> {
    ghost is_of_one_log = { AreOfItsLog };

    ghost stays = { TakesNoStep };

    ghost on_one_run = { AreOnOneRun };

    fn find_run_with(&mut self, others: &mut [Self]) {
        find_one_run(self, others);
    }
}

/// Lets the first of a list find one run with all others.
fn find_run_of_first<W: FindsRun>(all: &mut [W])
    requires some { 0 < length all.old }
    requires of { (first : W) (others : List W) → all.old ≡ first ∷ others →
        W.is_of_one_log first others }
    ensures still { AllZip W.stays all.old all.new }
    ensures run { W.on_one_run all.new }
{
    let Some((first, others)) = all.split_first_mut() else {
        unreachable!()
    };
    first.find_run_with(others);
}

/// Lets all workers of a log find one run of it that has all that they have done. None of them
/// takes a step.
pub fn find_run_of_all(log: &Log, workers: &mut [Worker<'_>])
    requires { AreOfLog log.now workers.old }
    ensures still { AllZip TakesNoStep workers.old workers.new }
    ensures before { AllZip IsAsBefore workers.old workers.new }
    ensures later { AllZip CatchesUp workers.old workers.new }
    // One run of the log, from its opening, has all calls of these workers' seats, in order, and no
    // other events of theirs.
    ensures run { AreOnOneRun workers.new }
{
    if workers.is_empty() {
        return;
    }
    find_run_of_first(workers);
}
