//! What follows from the definitions. A law is the contract of a function with an empty body.
ghost use Rattle.std.specs.Prelude.{◌≡◌, ◌⊎◌, ◌↔◌, ℕ, ◌+◌, ◌*◌, ◌<◌, ◌≤◌, length, refl};
ghost use Rattle.std.proofs.Common.{◌∙◌};
ghost use Rattle.lists.proofs.Public.{begins_self, begins_through};
ghost use Rattle.mc_model.specs.declared.fault.Fault.{Fault};
ghost use Rattle.mc_model.specs.declared.fault.Fault.TheVariants.{LogFull, Memory, Taken};
ghost use Rattle.mc_model.specs.Legal.{count};
ghost use Rattle.uc_places.specs.declared.desk.Desk.{Desk};
ghost use Rattle.uc_places.specs.declared.view.View.{View};
ghost use Rattle.uc_places.specs.Calls.{calls_of, desk_size, state_of};
ghost use Rattle.uc_places.specs.Reached.{LastIsReached};
ghost use Rattle.uc_places.specs.SeatLaw.{SeatLaw};
ghost use Rattle.uc_worker.specs.Counting.{LooksOn, TakesFew};
ghost use Rattle.uc_worker.specs.Going.{CatchesUp, Continues};
ghost use Rattle.uc_worker.specs.Steps.{HasReadOn, Leaves};
ghost use Rattle.uc_worker.specs.Worker.{HasReplayedAll, IsClosing, IsUpToDate, announced_of, history_of, seat_of};
ghost use Rattle.uc_worker.specs.declared.worker.Worker.{Worker};

use crate::worker::Worker;

/// `Continues` is reflexive and transitive: what the proofs of other crates cite.
pub trait GoesOn {
    ghost continues_self: { (worker : Worker) → Continues worker worker };

    ghost continues_through: { (first second third : Worker) → Continues first second →
        Continues second third → Continues first third };
}

impl<'a> GoesOn for Worker<'a> {
    ghost continues_self = { λ worker. record {
      log = refl;
      openings = refl;
      same = (refl, refl);
      history = begins_self (history_of worker);
      announced = begins_self (announced_of worker);
      learned = begins_self (seat_of worker).state.learned;
    } };

    ghost continues_through = { λ first second third one two. record {
      log = two.log ∙ one.log;
      openings = two.openings ∙ one.openings;
      same = (two.same.0 ∙ one.same.0, two.same.1 ∙ one.same.1);
      history = begins_through (history_of third) (history_of second) (history_of first)
          two.history one.history;
      announced = begins_through (announced_of third) (announced_of second) (announced_of first)
          two.announced one.announced;
      learned = begins_through (seat_of third).state.learned (seat_of second).state.learned
          (seat_of first).state.learned two.learned one.learned;
    } };
}

/// `Continues` and `CatchesUp` are reflexive and transitive.
pub fn workers_go_on()
    ensures same { (worker : Worker) → Continues worker worker }
    ensures through { (first second third : Worker) → Continues first second →
        Continues second third → Continues first third }
    ensures quietly { (worker : Worker) → CatchesUp worker worker }
    ensures quietly_through { (first second third : Worker) → CatchesUp first second →
        CatchesUp second third → CatchesUp first third }
{}

/// A log of one worker closes with its last place: none is kept free for others.
pub fn a_log_of_one_worker_closes_at_its_end()
    ensures { (worker : Worker) → (seat_of worker).size.workers ≡ 1 →
        IsClosing worker → IsUpToDate worker → HasReplayedAll worker }
{}

/// Whoever announces a command only while its log isn't closing leaves as many places as there are
/// workers after those that it has learned, as the law of the last places has it; and a log doesn't
/// close before.
pub fn a_log_closes_where_fewer_places_are_left()
    ensures leaves { (worker : Worker) →
        (seat_of worker).size.workers ≤ (seat_of worker).size.places → ¬ (IsClosing worker) →
        length (seat_of worker).state.learned + (seat_of worker).size.workers
        ≤ (seat_of worker).size.places }
    ensures closes { (worker : Worker) →
        (seat_of worker).size.workers ≤ (seat_of worker).size.places → IsClosing worker →
        (seat_of worker).size.places
        < length (seat_of worker).state.learned + (seat_of worker).size.workers }
{}

/// A log with fewer places than workers is used up to its last place, however many workers there
/// are: it closes just when a worker has learned all places.
pub fn a_log_with_few_places_closes_at_its_end()
    ensures { (worker : Worker) → (seat_of worker).size.places < (seat_of worker).size.workers →
        (IsClosing worker ↔ (seat_of worker).size.places ≤ length (seat_of worker).state.learned) }
{}

/// What a worker takes in one call after another adds up; and who takes no event looks on only where
/// all places are learned.
pub fn events_add_up()
    ensures none { (desk : Desk) → TakesFew 0 desk desk }
    ensures through { (few more : ℕ) (first second third : Desk) → TakesFew few first second →
        TakesFew more second third → TakesFew (few + more) first third }
    ensures looks { (desk : Desk) → LooksOn desk desk →
        length (state_of desk).learned ≡ (desk_size desk).places }
{}

/// What a worker takes shows at its seat, which keeps all its calls: from one moment to another it
/// has at most two calls more for each place that it learns, and `more` besides.
pub fn few_events_are_few_calls()
    ensures { (more : ℕ) (old new : Desk) → TakesFew more old new →
        length (calls_of new) + 2 * length (state_of old).learned
        ≤ length (calls_of old) + 2 * length (state_of new).learned + more }
{}

/// A worker that has read on has learned as many places as were decided after its last event.
pub fn who_has_read_on_has_learned_the_log()
    ensures { (view : View) → LastIsReached view → HasReadOn view →
        length view.last.decided ≡ length view.state.learned }
{}

/// What a fault leaves, by what the worker has learned. If memory ran out or the cell was taken,
/// all its commands are among that, and at the latter the call has announced none. If the log is
/// full, the call's command isn't.
pub fn faults_leave_nothing_open()
    ensures settled { (fault : Fault) (old new : View) → Leaves fault old new →
        SeatLaw new.size new.worker new.state → (fault ≡ Memory) ⊎ (fault ≡ Taken) →
        count new.worker new.state.learned ≡ new.state.announced }
    ensures taken { (old new : View) → Leaves Taken old new →
        new.state.announced ≡ old.state.announced }
    ensures full { (old new : View) → Leaves LogFull old new →
        SeatLaw new.size new.worker new.state →
        new.state.announced ≡ old.state.announced + 1 →
        count new.worker new.state.learned + 1 ≡ new.state.announced }
{}
