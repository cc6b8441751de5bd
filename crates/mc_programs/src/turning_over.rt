//! What opens the log that follows a full one.
ghost use Rattle.std.specs.Prelude.{◌≡◌, ⊤, None, IfSome};
ghost use Rattle.mc_model.specs.Replay.{EachStands, HaveRoom};
ghost use Rattle.mc_programs.specs.Generations.{IsForOne, IsNextForOne};
ghost use Rattle.uc_cells.specs.Sighting.{entries};
ghost use Rattle.uc_worker.specs.declared.worker.Worker.{Worker};
ghost use Rattle.uc_worker.specs.Worker.{HasReplayedAll, history_of, openings_of, tables_of};

use std::alloc::Global;
use uc_log::Log;
use uc_worker::{Next, Worker, turn_over_alone};

/// What turns over the log of a worker alone: the log is closed, and the next one is opened.
///
/// Code that is generic over it can claim that memory was refused only if it asked.
pub trait TurnOver {
    /// Memory was refused when the log of this worker was to be followed by one with its settings.
    ghost refused: { Worker → Type 0 };

    /// Opens a log with the settings of this one, over copies of the tables of its only worker,
    /// which has replayed all of it.
    ///
    /// Returns `None` if memory runs out.
    fn turn_over(&self, alloc: Global, log: &Log, worker: &Worker<'_>) -> Option<Next>
        requires alone { IsForOne log.now }
        requires log { worker.now.log.now ≡ log.now }
        requires done { HasReplayedAll worker.now }
        requires room { HaveRoom (tables_of worker.now) log.now.settings.places }
        ensures ready { IfSome result IsNextForOne }
        ensures settings { IfSome result (λ next. next.log.settings ≡ log.now.settings) }
        ensures stands { IfSome result (λ next.
            EachStands (openings_of worker.now) (entries (history_of worker.now))
            next.base.tables.items) }
        ensures refused { result ≡ None → refused worker.now };
}

/// Turns over as `turn_over_alone` does.
#[derive(Clone, Copy, Debug)]
pub struct TurnOverAlone;

impl TurnOver for TurnOverAlone {
    ghost refused = { λ _. ⊤ };

    fn turn_over(&self, alloc: Global, log: &Log, worker: &Worker<'_>) -> Option<Next> {
        turn_over_alone(alloc, worker, log.settings()).ok()
    }
}
