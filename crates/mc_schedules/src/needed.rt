//! What a worker needs to do for the command that it announced.
ghost use Rattle.std.specs.Prelude.{◌≡◌};
ghost use Rattle.mc_schedules.specs.Needed.{needed, needed_at};
ghost use Rattle.uc_core.specs.Run.{IsReachedCore};

use mc_model::{Phase, WorkerId};
use uc_core::{Core, Event, Progress};

/// Returns the event that the worker with this number needs next, if there is such a worker and it
/// needs anything.
pub fn needed(core: &Core, number: u8) -> Option<Event>
    ensures event { result ≡ needed core.now number }

    // Some run has led to each core.
    ensures reached { IsReachedCore core.now }
{
    let places = core.places();
    if usize::from(number) >= core.workers() {
        return None;
    }
    let worker = WorkerId::new(number).unwrap();
    match core.progress(worker) {
        Some(progress) => needed_at(places, number, &progress),
        None => None,
    }
}

/// Returns the same for a worker with this progress, of a log with this many places.
fn needed_at(places: u64, number: u8, worker: &Progress) -> Option<Event>
    ensures { result ≡ needed_at places number worker.now worker.now.phase }
{
    match worker.phase {
        Phase::Pending => Some(if worker.mark.is_none() && worker.learned < places {
            Event::Read(number)
        } else {
            Event::Look(number)
        }),
        Phase::Looked => Some(Event::Propose(number)),
        Phase::Idle if worker.replayed < worker.learned => Some(Event::Replay(number)),
        Phase::Idle | Phase::Stopped => None,
    }
}
