//! The events of the core, and how a run of it ends early.
use mc_model::{Command, Fault};
use thiserror::Error;

/// One step of one worker. The first number is the worker's; an event with a worker or tenant that
/// doesn't exist isn't enabled.
#[derive(Debug, PartialEq, Eq, Drop)]
pub enum Event {
    /// The worker announces a command of a tenant.
    Announce(u8, u8, Command),
    /// The worker learns what stands at its next place, or finds it empty.
    Read(u8),
    /// The worker looks up whom to help at its next place.
    Look(u8),
    /// The worker proposes at its next place, and learns what then stands there.
    Propose(u8),
    /// The worker replays, on its own tables, the next place that it has learned.
    Replay(u8),
    /// The worker stops for good.
    Stop(u8),
}

impl Event {
    ghost use Rattle.std.specs.Prelude.{◌≡◌, ℕ, true, IfOk, IsOk, IsOkUnless};
    ghost use Rattle.uc_core.specs.Step.{actor, is_quiet};

    /// Returns the number of the worker that takes the event.
    pub fn actor(&self) -> u8
        ensures { result ≡ actor self.now }
    {
        match self {
            Event::Announce(worker, _, _)
            | Event::Read(worker)
            | Event::Look(worker)
            | Event::Propose(worker)
            | Event::Replay(worker)
            | Event::Stop(worker) => *worker,
        }
    }

    /// Returns a copy of the event. Returns `Memory` if an allocation fails.
    pub fn try_clone(&self) -> Result<Event, Fault>
        ensures event { IfOk result (λ event. event ≡ self.now) }
        ensures memory { IsOkUnless result Fault.Memory }
        // No event but an announcement needs memory.
        ensures quiet { is_quiet self.now ≡ true → IsOk result }
        ensures replay { (worker : ℕ) → self.now ≡ Event.Replay worker → IsOk result }
    {
        Ok(match self {
            Event::Announce(worker, tenant, command) => {
                Event::Announce(*worker, *tenant, command.try_clone()?)
            }
            Event::Read(worker) => Event::Read(*worker),
            Event::Look(worker) => Event::Look(*worker),
            Event::Propose(worker) => Event::Propose(*worker),
            Event::Replay(worker) => Event::Replay(*worker),
            Event::Stop(worker) => Event::Stop(*worker),
        })
    }
}

/// Why a run ended before its last event.
#[derive(Clone, Copy, Debug, PartialEq, Eq, Error)]
#[error("event {at}: {fault}")]
pub struct RunFault {
    /// The index of the event that met the fault.
    pub at: usize,
    /// The fault that it met.
    pub fault: Fault,
}
