//! How a call fails, apart from the refusals that a client sees.
ghost use Rattle.std.specs.Prelude.{◌≡◌};
ghost use Rattle.mc_model.specs.declared.fault.Fault.TheVariants.{Memory};

use std::alloc::{AllocError, AllocFailed};
use thiserror::Error;

/// How a call fails. A call's clauses name the variants that it can return and the state each
/// leaves.
#[derive(Clone, Copy, Debug, PartialEq, Eq, Error)]
pub enum Fault {
    /// An allocation failed, or a worker's event loop didn't begin in time.
    #[error("out of memory")]
    Memory,
    /// The log has no place left for the command.
    #[error("log full")]
    LogFull,
    /// The command's cell holds another value.
    #[error("cell taken")]
    Taken,
    /// The input failed during this call, or something else that the system was asked for: a poll,
    /// its waker, a listener's registration, the clock or random numbers.
    #[error("input failed")]
    Input,
    /// The output failed during this call.
    #[error("output failed")]
    Output,
    /// The event isn't enabled in the current state.
    #[error("event not enabled")]
    BadEvent,
    /// A setting is out of range.
    #[error("bad settings")]
    BadSettings,
}

impl From<AllocError> for Fault {
    ghost from_gives = { λ _ fault. fault ≡ Memory };

    fn from(_error: AllocError) -> Fault {
        Fault::Memory
    }
}

impl<T: Drop> From<AllocFailed<T>> for Fault {
    ghost from_gives = { λ _ fault. fault ≡ Memory };

    fn from(_error: AllocFailed<T>) -> Fault {
        Fault::Memory
    }
}
