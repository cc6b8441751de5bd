//! Why a loop ends early.
ghost use Rattle.std.specs.Prelude.{◌≡◌};
ghost use Rattle.mc_net.specs.Halting.{fault_of_halt};
ghost use Rattle.mc_net.specs.declared.halt.Halt.TheVariants.{Memory};

use mc_model::Fault;
use std::alloc::{AllocError, AllocFailed};

/// Why a loop ends early.
#[derive(Clone, Copy, Debug, PartialEq, Eq)]
pub enum Halt {
    /// Memory ran out outside a connection, or a worker's loop didn't begin in time.
    Memory,
    /// A poll or its waker couldn't be made or failed, or a listener couldn't be registered.
    Poll,
    /// Another loop has ended early.
    Elsewhere,
}

impl From<AllocError> for Halt {
    ghost from_gives = { λ _ halt. halt ≡ Memory };

    fn from(_error: AllocError) -> Halt {
        Halt::Memory
    }
}

impl<T: Drop> From<AllocFailed<T>> for Halt {
    ghost from_gives = { λ _ halt. halt ≡ Memory };

    fn from(_error: AllocFailed<T>) -> Halt {
        Halt::Memory
    }
}

impl From<Halt> for Fault {
    ghost from_gives = { λ halt fault. fault ≡ fault_of_halt halt };

    fn from(halt: Halt) -> Fault {
        match halt {
            Halt::Memory => Fault::Memory,
            Halt::Poll | Halt::Elsewhere => Fault::Input,
        }
    }
}
