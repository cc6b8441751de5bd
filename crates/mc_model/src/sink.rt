//! What takes data, one fragment after the other.
ghost use Rattle.std.specs.Io.{StartsWith};
ghost use Rattle.std.specs.Prelude.{◌≡◌, ℕ, List, ◌++◌, OnOk};

use crate::Data;
use std::alloc::AllocError;

/// What takes data at its end: blocks, which it may share instead of copying them, and bytes.
pub trait Sink {
    ghost taken: { Self → List ℕ };

    /// Takes a block. If an allocation fails, a part of it may have been taken.
    fn take_block(&mut self, block: &Data) -> Result<(), AllocError>
        ensures joined { OnOk result (taken self.new ≡ taken self.old ++ block.now) }
        ensures begun { StartsWith (taken self.new) (taken self.old) };

    /// Takes a few bytes. If an allocation fails, a part of them may have been taken.
    fn take_bytes(&mut self, bytes: &[u8]) -> Result<(), AllocError>
        ensures joined { OnOk result (taken self.new ≡ taken self.old ++ bytes.now) }
        ensures begun { StartsWith (taken self.new) (taken self.old) };
}
