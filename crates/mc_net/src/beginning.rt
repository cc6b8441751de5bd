//! What is done when all loops have begun.
ghost use Rattle.std.specs.Prelude.{MatchResult};
ghost use Rattle.mc_model.specs.declared.fault.Fault.{Fault};

use mc_model::Fault;
use std::sync::Wait;

/// Does something with a state when every worker's loop has begun, before the first stream is
/// accepted: a program says there that it is ready.
pub trait Begin<O> {
    /// What the state has become afterwards.
    ghost done: { Self → O → O → Type 0 };

    /// What the state has become if it stopped with a fault.
    ghost stopped: { Self → O → O → Fault → Type 0 };

    /// Does it, and returns the fault that stopped it, if one did. All loops end then.
    fn begin<R: Wait>(&self, rt: &R, state: &mut O) -> Result<(), Fault>
        ensures { MatchResult result (λ _. done self.now state.old state.new)
            (stopped self.now state.old state.new) };
}
