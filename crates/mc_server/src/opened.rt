//! A log before it is served.
ghost use Rattle.std.specs.Prelude.{◌≡◌, ℕ, IfOk, IsOkUnless, None, Some, length, slice_get};
ghost use Rattle.mc_model.specs.declared.fault.Fault.TheVariants as faults;
ghost use Rattle.mc_server.specs.Logs.{FitsOver, FitsOver-prop, IsNextLog};
ghost use Rattle.std.proofs.Props.{props};
ghost use Rattle.uc_log.specs.Passes.{IsNew, IsUnusedPass};

use mc_model::{Fault, Settings};
use std::alloc::Global;
use uc_log::{Log, Pass};
use uc_worker::{Base, Next};

/// A log on which nothing was done yet, a pass for each of its workers, by their numbers, and the
/// tables that it is opened over, unless they are empty.
#[derive(Drop)]
pub(crate) struct Opened {
    pub log: Log,
    pub passes: Vec<Pass>,
    pub base: Option<Base>,
    ghost new: { (number : ℕ) (pass : _) → slice_get passes.items number ≡ Some pass → IsNew log number pass },
    ghost unused: { (number : ℕ) (pass : _) → slice_get passes.items number ≡ Some pass → IsUnusedPass log pass },
    ghost count: { length passes.items ≡ log.settings.workers },
    ghost over: { FitsOver log base } by { Prim.hlevel (props, FitsOver-prop) },
}

impl Opened {
    /// Opens the first log with these settings, over empty tables.
    ///
    /// Returns `Memory` if memory runs out.
    pub fn first(alloc: Global, settings: &Settings) -> Result<Opened, Fault>
        ensures settings { IfOk result (λ opened. opened.log.settings ≡ settings.now) }
        ensures base { IfOk result (λ opened. opened.base ≡ None) }
        ensures memory { IsOkUnless result faults.Memory }
    {
        let (log, passes) = Log::open(alloc, settings)?;
        Ok(Opened {
            log,
            passes,
            base: None,
        })
    }

    /// Returns the log that follows a closed one, over the tables that this has left.
    pub fn over(next: Next) -> Opened
        requires { IsNextLog next.log.settings next }
        ensures log { result.log ≡ next.log }
        ensures base { result.base ≡ Some next.base }
    {
        let Next { log, passes, base } = next;
        Opened {
            log,
            passes,
            base: Some(base),
        }
    }
}
