//! Logs of two workers.
ghost use Rattle.std.specs.Prelude.{◌≡◌, ℕ, Some, slice_get, IfOk, IfSome};
ghost use Rattle.uc_log.specs.Passes.{IsUnusedPass};

use mc_model::{Fault, Limits, Settings};
use std::alloc::Global;
use uc_log::{Log, Pass};

/// Opens a log of two workers, of this many places, and of tenants with these quotas, and returns
/// the workers' passes too.
pub(crate) fn opened(
    alloc: Global,
    places: u64,
    quotas: &[Limits],
) -> Result<(Log, Vec<Pass>), Fault>
    ensures { IfOk result
        (λ opened. (number : ℕ) (pass : _) → slice_get opened.1.items number ≡ Some pass →
        IsUnusedPass opened.0 pass) }
{
    let settings = Settings::check(2, places, Vec::from_slice(alloc, quotas)?)?;
    let (log, passes) = Log::open(alloc, &settings)?;
    Ok((log, passes))
}

/// Returns the passes of worker 0 and worker 1.
pub(crate) fn both_passes(log: &Log, mut passes: Vec<Pass>) -> Option<(Pass, Pass)>
    requires { (number : ℕ) (pass : _) → slice_get passes.items number ≡ Some pass →
        IsUnusedPass log.now pass }
    ensures { IfSome result (λ pair. IsUnusedPass log.now pair.0 × IsUnusedPass log.now pair.1) }
{
    let second = passes.pop()?;
    let first = passes.pop()?;
    Some((first, second))
}
