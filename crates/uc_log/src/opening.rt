//! Opening a log and its passes.
ghost use Rattle.std.specs.Prelude.{◌≡◌, ℕ, [], Some, length, slice_get, IfOk, IsOkUnless};
ghost use Rattle.mc_model.specs.declared.fault.Fault.TheVariants as faults;
ghost use Rattle.uc_log.specs.Passes.{AreMadeOf, IsNew, IsUnusedPass, own_sightings};
ghost use Rattle.uc_places.specs.Calls.{known, desk_size, worker_of};
ghost use Rattle.uc_places.specs.Told.{new_seat};

use crate::log::Log;
use crate::pass::Pass;
use mc_model::{Fault, Settings};
use std::alloc::Global;
use uc_cells::Cells;
use uc_places::{Desk, Idle};

impl Pass {
    /// Returns a pass with this new seat. Its lists are reserved here, once, so that no later step
    /// of the pass allocates for them.
    fn open(alloc: Global, desk: Desk) -> Result<Pass, Fault>
        requires { known desk ≡ new_seat (desk_size desk) (worker_of desk) }
        ensures desk { IfOk result (λ pass. pass.desk ≡ desk) }
        ensures own { IfOk result (λ pass. own_sightings pass ≡ []) }
        ensures memory { IsOkUnless result faults.Memory }
    {
        let places = desk.places();
        let learned = Vec::with_capacity(alloc, places)?;
        let sealed = Vec::with_capacity(alloc, places)?;
        Ok(Pass {
            desk,
            learned,
            sealed,
        })
    }
}

/// Returns a pass with each of these new seats, in order.
fn passes_of(alloc: Global, seats: Vec<Idle>) -> Result<Vec<Pass>, Fault>
    requires new { (number : ℕ) (seat : _) → slice_get seats.items number ≡ Some seat →
        known seat.desk ≡ new_seat (desk_size seat.desk) (worker_of seat.desk) }
    ensures count { IfOk result (λ passes. length passes.items ≡ length seats.items) }
    ensures passes { IfOk result (λ passes. AreMadeOf passes.items seats.items) }
    ensures memory { IsOkUnless result faults.Memory }
{
    let mut passes = Vec::with_capacity(alloc, seats.len())?;
    for seat in seats {
        passes.push(Pass::open(alloc, seat.into_desk())?)?;
    }
    Ok(passes)
}

/// Returns a copy of the settings.
fn copied(alloc: Global, settings: &Settings) -> Result<Settings, Fault>
    ensures settings { IfOk result (λ copy. copy ≡ settings.now) }
    ensures memory { IsOkUnless result faults.Memory }
{
    let tenants = Vec::from_slice(alloc, settings.tenants())?;
    match Settings::check(settings.workers(), settings.places(), tenants) {
        Ok(copy) => Ok(copy),
        Err(_) => unreachable!(),
    }
}

impl Log {
    /// Opens an empty log with these settings, and a pass for each worker, by the workers' numbers.
    ///
    /// Returns `Memory` if memory runs out.
    pub fn open(alloc: Global, settings: &Settings) -> Result<(Log, Vec<Pass>), Fault>
        ensures settings { IfOk result (λ opened. opened.0.settings ≡ settings.now) }
        ensures count { IfOk result (λ opened. length opened.1.items ≡ settings.now.workers) }
        ensures passes { IfOk result
            (λ opened. (number : ℕ) (pass : _) → slice_get opened.1.items number ≡ Some pass →
            IsNew opened.0 number pass) }
        ensures unused { IfOk result
            (λ opened. (number : ℕ) (pass : _) → slice_get opened.1.items number ≡ Some pass →
            IsUnusedPass opened.0 pass) }
        ensures memory { IsOkUnless result faults.Memory }
    {
        let workers = settings.workers() as u8;
        let cells = Cells::open(alloc, workers, settings.places())?;
        let settings = copied(alloc, settings)?;
        let (places, seats) = uc_places::open(alloc, workers, settings.places())?;
        let passes = passes_of(alloc, seats)?;
        let log = Log {
            settings,
            cells,
            places,
        };
        Ok((log, passes))
    }
}
