//! Two lines over the two workers of one log.
ghost use Rattle.std.specs.Prelude.{◌≡◌, ℕ, Some, slice_get, IfOk};
ghost use Rattle.uc_log.specs.Passes.{IsUnusedPass};

use crate::acts::Act;
use crate::lines::{Line, QUOTAS, Wire, worker_of};
use crate::logs::{both_passes, opened};
use mc_model::Fault;
use std::alloc::Global;
use uc_log::{Log, Pass};
use uc_worker::Worker;

/// An act, and whether it is the second line's.
pub(crate) type Turn<'a> = (bool, Act<'a>);

/// Returns both workers.
fn both_workers<'a>(
    alloc: Global,
    log: &'a Log,
    passes: Vec<Pass>,
) -> Result<(Worker<'a>, Worker<'a>), Fault>
    requires { (number : ℕ) (pass : _) → slice_get passes.items number ≡ Some pass →
        IsUnusedPass log.now pass }
    ensures { IfOk result
        (λ pair. (pair.0.log.now ≡ log.now) × (pair.1.log.now ≡ log.now)) }
{
    let Some((first, second)) = both_passes(log, passes) else {
        return Err(Fault::BadEvent);
    };
    let first = worker_of(alloc, log, first);
    let second = worker_of(alloc, log, second);
    Ok((first?, second?))
}

/// Does these acts. Returns whether the lines do and show what each says.
fn play(first: &mut Line<'_>, second: &mut Line<'_>, acts: &[Turn]) -> Result<bool, Fault> {
    for (is_second, act) in acts {
        let holds = if *is_second {
            second.act(*act)?
        } else {
            first.act(*act)?
        };
        if !holds {
            return Ok(false);
        }
    }
    Ok(true)
}

/// Returns whether the lines of these wires and the workers do these acts.
fn play_on(
    alloc: Global,
    log: &Log,
    passes: Vec<Pass>,
    wires: (Wire, Wire),
    acts: &[Turn],
) -> Result<bool, Fault>
    requires { (number : ℕ) (pass : _) → slice_get passes.items number ≡ Some pass →
        IsUnusedPass log.now pass }
{
    let (first, second) = both_workers(alloc, log, passes)?;
    let mut first = Line::of(log, first, wires.0);
    let mut second = Line::of(log, second, wires.1);
    play(&mut first, &mut second, acts)
}

/// Returns whether the wires do these acts, with a new log of two tenants.
pub(crate) fn both_play(alloc: Global, wires: (Wire, Wire), acts: &[Turn]) -> Result<bool, Fault> {
    let (log, passes) = opened(alloc, 64, &[QUOTAS, QUOTAS])?;
    play_on(alloc, &log, passes, wires, acts)
}
