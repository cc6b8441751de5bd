//! Announcing commands, and deciding them.
ghost use Rattle.std.specs.Bool.{MatchBool};
ghost use Rattle.std.specs.Prelude.{◌≡◌, length, false, Err, MatchResult};
ghost use Rattle.mc_model.specs.declared.fault.Fault.TheVariants as faults;
ghost use Rattle.mc_model.specs.declared.shown.Phase.TheVariants as phase;
ghost use Rattle.uc_log.specs.Passes.{IsOf, desk, learned, size, state};
ghost use Rattle.uc_worker.specs.Counting.{TakesFew};
ghost use Rattle.uc_worker.specs.Steps.{Rests};
ghost use Rattle.uc_worker.specs.Waiting.{Advances, Decides, LearnsOn, LeavesUndecided, RunsOut};

use crate::deciding::decide;
use crate::gate::{Gate, Step};
use mc_model::{Command, Fault, TenantId};
use std::alloc::Global;
use uc_log::{Log, Pass};

/// Finishes a command that an earlier call left pending.
///
/// Returns whether none is pending afterwards; if one is, all places are learned.
pub(crate) fn settle<G: Gate>(log: &Log, pass: &mut Pass, gate: &mut G) -> bool
    requires of { IsOf log.now pass.old }
    requires rests { Rests (state pass.old).phase }
    ensures on { LearnsOn log.now pass.old pass.new }
    ensures outcome { MatchBool result ((state pass.new).phase ≡ phase.Idle) (RunsOut pass.new) }
    ensures takes { TakesFew 1 (desk pass.old) (desk pass.new) }
    ensures spent { (state pass.old).phase ≡ phase.Pending →
        length (learned pass.old) ≡ (size pass.old).places → result ≡ false }
    ensures still { (state pass.old).phase ≡ phase.Idle → pass.new ≡ pass.old }
{
    if pass.is_pending() {
        decide(log, pass, gate)
    } else {
        true
    }
}

/// Puts a command into its cell, announces it and decides it: its ticket is the last one learned
/// then.
///
/// Returns `Memory` if memory runs out, and `Taken` if the cell holds another value; the command
/// isn't announced then. Returns `LogFull` if all places are learned and the command isn't among
/// them.
pub(crate) fn decide_new<G: Gate>(
    log: &Log,
    alloc: Global,
    pass: &mut Pass,
    tenant: TenantId,
    command: Command,
    gate: &mut G,
) -> Result<(), Fault>
    requires of { IsOf log.now pass.old }
    requires idle { (state pass.old).phase ≡ phase.Idle }
    ensures advances { Advances log.now pass.old pass.new }
    ensures outcome { MatchResult result (λ _. Decides log.now pass.old pass.new tenant command)
        (LeavesUndecided log.now pass.old pass.new tenant command) }
    ensures takes { TakesFew 2 (desk pass.old) (desk pass.new) }
    ensures spent { length (learned pass.old) ≡ (size pass.old).places →
        result ≡ Err faults.LogFull }
{
    if pass.is_full() {
        return Err(Fault::LogFull);
    }
    log.announce(alloc, pass, tenant, command)?;
    gate.at(Step::Announce);
    if decide(log, pass, gate) {
        Ok(())
    } else {
        Err(Fault::LogFull)
    }
}
