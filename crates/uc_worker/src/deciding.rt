//! From a command's announcement to its decision.
ghost use Rattle.std.specs.Bool.{MatchBool};
ghost use Rattle.std.specs.Prelude.{◌≡◌, ◌≢◌, length, None, false};
ghost use Rattle.mc_model.specs.declared.shown.Phase.TheVariants as phase;
ghost use Rattle.uc_log.specs.Passes.{IsOf, desk, learned, seat, size, state};
ghost use Rattle.uc_worker.specs.Counting.{TakesFew};
ghost use Rattle.uc_worker.specs.Steps.{Decided};
ghost use Rattle.uc_worker.specs.Waiting.{IsMarked, LearnsOn, RunsOut};

use crate::gate::{Gate, Step};
use uc_log::{Log, Pass};

/// Reads until it marks an empty place, learns its own ticket, or reaches the end of the log.
/// Returns whether it learned its own ticket.
fn read_on<G: Gate>(log: &Log, pass: &mut Pass, gate: &mut G) -> bool
    requires of { IsOf log.now pass.old }
    requires pending { (state pass.old).phase ≡ phase.Pending }
    ensures on { LearnsOn log.now pass.old pass.new }
    ensures outcome { MatchBool result (Decided (seat pass.old) (seat pass.new))
        (IsMarked pass.new) }
    ensures takes { TakesFew 1 (desk pass.old) (desk pass.new) }
{
    for _place in pass.learned()..pass.places() {
        let found = log.read(pass);
        gate.at(Step::Read);
        if found.is_none() {
            return false;
        }
        if pass.is_idle() {
            return true;
        }
    }
    false
}

/// Looks and proposes until it learns its own ticket, or reaches the end of the log. Returns
/// whether it learned its own ticket.
fn propose_on<G: Gate>(log: &Log, pass: &mut Pass, gate: &mut G) -> bool
    requires of { IsOf log.now pass.old }
    requires pending { (state pass.old).phase ≡ phase.Pending }
    requires marked { (state pass.old).mark ≢ None }
    ensures on { LearnsOn log.now pass.old pass.new }
    ensures outcome { MatchBool result (Decided (seat pass.old) (seat pass.new))
        (RunsOut pass.new) }
    ensures takes { TakesFew 0 (desk pass.old) (desk pass.new) }
{
    for _place in pass.learned()..pass.places() {
        log.look(pass);
        gate.at(Step::Look);
        log.propose(pass);
        gate.at(Step::Propose);
        if pass.is_idle() {
            return true;
        }
    }
    false
}

/// Goes on until the command that was announced last is decided, or all places are learned. Returns
/// whether the command is decided.
pub(crate) fn decide<G: Gate>(log: &Log, pass: &mut Pass, gate: &mut G) -> bool
    requires of { IsOf log.now pass.old }
    requires pending { (state pass.old).phase ≡ phase.Pending }
    ensures on { LearnsOn log.now pass.old pass.new }
    ensures outcome { MatchBool result (Decided (seat pass.old) (seat pass.new))
        (RunsOut pass.new) }
    ensures takes { TakesFew 1 (desk pass.old) (desk pass.new) }
    ensures spent { length (learned pass.old) ≡ (size pass.old).places → result ≡ false }
{
    if pass.is_full() {
        return false;
    }
    if !pass.is_marked() && read_on(log, pass, gate) {
        return true;
    }
    if pass.is_full() {
        return false;
    }
    propose_on(log, pass, gate)
}
