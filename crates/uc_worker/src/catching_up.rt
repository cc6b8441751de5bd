//! Catching up with the log.
ghost use Rattle.std.specs.Bool.{MatchBool};
ghost use Rattle.std.specs.Prelude.{◌≡◌, ◌<◌, ◌≤◌, ◌+◌, false, length, None, IfOk, IsOkUnless, OnOk, slice_get};
ghost use Rattle.mc_model.specs.declared.fault.Fault.TheVariants as faults;
ghost use Rattle.uc_log.specs.Passes.{IsOf, desk, learned, seat, size, state};
ghost use Rattle.uc_places.specs.Calls.{calls_of};
ghost use Rattle.uc_worker.specs.Counting.{LooksOn, TakesFew};
ghost use Rattle.uc_worker.specs.Going.{CatchesUp};
ghost use Rattle.uc_worker.specs.Steps.{HasReadOn, LearnsExactly, Rests};
ghost use Rattle.uc_worker.specs.Waiting.{LearnsOn};
ghost use Rattle.uc_worker.specs.Worker.{IsUpToDate, own_desk, seat_of};

use crate::gate::{Gate, Step};
use crate::worker::Worker;
use mc_model::Fault;
use uc_log::{Log, Pass};

/// Reads up to this place, or to one before it that is found empty. Returns whether none was found
/// empty.
fn read_up<G: Gate>(log: &Log, pass: &mut Pass, end: usize, gate: &mut G) -> bool
    requires of { IsOf log.now pass.old }
    requires rests { Rests (state pass.old).phase }
    requires begin { length (learned pass.old) ≤ end }
    requires end { end ≤ (size pass.old).places }
    ensures on { LearnsOn log.now pass.old pass.new }
    ensures rests { Rests (state pass.new).phase }
    ensures read { MatchBool result (length (learned pass.new) ≡ end)
        (slice_get (seat pass.new).last.decided (length (learned pass.new)) ≡ None) }
    ensures few { length (learned pass.new) ≤ end }
    ensures takes { TakesFew 1 (desk pass.old) (desk pass.new) }
    ensures looks { MatchBool result (length (learned pass.new) ≡ end)
        (length (calls_of (desk pass.old)) < length (calls_of (desk pass.new))) }
{
    for _place in pass.learned()..end {
        let found = log.read(pass);
        gate.at(Step::Read);
        if found.is_none() {
            return false;
        }
    }
    true
}

impl<'a> Worker<'a> {
    /// Reads up to a place that is found empty, or to the end of the log, and replays all that is
    /// learned then.
    ///
    /// Returns `Memory` if memory runs out; some of it may be replayed then.
    pub fn catch_up<G: Gate>(&mut self, gate: &mut G) -> Result<(), Fault>
        ensures catches { CatchesUp self.old self.new }
        // All places are learned, or the next one was empty in the log's state after the worker's
        // last event.
        ensures read { HasReadOn (seat_of self.new) }
        // It has looked there itself.
        ensures looks { LooksOn (own_desk self.old) (own_desk self.new) }
        // It takes at most two events for each place that it learns, and one more.
        ensures takes { TakesFew 1 (own_desk self.old) (own_desk self.new) }
        ensures told { (seat_of self.new).told ≡ (seat_of self.old).told }
        ensures all { OnOk result (IsUpToDate self.new) }
        ensures memory { IsOkUnless result faults.Memory }
    {
        let places = self.pass.places();
        let _ = read_up(self.log, &mut self.pass, places, gate);
        let end = self.pass.learned();
        self.replay_to(end, gate)
    }

    /// Reads at most this many places, as `catch_up` does, and replays all that is learned then.
    ///
    /// Returns `true` if it stopped at that bound before the end of the log, so that more may be
    /// decided, and `false` if there was nothing more to read. Returns `Memory` if memory runs out;
    /// some of it may be replayed then.
    pub fn catch_up_some<G: Gate>(&mut self, most: usize, gate: &mut G) -> Result<bool, Fault>
        ensures catches { CatchesUp self.old self.new }
        // It has learned as many places as it may, and isn't at the end of the log, or it has read
        // on as far as `catch_up` does.
        ensures read { IfOk result (λ more. MatchBool more
            (LearnsExactly most (seat_of self.old) (seat_of self.new))
            (HasReadOn (seat_of self.new))) }
        // If it says that nothing more was to be read, it has looked itself.
        ensures looks { IfOk result (λ more. more ≡ false →
            LooksOn (own_desk self.old) (own_desk self.new)) }
        ensures few { length (seat_of self.new).state.learned
            ≤ length (seat_of self.old).state.learned + most }
        // It takes at most two events for each place that it learns, and one more.
        ensures takes { TakesFew 1 (own_desk self.old) (own_desk self.new) }
        ensures told { (seat_of self.new).told ≡ (seat_of self.old).told }
        ensures all { OnOk result (IsUpToDate self.new) }
        ensures memory { IsOkUnless result faults.Memory }
    {
        let places = self.pass.places();
        let bound = self.pass.learned().saturating_add(most).min(places);
        let is_bound = read_up(self.log, &mut self.pass, bound, gate);
        let learned = self.pass.learned();
        self.replay_to(learned, gate)?;
        Ok(is_bound && bound < places)
    }
}
