//! Replaying what was learned.
ghost use Rattle.std.specs.Prelude.{◌≡◌, ◌≤◌, ◌<◌, ◌-◌, length, take, Some, IfOk, IsOk, IsOkUnless, OnOk, slice_get};
ghost use Rattle.mc_model.specs.declared.fault.Fault.TheVariants as faults;
ghost use Rattle.mc_model.specs.Replay.{reply_to};
ghost use Rattle.uc_cells.specs.Sighting.{entries};
ghost use Rattle.uc_log.specs.Passes.{learned, own_sightings, worker};
ghost use Rattle.uc_worker.specs.Going.{ReplaysMore};
ghost use Rattle.uc_worker.specs.Worker.{history_of, last_entry, openings_of, sighting_of};

use crate::gate::{Gate, Step};
use crate::worker::Worker;
use mc_model::{Fault, Reply};

impl<'a> Worker<'a> {
    /// Replays what was learned before this place.
    ///
    /// Nobody waits for an answer there, so none is made, not even to an own command that an
    /// earlier call left pending. Returns `Memory` if memory runs out; some of it may be replayed
    /// then.
    pub(crate) fn replay_to<G: Gate>(&mut self, end: usize, gate: &mut G) -> Result<(), Fault>
        requires learned { end ≤ length (learned self.old.pass) }
        requires behind { length (history_of self.old) ≤ end }
        ensures replays { ReplaysMore self.old self.new }
        ensures all { OnOk result (length (history_of self.new) ≡ end) }
        ensures some { length (history_of self.new) ≤ end }
        ensures memory { IsOkUnless result faults.Memory }
        ensures nothing { length (history_of self.old) ≡ end → IsOk result }
    {
        for place in self.replica.len()..end {
            let seen = self.log.seen(self.alloc, &mut self.pass, place)?;
            self.replica.advance(seen)?;
            gate.at(Step::Replay);
        }
        Ok(())
    }

    /// Replays what was learned up to and including the last place, where an own command stands,
    /// and returns the reply to that command.
    ///
    /// Returns `Memory` if memory runs out; some of it may be replayed then.
    pub(crate) fn reply_last<G: Gate>(&mut self, gate: &mut G) -> Result<Reply<'a>, Fault>
        requires behind { length (history_of self.old) < length (learned self.old.pass) }
        requires last { slice_get (learned self.old.pass) (length (learned self.old.pass) - 1)
            ≡ Some (last_entry self.old.pass).ticket }
        requires own { (last_entry self.old.pass).ticket.worker ≡ worker self.old.pass }
        requires put { slice_get (own_sightings self.old.pass)
            (last_entry self.old.pass).ticket.number
            ≡ Some (sighting_of self.old.log.now (last_entry self.old.pass)) }
        requires tenant { (last_entry self.old.pass).tenant < length (openings_of self.old) }
        ensures replays { ReplaysMore self.old self.new }
        ensures all { OnOk result (length (history_of self.new) ≡ length (learned self.old.pass)) }
        ensures stands { OnOk result
            (slice_get (history_of self.new) (length (learned self.old.pass) - 1)
            ≡ Some (sighting_of self.old.log.now (last_entry self.old.pass))) }
        ensures reply { IfOk result (λ reply. Some reply ≡ reply_to (openings_of self.old)
            (entries (take (length (learned self.old.pass) - 1) (history_of self.new)))
            (Some (last_entry self.old.pass))) }
        ensures memory { IsOkUnless result faults.Memory }
    {
        let place = self.pass.learned() - 1;
        self.replay_to(place, gate)?;
        let seen = self.log.seen(self.alloc, &mut self.pass, place)?;
        let reply = self.replica.replay(seen)?;
        gate.at(Step::Replay);
        match reply {
            Some(reply) => Ok(reply),
            None => unreachable!(),
        }
    }
}
