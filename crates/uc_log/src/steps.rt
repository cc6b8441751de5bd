//! The steps that a worker takes with its pass.
ghost use Rattle.std.specs.Prelude.{◌≡◌, ◌≢◌, ◌⊎◌, ◌<◌, ◌∷◌, ◌++◌, [], length, slice_get, None, Some, IfOk, IfErr, IsOk, IsOkUnless, OnErr, OnOk};
ghost use Rattle.mc_model.specs.declared.fault.Fault.TheVariants as faults;
ghost use Rattle.mc_model.specs.declared.shown.Phase.TheVariants as phase;
ghost use Rattle.mc_model.specs.Lawful.{HasRoom};
ghost use Rattle.uc_log.specs.Passes.{IsOf, Keeps, desk, learned, next_sighting, own_sightings, row_of, seat, size, state, worker};
ghost use Rattle.uc_places.specs.Calls.{Announces, Looks, Proposes, ReadsPlace, ShareOneRun, Tells, WitnessWith, Witnesses};
ghost use Rattle.uc_places.specs.Run.{part_of};

use crate::log::Log;
use crate::pass::Pass;
use mc_model::{Command, Entry, Fault, TenantId, Ticket};
use std::alloc::Global;
use uc_cells::Seen;

impl Log {
    /// Fills the cell of the worker's next ticket with the tenant's command, and then announces it.
    ///
    /// Returns `Memory` if memory runs out, and `Taken` if the cell holds another value. Either way
    /// nothing is announced, and the command is dropped.
    pub fn announce(
        &self,
        alloc: Global,
        pass: &mut Pass,
        tenant: TenantId,
        command: Command,
    ) -> Result<(), Fault>
        requires of { IsOf self.now pass.old }
        requires idle { (state pass.old).phase ≡ phase.Idle }
        requires room { HasRoom (size pass.old) (state pass.old) }
        ensures of { IsOf self.now pass.new }
        ensures announced { OnOk result (Announces (desk pass.old) (desk pass.new)) }
        // The cell of the announced ticket holds the tenant's command.
        ensures put { OnOk result
            (own_sightings pass.new
            ≡ own_sightings pass.old ++ next_sighting self.now pass.old tenant command ∷ []) }
        ensures faults { IfErr result (λ fault. (fault ≡ faults.Memory) ⊎ (fault ≡ faults.Taken)) }
        ensures unchanged { OnErr result (pass.new ≡ pass.old) }
    {
        let ticket = Ticket {
            worker: pass.desk.worker(),
            number: pass.desk.announced(),
        };
        let seen = self.cells.put(
            alloc,
            Entry {
                ticket,
                tenant,
                command,
            },
        )?;
        pass.sealed.push_reserved(seen.seal());
        pass.desk.announce(&self.places);
        Ok(())
    }

    /// Reads the next place, and learns the ticket that stands there, if there is one.
    ///
    /// Returns that ticket, or `None` if the place is empty. The worker becomes idle if the ticket
    /// is its own. An empty place becomes the mark of a pending worker that has none.
    pub fn read(&self, pass: &mut Pass) -> Option<Ticket>
        requires of { IsOf self.now pass.old }
        requires phase { ((state pass.old).phase ≡ phase.Idle)
            ⊎ ((state pass.old).phase ≡ phase.Pending) }
        requires room { HasRoom (size pass.old) (state pass.old) }
        ensures read { ReadsPlace (desk pass.old) (desk pass.new) result }
        ensures kept { Keeps self.now pass.old pass.new }
    {
        // In parts, since a ticket that is passed twice gets no proof.
        let Ticket { worker, number } = pass.desk.read(&self.places)?;
        pass.learned.push_reserved(Ticket { worker, number });
        Some(Ticket { worker, number })
    }

    /// Looks for a command to help: the first one that isn't learned of the worker whose turn it is
    /// at the next place, if there is one.
    pub fn look(&self, pass: &mut Pass)
        requires of { IsOf self.now pass.old }
        requires pending { (state pass.old).phase ≡ phase.Pending }
        requires room { HasRoom (size pass.old) (state pass.old) }
        requires marked { (state pass.old).mark ≢ None }
        ensures looked { Looks (desk pass.old) (desk pass.new) }
        ensures kept { Keeps self.now pass.old pass.new }
    {
        pass.desk.look(&self.places);
    }

    /// Proposes the command that it found to help, or else its own, at the next place.
    ///
    /// Learns and returns the ticket that stands there afterwards. The worker becomes idle if that
    /// ticket is its own.
    pub fn propose(&self, pass: &mut Pass) -> Ticket
        requires of { IsOf self.now pass.old }
        requires looked { (state pass.old).phase ≡ phase.Looked }
        ensures proposed { Proposes (desk pass.old) (desk pass.new) result }
        ensures kept { Keeps self.now pass.old pass.new }
    {
        // In parts, since a ticket that is passed twice gets no proof.
        let Ticket { worker, number } = pass.desk.propose(&self.places);
        pass.learned.push_reserved(Ticket { worker, number });
        Ticket { worker, number }
    }

    /// Returns what is in the cell of the ticket that was learned at the place.
    ///
    /// If the ticket is the pass's own, that is what the pass put there, and no memory is needed.
    /// Otherwise returns `Memory` if memory runs out.
    pub fn seen(&self, alloc: Global, pass: &mut Pass, place: usize) -> Result<Seen<'_>, Fault>
        requires of { IsOf self.now pass.old }
        requires learned { place < length (learned pass.old) }
        ensures ticket { IfOk result
            (λ seen. slice_get (learned pass.old) place ≡ Some seen.ticket) }
        ensures row { IfOk result (λ seen. seen.row ≡ row_of self.now seen.ticket) }
        ensures own { IfOk result
            (λ seen. seen.ticket.worker ≡ worker pass.old →
            slice_get (own_sightings pass.old) seen.ticket.number ≡ Some seen) }
        // An own ticket needs no memory.
        ensures quiet { (ticket : _) → slice_get (learned pass.old) place ≡ Some ticket →
            ticket.worker ≡ worker pass.old → IsOk result }
        ensures memory { IsOkUnless result faults.Memory }
        ensures same { pass.new ≡ pass.old }
    {
        let Ticket { worker, number } = pass.learned[place];
        if worker == pass.desk.worker() {
            return Ok(self.cells.see_again(&mut pass.sealed[number as usize]));
        }
        self.cells.see(alloc, Ticket { worker, number })
    }

    /// Shares what the one of two passes that has learned more has learned with the other. The
    /// first one's list is shared if both have learned as many places.
    ///
    /// From then on the other finds at each place of that list the ticket that the list has there.
    /// The list begins with what the other has learned.
    pub fn tell(&self, one: &mut Pass, other: &mut Pass)
        requires { IsOf self.now one.old × IsOf self.now other.old }
        ensures told { Tells (desk one.old) (desk other.old) (desk one.new) (desk other.new) }
        ensures kept { Keeps self.now one.old one.new × Keeps self.now other.old other.new }
        // One run of the log has all calls of both seats, and no other events of their workers.
        ensures run { ShareOneRun (desk one.new) (desk other.new) }
    {
        one.desk.tell(&self.places, &mut other.desk);
    }

    /// Keeps the run of the log up to now in the worker's seat.
    pub fn witness(&self, pass: &mut Pass)
        requires { IsOf self.now pass.old }
        // The run goes on from the one that the seat kept, and has exactly its calls of its worker.
        ensures run { Witnesses (desk pass.old) (desk pass.new) (part_of (seat pass.old) ∷ []) }
        ensures kept { Keeps self.now pass.old pass.new }
    {
        pass.desk.witness(&self.places);
    }

    /// Keeps the run of the log up to now in the first worker's seat, and shares what that worker
    /// has learned with the other.
    pub fn witness_with(&self, one: &mut Pass, other: &mut Pass)
        requires { IsOf self.now one.old × IsOf self.now other.old }
        // The run goes on from the one that the first seat kept. It has all calls of both seats,
        // and no other events of their workers.
        ensures run { WitnessWith (desk one.old) (desk other.old) (desk one.new) (desk other.new) }
        ensures kept { Keeps self.now one.old one.new × Keeps self.now other.old other.new }
    {
        one.desk.witness_with(&self.places, &mut other.desk);
    }
}
