//! The command that a worker has announced and not replayed.
ghost use Rattle.std.specs.Prelude.{◌≡◌, ◌↔◌, Some};
ghost use Rattle.mc_model.specs.declared.id.Ticket.{Ticket};
ghost use Rattle.uc_worker.specs.Unsettled.{IsUnsettled};

use crate::worker::Worker;
use mc_model::Ticket;

impl<'a> Worker<'a> {
    /// Returns the ticket of the command that the worker has announced and that isn't in its
    /// history, or `None` if it has replayed all its commands; there is never more than one.
    ///
    /// After `LogFull` such a command may be one that never takes effect. After `Memory` it stands
    /// among the places that the worker has learned, and takes effect; so those that aren't
    /// replayed are searched, and there are none unless memory ran out.
    pub fn unsettled(&self) -> Option<Ticket>
        ensures { (ticket : Ticket) → (result ≡ Some ticket) ↔ IsUnsettled self.now ticket }
    {
        let worker = self.pass.worker();
        if self.pass.is_pending() {
            return Some(Ticket {
                worker,
                number: self.pass.announced() - 1,
            });
        }
        let learned = self.pass.tickets();
        for place in self.replica.len()..learned.len() {
            let ticket = &learned[place];
            if ticket.worker == worker {
                return Some(Ticket {
                    worker,
                    number: ticket.number,
                });
            }
        }
        None
    }
}
