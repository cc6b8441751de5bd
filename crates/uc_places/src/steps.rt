//! The calls of the typed seats: each is one step of the seat's desk.
ghost use Rattle.std.specs.Prelude.{◌≡◌, ◌≢◌, ◌⊎◌, None, true, false};
ghost use Rattle.mc_model.specs.declared.shown.Phase.TheVariants as phase;
ghost use Rattle.mc_model.specs.Lawful.{HasRoom};
ghost use Rattle.uc_places.specs.Calls.{Announces, IsSeatOf, Looks, Proposes, ReadsPlace, desk_size, state_of};
ghost use Rattle.uc_places.specs.Seats.{desk_of, is_idle_seat};

use crate::desk::{Desk, Places};
use crate::seats::{Idle, Looked, Pending, Seat};
use mc_model::Ticket;

/// Returns the typed seat of a desk whose worker is between two steps.
pub(crate) fn settled(desk: Desk) -> Seat
    requires rests { ((state_of desk).phase ≡ phase.Idle)
        ⊎ ((state_of desk).phase ≡ phase.Pending) }
    ensures desk { desk_of result ≡ desk }
    ensures idle { is_idle_seat result ≡ true → (state_of desk).phase ≡ phase.Idle }
    ensures pending { is_idle_seat result ≡ false → (state_of desk).phase ≡ phase.Pending }
{
    if desk.is_idle() {
        Seat::Idle(Idle { desk })
    } else {
        Seat::Pending(Pending { desk })
    }
}

impl Idle {
    /// Announces the worker's next command.
    pub fn announce(self, places: &Places) -> Pending
        requires place { IsSeatOf places.now self.desk }
        requires room { HasRoom (desk_size self.desk) (state_of self.desk) }
        ensures { Announces self.desk result.desk }
    {
        let Idle { mut desk } = self;
        desk.announce(places);
        Pending { desk }
    }

    /// Reads the next place, and learns the ticket that stands there, if there is one.
    ///
    /// Returns that ticket, or `None` if the place is empty.
    pub fn read(&mut self, places: &Places) -> Option<Ticket>
        requires place { IsSeatOf places.now self.old.desk }
        requires room { HasRoom (desk_size self.old.desk) (state_of self.old.desk) }
        ensures { ReadsPlace self.old.desk self.new.desk result }
    {
        self.desk.read(places)
    }
}

impl Pending {
    /// Reads the next place, and learns the ticket that stands there, if there is one.
    ///
    /// Returns that ticket, or `None` if the place is empty. The seat becomes idle if the ticket is
    /// its worker's own. An empty place becomes the worker's mark, if it has none.
    pub fn read(self, places: &Places) -> (Seat, Option<Ticket>)
        requires place { IsSeatOf places.now self.desk }
        requires room { HasRoom (desk_size self.desk) (state_of self.desk) }
        ensures { ReadsPlace self.desk (desk_of result.0) result.1 }
    {
        let Pending { mut desk } = self;
        let found = desk.read(places);
        (settled(desk), found)
    }

    /// Looks for a command to help: the first one that isn't learned of the worker whose turn it is
    /// at the next place, if there is one.
    pub fn look(self, places: &Places) -> Looked
        requires place { IsSeatOf places.now self.desk }
        requires room { HasRoom (desk_size self.desk) (state_of self.desk) }
        requires marked { (state_of self.desk).mark ≢ None }
        ensures { Looks self.desk result.desk }
    {
        let Pending { mut desk } = self;
        desk.look(places);
        Looked { desk }
    }
}

impl Looked {
    /// Proposes the command that it found to help, or else its own, at the next place, by one
    /// compare-exchange.
    ///
    /// Learns and returns the ticket that stands there afterwards. The seat becomes idle if that
    /// ticket is its worker's own.
    pub fn propose(self, places: &Places) -> (Seat, Ticket)
        requires { IsSeatOf places.now self.desk }
        ensures { Proposes self.desk (desk_of result.0) result.1 }
    {
        let Looked { mut desk } = self;
        let ticket = desk.propose(places);
        (settled(desk), ticket)
    }
}
