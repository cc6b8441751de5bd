//! Shares what the one of two workers that has learned more has learned with the other.
ghost use Rattle.std.specs.Prelude.{◌≡◌};
ghost use Rattle.uc_places.specs.Calls.{IsSeatOf, ShareOneRun, Shares, Tells};
ghost use Rattle.uc_places.specs.Seats.{desk_of, is_idle_seat};

use crate::desk::{Desk, Places};
use crate::rule::{Joining, Leaving, Meeting, Parting};
use crate::seats::Seat;
use crate::steps::settled;

impl Desk {
    /// Shares what this worker has learned with another's desk by four loads of word 0: the other's
    /// seat is joined into this one, both are compared, and the other is split off again.
    fn share(&mut self, places: &Places, other: &mut Desk)
        requires { IsSeatOf places.now self.old × IsSeatOf places.now other.old }
        ensures shares { Shares self.old other.old self.new other.new }
        ensures run { ShareOneRun self.new other.new }
    {
        let shared = &places.table.shared;
        let seat = shared.split_seat::<Leaving>(&mut other.seat);
        shared.join_seat::<Joining>(&mut self.seat, seat);
        shared.load::<Meeting>(&mut self.seat, 0);
        other.seat = shared.split_seat::<Parting>(&mut self.seat);
    }

    /// Shares what the one of two workers that has learned more has learned with the other's desk.
    /// This one's list is shared if both have learned as many places.
    ///
    /// From then on the other finds at each place of that list the ticket that the list has there.
    /// The list begins with what the other has learned.
    pub fn tell(&mut self, places: &Places, other: &mut Desk)
        requires { IsSeatOf places.now self.old × IsSeatOf places.now other.old }
        ensures told { Tells self.old other.old self.new other.new }
        // One run of the log has all calls of both seats, and no other events of their workers.
        ensures run { ShareOneRun self.new other.new }
    {
        if self.numbers.learned < other.numbers.learned {
            other.share(places, self);
        } else {
            self.share(places, other);
        }
    }
}

/// Shares what the one of the two seats' workers that has learned more has learned with the other
/// seat, and returns both, in their order. The first seat's list is shared if both have learned as
/// many places.
///
/// From then on the other finds at each place of that list the ticket that the list has there. The
/// list begins with what the other has learned.
pub fn tell(places: &Places, one: Seat, other: Seat) -> (Seat, Seat)
    requires { IsSeatOf places.now (desk_of one) × IsSeatOf places.now (desk_of other) }
    ensures told { Tells (desk_of one) (desk_of other) (desk_of result.0) (desk_of result.1) }
    // One run of the log has all calls of both seats, and no other events of their workers.
    ensures run { ShareOneRun (desk_of result.0) (desk_of result.1) }
    // Neither changes between idle and pending.
    ensures idle { (is_idle_seat result.0 ≡ is_idle_seat one)
        × (is_idle_seat result.1 ≡ is_idle_seat other) }
{
    let mut first = one.into_desk();
    let mut second = other.into_desk();
    first.tell(places, &mut second);
    (settled(first), settled(second))
}
