//! A seat keeps the run of the log up to now: the log's run goes on from it.
ghost use Rattle.std.specs.Prelude.{◌∷◌, []};
ghost use Rattle.uc_places.specs.Calls.{IsSeatOf, WitnessWith, Witnesses, known};
ghost use Rattle.uc_places.specs.Run.{part_of};

use crate::desk::{Desk, Places};
use crate::rule::{Joining, Leaving, Parting, Witnessing};

impl Desk {
    /// Keeps the run of the log up to now, by one load of word 0.
    pub fn witness(&mut self, places: &Places)
        requires { IsSeatOf places.now self.old }
        ensures { Witnesses self.old self.new (part_of (known self.old) ∷ []) }
    {
        places.table.shared.load::<Witnessing>(&mut self.seat, 0);
    }

    /// Keeps the run of the log up to now together with another's desk, by four loads of word 0:
    /// the other's seat is joined into this one, and split off again.
    ///
    /// The run has all calls of both seats, and no other events of their workers.
    pub fn witness_with(&mut self, places: &Places, other: &mut Desk)
        requires { IsSeatOf places.now self.old × IsSeatOf places.now other.old }
        ensures { WitnessWith self.old other.old self.new other.new }
    {
        let shared = &places.table.shared;
        let seat = shared.split_seat::<Leaving>(&mut other.seat);
        shared.join_seat::<Joining>(&mut self.seat, seat);
        shared.load::<Witnessing>(&mut self.seat, 0);
        other.seat = shared.split_seat::<Parting>(&mut self.seat);
    }
}
