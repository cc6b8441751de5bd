//! What a worker reports about itself.
ghost use Rattle.std.specs.Prelude.{◌≡◌, ◌<◌, ◌↔◌, true, false, length, Some, slice_get, IsTrue};
ghost use Rattle.std.specs.Option.{option_map};
ghost use Rattle.mc_model.specs.History.{state_from};
ghost use Rattle.mc_model.specs.Lawful.{HasRoom};
ghost use Rattle.mc_model.specs.Log.{own};
ghost use Rattle.mc_model.specs.Replay.{EachStands, HaveRoom};
ghost use Rattle.uc_cells.specs.Sighting.{entries};
ghost use Rattle.uc_worker.specs.Histories.{AreDecided, Follows, KnowsItsOwn, LacksAtMostOne};
ghost use Rattle.uc_worker.specs.Worker.{HasReplayedAll, IsClosing, announced_of, history_of, openings_of, seat_of, tables_of, tenants_of};
ghost use Rattle.uc_places.specs.Reached.{LastIsReached};
ghost use Rattle.uc_places.specs.SeatLaw.{SeatLaw};

use crate::worker::Worker;
use mc_items::CellItems;
use mc_model::{TenantId, WorkerId};
use uc_cells::Seen;

impl<'a> Worker<'a> {
    /// Returns which worker this is.
    pub fn worker(&self) -> WorkerId
        ensures { result ≡ (seat_of self.now).worker }
    {
        self.pass.worker()
    }

    /// Returns how many commands the worker has announced.
    pub fn announced(&self) -> u64
        ensures { result ≡ (seat_of self.now).state.announced }
    {
        self.pass.announced()
    }

    /// Returns what was seen at each place that the worker has replayed.
    ///
    /// The tickets there are a legal list: a prefix of those that the worker has learned.
    pub fn history(&self) -> &[Seen<'a>]
        ensures history { result.now ≡ history_of self.now }
        ensures follows { Follows self.now.log.now (history_of self.now)
            (seat_of self.now).state.learned }
        ensures law { SeatLaw (seat_of self.now).size (seat_of self.now).worker
            (seat_of self.now).state }
        ensures lacks { LacksAtMostOne (seat_of self.now) (history_of self.now) }
        // Each command that the worker has put is of a known tenant, and where one stands in its
        // history, it was seen there as it was put.
        ensures own { KnowsItsOwn (length (tenants_of self.now)) (seat_of self.now).worker
            (announced_of self.now) (history_of self.now) }
        // Events of the log lead to the state after the worker's last one, and the history's places
        // are decided there.
        ensures reached { LastIsReached (seat_of self.now) }
        ensures decided { AreDecided (seat_of self.now).last (history_of self.now) }
        // Each tenant's table is its opening after that tenant's own commands in the history.
        ensures stands { EachStands (openings_of self.now) (entries (history_of self.now))
            (tables_of self.now) }
    {
        self.replica.history()
    }

    /// Returns the tenant's table, as that tenant's own commands in the history leave it.
    pub fn table(&self, tenant: TenantId) -> &CellItems<'a>
        requires { tenant < length (tenants_of self.now) }
        ensures { Some result.now
            ≡ option_map
            (λ opening. state_from opening (own tenant (entries (history_of self.now))))
            (slice_get (openings_of self.now) tenant) }
    {
        // The contract of `history` says that there is a table for each tenant.
        let _ = self.replica.history();
        self.replica.table(tenant)
    }

    /// Returns whether the worker has replayed all places of its log.
    pub fn is_done(&self) -> bool
        ensures { IsTrue result ↔ HasReplayedAll self.now }
    {
        !self.replica.has_place()
    }

    /// Returns whether its log is closing: fewer places are left, after those that the worker has
    /// learned, than there are workers. In a log with fewer places than workers, whether none is.
    ///
    /// In a log with a place for each worker, each command that was announced before finds its place
    /// if each worker leaves its commands to the next log from then on: a worker announces at most
    /// one once the others have come that far. In a smaller log one may find none.
    pub fn is_closing(&self) -> bool
        ensures { IsTrue result ↔ IsClosing self.now }
    {
        let settings = self.log.settings();
        let (workers, places) = (settings.workers(), settings.places());
        let kept = if workers <= places { workers } else { 1 };
        self.pass.learned() as u64 + kept > places
    }

    /// Returns whether in each of its tables this many more changes can get uniques of 64 bits.
    pub fn has_room(&self, places: u64) -> bool
        ensures { IsTrue result ↔ HaveRoom (tables_of self.now) places }
    {
        self.replica.has_room(places)
    }

    /// Returns whether the worker has learned all places. If so, nothing more is ever logged for
    /// it.
    pub fn is_full(&self) -> bool
        ensures full { result ≡ true →
            length (seat_of self.now).state.learned ≡ (seat_of self.now).size.places }
        ensures room { result ≡ false → HasRoom (seat_of self.now).size (seat_of self.now).state }
    {
        self.pass.is_full()
    }
}
