//! A worker's replica of the shared log: what it has seen of the log's places, replayed on its own
//! tables.
ghost use Rattle.std.specs.Prelude.{◌≡◌, ◌<◌, ◌≤◌, ◌↔◌, [], List, length, None, Some, slice_get, IfOk, IfSome, IsOkUnless, IsTrue};
ghost use Rattle.std.specs.Option.{option_map};
ghost use Rattle.mc_model.specs.History.{state_from};
ghost use Rattle.mc_model.specs.Log.{own};
ghost use Rattle.mc_model.specs.Replay.{EachStands, HaveRoom, answer_to, empty_tables};
ghost use Rattle.mc_model.specs.declared.settings.Limits.{Limits};
ghost use Rattle.mc_items.specs.Asker.{answer_for};
ghost use Rattle.mc_replica.specs.Replica.{Replays, SameCells, entry_of};
ghost use Rattle.uc_cells.specs.Sighting.{entries};

use mc_items::tables::{cell_tables, have_room, tables_over, take_effect};
use mc_items::{CellItems, Hashing, Items};
use mc_model::{Fault, Limits, Reply, TenantId, WorkerId};
use std::alloc::Global;
use std::marker::Model;
use uc_cells::Seen;

/// What a replica was opened over.
#[derive(Drop)]
pub(crate) enum Opening<'a> {
    /// Empty tables with these quotas.
    Empty(Vec<Limits>),
    /// The tables that an earlier log has left.
    Over(&'a [Items]),
}

/// The tables of all tenants after what one worker has seen of the log.
#[derive(Drop)]
pub struct Replica<'a> {
    worker: WorkerId,
    places: u64,
    opening: Opening<'a>,
    /// Has capacity for all places from its opening on.
    history: Vec<Seen<'a>>,
    /// One table per tenant, indexed by tenant number. Their items borrow from the log's commands,
    /// and from the tables that it was opened over.
    tables: Vec<CellItems<'a>>,
}

impl<'a> Model for Replica<'a> {
    ghost use Rattle.std.specs.Prelude.{vec_capacity};
    ghost use Rattle.mc_replica.specs.Replica.{IsSoundReplica, ReplicaState, coded_replica, opened_by};

    ghost Value = { ReplicaState };

    ghost coded = { coded_replica };

    ghost view = { λ r. record { worker = r.worker; places = r.places; openings = opened_by r.opening; history = r.history.items; tables = r.tables.items } };

    ghost invariant = { λ r. IsSoundReplica r.places (vec_capacity r.history) (opened_by r.opening) r.history.items r.tables.items };
}

impl<'a> Replica<'a> {
    /// Returns this worker's replica, which has seen nothing, with an empty table for each tenant's
    /// quotas, which hashes keys so. The history's capacity, `places`, is reserved here, once.
    /// Returns `Memory` if an allocation fails.
    pub fn open(
        alloc: Global,
        hashing: Hashing,
        worker: WorkerId,
        limits: &[Limits],
        places: u64,
    ) -> Result<Replica<'a>, Fault>
        ensures worker { IfOk result (λ replica. replica.worker ≡ worker) }
        ensures places { IfOk result (λ replica. replica.places ≡ places) }
        ensures openings { IfOk result (λ replica. replica.openings ≡ empty_tables limits.now) }
        ensures history { IfOk result (λ replica. replica.history ≡ []) }
        ensures tables { IfOk result (λ replica. replica.tables ≡ empty_tables limits.now) }
        ensures stands { IfOk result
            (λ replica. EachStands replica.openings (entries replica.history) replica.tables) }
        ensures memory { IsOkUnless result Fault.Memory }
    {
        let history = Vec::with_capacity(alloc, places as usize)?;
        let limits_kept = Vec::from_slice(alloc, limits)?;
        let tables = cell_tables(alloc, limits, hashing)?;
        Ok(Replica {
            worker,
            places,
            opening: Opening::Empty(limits_kept),
            history,
            tables,
        })
    }

    /// Returns this worker's replica, which has seen nothing, over the tables of this base: its own
    /// tables borrow their items from them. The history's capacity, `places`, is reserved here,
    /// once. Returns `Memory` if an allocation fails.
    pub fn open_over(
        alloc: Global,
        worker: WorkerId,
        base: &'a [Items],
        places: u64,
    ) -> Result<Replica<'a>, Fault>
        requires { HaveRoom base.now places }
        ensures worker { IfOk result (λ replica. replica.worker ≡ worker) }
        ensures places { IfOk result (λ replica. replica.places ≡ places) }
        ensures openings { IfOk result (λ replica. replica.openings ≡ base.now) }
        ensures history { IfOk result (λ replica. replica.history ≡ []) }
        ensures tables { IfOk result (λ replica. replica.tables ≡ base.now) }
        ensures stands { IfOk result
            (λ replica. EachStands replica.openings (entries replica.history) replica.tables) }
        ensures memory { IsOkUnless result Fault.Memory }
    {
        let tables = tables_over(alloc, base)?;
        Ok(Replica {
            worker,
            places,
            opening: Opening::Over(base),
            history: Vec::with_capacity(alloc, places as usize)?,
            tables,
        })
    }

    /// Appends what was seen at the next place to the history, and carries out its entry on its
    /// tenant's table. An absent entry, or one whose tenant has no table, belongs to nobody and
    /// changes no table. Returns the reply if the entry is this worker's own; a command of another
    /// worker is applied without one. Returns `Memory` if an allocation fails; nothing changes
    /// then. The history itself never allocates.
    pub fn replay(&mut self, seen: Seen<'a>) -> Result<Option<Reply<'a>>, Fault>
        requires { length self.old.history < self.old.places }
        ensures reply { IfOk result (λ reply.
            reply ≡ answer_to self.old.worker self.old.openings (entries self.old.history)
            (entry_of seen.entry)) }
        ensures replays { Replays (Some self.old.worker) seen.entry self.old self.new result }
    {
        let worker = self.worker;
        self.replay_for(Some(worker), seen)
    }

    /// Appends what was seen at the next place and carries out its entry as `replay` does, without
    /// a reply: so a retrieval needs no memory, however large its reply would be. Returns `Memory`
    /// if an allocation fails; nothing changes then.
    pub fn advance(&mut self, seen: Seen<'a>) -> Result<(), Fault>
        requires { length self.old.history < self.old.places }
        ensures { Replays None seen.entry self.old self.new result }
    {
        self.replay_for(None, seen)?;
        Ok(())
    }

    /// Replays the next place, and returns the reply if the entry is the asker's own.
    fn replay_for(
        &mut self,
        asker: Option<WorkerId>,
        seen: Seen<'a>,
    ) -> Result<Option<Reply<'a>>, Fault>
        requires { length self.old.history < self.old.places }
        ensures reply { IfOk result (λ reply.
            reply ≡ answer_for asker self.old.openings (entries self.old.history)
            (entry_of seen.entry)) }
        ensures replays { Replays asker seen.entry self.old self.new result }
    {
        let reply = take_effect(&mut self.tables, asker, seen.entry())?;
        self.history.push_reserved(seen);
        Ok(reply)
    }

    /// Returns what was seen at each place that was replayed.
    pub fn history(&self) -> &[Seen<'a>]
        ensures history { result.now ≡ self.now.history }
        ensures few { length self.now.history ≤ self.now.places }
        ensures stands { EachStands self.now.openings (entries self.now.history) self.now.tables }
    {
        self.history.as_slice()
    }

    /// Returns the number of places that were replayed.
    pub fn len(&self) -> usize
        ensures { result ≡ length self.now.history }
    {
        self.history().len()
    }

    /// Establishes that two histories of the same cells are equal, whichever threads saw them, and
    /// that so are their tables if they were opened over the same tables. Allocates nothing.
    pub fn agree(&mut self, other: &mut Replica<'_>)
        requires long { length self.old.history ≡ length other.old.history }
        requires cells { SameCells self.old.history other.old.history }
        ensures equal { self.old.history ≡ other.old.history }
        ensures tables { self.old.openings ≡ other.old.openings →
            self.old.tables ≡ other.old.tables }
        ensures one { self.new ≡ self.old }
        ensures two { other.new ≡ other.old }
    {
        agree_all(self.history.as_mut_slice(), other.history.as_mut_slice());
    }

    /// Returns the tenant's table.
    pub fn table(&self, tenant: TenantId) -> &CellItems<'a>
        requires { tenant < length self.now.tables }
        ensures table { slice_get self.now.tables tenant ≡ Some result.now }
        ensures stands { Some result.now
            ≡ option_map (λ opening. state_from opening (own tenant (entries self.now.history)))
            (slice_get self.now.openings tenant) }
    {
        &self.tables[usize::from(tenant.number())]
    }

    /// Returns whether the tenant has a table.
    pub fn has_tenant(&self, tenant: TenantId) -> bool
        ensures { IsTrue result ↔ (tenant < length self.now.tables) }
    {
        usize::from(tenant.number()) < self.tables.len()
    }

    /// Returns whether there is a place that wasn't replayed.
    pub fn has_place(&self) -> bool
        ensures { IsTrue result ↔ (length self.now.history < self.now.places) }
    {
        (self.history.len() as u64) < self.places
    }

    /// Returns each tenant's table, indexed by tenant number.
    pub fn tables(&self) -> &[CellItems<'a>]
        ensures { result.now ≡ self.now.tables }
    {
        self.tables.as_slice()
    }

    /// Returns whether in each of its tables this many more changes can get uniques of 64 bits.
    pub fn has_room(&self, places: u64) -> bool
        ensures { IsTrue result ↔ HaveRoom self.now.tables places }
    {
        have_room(self.tables(), places)
    }

    /// Returns the worker whose replica this is.
    pub fn worker(&self) -> WorkerId
        ensures { result ≡ self.now.worker }
    {
        let Replica { worker, .. } = self;
        *worker
    }

    /// Returns the tables that it was opened over, indexed by tenant number, or `None` if those
    /// were empty.
    pub fn base(&self) -> Option<&'a [Items]>
        ensures over { IfSome result (λ base. base.now ≡ self.now.openings) }
        ensures empty { result ≡ None →
            (limits : List Limits) × (self.now.openings ≡ empty_tables limits) }
    {
        match &self.opening {
            Opening::Empty(_) => None,
            Opening::Over(base) => Some(*base),
        }
    }

    /// Returns the number of places that its history may have.
    pub fn places(&self) -> u64
        ensures { result ≡ self.now.places }
    {
        let Replica { places, .. } = self;
        *places
    }
}

/// Establishes that sightings of the same cells are equal, place by place.
fn agree_all(ones: &mut [Seen<'_>], others: &mut [Seen<'_>])
    requires long { length ones.old ≡ length others.old }
    requires cells { SameCells ones.old others.old }
    ensures equal { ones.old ≡ others.old }
    ensures one { ones.new ≡ ones.old }
    ensures two { others.new ≡ others.old }
{
    for place in 0..ones.len() {
        ones[place].agree(&mut others[place]);
    }
}
