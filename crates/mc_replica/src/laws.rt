//! What any two replicas agree on.
ghost use Rattle.std.specs.Prelude.{◌≡◌, ℕ, List, Option, Some, slice_get};
ghost use Rattle.mc_model.specs.declared.request.Entry.{Entry};
ghost use Rattle.mc_model.specs.Log.{own};
ghost use Rattle.mc_model.specs.Replay.{EachStands, reply_to};
ghost use Rattle.mc_model.specs.State.{TableState};
ghost use Rattle.uc_cells.specs.Sighting.{entries};

use crate::Replica;

/// Two replicas whose histories have the same own commands of a tenant, and that opened the tenant
/// over the same table, have equal tables of it, whatever other tenants there are and whatever
/// those did; and the replies to one and the same next entry of the tenant are equal. So replicas
/// of one history that were opened over the same tables have equal tables.
pub fn replicas_agree(one: &Replica<'_>, other: &Replica<'_>)
    ensures tables { (tenant : ℕ) →
        own tenant (entries one.now.history) ≡ own tenant (entries other.now.history) →
        slice_get one.now.openings tenant ≡ slice_get other.now.openings tenant →
        slice_get one.now.tables tenant ≡ slice_get other.now.tables tenant }
    ensures whole { one.now.openings ≡ other.now.openings → one.now.history ≡ other.now.history →
        one.now.tables ≡ other.now.tables }
    ensures replies { (entry : Entry) →
        own entry.tenant (entries one.now.history) ≡ own entry.tenant (entries other.now.history) →
        slice_get one.now.openings entry.tenant ≡ slice_get other.now.openings entry.tenant →
        reply_to one.now.openings (entries one.now.history) (Some entry)
        ≡ reply_to other.now.openings (entries other.now.history) (Some entry) }
{
    // Their invariants say what their tables stand for.
    let _ = one.history();
    let _ = other.history();
}

/// The tables after a log are determined by that log and by the tables that it was opened over.
pub fn a_log_leaves_one_list_of_tables()
    ensures { (openings : List TableState) (log : List (Option Entry))
        (tables others : List TableState) →
        EachStands openings log tables → EachStands openings log others → tables ≡ others }
{}
