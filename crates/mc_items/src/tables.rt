//! The tables of all tenants, indexed by tenant number.
ghost use Rattle.std.specs.Option.{option_copied};
ghost use Rattle.std.specs.Prelude.{◌≡◌, ◌↔◌, false, ℕ, ◌-◌, ◌^◌, ◌<◌, List, Option, Some, slice_get, IfOk, IfSome, OnOk, OnErr, IsOk, IsOkUnless, IsTrue};
ghost use Rattle.mc_model.specs.Kinds.{IsRetrieval, NeedsNoMemory};
ghost use Rattle.mc_items.specs.Asker.{answer_for, is_own, reply_for};
ghost use Rattle.mc_model.specs.Replay.{EachStands, HaveRoom, IsRefused, TakeEffect, empty_tables};
ghost use Rattle.mc_model.specs.State.{TableState, empty_table};
ghost use Rattle.mc_model.specs.declared.request.Entry.{Entry};
ghost use Rattle.mc_model.specs.declared.settings.Limits.{Limits};

use mc_model::{Entry, Fault, Limits, Reply, WorkerId};
use mc_tables::{CellItems, Hashing, Metered, OwnedItems, Storage, StorageFor, Table};
use std::alloc::Global;

/// Returns a tenant's table before any command, whose items are in memory of their own.
fn empty(alloc: Global, limits: &Limits, hashing: Hashing) -> OwnedItems
    ensures { result ≡ empty_table limits.now }
{
    OwnedItems::new(alloc, *limits, hashing)
}

/// Returns an empty table for each tenant's quotas, whose items are in memory of their own. Returns
/// `Memory` if the allocation fails.
pub fn owned_tables(
    alloc: Global,
    limits: &[Limits],
    hashing: Hashing,
) -> Result<Vec<OwnedItems>, Fault>
    ensures tables { IfOk result (λ tables. tables.items ≡ empty_tables limits.now) }
    ensures memory { IsOkUnless result Fault.Memory }
{
    let tables = limits
        .iter()
        .map(|limits| empty(alloc, limits, hashing))
        .collect(alloc)?;
    Ok(tables)
}

/// Returns an empty table for each tenant's quotas, whose items borrow from commands. Returns
/// `Memory` if the allocation fails.
pub fn cell_tables<'a>(
    alloc: Global,
    limits: &[Limits],
    hashing: Hashing,
) -> Result<Vec<CellItems<'a>>, Fault>
    ensures tables { IfOk result (λ tables. tables.items ≡ empty_tables limits.now) }
    ensures memory { IsOkUnless result Fault.Memory }
{
    let mut tables = Vec::with_capacity(alloc, limits.len())?;
    for quotas in limits {
        tables.push(CellItems::new(alloc, *quotas, hashing))?;
    }
    Ok(tables)
}

/// Returns the same tables, which borrow their items from those. Returns `Memory` if an allocation
/// fails.
pub fn tables_over<'a>(alloc: Global, base: &'a [OwnedItems]) -> Result<Vec<CellItems<'a>>, Fault>
    ensures same { IfOk result (λ tables. tables.items ≡ base.now) }
    ensures memory { IsOkUnless result Fault.Memory }
{
    let mut tables = Vec::with_capacity(alloc, base.len())?;
    for table in base {
        tables.push(CellItems::over(table)?)?;
    }
    Ok(tables)
}

/// Returns the same tables in memory of their own. Returns `Memory` if an allocation fails.
pub fn copies_of(alloc: Global, tables: &[CellItems<'_>]) -> Result<Vec<OwnedItems>, Fault>
    ensures same { IfOk result (λ copies. copies.items ≡ tables.now) }
    ensures memory { IsOkUnless result Fault.Memory }
{
    let mut copies = Vec::with_capacity(alloc, tables.len())?;
    for table in tables {
        copies.push(table.copied()?)?;
    }
    Ok(copies)
}

/// Returns whether in each of the tables this many more changes can get uniques of 64 bits.
pub fn have_room<S: Storage>(tables: &[Metered<S>], places: u64) -> bool
    ensures { IsTrue result ↔ HaveRoom tables.now places }
{
    tables
        .iter()
        .all(|table| table.last_unique() <= u64::MAX - places)
}

/// Returns whether the entry is the asker's own.
fn is_own(asker: Option<WorkerId>, entry: &Entry) -> bool
    ensures { result ≡ is_own asker entry.now }
{
    match asker {
        Some(worker) => entry.ticket.worker == worker,
        None => false,
    }
}

/// Carries out an entry on its tenant's table, and returns the reply if the entry is the asker's
/// own. No entry, or one whose tenant has no table, changes nothing. Without an asker there is no
/// reply, so a retrieval, whose reply may be large, needs no memory. Returns `Memory` if an
/// allocation fails; nothing changes then.
pub fn take_effect<'a, S: StorageFor<'a>>(
    tables: &mut Vec<Metered<S>>,
    asker: Option<WorkerId>,
    found: Option<&'a Entry>,
) -> Result<Option<Reply<'a>>, Fault>
    requires { (tenant : ℕ) (state : TableState) → slice_get tables.old.items tenant ≡ Some state →
        state.last_unique < 2 ^ 64 - 1 }
    ensures reply { IfOk result
        (λ reply. (openings : List TableState) (log : List (Option Entry)) →
        EachStands openings log tables.old.items →
        reply ≡ answer_for asker openings log (option_copied found.entry)) }
    // The same by these tables alone.
    ensures answer { IfOk result
        (λ reply. reply ≡ reply_for asker tables.old.items (option_copied found.entry)) }
    ensures tables { OnOk result
        (TakeEffect (option_copied found.entry) tables.old.items tables.new.items) }
    ensures no_memory { IfSome (option_copied found.entry) (λ entry. NeedsNoMemory entry.command) →
        IsOk result }
    ensures reads { IfSome (option_copied found.entry)
        (λ entry. IsRetrieval entry.command × (is_own asker entry ≡ false)) → IsOk result }
    ensures refused { (openings : List TableState) (log : List (Option Entry)) →
        EachStands openings log tables.old.items →
        IsRefused openings log (option_copied found.entry) → IsOk result }
    ensures memory { IsOkUnless result Fault.Memory }
    ensures unchanged { OnErr result (tables.new.items ≡ tables.old.items) }
{
    let Some(entry) = found else {
        return Ok(None);
    };
    let number = usize::from(entry.tenant.number());
    if number >= tables.len() {
        return Ok(None);
    }
    let table = &mut tables[number];
    if is_own(asker, entry) {
        let reply = table.apply(&entry.command)?;
        Ok(Some(reply))
    } else {
        table.advance(&entry.command)?;
        Ok(None)
    }
}
