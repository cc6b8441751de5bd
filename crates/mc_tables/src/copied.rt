//! Copies of tables, in memory of their own, of which much is shared.
ghost use Rattle.std.specs.Cmp.Lexicographic.{pointwise};
ghost use Rattle.std.specs.FinMap as map;
ghost use Rattle.std.specs.Map.{lookup};
ghost use Rattle.std.specs.Prelude.{◌≡◌, ◌+◌, ◌*◌, ◌<◌, ◌≤◌, cond, drop, length, nat_eq, Some, IfOk, OnOk, IsOkUnless};
ghost use Rattle.mc_model.specs.declared.key.Key.{Key};
ghost use Rattle.mc_tables.specs.Entries.{item_of_cell, laid_over, lent_key, without};
ghost use Rattle.mc_tables.specs.Layers.{below, layers, left, owned_table, placed};
ghost use Rattle.mc_tables.specs.Maps.{map_table};

use crate::base::Base;
use crate::cell_item::CellItem;
use crate::hashing::Hashing;
use crate::item_map::ItemMap;
use crate::layered::Layered;
use crate::marks::is_set;
use crate::owned::Owned;
use indexmap::IndexMap;
use mc_model::{Fault, Item, Key};
use std::alloc::Global;

/// A base is shared until one in this many of its items was changed: then it is merged with them.
const SHARED_PARTS: usize = 8;

impl<'a> Layered<'a> {
    /// Returns copies of the items, of which there are this many. They share the base of the table
    /// below, unless too much was changed. Returns `Memory` if an allocation fails.
    pub(crate) fn copied(&self, count: usize) -> Result<Owned, Fault>
        ensures same { IfOk result (λ copy.
            owned_table copy ≡ layers self.now.base self.now.marks.items self.now.over) }
        ensures memory { IsOkUnless result Fault.Memory }
    {
        let mut copy = self.copy_below()?;
        copy_over(self.alloc, &self.over, &mut copy)?;
        copy.settled(count)
    }

    /// Returns a copy of what is left of the table below, with room for what lies over it. Returns
    /// `Memory` if an allocation fails.
    fn copy_below(&self) -> Result<Owned, Fault>
        ensures left { IfOk result (λ copy.
            owned_table copy ≡ below self.now.base self.now.marks.items) }
        ensures memory { IsOkUnless result Fault.Memory }
    {
        let more = self.over.len();
        match self.base {
            None => Owned::with_capacity(self.alloc, more, self.hashing),
            Some(base) => copy_unmarked(base, &self.marks, more),
        }
    }
}

/// Returns a copy of a table without what is marked, with room for this many more changes. Returns
/// `Memory` if an allocation fails.
fn copy_unmarked(base: &Owned, marks: &[u64], more: usize) -> Result<Owned, Fault>
    requires { length (placed base.now) ≤ 64 * length marks.now }
    ensures left { IfOk result (λ copy.
        owned_table copy ≡ without (owned_table base.now) (placed base.now) marks.now) }
    ensures memory { IsOkUnless result Fault.Memory }
{
    let mut copy = base.shared(more)?;
    for place in 0..base.places() {
        if is_set(marks, place) {
            if let Some(key) = base.key_at(place) {
                copy.take_out(key);
            }
        }
    }
    Ok(copy)
}

/// Puts copies of all entries into a copy. Returns `Memory` if an allocation fails.
fn copy_over<'a>(
    alloc: Global,
    over: &IndexMap<&'a Key, CellItem<'a>, Hashing>,
    copy: &mut Owned,
) -> Result<(), Fault>
    ensures over { OnOk result (owned_table copy.new
        ≡ laid_over lent_key item_of_cell (owned_table copy.old) over.now.entries) }
    ensures memory { IsOkUnless result Fault.Memory }
{
    for place in 0..over.len() {
        let (key, kept) = entry_over(over, place);
        copy.put_new(key, item_of(alloc, kept)?)?;
    }
    Ok(())
}

/// Returns the key at a place, and what is kept under it.
fn entry_over<'s, 'a>(
    over: &'s IndexMap<&'a Key, CellItem<'a>, Hashing>,
    place: usize,
) -> (&'s Key, &'s CellItem<'a>)
    requires { place < length over.now.entries }
    ensures kept { lookup (λ held. pointwise nat_eq result.0.now (lent_key held))
        over.now.entries ≡ Some result.1.now }
    ensures first { (key : Key) →
        lookup (λ held. pointwise nat_eq key (lent_key held)) (drop place over.now.entries)
        ≡ cond (pointwise nat_eq key result.0.now) (Some result.1.now)
        (lookup (λ held. pointwise nat_eq key (lent_key held))
        (drop (place + 1) over.now.entries)) }
{
    match over.get_index(place) {
        Some((key, kept)) => (*key, kept),
        None => unreachable!(),
    }
}

/// Returns an item with a copy of the data. Returns `Memory` if the allocation fails.
fn item_of(alloc: Global, kept: &CellItem<'_>) -> Result<Item, Fault>
    ensures same { IfOk result (λ item. item ≡ item_of_cell kept.now) }
    ensures memory { IsOkUnless result Fault.Memory }
{
    Ok(Item {
        flags: kept.flags,
        block: kept.block.to_data(alloc)?,
        unique: kept.unique,
    })
}

impl Owned {
    /// Returns no items, with room for this many. Returns `Memory` if an allocation fails.
    fn with_capacity(alloc: Global, capacity: usize, hashing: Hashing) -> Result<Owned, Fault>
        ensures none { IfOk result (λ copy. owned_table copy ≡ map.empty) }
        ensures memory { IsOkUnless result Fault.Memory }
    {
        Ok(Owned {
            alloc,
            base: None,
            changes: ItemMap::with_capacity(alloc, capacity, hashing)?,
        })
    }

    /// Returns a copy of the items, with room for this many more changes, which shares the base.
    /// Returns `Memory` if an allocation fails.
    pub(crate) fn shared(&self, more: usize) -> Result<Owned, Fault>
        ensures same { IfOk result (λ copy. owned_table copy ≡ owned_table self.now) }
        ensures memory { IsOkUnless result Fault.Memory }
    {
        let room = self.changes.len().saturating_add(more);
        let mut changes = ItemMap::with_capacity(self.alloc, room, self.hashing())?;
        self.changes.copy_into(&mut changes)?;
        let base = share(self.alloc, &self.base)?;
        Ok(Owned {
            alloc: self.alloc,
            base,
            changes,
        })
    }

    /// Returns the same items, of which there are this many: all of them in a new base, if there is
    /// none yet or too much of it was changed. Returns `Memory` if an allocation fails.
    fn settled(self, count: usize) -> Result<Owned, Fault>
        ensures same { IfOk result (λ settled. owned_table settled ≡ owned_table self) }
        ensures memory { IsOkUnless result Fault.Memory }
    {
        let Owned {
            alloc,
            base,
            changes,
        } = self;
        let Some(base) = base else {
            return Owned::on(alloc, changes);
        };
        if !is_worn(&base, &changes) {
            return Ok(Owned {
                alloc,
                base: Some(base),
                changes,
            });
        }
        let mut items = ItemMap::with_capacity(alloc, count, changes.hashing())?;
        base.copy_into(&mut items)?;
        changes.copy_into(&mut items)?;
        Owned::on(alloc, items)
    }

    /// Returns these items as a base without changes. Returns `Memory` if an allocation fails.
    fn on(alloc: Global, items: ItemMap) -> Result<Owned, Fault>
        ensures same { IfOk result (λ settled. owned_table settled ≡ map_table items) }
        ensures memory { IsOkUnless result Fault.Memory }
    {
        let hashing = items.hashing();
        Ok(Owned {
            alloc,
            base: Some(Base::new(alloc, items)?),
            changes: ItemMap::new(alloc, hashing),
        })
    }
}

/// Returns the same base, whose items are shared. Returns `Memory` if an allocation fails.
fn share(alloc: Global, base: &Option<Base>) -> Result<Option<Base>, Fault>
    ensures same { IfOk result (λ shared. left shared ≡ left base.now) }
    ensures memory { IsOkUnless result Fault.Memory }
{
    match base {
        None => Ok(None),
        Some(base) => Ok(Some(base.shared(alloc)?)),
    }
}

/// Returns whether so much of a base was removed, replaced or put over it that it isn't to be
/// shared.
fn is_worn(base: &Base, changes: &ItemMap) -> bool {
    changes.len().saturating_add(base.removed()) > base.len() / SHARED_PARTS
}
