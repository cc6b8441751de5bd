//! Items that borrow from commands, over a table that was there before.
ghost use Rattle.std.specs.Cmp.Lexicographic.{pointwise};
ghost use Rattle.std.specs.FinMap as map;
ghost use Rattle.std.specs.Map.{lookup};
ghost use Rattle.std.specs.Option.{is_some, option_copied, option_map};
ghost use Rattle.std.specs.Prelude.{◌≡◌, [], ◌+◌, ◌<◌, ◌≤◌, ◌++◌, length, nat_eq, position, slice_get, IfNone, IfOk, IfSome, OnOk, OnErr, IsOkUnless, None, Some, if◌then◌else◌};
ghost use Rattle.indexmap.specs.IndexMap.{keys, values};
ghost use Rattle.mc_model.specs.declared.item.TheConstants.{DATA_BYTES};
ghost use Rattle.mc_model.specs.Effect.{shown_item};
ghost use Rattle.mc_model.specs.History.{StandsFor};
ghost use Rattle.mc_model.specs.State.{empty_table};
ghost use Rattle.mc_model.specs.Table.{Table};
ghost use Rattle.mc_tables.specs.Changes.{block_under, data_after, flags_under, with_change};
ghost use Rattle.mc_tables.specs.declared.storage.Change.TheVariants.{Append, Prepend};
ghost use Rattle.mc_tables.specs.Entries.{item_of_cell, lent_key};
ghost use Rattle.mc_tables.specs.Found.{found_of};
ghost use Rattle.mc_tables.specs.Layers.{AreMarked, below, layers, owned_table};
ghost use Rattle.mc_tables.specs.Deltas.{renumbered_at};
ghost use Rattle.mc_tables.specs.Meters.{IsMeterBy, IsMeterIf, IsMeterOf};
ghost use Rattle.mc_tables.specs.Views.{item_in_view};

use crate::cell_item::CellItem;
use crate::hashing::Hashing;
use crate::marks::{is_set, no_marks, set};
use crate::meter::Meter;
use crate::metered::Metered;
use crate::owned::{Owned, OwnedItems};
use crate::storage::{Change, Delta, Found, Storage, StorageFor};
use crate::view::View;
use indexmap::IndexMap;
use mc_model::{Data, Fault, Fragments, Item, Key, Limits, Reply, Value, WireNo};
use std::alloc::Global;

/// Items that borrow from commands, in a hash map with a keyed hash, over a base. A mark for each
/// item of the base says that it was removed, so a removal allocates nothing.
#[derive(Drop)]
pub struct Layered<'a> {
    pub(crate) alloc: Global,
    pub(crate) hashing: Hashing,
    pub(crate) base: Option<&'a Owned>,
    pub(crate) marks: Vec<u64>,
    pub(crate) over: IndexMap<&'a Key, CellItem<'a>, Hashing>,
    ghost marked: { AreMarked base marks.items },
}

/// A tenant's table whose keys and data are borrowed: from the commands that it was given, and from
/// the table that it was opened over.
pub type CellItems<'a> = Metered<Layered<'a>>;

impl<'a> Metered<Layered<'a>> {
    /// Returns an empty table, which hashes keys so. Allocates nothing.
    pub fn new(alloc: Global, limits: Limits, hashing: Hashing) -> CellItems<'a>
        ensures state { result ≡ empty_table limits }
        ensures stands { StandsFor limits [] result }
    {
        Metered::open(alloc, limits, Layered::new(alloc, hashing))
    }

    /// Returns the same table, which borrows its items from that one and hashes keys as that does.
    /// Returns `Memory` if the allocation of the marks fails.
    pub fn over(base: &'a OwnedItems) -> Result<CellItems<'a>, Fault>
        ensures same { IfOk result (λ table. table ≡ base.now) }
        ensures memory { IsOkUnless result Fault.Memory }
    {
        let layered = Layered::over(base.alloc, &base.storage)?;
        Ok(base.with_storage(layered))
    }

    /// Returns the item under the key, if it is held, for as long as the table is borrowed.
    pub fn get<'s>(&'s self, key: &Key) -> Option<View<'s, 'a>>
        ensures { option_map item_in_view result ≡ map.get self.now.table key.now }
    {
        self.storage.view(key)
    }

    /// Returns the same table in memory of its own, which hashes keys as this one does. Returns
    /// `Memory` if an allocation fails.
    pub fn copied(&self) -> Result<OwnedItems, Fault>
        ensures same { IfOk result (λ items. items ≡ self.now) }
        ensures memory { IsOkUnless result Fault.Memory }
    {
        let copy = self.storage.copied(self.count() as usize)?;
        Ok(self.with_storage(copy))
    }
}

impl<'a> Layered<'a> {
    /// Returns no items, whose keys are to be hashed so. Allocates nothing.
    pub fn new(alloc: Global, hashing: Hashing) -> Layered<'a>
        ensures { layers result.base result.marks.items result.over ≡ map.empty }
    {
        Layered {
            alloc,
            hashing,
            base: None,
            marks: Vec::new(alloc),
            over: IndexMap::with_hasher(alloc, hashing),
        }
    }

    /// Returns the items of a base, which it borrows. Returns `Memory` if the allocation of the
    /// marks fails.
    pub fn over(alloc: Global, base: &'a Owned) -> Result<Layered<'a>, Fault>
        ensures same { IfOk result
            (λ items. layers items.base items.marks.items items.over ≡ owned_table base.now) }
        ensures memory { IsOkUnless result Fault.Memory }
    {
        let marks = no_marks(alloc, base.places())?;
        let hashing = base.hashing();
        Ok(Layered {
            alloc,
            hashing,
            base: Some(base),
            marks,
            over: IndexMap::with_hasher(alloc, hashing),
        })
    }

    /// Returns the item under the key, if it is held.
    fn view<'s>(&'s self, key: &Key) -> Option<View<'s, 'a>>
        ensures { option_map item_in_view result
            ≡ map.get (layers self.now.base self.now.marks.items self.now.over) key.now }
    {
        if let Some(kept) = self.kept(key) {
            return Some(View::Over(kept));
        }
        match self.under(key) {
            Some(item) => Some(View::Below(item)),
            None => None,
        }
    }

    /// Returns what was put under a key over the base, if anything was.
    fn kept(&self, key: &Key) -> Option<&CellItem<'a>>
        ensures { option_copied result
            ≡ lookup (λ held. pointwise nat_eq key.now (lent_key held)) self.now.over.entries }
    {
        let Some(place) = self.over_place(key) else {
            return None;
        };
        Some(&self.over[place])
    }

    /// Returns the place among what was put over the base of a key. Hashes none if nothing was put.
    fn over_place(&self, key: &Key) -> Option<usize>
        ensures place { result
            ≡ position (λ held. pointwise nat_eq key.now (lent_key held)) (keys self.now.over) }
        ensures kept { IfSome result (λ place. slice_get (values self.now.over) place
            ≡ lookup (λ held. pointwise nat_eq key.now (lent_key held)) self.now.over.entries) }
        ensures none { IfNone result
            (lookup (λ held. pointwise nat_eq key.now (lent_key held)) self.now.over.entries ≡ None) }
        ensures within { IfSome result (λ place. place < length self.now.over.entries) }
    {
        if self.over.len() == 0 {
            return None;
        }
        self.over.get_index_of(&key)
    }

    /// Returns what is left of the base under a key.
    fn under(&self, key: &Key) -> Option<&'a Item>
        ensures { option_copied result ≡ map.get (below self.now.base self.now.marks.items) key.now }
    {
        match self.base {
            None => None,
            Some(base) => match base.place(key) {
                None => None,
                Some((place, item)) => {
                    if is_set(&self.marks, place) {
                        None
                    } else {
                        Some(item)
                    }
                }
            },
        }
    }

    /// Puts an item under a key, over what it held. Returns `Memory` if an allocation fails;
    /// nothing changes then.
    fn put(&mut self, key: &'a Key, kept: CellItem<'a>) -> Result<(), Fault>
        ensures put { OnOk result (layers self.new.base self.new.marks.items self.new.over
            ≡ map.insert (layers self.old.base self.old.marks.items self.old.over) key.now
            (item_of_cell kept.entry)) }
        ensures memory { IsOkUnless result Fault.Memory }
        ensures unchanged { OnErr result (layers self.new.base self.new.marks.items self.new.over
            ≡ layers self.old.base self.old.marks.items self.old.over) }
    {
        self.over.insert(key, kept)?;
        Ok(())
    }

    /// Marks a key of the base, if it has it.
    fn mark(&mut self, key: &Key)
        ensures base { self.new.base ≡ self.old.base }
        ensures over { self.new.over ≡ self.old.over }
        ensures marked { below self.new.base self.new.marks.items
            ≡ map.remove (below self.old.base self.old.marks.items) key.now }
    {
        if let Some(base) = self.base {
            if let Some((place, _)) = base.place(key) {
                set(&mut self.marks, place);
            }
        }
    }

    /// Returns what a look-up tells of what is left of the base under a key.
    fn find_under(&self, key: &Key) -> Option<Found>
        ensures { result
            ≡ option_map found_of (map.get (below self.now.base self.now.marks.items) key.now) }
    {
        match self.under(key) {
            Some(item) => Some(Found::of(item)),
            None => None,
        }
    }

    /// Appends a block to a key's data, without copying either.
    fn append(&mut self, key: &'a Key, block: &'a Data, unique: u64) -> Result<(), Fault>
        requires { length (data_after
            (map.get (layers self.old.base self.old.marks.items self.old.over) key.now)
            (Append block)) ≤ DATA_BYTES }
        ensures joined { OnOk result (layers self.new.base self.new.marks.items self.new.over
            ≡ with_change (layers self.old.base self.old.marks.items self.old.over) key.now
            (Append block.entry) unique) }
        ensures memory { IsOkUnless result Fault.Memory }
        ensures unchanged { OnErr result (layers self.new.base self.new.marks.items self.new.over
            ≡ layers self.old.base self.old.marks.items self.old.over) }
    {
        let alloc = self.alloc;
        if let Some(kept) = self.over.get_mut(&key) {
            return push_back(alloc, kept, block, unique);
        }
        let mut kept = self.borrowed(key, unique);
        kept.block.append(alloc, block)?;
        self.put(key, kept)
    }

    /// Prepends a block to a key's data, without copying either.
    fn prepend(&mut self, key: &'a Key, block: &'a Data, unique: u64) -> Result<(), Fault>
        requires { length (data_after
            (map.get (layers self.old.base self.old.marks.items self.old.over) key.now)
            (Prepend block)) ≤ DATA_BYTES }
        ensures joined { OnOk result (layers self.new.base self.new.marks.items self.new.over
            ≡ with_change (layers self.old.base self.old.marks.items self.old.over) key.now
            (Prepend block.entry) unique) }
        ensures memory { IsOkUnless result Fault.Memory }
        ensures unchanged { OnErr result (layers self.new.base self.new.marks.items self.new.over
            ≡ layers self.old.base self.old.marks.items self.old.over) }
    {
        let alloc = self.alloc;
        if let Some(kept) = self.over.get_mut(&key) {
            return push_front(alloc, kept, block, unique);
        }
        let mut kept = self.borrowed(key, unique);
        kept.block.prepend(alloc, block)?;
        self.put(key, kept)
    }

    /// Returns what is left of the base under a key, borrowed from it and with this unique; no data
    /// if the base hasn't the key.
    fn borrowed(&self, key: &Key, unique: u64) -> CellItem<'a>
        ensures flags { result.flags
            ≡ flags_under (map.get (below self.now.base self.now.marks.items) key.now) }
        ensures block { result.block
            ≡ block_under (map.get (below self.now.base self.now.marks.items) key.now) }
        ensures unique { result.unique ≡ unique }
    {
        match self.under(key) {
            Some(item) => CellItem {
                flags: item.flags,
                unique,
                block: Fragments::new(&item.block),
            },
            None => CellItem {
                flags: 0,
                unique,
                block: Fragments::empty(),
            },
        }
    }
}

impl<'a> Storage for Layered<'a> {
    ghost table = { λ items. layers items.base items.marks.items items.over };

    fn find(&self, key: &Key) -> Option<Found> {
        if let Some(kept) = self.kept(key) {
            return Some(found_in(kept));
        }
        self.find_under(key)
    }

    fn remove(&mut self, key: &Key) {
        self.mark(key);
        if let Some(place) = self.over_place(key) {
            self.over.swap_remove_index(place);
        }
    }

    fn clear(&mut self) {
        // A new map: to clear one takes as long as it once had entries, however few it has now.
        *self = Layered::new(self.alloc, self.hashing);
    }
}

impl<'a> StorageFor<'a> for Layered<'a> {
    fn show(&mut self, key: &Key, uniques: bool) -> Result<Option<Value<'a>>, Fault> {
        let alloc = self.alloc;
        if let Some(place) = self.over_place(key) {
            let Some(kept) = self.over.get_index_mut(place) else {
                unreachable!()
            };
            return Ok(Some(show_kept(alloc, key, kept, uniques)?));
        }
        match self.under(key) {
            Some(item) => Ok(Some(show_item(key, item, uniques)?)),
            None => Ok(None),
        }
    }

    fn change(&mut self, key: &'a Key, change: &Change<'a>, unique: u64) -> Result<(), Fault> {
        match change {
            Change::Put(flags, block) => self.put(
                key,
                CellItem {
                    flags: *flags,
                    unique,
                    block: Fragments::new(*block),
                },
            ),
            Change::Append(block) => self.append(key, *block, unique),
            Change::Prepend(block) => self.prepend(key, *block, unique),
        }
    }

    // An item that was put since is overwritten where it stands, without a second look-up.
    fn put_within(
        &mut self,
        key: &'a Key,
        flags: u32,
        block: &'a Data,
        unique: u64,
        meter: &Meter,
    ) -> Result<Option<Meter>, Fault> {
        let item = CellItem {
            flags,
            unique,
            block: Fragments::new(block),
        };
        if let Some(kept) = self.over.get_mut(&key) {
            return Ok(overwrite(kept, item, key, meter));
        }
        let old = self.find_under(key);
        let Some(after) = meter.with(key, old, item.block.len()) else {
            return Ok(None);
        };
        self.put(key, item)?;
        Ok(Some(after))
    }

    // So is a number.
    fn renumber(
        &mut self,
        key: &'a Key,
        delta: Delta,
        unique: u64,
        meter: &Meter,
    ) -> Result<(Reply<'a>, Option<Meter>), Fault> {
        if let Some(kept) = self.over.get_mut(&key) {
            return Ok(renumber_kept(kept, key, delta, unique, meter));
        }
        let Some(item) = self.under(key) else {
            return Ok((Reply::NotFound, None));
        };
        let mut kept = lent(item);
        let (reply, after) = renumber_kept(&mut kept, key, delta, unique, meter);
        if after.is_none() {
            return Ok((reply, None));
        }
        self.put(key, kept)?;
        Ok((reply, after))
    }
}

/// Returns what a look-up tells of what is kept.
fn found_in(kept: &CellItem<'_>) -> Found
    ensures { result ≡ found_of (item_of_cell kept.now) }
{
    Found {
        flags: kept.flags,
        len: kept.block.len() as u32,
        unique: kept.unique,
    }
}

/// Writes an item over what is kept under a key, if the quotas of `meter` allow it, and returns the
/// totals then. Returns `None` if they don't; nothing changes then.
fn overwrite<'a>(
    kept: &mut CellItem<'a>,
    item: CellItem<'a>,
    key: &Key,
    meter: &Meter,
) -> Option<Meter>
    requires { length item.block ≤ DATA_BYTES }
    ensures meter { (table : Table) → IsMeterOf meter.now table →
        map.get table key.now ≡ Some (item_of_cell kept.old) → IsMeterIf result meter.now.limits
        (map.insert table key.now (item_of_cell item.entry)) }
    ensures put { kept.new ≡ (if is_some result then item.entry else kept.old) }
{
    let after = meter.with(key, Some(found_in(kept)), item.block.len())?;
    *kept = item;
    Some(after)
}

/// Returns an item of the base, which is borrowed.
fn lent<'a>(item: &'a Item) -> CellItem<'a>
    ensures { item_of_cell result ≡ item.now }
{
    CellItem {
        flags: item.flags,
        unique: item.unique,
        block: Fragments::new(&item.block),
    }
}

/// Changes the number that is kept under a key, and gives it this unique, if the quotas of `meter`
/// allow it. Returns the reply, with the totals then if it is the number; else nothing changes.
fn renumber_kept<'a>(
    kept: &mut CellItem<'a>,
    key: &Key,
    delta: Delta,
    unique: u64,
    meter: &Meter,
) -> (Reply<'a>, Option<Meter>)
    ensures reply { (table : Table) → IsMeterOf meter.now table →
        map.get table key.now ≡ Some (item_of_cell kept.old) →
        result.0 ≡ (renumbered_at meter.now.limits table unique key.now delta).reply }
    ensures kept { (table : Table) → IsMeterOf meter.now table →
        map.get table key.now ≡ Some (item_of_cell kept.old) →
        map.insert table key.now (item_of_cell kept.new)
        ≡ (renumbered_at meter.now.limits table unique key.now delta).table }
    ensures meter { (table : Table) → IsMeterOf meter.now table →
        map.get table key.now ≡ Some (item_of_cell kept.old) →
        IsMeterBy result.1 meter.now.limits table
        (renumbered_at meter.now.limits table unique key.now delta) }
{
    let Some(number) = kept.block.number() else {
        return (Reply::Refused(WireNo::NOT_A_NUMBER), None);
    };
    let next = delta.after(number);
    let block = Fragments::from_number(next);
    let Some(after) = meter.with(key, Some(found_in(kept)), block.len()) else {
        return (Reply::Refused(WireNo::NO_ROOM), None);
    };
    kept.unique = unique;
    kept.block = block;
    (Reply::Number(next), Some(after))
}

/// Appends a block to what is kept. Returns `Memory` if an allocation fails; nothing changes then.
fn push_back<'a>(
    alloc: Global,
    kept: &mut CellItem<'a>,
    block: &'a Data,
    unique: u64,
) -> Result<(), Fault>
    requires { length kept.old.block + length block.now ≤ DATA_BYTES }
    ensures joined { OnOk result (kept.new ≡ record {
      flags = kept.old.flags;
      unique = unique;
      block = kept.old.block ++ block.now;
    }) }
    ensures memory { IsOkUnless result Fault.Memory }
    ensures unchanged { OnErr result (kept.new ≡ kept.old) }
{
    kept.block.append(alloc, block)?;
    kept.unique = unique;
    Ok(())
}

/// Prepends a block to what is kept. Returns `Memory` if an allocation fails; nothing changes then.
fn push_front<'a>(
    alloc: Global,
    kept: &mut CellItem<'a>,
    block: &'a Data,
    unique: u64,
) -> Result<(), Fault>
    requires { length kept.old.block + length block.now ≤ DATA_BYTES }
    ensures joined { OnOk result (kept.new ≡ record {
      flags = kept.old.flags;
      unique = unique;
      block = block.now ++ kept.old.block;
    }) }
    ensures memory { IsOkUnless result Fault.Memory }
    ensures unchanged { OnErr result (kept.new ≡ kept.old) }
{
    kept.block.prepend(alloc, block)?;
    kept.unique = unique;
    Ok(())
}

/// Returns what a retrieval shows of what is kept under a key. Data in several fragments are joined
/// first, so that a later call copies none of them. Returns `Memory` if an allocation fails.
fn show_kept<'a>(
    alloc: Global,
    key: &Key,
    kept: &mut CellItem<'a>,
    uniques: bool,
) -> Result<Value<'a>, Fault>
    ensures shown { IfOk result
        (λ shown. shown ≡ shown_item uniques key.now (item_of_cell kept.old)) }
    ensures memory { IsOkUnless result Fault.Memory }
    ensures unchanged { kept.new ≡ kept.old }
{
    kept.block.join(alloc)?;
    Ok(Value {
        key: key.try_clone()?,
        flags: kept.flags,
        block: kept.block.shared(alloc)?,
        unique: if uniques { Some(kept.unique) } else { None },
    })
}

/// Returns what a retrieval shows of an item of the base, whose data it borrows. Returns `Memory`
/// if the allocation for the key fails.
fn show_item<'a>(key: &Key, item: &'a Item, uniques: bool) -> Result<Value<'a>, Fault>
    ensures shown { IfOk result (λ shown. shown ≡ shown_item uniques key.now item.now) }
    ensures memory { IsOkUnless result Fault.Memory }
{
    Ok(Value {
        key: key.try_clone()?,
        flags: item.flags,
        block: Fragments::new(&item.block),
        unique: if uniques { Some(item.unique) } else { None },
    })
}
