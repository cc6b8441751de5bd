//! A map of items that several generations share.
ghost use Rattle.std.specs.Arc.{arc_value};
ghost use Rattle.std.specs.Cmp.Lexicographic.{pointwise};
ghost use Rattle.std.specs.FinMap as map;
ghost use Rattle.std.specs.Map.{keys_of};
ghost use Rattle.std.specs.Option.{option_map};
ghost use Rattle.std.specs.Prelude.{◌≡◌, ◌*◌, ◌<◌, ◌≤◌, ◌^◌, length, nat_eq, position, IfOk, IfSome, OnOk, IsOkUnless};
ghost use Rattle.mc_tables.specs.Entries.{unmarked};
ghost use Rattle.mc_tables.specs.Maps.{map_table};

use crate::item_map::ItemMap;
use crate::marks::{count_set, is_set, no_marks, set};
use mc_model::{Fault, Item, Key};
use std::alloc::Global;
use std::sync::Arc;

/// Items that several generations share by count, with marks of this one's own on those that it has
/// removed: so a removal allocates nothing, and leaves them to the others.
#[derive(Debug, Drop)]
pub struct Base {
    pub(crate) items: Arc<ItemMap, Global>,
    pub(crate) marks: Vec<u64>,
    ghost marked: { length (arc_value items).held.entries ≤ 64 * length marks.items },
}

impl Base {
    /// Returns a base of these items. Returns `Memory` if an allocation fails.
    pub(crate) fn new(alloc: Global, items: ItemMap) -> Result<Base, Fault>
        ensures same { IfOk result (λ base.
            unmarked (arc_value base.items).held.entries base.marks.items ≡ map_table items) }
        ensures memory { IsOkUnless result Fault.Memory }
    {
        let marks = no_marks(alloc, items.len())?;
        let items = Arc::new(alloc, items)?;
        Ok(Base { items, marks })
    }

    /// Returns the same base, which shares the items. Returns `Memory` if the allocation of the
    /// marks fails.
    pub(crate) fn shared(&self, alloc: Global) -> Result<Base, Fault>
        ensures items { IfOk result (λ base. arc_value base.items ≡ arc_value self.now.items) }
        ensures marks { IfOk result (λ base. base.marks.items ≡ self.now.marks.items) }
        ensures memory { IsOkUnless result Fault.Memory }
    {
        let marks = Vec::from_slice(alloc, &self.marks)?;
        let items = Arc::try_clone(&self.items)?;
        Ok(Base { items, marks })
    }

    /// Returns the number of items, also of those that were removed.
    pub(crate) fn len(&self) -> usize
        ensures len { result ≡ length (arc_value self.now.items).held.entries }
        ensures small { result < 2 ^ 63 }
    {
        self.items.len()
    }

    /// Returns how many of the items were removed.
    pub(crate) fn removed(&self) -> usize {
        count_set(&self.marks)
    }

    /// Returns the place of a key, with its item, unless that was removed.
    pub(crate) fn place(&self, key: &Key) -> Option<(usize, &Item)>
        ensures item { option_map (λ found. found.1.now) result ≡ map.get
            (unmarked (arc_value self.now.items).held.entries self.now.marks.items) key.now }
        ensures place { IfSome result (λ found. position (pointwise nat_eq key.now)
            (keys_of (arc_value self.now.items).held.entries) ≡ Some found.0) }
        ensures within { IfSome result
            (λ found. found.0 < length (arc_value self.now.items).held.entries) }
        ensures small { IfSome result (λ found. found.0 < 2 ^ 63) }
    {
        match self.items.place(key) {
            None => None,
            Some((place, item)) => {
                if is_set(&self.marks, place) {
                    None
                } else {
                    Some((place, item))
                }
            }
        }
    }

    /// Returns the key at a place, removed or not.
    pub(crate) fn key(&self, place: usize) -> &Key
        requires { place < length (arc_value self.now.items).held.entries }
        ensures { position (pointwise nat_eq result.now)
            (keys_of (arc_value self.now.items).held.entries) ≡ Some place }
    {
        let (key, _) = self.items.entry(place);
        key
    }

    /// Removes a key, if it is held. Allocates nothing.
    pub(crate) fn remove(&mut self, key: &Key)
        ensures items { arc_value self.new.items ≡ arc_value self.old.items }
        ensures table { unmarked (arc_value self.new.items).held.entries self.new.marks.items
            ≡ map.remove (unmarked (arc_value self.old.items).held.entries self.old.marks.items)
            key.now }
    {
        if let Some((place, _)) = self.place(key) {
            set(&mut self.marks, place);
        }
    }

    /// Puts copies of what wasn't removed into a map that holds nothing yet. Returns `Memory` if an
    /// allocation fails.
    pub(crate) fn copy_into(&self, copy: &mut ItemMap) -> Result<(), Fault>
        requires { map_table copy.old ≡ map.empty }
        ensures left { OnOk result (map_table copy.new
            ≡ unmarked (arc_value self.now.items).held.entries self.now.marks.items) }
        ensures memory { IsOkUnless result Fault.Memory }
    {
        for place in 0..self.items.len() {
            let (key, item) = self.items.entry(place);
            if !is_set(&self.marks, place) {
                copy.put_copy(key, item)?;
            }
        }
        Ok(())
    }
}
