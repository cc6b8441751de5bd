//! A map of items in memory of their own.
ghost use Rattle.std.specs.Cmp.Lexicographic.{pointwise};
ghost use Rattle.std.specs.FinMap as map;
ghost use Rattle.std.specs.Option.{option_map};
ghost use Rattle.std.specs.Prelude.{◌≡◌, ◌+◌, ◌<◌, ◌^◌, cond, drop, length, nat_eq, None, position, slice_get, IfNone, IfOk, IfSome, OnOk, OnErr, IsOkUnless};
ghost use Rattle.std.specs.Map.{keys_of, lookup};
ghost use Rattle.indexmap.specs.IndexMap.{values};
ghost use Rattle.mc_model.specs.declared.key.Key.{Key};
ghost use Rattle.mc_tables.specs.Entries.{laid_over, same_item, same_key};
ghost use Rattle.mc_tables.specs.Maps.{map_table};

use crate::hashing::Hashing;
use indexmap::IndexMap;
use mc_model::{Fault, Item, Key};
use std::alloc::Global;

/// Items in memory of their own, each with a place among them, in a hash map with a keyed hash.
#[derive(Debug, Drop)]
pub struct ItemMap {
    pub(crate) held: IndexMap<Key, Item, Hashing>,
}

impl ItemMap {
    /// Returns no items, whose keys are to be hashed so. Allocates nothing.
    pub(crate) fn new(alloc: Global, hashing: Hashing) -> ItemMap
        ensures { map_table result ≡ map.empty }
    {
        ItemMap {
            held: IndexMap::with_hasher(alloc, hashing),
        }
    }

    /// Returns no items, with room for this many. Returns `Memory` if an allocation fails.
    pub(crate) fn with_capacity(
        alloc: Global,
        capacity: usize,
        hashing: Hashing,
    ) -> Result<ItemMap, Fault>
        ensures none { IfOk result (λ items. map_table items ≡ map.empty) }
        ensures memory { IsOkUnless result Fault.Memory }
    {
        let held = IndexMap::with_capacity_and_hasher(alloc, capacity, hashing)?;
        Ok(ItemMap { held })
    }

    /// Returns how keys are hashed.
    pub(crate) fn hashing(&self) -> Hashing {
        *self.held.hasher()
    }

    /// Returns the number of items.
    pub(crate) fn len(&self) -> usize
        ensures len { result ≡ length self.now.held.entries }
        ensures small { result < 2 ^ 63 }
    {
        self.held.len()
    }

    /// Returns the place among the items of a key, with its item.
    pub(crate) fn place(&self, key: &Key) -> Option<(usize, &Item)>
        ensures place { option_map (λ found. found.0) result
            ≡ position (pointwise nat_eq key.now) (keys_of self.now.held.entries) }
        ensures item { option_map (λ found. found.1.now) result
            ≡ map.get (map_table self.now) key.now }
        ensures within { IfSome result (λ found. found.0 < length self.now.held.entries) }
        ensures small { IfSome result (λ found. found.0 < 2 ^ 63) }
    {
        let Some(place) = self.place_of(key) else {
            return None;
        };
        Some((place, &self.held[place]))
    }

    /// Returns the place among the items of a key, which isn't hashed if there are no items.
    fn place_of(&self, key: &Key) -> Option<usize>
        ensures place { result ≡ position (pointwise nat_eq key.now) (keys_of self.now.held.entries) }
        ensures item { IfSome result (λ place. slice_get (values self.now.held) place
            ≡ map.get (map_table self.now) key.now) }
        ensures none { IfNone result (map.get (map_table self.now) key.now ≡ None) }
        ensures within { IfSome result (λ place. place < length self.now.held.entries) }
        ensures small { IfSome result (λ place. place < 2 ^ 63) }
    {
        if self.held.len() == 0 {
            return None;
        }
        self.held.get_index_of(key)
    }

    /// Returns the key and the item at a place.
    pub(crate) fn entry(&self, place: usize) -> (&Key, &Item)
        requires { place < length self.now.held.entries }
        ensures place { position (pointwise nat_eq result.0.now) (keys_of self.now.held.entries)
            ≡ Some place }
        ensures item { lookup (pointwise nat_eq result.0.now) self.now.held.entries
            ≡ Some result.1.now }
        ensures first { (key : Key) →
            lookup (pointwise nat_eq key) (drop place self.now.held.entries)
            ≡ cond (pointwise nat_eq key result.0.now) (Some result.1.now)
            (lookup (pointwise nat_eq key) (drop (place + 1) self.now.held.entries)) }
    {
        // No two of the keys are equal.
        let _ = self.held.len();
        match self.held.get_index(place) {
            Some(entry) => entry,
            None => unreachable!(),
        }
    }

    /// Puts an item under a key, over what it held. The key is copied unless it is held. Returns
    /// `Memory` if an allocation fails; nothing changes then.
    pub(crate) fn put(&mut self, key: &Key, item: Item) -> Result<(), Fault>
        ensures table { OnOk result
            (map_table self.new ≡ map.insert (map_table self.old) key.now item) }
        ensures memory { IsOkUnless result Fault.Memory }
        ensures unchanged { OnErr result (map_table self.new ≡ map_table self.old) }
    {
        if let Some(place) = self.place_of(key) {
            let Some(held) = self.held.get_index_mut(place) else {
                unreachable!()
            };
            *held = item;
            return Ok(());
        }
        self.put_new(key, item)
    }

    /// Puts an item under a copy of a key, over what it held. Returns `Memory` if an allocation
    /// fails; nothing changes then.
    pub(crate) fn put_new(&mut self, key: &Key, item: Item) -> Result<(), Fault>
        ensures table { OnOk result
            (map_table self.new ≡ map.insert (map_table self.old) key.now item) }
        ensures memory { IsOkUnless result Fault.Memory }
        ensures unchanged { OnErr result (map_table self.new ≡ map_table self.old) }
    {
        self.held.insert(key.try_clone()?, item)?;
        Ok(())
    }

    /// Puts a copy of an item under a copy of a key. Returns `Memory` if an allocation fails.
    pub(crate) fn put_copy(&mut self, key: &Key, original: &Item) -> Result<(), Fault>
        ensures table { OnOk result
            (map_table self.new ≡ map.insert (map_table self.old) key.now original.now) }
        ensures memory { IsOkUnless result Fault.Memory }
    {
        let item = Item {
            flags: original.flags,
            block: original.block.try_clone()?,
            unique: original.unique,
        };
        self.put_new(key, item)
    }

    /// Puts copies of all items into another map. Returns `Memory` if an allocation fails.
    pub(crate) fn copy_into(&self, copy: &mut ItemMap) -> Result<(), Fault>
        ensures over { OnOk result (map_table copy.new
            ≡ laid_over same_key same_item (map_table copy.old) self.now.held.entries) }
        ensures memory { IsOkUnless result Fault.Memory }
    {
        for place in 0..self.len() {
            let (key, item) = self.entry(place);
            copy.put_copy(key, item)?;
        }
        Ok(())
    }

    /// Removes a key, if it is held. Allocates nothing.
    pub(crate) fn remove(&mut self, key: &Key)
        ensures { map_table self.new ≡ map.remove (map_table self.old) key.now }
    {
        if let Some(place) = self.place_of(key) {
            self.held.swap_remove_index(place);
        }
    }

    /// Removes all keys. Allocates nothing.
    pub(crate) fn clear(&mut self)
        ensures { map_table self.new ≡ map.empty }
    {
        self.held.clear();
    }
}
