//! Items in memory of their own, in layers.
ghost use Rattle.std.specs.Cmp.Lexicographic.{pointwise};
ghost use Rattle.std.specs.FinMap as map;
ghost use Rattle.std.specs.Map.{keys_of};
ghost use Rattle.std.specs.Option.{option_copied, option_map};
ghost use Rattle.std.specs.Prelude.{◌≡◌, ◌≢◌, [], ◌+◌, ◌<◌, ◌≤◌, ◌++◌, decimal, length, nat_eq, position, IfNone, IfOk, IfSome, OnOk, OnErr, IsOkUnless};
ghost use Rattle.mc_model.specs.declared.item.TheConstants.{DATA_BYTES};
ghost use Rattle.mc_model.specs.declared.key.Key.{Key};
ghost use Rattle.mc_model.specs.History.{StandsFor};
ghost use Rattle.mc_model.specs.State.{empty_table};
ghost use Rattle.mc_tables.specs.Changes.{block_under, flags_under};
ghost use Rattle.mc_tables.specs.Layers.{owned_table, placed};

use crate::base::Base;
use crate::hashing::Hashing;
use crate::item_map::ItemMap;
use crate::meter::Meter;
use crate::metered::Metered;
use crate::storage::{Change, Delta, Found, Storage, StorageFor};
use crate::weights::count_of_digits;
use itoa::Buffer;
use mc_model::{Data, Fault, Fragments, Item, Key, Limits, Reply, Value, WireNo};
use std::alloc::Global;

/// Items in memory of their own, in two layers: a base that several generations share, and over it
/// the changes of this one. Each entry of either has a place, the changes' before the base's.
#[derive(Debug, Drop)]
pub struct Owned {
    pub(crate) alloc: Global,
    pub(crate) base: Option<Base>,
    pub(crate) changes: ItemMap,
}

/// A tenant's table whose items are in memory of their own.
pub type OwnedItems = Metered<Owned>;

impl Metered<Owned> {
    /// Returns an empty table, which hashes keys so. Allocates nothing.
    pub fn new(alloc: Global, limits: Limits, hashing: Hashing) -> OwnedItems
        ensures state { result ≡ empty_table limits }
        ensures stands { StandsFor limits [] result }
    {
        Metered::open(alloc, limits, Owned::new(alloc, hashing))
    }

    /// Returns the item under the key, if it is held.
    pub fn get(&self, key: &Key) -> Option<&Item>
        ensures { option_copied result ≡ map.get self.now.table key.now }
    {
        self.storage.item(key)
    }

    /// Returns a copy of the table. Returns `Memory` if an allocation fails.
    pub fn try_clone(&self) -> Result<OwnedItems, Fault>
        ensures same { IfOk result (λ items. items ≡ self.now) }
        ensures memory { IsOkUnless result Fault.Memory }
    {
        let copy = self.storage.try_clone()?;
        Ok(self.with_storage(copy))
    }
}

impl Owned {
    /// Returns no items, whose keys are to be hashed so. Allocates nothing.
    pub fn new(alloc: Global, hashing: Hashing) -> Owned
        ensures { owned_table result ≡ map.empty }
    {
        Owned {
            alloc,
            base: None,
            changes: ItemMap::new(alloc, hashing),
        }
    }

    /// Returns a copy of the items, which shares the base. Returns `Memory` if an allocation fails.
    pub fn try_clone(&self) -> Result<Owned, Fault>
        ensures same { IfOk result (λ copy. owned_table copy ≡ owned_table self.now) }
        ensures memory { IsOkUnless result Fault.Memory }
    {
        self.shared(0)
    }

    /// Returns how keys are hashed.
    pub(crate) fn hashing(&self) -> Hashing {
        self.changes.hashing()
    }

    /// Returns the number of places.
    pub(crate) fn places(&self) -> usize
        ensures { result ≡ length (placed self.now) }
    {
        match &self.base {
            None => self.changes.len(),
            Some(base) => self.changes.len() + base.len(),
        }
    }

    /// Returns the place of a key, with its item, if it is held.
    pub(crate) fn place(&self, key: &Key) -> Option<(usize, &Item)>
        ensures item { option_map (λ found. found.1.now) result
            ≡ map.get (owned_table self.now) key.now }
        ensures place { IfSome result (λ found.
            position (pointwise nat_eq key.now) (keys_of (placed self.now)) ≡ Some found.0) }
        ensures within { IfSome result (λ found. found.0 < length (placed self.now)) }
    {
        if let Some((place, item)) = self.changes.place(key) {
            return Some((place, item));
        }
        let Some(base) = &self.base else {
            return None;
        };
        match base.place(key) {
            Some((place, item)) => Some((self.changes.len() + place, item)),
            None => None,
        }
    }

    /// Returns the key at a place, or `None` if that isn't the key's place, since it
    /// was changed after the base.
    pub(crate) fn key_at(&self, place: usize) -> Option<&Key>
        requires { place < length (placed self.now) }
        ensures own { IfSome result (λ key.
            position (pointwise nat_eq key.now) (keys_of (placed self.now)) ≡ Some place) }
        ensures none { IfNone result ((key : Key) →
            position (pointwise nat_eq key) (keys_of (placed self.now)) ≢ Some place) }
    {
        let changed = self.changes.len();
        if place < changed {
            let (key, _) = self.changes.entry(place);
            return Some(key);
        }
        let Some(base) = &self.base else {
            unreachable!()
        };
        let key = base.key(place - changed);
        match self.changes.place(key) {
            Some(_) => None,
            None => Some(key),
        }
    }

    /// Returns the item under the key, if it is held.
    fn item(&self, key: &Key) -> Option<&Item>
        ensures { option_copied result ≡ map.get (owned_table self.now) key.now }
    {
        match self.place(key) {
            Some((_, item)) => Some(item),
            None => None,
        }
    }

    /// Puts an item under a key, over what it held. The key is copied unless it was changed before.
    /// Returns `Memory` if an allocation fails; nothing changes then.
    fn put(&mut self, key: &Key, item: Item) -> Result<(), Fault>
        ensures table { OnOk result
            (owned_table self.new ≡ map.insert (owned_table self.old) key.now item) }
        ensures memory { IsOkUnless result Fault.Memory }
        ensures unchanged { OnErr result (owned_table self.new ≡ owned_table self.old) }
    {
        self.changes.put(key, item)
    }

    /// Puts an item under a copy of a key, over what it held. Returns `Memory` if an allocation
    /// fails.
    pub(crate) fn put_new(&mut self, key: &Key, item: Item) -> Result<(), Fault>
        ensures table { OnOk result
            (owned_table self.new ≡ map.insert (owned_table self.old) key.now item) }
        ensures memory { IsOkUnless result Fault.Memory }
    {
        self.changes.put_new(key, item)
    }

    /// Removes a key, if it is held. Allocates nothing.
    pub(crate) fn take_out(&mut self, key: &Key)
        ensures { owned_table self.new ≡ map.remove (owned_table self.old) key.now }
    {
        self.changes.remove(key);
        if let Some(base) = &mut self.base {
            base.remove(key);
        }
    }

    /// Returns the flags under a key; 0 if it isn't held.
    fn flags(&self, key: &Key) -> u32
        ensures { result ≡ flags_under (map.get (owned_table self.now) key.now) }
    {
        match self.item(key) {
            Some(item) => item.flags,
            None => 0,
        }
    }

    /// Returns a key's data followed by a block; the block alone if the key isn't held.
    fn appended(&self, key: &Key, block: &Data) -> Result<Data, Fault>
        requires { length (block_under (map.get (owned_table self.now) key.now) ++ block.now)
            ≤ DATA_BYTES }
        ensures joined { IfOk result (λ joined.
            joined ≡ block_under (map.get (owned_table self.now) key.now) ++ block.now) }
        ensures memory { IsOkUnless result Fault.Memory }
    {
        match self.item(key) {
            Some(item) => joined(self.alloc, item.block.as_bytes(), block.as_bytes()),
            None => block.try_clone(),
        }
    }

    /// Returns a block followed by a key's data; the block alone if the key isn't held.
    fn prepended(&self, key: &Key, block: &Data) -> Result<Data, Fault>
        requires { length (block.now ++ block_under (map.get (owned_table self.now) key.now))
            ≤ DATA_BYTES }
        ensures joined { IfOk result (λ joined.
            joined ≡ block.now ++ block_under (map.get (owned_table self.now) key.now)) }
        ensures memory { IsOkUnless result Fault.Memory }
    {
        match self.item(key) {
            Some(item) => joined(self.alloc, block.as_bytes(), item.block.as_bytes()),
            None => joined(self.alloc, block.as_bytes(), b""),
        }
    }
}

/// Returns the bytes, one after the other. Returns `Memory` if the allocation fails.
fn joined(alloc: Global, front: &[u8], back: &[u8]) -> Result<Data, Fault>
    requires { length (front.now ++ back.now) ≤ DATA_BYTES }
    ensures joined { IfOk result (λ joined. joined ≡ front.now ++ back.now) }
    ensures memory { IsOkUnless result Fault.Memory }
{
    let mut bytes = Vec::with_capacity(alloc, front.len() + back.len())?;
    bytes.extend_from_slice(front)?;
    bytes.extend_from_slice(back)?;
    Ok(Data::new(bytes).unwrap())
}

/// Returns the number's digits as data, without leading zeros. Returns `Memory` if the allocation
/// fails.
fn digits_of(alloc: Global, number: u64) -> Result<Data, Fault>
    ensures digits { IfOk result (λ digits. digits ≡ decimal number) }
    ensures memory { IsOkUnless result Fault.Memory }
{
    let mut buffer = Buffer::new();
    let digits = Vec::from_slice(alloc, buffer.format(number).as_bytes())?;
    Ok(Data::new(digits).unwrap())
}

impl Storage for Owned {
    ghost table = { owned_table };

    fn find(&self, key: &Key) -> Option<Found> {
        match self.item(key) {
            Some(item) => Some(Found::of(item)),
            None => None,
        }
    }

    fn remove(&mut self, key: &Key) {
        self.take_out(key);
    }

    fn clear(&mut self) {
        self.changes.clear();
        self.base = None;
    }
}

impl<'a> StorageFor<'a> for Owned {
    fn show(&mut self, key: &Key, uniques: bool) -> Result<Option<Value<'a>>, Fault> {
        let Some(item) = self.item(key) else {
            return Ok(None);
        };
        Ok(Some(Value {
            key: key.try_clone()?,
            flags: item.flags,
            block: Fragments::from_data(self.alloc, item.block.try_clone()?)?,
            unique: if uniques { Some(item.unique) } else { None },
        }))
    }

    fn change(&mut self, key: &'a Key, change: &Change<'a>, unique: u64) -> Result<(), Fault> {
        match change {
            Change::Put(flags, block) => {
                let block = (*block).try_clone()?;
                let item = Item {
                    flags: *flags,
                    block,
                    unique,
                };
                self.put(key, item)
            }
            Change::Append(block) => {
                let flags = self.flags(key);
                let block = self.appended(key, *block)?;
                self.put(
                    key,
                    Item {
                        flags,
                        block,
                        unique,
                    },
                )
            }
            Change::Prepend(block) => {
                let flags = self.flags(key);
                let block = self.prepended(key, *block)?;
                self.put(
                    key,
                    Item {
                        flags,
                        block,
                        unique,
                    },
                )
            }
        }
    }

    fn put_within(
        &mut self,
        key: &'a Key,
        flags: u32,
        block: &'a Data,
        unique: u64,
        meter: &Meter,
    ) -> Result<Option<Meter>, Fault> {
        let old = self.find(key);
        let Some(after) = meter.with(key, old, block.as_bytes().len()) else {
            return Ok(None);
        };
        let item = Item {
            flags,
            block: block.try_clone()?,
            unique,
        };
        self.put(key, item)?;
        Ok(Some(after))
    }

    fn renumber(
        &mut self,
        key: &'a Key,
        delta: Delta,
        unique: u64,
        meter: &Meter,
    ) -> Result<(Reply<'a>, Option<Meter>), Fault> {
        let Some(item) = self.item(key) else {
            return Ok((Reply::NotFound, None));
        };
        let Some(number) = Fragments::new(&item.block).number() else {
            return Ok((Reply::Refused(WireNo::NOT_A_NUMBER), None));
        };
        let old = Found::of(item);
        let next = delta.after(number);
        let Some(after) = meter.with(key, Some(old), count_of_digits(next)) else {
            return Ok((Reply::Refused(WireNo::NO_ROOM), None));
        };
        let block = digits_of(self.alloc, next)?;
        let flags = old.flags;
        self.put(
            key,
            Item {
                flags,
                block,
                unique,
            },
        )?;
        Ok((Reply::Number(next), Some(after)))
    }
}
