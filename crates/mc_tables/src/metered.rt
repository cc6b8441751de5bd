//! The one core for all commands: quotas, totals and uniques, over whatever keeps the items.
ghost use Rattle.std.specs.FinMap as map;
ghost use Rattle.std.specs.List.{filter_map};
ghost use Rattle.std.specs.Option.{option_map};
ghost use Rattle.std.specs.Prelude.{◌≡◌, ℕ, ◌+◌, ◌-◌, ◌^◌, ◌<◌, ◌≤◌, true, false, [], ◌∷◌, length, IfOk, OnOk, OnErr, IsOk, IsOkUnless, if◌then◌else◌};
ghost use Rattle.mc_model.specs.declared.command.Command.TheVariants.{Store, Cas, Get, Delete, Incr, Decr, Flush, Limit};
ghost use Rattle.mc_model.specs.declared.command.Verb.TheVariants.{Set};
ghost use Rattle.mc_model.specs.declared.item.TheConstants.{DATA_BYTES};
ghost use Rattle.mc_model.specs.declared.reply.Reply.TheVariants.{Refused, Stored};
ghost use Rattle.mc_model.specs.declared.reply.TheConstants.WireNo.{NO_ROOM};
ghost use Rattle.mc_model.specs.Effect.{is_refusal, shown_at};
ghost use Rattle.mc_model.specs.History.{StandsFor};
ghost use Rattle.mc_model.specs.State.{empty_table, left_by, next_reply, next_state};
ghost use Rattle.mc_model.specs.Table.{count_of, is_within, use_of};
ghost use Rattle.mc_tables.specs.Changes.{changed_if, data_after, with_change};
ghost use Rattle.mc_tables.specs.Deltas.{renumbered_at};
ghost use Rattle.mc_tables.specs.Found.{found_of};
ghost use Rattle.mc_tables.specs.Meters.{IsMeterOf};

use crate::meter::Meter;
use crate::storage::{Change, Delta, Found, Storage, StorageFor};
use crate::weights::weight_found;
use mc_model::item::DATA_BYTES;
use mc_model::{
    Data, Fault, Key, KeyList, KeyTexts, Limits, Reply, Value, ValueList, Verb, WireNo,
};
use std::alloc::Global;
use std::marker::Model;

/// A tenant's table over a storage of its items, with the totals that the quotas are for. What
/// would take it above the tenant's quotas is refused; it is above them only after they were
/// lowered.
#[derive(Debug, Drop)]
pub struct Metered<S: Storage> {
    pub(crate) alloc: Global,
    meter: Meter,
    /// The unique of the latest change, or 0 before the first.
    last_unique: u64,
    pub(crate) storage: S,
}

impl<S: Storage> Model for Metered<S> {
    ghost use Rattle.std.specs.Prelude.{◌≡◌};
    ghost use Rattle.mc_model.specs.State.{TableState, coded_state};
    ghost use Rattle.mc_tables.specs.Meters.{IsMeterOf};

    ghost Value = { TableState };

    ghost coded = { coded_state };

    ghost view = { λ s. record { limits = s.meter.limits; table = S.table s.storage; last_unique = s.last_unique } };

    ghost invariant = { λ s. IsMeterOf s.meter (S.table s.storage) };
}

impl<S: Storage> Metered<S> {
    /// Returns an empty table over a storage that holds nothing. Allocates nothing.
    pub(crate) fn open(alloc: Global, limits: Limits, storage: S) -> Metered<S>
        requires { S.table storage ≡ map.empty }
        ensures state { result ≡ empty_table limits }
        ensures stands { StandsFor limits [] result }
    {
        Metered {
            alloc,
            meter: Meter {
                limits,
                used: 0,
                count: 0,
            },
            last_unique: 0,
            storage,
        }
    }

    /// Returns the same table over another storage that holds the same. Allocates nothing.
    pub(crate) fn with_storage<T: Storage>(&self, storage: T) -> Metered<T>
        requires { T.table storage ≡ self.now.table }
        ensures { result ≡ self.now }
    {
        Metered {
            alloc: self.alloc,
            meter: self.meter,
            last_unique: self.last_unique,
            storage,
        }
    }

    /// Stores as the verb says. The checks are in order: whether the key is held, the size of
    /// joined data, the quotas.
    pub(crate) fn store<'a>(
        &mut self,
        verb: Verb,
        key: &'a Key,
        flags: u32,
        block: &'a Data,
    ) -> Result<Reply<'a>, Fault>
    where
        S: StorageFor<'a>,
        requires { self.old.last_unique < 2 ^ 64 - 1 }
        ensures reply { IfOk result
            (λ reply. reply ≡ next_reply self.old (Store verb key.now flags block.now)) }
        ensures state { OnOk result
            (self.new ≡ next_state self.old (Store verb key.now flags block.now)) }
        ensures granted { OnErr result
            (is_refusal (next_reply self.old (Store verb key.now flags block.now)) ≡ false) }
        ensures memory { IsOkUnless result Fault.Memory }
        ensures unchanged { OnErr result (self.new ≡ self.old) }
    {
        // A set needs no look-up before the one that puts the item.
        if let Verb::Set = verb {
            return self.set(key, flags, block);
        }
        let len = block.as_bytes().len();
        let Some(old) = self.storage.find(key) else {
            return match verb {
                Verb::Set | Verb::Add => {
                    let fits = self.make(key, None, &Change::Put(flags, block), len)?;
                    Ok(stored_if(fits))
                }
                Verb::Replace | Verb::Append | Verb::Prepend => Ok(Reply::NotStored),
            };
        };
        let (change, len) = match verb {
            Verb::Set | Verb::Replace => (Change::Put(flags, block), len),
            Verb::Add => return Ok(Reply::NotStored),
            Verb::Append => (Change::Append(block), old.len as usize + len),
            Verb::Prepend => (Change::Prepend(block), old.len as usize + len),
        };
        if len > DATA_BYTES {
            return Ok(Reply::Refused(WireNo::TOO_LARGE));
        }
        let fits = self.make(key, Some(old), &change, len)?;
        Ok(stored_if(fits))
    }

    /// Stores under a key, whether or not it is held.
    fn set<'a>(&mut self, key: &'a Key, flags: u32, block: &'a Data) -> Result<Reply<'a>, Fault>
    where
        S: StorageFor<'a>,
        requires { self.old.last_unique < 2 ^ 64 - 1 }
        ensures reply { IfOk result
            (λ reply. reply ≡ next_reply self.old (Store Set key.now flags block.now)) }
        ensures state { OnOk result
            (self.new ≡ next_state self.old (Store Set key.now flags block.now)) }
        ensures granted { OnErr result
            (is_refusal (next_reply self.old (Store Set key.now flags block.now)) ≡ false) }
        ensures memory { IsOkUnless result Fault.Memory }
        ensures unchanged { OnErr result (self.new ≡ self.old) }
    {
        let unique = self.last_unique + 1;
        let after = self
            .storage
            .put_within(key, flags, block, unique, &self.meter)?;
        let Some(meter) = after else {
            return Ok(Reply::Refused(WireNo::NO_ROOM));
        };
        self.meter = meter;
        self.last_unique = unique;
        Ok(Reply::Stored)
    }

    /// Stores under a key if its item still has the unique that was seen.
    pub(crate) fn check_and_set<'a>(
        &mut self,
        key: &'a Key,
        flags: u32,
        block: &'a Data,
        seen: u64,
    ) -> Result<Reply<'a>, Fault>
    where
        S: StorageFor<'a>,
        requires { self.old.last_unique < 2 ^ 64 - 1 }
        ensures reply { IfOk result
            (λ reply. reply ≡ next_reply self.old (Cas key.now flags block.now seen)) }
        ensures state { OnOk result
            (self.new ≡ next_state self.old (Cas key.now flags block.now seen)) }
        ensures granted { OnErr result
            (is_refusal (next_reply self.old (Cas key.now flags block.now seen)) ≡ false) }
        ensures memory { IsOkUnless result Fault.Memory }
        ensures unchanged { OnErr result (self.new ≡ self.old) }
    {
        let Some(old) = self.storage.find(key) else {
            return Ok(Reply::NotFound);
        };
        if old.unique != seen {
            return Ok(Reply::Exists);
        }
        let len = block.as_bytes().len();
        let fits = self.make(key, Some(old), &Change::Put(flags, block), len)?;
        Ok(stored_if(fits))
    }

    /// Returns the items under these keys.
    pub(crate) fn retrieve<'a>(&mut self, keys: &KeyList, uniques: bool) -> Result<Reply<'a>, Fault>
    where
        S: StorageFor<'a>,
        ensures reply { IfOk result (λ reply. reply ≡ next_reply self.old (Get keys.now uniques)) }
        ensures memory { IsOkUnless result Fault.Memory }
        ensures unchanged { self.new ≡ self.old }
    {
        let values = match keys.only() {
            Some(key) => shown_under(self.alloc, &mut self.storage, key, uniques)?,
            None => shown(self.alloc, &mut self.storage, keys.texts(), uniques)?,
        };
        Ok(Reply::Values(ValueList::new(values)))
    }

    /// Adds to the number under a key, modulo 2^64.
    pub(crate) fn incr<'a>(&mut self, key: &'a Key, by: u64) -> Result<Reply<'a>, Fault>
    where
        S: StorageFor<'a>,
        requires { self.old.last_unique < 2 ^ 64 - 1 }
        ensures reply { IfOk result (λ reply. reply ≡ next_reply self.old (Incr key.now by)) }
        ensures state { OnOk result (self.new ≡ next_state self.old (Incr key.now by)) }
        ensures granted { OnErr result
            (is_refusal (next_reply self.old (Incr key.now by)) ≡ false) }
        ensures memory { IsOkUnless result Fault.Memory }
        ensures unchanged { OnErr result (self.new ≡ self.old) }
    {
        self.renumber(key, Delta::Up(by))
    }

    /// Subtracts from the number under a key, stopping at 0.
    pub(crate) fn decr<'a>(&mut self, key: &'a Key, by: u64) -> Result<Reply<'a>, Fault>
    where
        S: StorageFor<'a>,
        requires { self.old.last_unique < 2 ^ 64 - 1 }
        ensures reply { IfOk result (λ reply. reply ≡ next_reply self.old (Decr key.now by)) }
        ensures state { OnOk result (self.new ≡ next_state self.old (Decr key.now by)) }
        ensures granted { OnErr result
            (is_refusal (next_reply self.old (Decr key.now by)) ≡ false) }
        ensures memory { IsOkUnless result Fault.Memory }
        ensures unchanged { OnErr result (self.new ≡ self.old) }
    {
        self.renumber(key, Delta::Down(by))
    }

    /// Removes a key. Allocates nothing.
    pub(crate) fn delete<'a>(&mut self, key: &Key) -> Reply<'a>
        ensures reply { result ≡ next_reply self.old (Delete key.now) }
        ensures state { self.new ≡ next_state self.old (Delete key.now) }
    {
        let Some(old) = self.storage.find(key) else {
            return Reply::NotFound;
        };
        self.storage.remove(key);
        self.meter.used -= weight_found(key, Some(old));
        self.meter.count -= 1;
        Reply::Deleted
    }

    /// Removes all keys. Allocates nothing.
    pub(crate) fn flush<'a>(&mut self) -> Reply<'a>
        ensures reply { result ≡ next_reply self.old Flush }
        ensures state { self.new ≡ next_state self.old Flush }
    {
        self.storage.clear();
        self.meter.used = 0;
        self.meter.count = 0;
        Reply::Ok
    }

    /// Sets the quotas. Items stay, even if there are more than these allow. Allocates nothing.
    pub(crate) fn set_limits<'a>(&mut self, limits: Limits) -> Reply<'a>
        ensures reply { result ≡ next_reply self.old (Limit limits) }
        ensures state { self.new ≡ next_state self.old (Limit limits) }
    {
        self.meter.limits = limits;
        Reply::Ok
    }

    /// Returns the bytes of all keys and data in total.
    pub fn used(&self) -> u64
        ensures { result ≡ use_of self.now.table }
    {
        let Metered { meter, .. } = self;
        meter.used
    }

    /// Returns the number of items.
    pub fn count(&self) -> u64
        ensures { result ≡ count_of self.now.table }
    {
        let Metered { meter, .. } = self;
        meter.count
    }

    /// Returns the unique of the latest change, or 0 before the first.
    pub fn last_unique(&self) -> u64
        ensures { result ≡ self.now.last_unique }
    {
        let Metered { last_unique, .. } = self;
        *last_unique
    }

    /// Returns the tenant's quotas.
    pub fn limits(&self) -> Limits
        ensures { result ≡ self.now.limits }
    {
        let Metered { meter, .. } = self;
        meter.limits
    }

    /// Changes the number under a key.
    fn renumber<'a>(&mut self, key: &'a Key, delta: Delta) -> Result<Reply<'a>, Fault>
    where
        S: StorageFor<'a>,
        requires { self.old.last_unique < 2 ^ 64 - 1 }
        ensures reply { IfOk result (λ reply. reply ≡ (renumbered_at self.old.limits self.old.table
            (self.old.last_unique + 1) key.now delta).reply) }
        ensures state { OnOk result (self.new ≡ left_by self.old (renumbered_at self.old.limits
            self.old.table (self.old.last_unique + 1) key.now delta)) }
        ensures granted { OnErr result (is_refusal (renumbered_at self.old.limits self.old.table
            (self.old.last_unique + 1) key.now delta).reply ≡ false) }
        ensures memory { IsOkUnless result Fault.Memory }
        ensures unchanged { OnErr result (self.new ≡ self.old) }
    {
        let unique = self.last_unique + 1;
        let (reply, after) = self.storage.renumber(key, delta, unique, &self.meter)?;
        if let Some(meter) = after {
            self.meter = meter;
            self.last_unique = unique;
        }
        Ok(reply)
    }

    /// Makes a change that gets the next unique, if the quotas allow it, and returns whether they
    /// do. `old` is what is under the key, and `len` the length of its data after the change.
    fn make<'a>(
        &mut self,
        key: &'a Key,
        old: Option<Found>,
        change: &Change<'a>,
        len: usize,
    ) -> Result<bool, Fault>
    where
        S: StorageFor<'a>,
        requires next { self.old.last_unique < 2 ^ 64 - 1 }
        requires old { old ≡ option_map found_of (map.get self.old.table key.now) }
        requires len { len ≡ length (data_after (map.get self.old.table key.now) change.now) }
        requires few { len ≤ DATA_BYTES }
        ensures fits { IfOk result (λ fits. fits ≡ is_within self.old.limits
            (with_change self.old.table key.now change.now (self.old.last_unique + 1))) }
        ensures state { IfOk result
            (λ fits. self.new ≡ changed_if fits self.old key.now change.now) }
        ensures granted { OnErr result (is_within self.old.limits
            (with_change self.old.table key.now change.now (self.old.last_unique + 1)) ≡ true) }
        ensures memory { IsOkUnless result Fault.Memory }
        ensures unchanged { OnErr result (self.new ≡ self.old) }
    {
        let Some(meter) = self.meter.with(key, old, len) else {
            return Ok(false);
        };
        let unique = self.last_unique + 1;
        self.storage.change(key, change, unique)?;
        self.meter = meter;
        self.last_unique = unique;
        Ok(true)
    }
}

/// Returns what a retrieval shows of these keys, in their order; a key that isn't held is left out.
/// Returns `Memory` if an allocation fails. The table stays the same either way.
fn shown<'a, S: StorageFor<'a>>(
    alloc: Global,
    storage: &mut S,
    keys: KeyTexts<'_>,
    uniques: bool,
) -> Result<Vec<Value<'a>>, Fault>
    ensures values { IfOk result (λ values.
        values.items ≡ filter_map (shown_at (S.Storage.table storage.old) uniques) keys.entry) }
    ensures memory { IsOkUnless result Fault.Memory }
    ensures unchanged { S.Storage.table storage.new ≡ S.Storage.table storage.old }
{
    let mut values = Vec::new(alloc);
    let mut keys = keys;
    while let Some(text) = keys.next() {
        let Some(key) = Key::new(alloc, text)? else {
            unreachable!()
        };
        if let Some(value) = storage.show(&key, uniques)? {
            values.push(value)?;
        }
    }
    Ok(values)
}

/// Returns what a retrieval shows of the item under a key, if it is held. Returns `Memory` if an
/// allocation fails.
fn shown_under<'a, S: StorageFor<'a>>(
    alloc: Global,
    storage: &mut S,
    key: &Key,
    uniques: bool,
) -> Result<Vec<Value<'a>>, Fault>
    ensures values { IfOk result (λ values. values.items
        ≡ filter_map (shown_at (S.Storage.table storage.old) uniques) (key.now ∷ [])) }
    ensures memory { IsOkUnless result Fault.Memory }
    ensures unchanged { S.Storage.table storage.new ≡ S.Storage.table storage.old }
{
    let mut values = Vec::new(alloc);
    if let Some(value) = storage.show(key, uniques)? {
        values.push(value)?;
    }
    Ok(values)
}

/// Returns the reply to a storage command, by whether the quotas allow it.
fn stored_if<'a>(fits: bool) -> Reply<'a>
    ensures { result ≡ (if fits then Stored else Refused NO_ROOM) }
{
    if fits {
        Reply::Stored
    } else {
        Reply::Refused(WireNo::NO_ROOM)
    }
}
