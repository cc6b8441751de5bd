//! What keeps a table's items: look-ups, removals, and the four ways in which a command changes
//! what a key holds.
ghost use Rattle.std.specs.FinMap as map;
ghost use Rattle.std.specs.Option.{is_some, option_map};
ghost use Rattle.std.specs.Prelude.{◌≡◌, ◌≤◌, true, false, length, IfOk, OnOk, OnErr, IsOkUnless, if◌then◌else◌};
ghost use Rattle.mc_model.specs.declared.item.TheConstants.{DATA_BYTES};
ghost use Rattle.mc_model.specs.Effect.{is_refusal, shown_at};
ghost use Rattle.mc_model.specs.Table.{Table, is_within};
ghost use Rattle.mc_tables.specs.Changes.{data_after, with_change};
ghost use Rattle.mc_tables.specs.declared.storage.Change.TheVariants.{Put};
ghost use Rattle.mc_tables.specs.Deltas.{number_after, renumbered_at};
ghost use Rattle.mc_tables.specs.Found.{found_of};
ghost use Rattle.mc_tables.specs.Meters.{IsMeterBy, IsMeterIf, IsMeterOf};

use crate::meter::Meter;
use mc_model::{Data, Fault, Item, Key, Reply, Value};

/// What a look-up tells of an item: `len` is the number of its data's bytes.
#[derive(Clone, Copy, Debug)]
pub struct Found {
    pub flags: u32,
    pub len: u32,
    pub unique: u64,
}

impl Found {
    /// Returns what a look-up tells of an item that owns its data.
    pub(crate) fn of(item: &Item) -> Found
        ensures { result ≡ found_of item.now }
    {
        Found {
            flags: item.flags,
            len: item.block.as_bytes().len() as u32,
            unique: item.unique,
        }
    }
}

/// How a command changes what a key holds.
#[derive(Debug, Drop)]
pub enum Change<'a> {
    /// New flags and data.
    Put(u32, &'a Data),
    /// These data at the end; the flags stay.
    Append(&'a Data),
    /// These data in front; the flags stay.
    Prepend(&'a Data),
}

/// How an arithmetic command changes a number.
#[derive(Clone, Copy, Debug)]
pub enum Delta {
    /// Adds, modulo 2^64.
    Up(u64),
    /// Subtracts, stopping at 0.
    Down(u64),
}

impl Delta {
    /// Returns a number after the change.
    pub(crate) fn after(self, number: u64) -> u64
        ensures { result ≡ number_after self number }
    {
        match self {
            Delta::Up(by) => number.wrapping_add(by),
            Delta::Down(by) => number.saturating_sub(by),
        }
    }
}

/// What keeps a table's items.
pub trait Storage: Drop {
    ghost table: { Self → Table };

    /// Returns what is held under a key, if it is held.
    fn find(&self, key: &Key) -> Option<Found>
        ensures found { result ≡ option_map found_of (map.get (table self.now) key.now) };

    /// Removes a key, if it is held. Allocates nothing.
    fn remove(&mut self, key: &Key)
        ensures { table self.new ≡ map.remove (table self.old) key.now };

    /// Removes all keys. Allocates nothing.
    fn clear(&mut self)
        ensures { table self.new ≡ map.empty };
}

/// A storage that can hold parts of commands that live for `'a`.
pub trait StorageFor<'a>: Storage {
    /// Returns what a retrieval shows of a key. Data that live for `'a` are borrowed, and data in
    /// several fragments are joined where they are kept: later calls copy none of them. Returns
    /// `Memory` if an allocation fails. The table stays the same either way.
    fn show(&mut self, key: &Key, uniques: bool) -> Result<Option<Value<'a>>, Fault>
        ensures shown { IfOk result
            (λ shown. shown ≡ shown_at (Self.table self.old) uniques key.now) }
        ensures memory { IsOkUnless result Fault.Memory }
        ensures unchanged { Self.table self.new ≡ Self.table self.old };

    /// Changes what a key holds, and gives it this unique. Returns `Memory` if an allocation fails;
    /// nothing changes then.
    fn change(&mut self, key: &'a Key, change: &Change<'a>, unique: u64) -> Result<(), Fault>
        requires { length (data_after (map.get (Self.table self.old) key.now) change.now) ≤ DATA_BYTES }
        ensures changed { OnOk result
            (Self.table self.new ≡ with_change (Self.table self.old) key.now change.now unique) }
        ensures memory { IsOkUnless result Fault.Memory }
        ensures unchanged { OnErr result (Self.table self.new ≡ Self.table self.old) };

    /// Puts flags and data under a key, with this unique, if the quotas of `meter` allow it, and
    /// returns the totals then. Returns `None` if they don't, and `Memory` if an allocation fails;
    /// nothing changes then.
    fn put_within(
        &mut self,
        key: &'a Key,
        flags: u32,
        block: &'a Data,
        unique: u64,
        meter: &Meter,
    ) -> Result<Option<Meter>, Fault>
        requires { IsMeterOf meter.now (Self.table self.old) }
        ensures meter { IfOk result (λ after. IsMeterIf after meter.now.limits
            (with_change (Self.table self.old) key.now (Put flags block.entry) unique)) }
        ensures put { IfOk result (λ after. Self.table self.new ≡ (if is_some after
            then with_change (Self.table self.old) key.now (Put flags block.entry) unique
            else Self.table self.old)) }
        ensures granted { OnErr result (is_within meter.now.limits
            (with_change (Self.table self.old) key.now (Put flags block.entry) unique) ≡ true) }
        ensures memory { IsOkUnless result Fault.Memory }
        ensures unchanged { OnErr result (Self.table self.new ≡ Self.table self.old) };

    /// Changes the number under a key, and gives it this unique, if the quotas of `meter` allow it.
    /// Returns the reply, with the totals then if it is the number. Returns `Memory` if an
    /// allocation fails; nothing changes then.
    fn renumber(
        &mut self,
        key: &'a Key,
        delta: Delta,
        unique: u64,
        meter: &Meter,
    ) -> Result<(Reply<'a>, Option<Meter>), Fault>
        requires { IsMeterOf meter.now (Self.table self.old) }
        ensures reply { IfOk result (λ answer. answer.0
            ≡ (renumbered_at meter.now.limits (Self.table self.old) unique key.now delta).reply) }
        ensures table { OnOk result (Self.table self.new
            ≡ (renumbered_at meter.now.limits (Self.table self.old) unique key.now delta).table) }
        ensures meter { IfOk result
            (λ answer. IsMeterBy answer.1 meter.now.limits (Self.table self.old)
            (renumbered_at meter.now.limits (Self.table self.old) unique key.now delta)) }
        ensures granted { OnErr result (is_refusal
            (renumbered_at meter.now.limits (Self.table self.old) unique key.now delta).reply
            ≡ false) }
        ensures memory { IsOkUnless result Fault.Memory }
        ensures unchanged { OnErr result (Self.table self.new ≡ Self.table self.old) };
}
