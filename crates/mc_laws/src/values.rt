//! Which values are valid, when two of them are equal, and what is hashed of a key.
ghost use Rattle.std.specs.Prelude.{◌≡◌, ◌≢◌, ◌↔◌, ◌⊎◌, ℕ, ◌<◌, ◌≤◌, All, Bool, List, length, slice_get, Some, IsTrue};
ghost use Rattle.mc_model.specs.declared.command.Command.{Command};
ghost use Rattle.mc_model.specs.declared.command.Command.TheVariants.{Delete, Flush, Get, Limit};
ghost use Rattle.mc_model.specs.declared.id.TheConstants.{TENANTS, WORKERS};
ghost use Rattle.mc_model.specs.declared.item.TheConstants.{DATA_BYTES};
ghost use Rattle.mc_model.specs.declared.key.Key.{Key};
ghost use Rattle.mc_model.specs.declared.key_list.KeyList.{KeyList};
ghost use Rattle.mc_model.specs.declared.key.TheConstants.{KEY_BYTES};
ghost use Rattle.mc_model.specs.declared.name.Name.{Name};
ghost use Rattle.mc_model.specs.declared.name.TheConstants.{NAME_BYTES};
ghost use Rattle.mc_model.specs.declared.settings.Limits.{Limits};
ghost use Rattle.mc_model.specs.declared.settings.TheConstants.{MAX_BYTES, MAX_ITEMS, MAX_PLACES};
ghost use Rattle.mc_model.specs.Key.{is_lawful_key};
ghost use Rattle.mc_model.specs.Kinds.{IsRetrieval, NeedsNoMemory, SetsLimits};
ghost use Rattle.mc_model.specs.Name.{is_lawful_name, tenant_named};
ghost use Rattle.mc_model.specs.Settings.{Configuration, IsLawful};

use mc_model::{Data, Key, KeyList, Name, ValueList};
use std::hash::{Hash, Hasher};

/// The numbers in this project's profile.
pub fn the_profiles_numbers()
    ensures key { KEY_BYTES ≡ 250 }
    ensures name { NAME_BYTES ≡ 32 }
    ensures data_block { DATA_BYTES ≡ 1048576 }
    ensures tenants { TENANTS ≡ 64 }
    ensures workers { WORKERS ≡ 16 }
    ensures places { MAX_PLACES ≡ 1048576 }
    ensures items { MAX_ITEMS ≡ 1048576 }
    ensures bytes { MAX_BYTES ≡ 1073741824 }
{}

/// A valid key is 1 to 250 bytes, none of them a control character or a space.
pub fn lawful_keys_are_plain()
    ensures { (bytes : List ℕ) →
        IsTrue (is_lawful_key bytes)
        ↔ (((0 < length bytes) × (length bytes ≤ 250))
        × All (λ byte. (32 < byte) × (byte ≢ 127)) bytes) }
{}

/// A valid name is 1 to 32 bytes, each of `a` to `z`, `0` to `9`, `-` or `_`.
pub fn lawful_names_are_spelled_so()
    ensures { (bytes : List ℕ) →
        IsTrue (is_lawful_name bytes)
        ↔ (((0 < length bytes) × (length bytes ≤ 32))
        × All (λ byte. (97 ≤ byte) × (byte ≤ 122) ⊎ (48 ≤ byte) × (byte ≤ 57) ⊎ (byte ≡ 45)
        ⊎ (byte ≡ 95)) bytes) }
{}

/// A name is that of the tenant at whose number, below 64, it stands first among the names.
pub fn a_name_finds_its_first_tenant()
    ensures { (names : List Name) (name : Name) (tenant : ℕ) →
        (tenant_named names name ≡ Some tenant)
        ↔ ((tenant < 64) × (slice_get names tenant ≡ Some name)
        × ((before : ℕ) → before < tenant → slice_get names before ≢ Some name)) }
{}

/// Settings are valid if there are 1 to 16 workers, 1 to 1,048,576 places and 1 to 64 tenants, and
/// each tenant has a quota of 1 to 1,048,576 items and of 1 to 1,073,741,824 bytes.
pub fn lawful_settings_are_in_range()
    ensures { (settings : Configuration) →
        IsLawful settings
        ↔ (((1 ≤ settings.workers) × (settings.workers ≤ 16))
        × ((1 ≤ settings.places) × (settings.places ≤ 1048576))
        × ((1 ≤ length settings.tenants) × (length settings.tenants ≤ 64))
        × All (λ limits. ((1 ≤ limits.items) × (limits.items ≤ 1048576))
        × ((1 ≤ limits.bytes) × (limits.bytes ≤ 1073741824))) settings.tenants) }
{}

/// A retrieval is a get of some keys and no other command; a command that needs no memory is a
/// delete, a flush or one that sets quotas, and no other.
pub fn kinds_are_by_name()
    ensures retrieval { (command : Command) → IsRetrieval command
        ↔ ((keys : KeyList) × (uniques : Bool) × (command ≡ Get keys uniques)) }
    ensures no_memory { (command : Command) → NeedsNoMemory command
        ↔ (((key : Key) × (command ≡ Delete key)) ⊎ (command ≡ Flush) ⊎ SetsLimits command) }
    ensures sets_limits { (command : Command) → SetsLimits command
        ↔ ((limits : Limits) × (command ≡ Limit limits)) }
{}

/// Two keys are equal exactly when their bytes are.
pub fn keys_are_equal_by_their_bytes(key: &Key, other: &Key) -> bool
    ensures { IsTrue result ↔ (key.now ≡ other.now) }
{
    key == other
}

/// All bytes of a key are hashed, in one write, and nothing else.
pub fn keys_are_hashed_whole<H: Hasher>(key: &Key, state: &mut H)
    ensures { state.new ≡ H.write state.old key.now }
{
    key.hash(state);
}

/// Two names are equal exactly when their bytes are.
pub fn names_are_equal_by_their_bytes(name: &Name, other: &Name) -> bool
    ensures { IsTrue result ↔ (name.now ≡ other.now) }
{
    name == other
}

/// Two data blocks are equal exactly when their bytes are.
pub fn data_are_equal_by_their_bytes(data: &Data, other: &Data) -> bool
    ensures { IsTrue result ↔ (data.now ≡ other.now) }
{
    data == other
}

/// Two lists of keys are equal exactly when they have the same keys in the same order.
pub fn key_lists_are_equal_by_their_keys(keys: &KeyList, others: &KeyList) -> bool
    ensures { IsTrue result ↔ (keys.now ≡ others.now) }
{
    keys == others
}

/// Two lists of values are equal exactly when they have the same values in the same order.
pub fn value_lists_are_equal_by_their_values<'a>(
    values: &ValueList<'a>,
    others: &ValueList<'a>,
) -> bool
    ensures { IsTrue result ↔ (values.now ≡ others.now) }
{
    values == others
}
