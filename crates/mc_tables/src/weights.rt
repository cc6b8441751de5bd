//! What keys and data count for, and what quotas allow.
ghost use Rattle.std.specs.FinMap as map;
ghost use Rattle.std.specs.Option.{is_some, option_map};
ghost use Rattle.std.specs.Prelude.{◌≡◌, ℕ, ◌+◌, ◌^◌, ◌<◌, ◌≤◌, cond, decimal, false, length, nat_le};
ghost use Rattle.mc_model.specs.declared.item.TheConstants.{DATA_BYTES};
ghost use Rattle.mc_model.specs.Table.{Table};
ghost use Rattle.mc_model.specs.Use.{use_under};
ghost use Rattle.mc_tables.specs.Found.{found_of};

use crate::storage::Found;
use itoa::Buffer;
use mc_model::Key;

/// Returns whether a total stays within a quota with this much more. It may be above the quota
/// already, since that may have been lowered.
pub(crate) fn has_room(used: u64, needed: u64, most: u64) -> bool
    ensures { result ≡ nat_le (used + needed) most }
{
    used <= most && needed <= most - used
}

/// Returns whether the number of items stays within a quota with an item over what was found.
pub(crate) fn has_place(count: u64, old: Option<Found>, most: u64) -> bool
    ensures { result ≡ nat_le (cond (is_some old) count (count + 1)) most }
{
    match old {
        Some(_) => count <= most,
        None => count < most,
    }
}

/// Returns the number of items with an item over what was found.
pub(crate) fn count_with(count: u64, old: Option<Found>) -> u64
    requires { cond (is_some old) count (count + 1) < 2 ^ 64 }
    ensures { result ≡ cond (is_some old) count (count + 1) }
{
    match old {
        Some(_) => count,
        None => count + 1,
    }
}

/// Returns the bytes that a key counts for with a block of this length.
pub(crate) fn weight_with(key: &Key, len: usize) -> u64
    requires { len ≤ DATA_BYTES }
    ensures { result ≡ length key.now + len }
{
    (key.as_bytes().len() + len) as u64
}

/// Returns the bytes that a key counts for with what was found under it; 0 if it isn't held.
pub(crate) fn weight_found(key: &Key, old: Option<Found>) -> u64
    ensures { (table : Table) → old ≡ option_map found_of (map.get table key.now) →
        result ≡ use_under table key.now }
{
    match old {
        Some(old) => key.as_bytes().len() as u64 + u64::from(old.len),
        None => 0,
    }
}

/// Returns the number of decimal digits of a number, without leading zeros.
pub(crate) fn count_of_digits(number: u64) -> usize
    ensures count { result ≡ length (decimal number) }
    ensures few { result ≤ 20 }
{
    let mut buffer = Buffer::new();
    buffer.format(number).len()
}
