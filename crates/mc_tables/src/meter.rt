//! What a table counts for in total, and what its quotas allow.
ghost use Rattle.std.specs.FinMap as map;
ghost use Rattle.std.specs.Option.{option_map};
ghost use Rattle.std.specs.Prelude.{◌≡◌, ◌≤◌, length};
ghost use Rattle.mc_model.specs.declared.item.Item.{Item};
ghost use Rattle.mc_model.specs.declared.item.TheConstants.{DATA_BYTES};
ghost use Rattle.mc_model.specs.Table.{Table};
ghost use Rattle.mc_tables.specs.Found.{found_of};
ghost use Rattle.mc_tables.specs.Meters.{IsMeterIf, IsMeterOf};

use crate::storage::Found;
use crate::weights::{count_with, has_place, has_room, weight_found, weight_with};
use mc_model::{Key, Limits};

/// The totals of a table, with its quotas.
#[derive(Clone, Copy, Debug)]
pub struct Meter {
    pub limits: Limits,
    /// The bytes of all keys and data in total.
    pub used: u64,
    /// The number of items.
    pub count: u64,
}

impl Meter {
    /// Returns the totals with a block of this length under a key, which holds `old`, if the quotas
    /// allow them.
    pub fn with(&self, key: &Key, old: Option<Found>, len: usize) -> Option<Meter>
        requires { len ≤ DATA_BYTES }
        ensures { (table : Table) (item : Item) → IsMeterOf self.now table →
            old ≡ option_map found_of (map.get table key.now) → length item.block ≡ len →
            IsMeterIf result self.now.limits (map.insert table key.now item) }
    {
        let others = self.used.saturating_sub(weight_found(key, old));
        let needed = weight_with(key, len);
        if !has_room(others, needed, self.limits.bytes) {
            return None;
        }
        if !has_place(self.count, old, self.limits.items) {
            return None;
        }
        Some(Meter {
            limits: self.limits,
            used: others + needed,
            count: count_with(self.count, old),
        })
    }
}
