//! The tables of all tenants, and what an entry of the log does to them. A single table is that of
//! `mc_tables`, which is re-exported. Begin with `tables::take_effect`.
#![tactic(auto)]

pub use mc_model::Item;
pub use mc_tables::{CellItems, Hashing, OwnedItems as Items, Table, View};

pub mod tables;
