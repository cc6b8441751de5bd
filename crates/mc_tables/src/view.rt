//! What a table that borrows holds under a key.
ghost use Rattle.std.specs.Prelude.{◌≡◌, ◌++◌, OnOk};
ghost use Rattle.mc_tables.specs.Views.{item_in_view};

use crate::cell_item::CellItem;
use mc_model::Item;
use std::alloc::AllocError;

/// An item of a table that borrows, for as long as the table is borrowed.
#[derive(Debug, Drop)]
pub enum View<'s, 'a> {
    /// An item of the table that was there before.
    Below(&'a Item),
    /// An item that was put or changed since.
    Over(&'s CellItem<'a>),
}

impl<'s, 'a> View<'s, 'a> {
    /// Returns the flags.
    pub fn flags(&self) -> u32
        ensures { result ≡ (item_in_view self.now).flags }
    {
        match self {
            View::Below(item) => item.flags,
            View::Over(kept) => kept.flags,
        }
    }

    /// Returns the unique of the latest change.
    pub fn unique(&self) -> u64
        ensures { result ≡ (item_in_view self.now).unique }
    {
        match self {
            View::Below(item) => item.unique,
            View::Over(kept) => kept.unique,
        }
    }

    /// Writes the data at the end of a vector. If an allocation fails, a part of them may have been
    /// written.
    pub fn write(&self, out: &mut Vec<u8>) -> Result<(), AllocError>
        ensures { OnOk result (out.new.items ≡ out.old.items ++ (item_in_view self.now).block) }
    {
        match self {
            View::Below(item) => out.extend_from_slice(item.block.as_bytes()),
            View::Over(kept) => kept.block.write(out),
        }
    }
}
