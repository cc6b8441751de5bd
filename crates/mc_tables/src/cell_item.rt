//! An item that borrows its data.
use mc_model::Fragments;

/// An item whose data are borrowed from commands, or are the digits of a number.
#[derive(Debug, Drop)]
pub struct CellItem<'a> {
    pub flags: u32,
    pub unique: u64,
    pub block: Fragments<'a>,
}
