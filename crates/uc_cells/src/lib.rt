//! Cells for the contents of commands: one for each ticket, set once and never changed after that.
//! Begin with `Cells::put`; `specs/Sighting.antt` says what is seen of a cell.
#![tactic(auto)]

pub use cells::Cells;
pub use sealed::Sealed;
pub use seen::Seen;

pub mod cells;
pub mod laws;
mod row;
pub mod sealed;
pub mod seen;
