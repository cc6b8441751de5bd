//! What was seen of a cell, kept without a borrow of the cells.
ghost use Rattle.std.specs.Prelude.{◌≡◌};

use crate::row::Row;
use mc_model::{Entry, Ticket};
use once_cell::race::Note;
use std::marker::Model;

/// A sighting that doesn't borrow the cells; `Cells::see_again` returns it again without memory. It
/// is the size of a ticket.
#[derive(Drop)]
pub struct Sealed {
    pub(crate) ticket: Ticket,
    pub(crate) row: Note<Row>,
    pub(crate) cell: Note<Option<Entry>>,
}

impl Model for Sealed {
    ghost use Rattle.uc_cells.specs.Sighting.{Sighting, coded_sighting, known_for};
    ghost use Rattle.uc_cells.specs.Known.{IsSealed};

    ghost Value = { Sighting };

    ghost coded = { coded_sighting };

    ghost view = { λ sealed. record { ticket = sealed.ticket; entry = known_for sealed.ticket sealed.cell.known; row = sealed.row.cell } };

    ghost invariant = { λ sealed. IsSealed sealed.ticket sealed.row.known sealed.cell.cell sealed.cell.known };
}

impl Sealed {
    /// Returns the ticket whose cell it is.
    pub fn ticket(&self) -> Ticket
        ensures { result ≡ self.now.ticket }
    {
        self.ticket
    }
}
