//! What was seen of a cell.
ghost use Rattle.std.specs.Option.{option_copied};
ghost use Rattle.std.specs.Prelude.{◌≡◌, IfSome};

use crate::row::Row;
use crate::sealed::Sealed;
use mc_model::{Entry, Ticket};
use once_cell::race::Note;
use std::marker::Model;

/// The value of a ticket's cell, which no other call will ever find different. It outlives the
/// thread that made it.
#[derive(Drop)]
pub struct Seen<'a> {
    pub(crate) ticket: Ticket,
    pub(crate) value: &'a Option<Entry>,
    pub(crate) row: Note<Row>,
    pub(crate) cell: Note<Option<Entry>>,
}

impl<'a> Model for Seen<'a> {
    ghost use Rattle.uc_cells.specs.Sighting.{Sighting, coded_sighting, counted};
    ghost use Rattle.uc_cells.specs.Known.{IsKnown};

    ghost Value = { Sighting };

    ghost coded = { coded_sighting };

    ghost view = { λ seen. record { ticket = seen.ticket; entry = counted seen.ticket seen.value.now; row = seen.row.cell } };

    ghost invariant = { λ seen. IsKnown seen.ticket seen.row.known seen.cell.cell seen.cell.known seen.value.now };
}

impl<'a> Seen<'a> {
    /// Returns the ticket whose cell it is.
    pub fn ticket(&self) -> Ticket
        ensures { result ≡ self.now.ticket }
    {
        self.ticket
    }

    /// Returns the entry that the cell holds, if it holds one of its own ticket.
    pub fn entry(&self) -> Option<&'a Entry>
        ensures entry { option_copied result ≡ self.now.entry }
        ensures own { IfSome result (λ entry. entry.now.ticket ≡ self.now.ticket) }
    {
        let entry = self.value.as_ref()?;
        if entry.ticket == self.ticket {
            Some(entry)
        } else {
            None
        }
    }

    /// Returns the sighting without its borrow of the cells.
    pub fn seal(self) -> Sealed
        ensures { result ≡ self.entry }
    {
        let Seen {
            ticket,
            value: _,
            row,
            cell,
        } = self;
        Sealed { ticket, row, cell }
    }

    /// Establishes that two sightings of one cell are equal, whichever threads made them. Allocates
    /// nothing.
    pub fn agree(&mut self, other: &mut Seen<'_>)
        requires row { self.old.row ≡ other.old.row }
        requires ticket { self.old.ticket ≡ other.old.ticket }
        ensures equal { self.old ≡ other.old }
        ensures one { self.new ≡ self.old }
        ensures two { other.new ≡ other.old }
    {
        let row = other.row.again();
        self.row.compare(row);
        let cell = other.cell.again();
        self.cell.compare(cell);
    }
}
