//! The cells of all tickets.
ghost use Rattle.std.specs.Prelude.{◌≡◌, ◌⊎◌, ◌≤◌, Some, IfOk, IfErr, IsOkUnless};
ghost use Rattle.mc_model.specs.declared.settings.TheConstants.{MAX_PLACES};
ghost use Rattle.once_cell.specs.Once.{cell_name};
ghost use Rattle.uc_cells.specs.Cells.{HasCell, row_at, rows_each};
ghost use Rattle.uc_cells.specs.Sighting.{sighting};

use crate::row::Row;
use crate::sealed::Sealed;
use crate::seen::Seen;
use mc_model::{Entry, Fault, Ticket};
use once_cell::race::OnceBox;
use std::alloc::Global;
use std::marker::Model;

/// The number of cells in a row. A row is allocated when the first of its cells is used.
pub const ROW_CELLS: u64 = 1_024;

/// One cell for each ticket whose worker is below `workers` and number below `places`.
#[derive(Drop)]
pub struct Cells {
    rows: Vec<OnceBox<Row>>,
    workers: u8,
    places: u64,
}

impl Model for Cells {
    ghost use Rattle.once_cell.specs.Once.{cell_name};
    ghost use Rattle.std.specs.Prelude.{◌≡◌, ◌*◌, map, vec_len};
    ghost use Rattle.uc_cells.specs.Cells.{CellsState, coded_cells, rows_each};

    ghost Value = { CellsState };

    ghost coded = { coded_cells };

    ghost view = { λ cells. record { workers = cells.workers; places = cells.places; rows = map cell_name cells.rows.items } };

    ghost invariant = { λ cells. vec_len cells.rows ≡ cells.workers * rows_each cells.places };
}

impl Cells {
    /// Returns an empty cell for each ticket whose worker is below `workers` and number below
    /// `places`. Returns `Memory` if an allocation fails.
    pub fn open(alloc: Global, workers: u8, places: u64) -> Result<Cells, Fault>
        requires { places ≤ MAX_PLACES }
        ensures workers { IfOk result (λ cells. cells.workers ≡ workers) }
        ensures places { IfOk result (λ cells. cells.places ≡ places) }
        ensures memory { IsOkUnless result Fault.Memory }
    {
        let count = usize::from(workers) * rows_of_each(places);
        let mut rows = Vec::with_capacity(alloc, count)?;
        for _row in 0..count {
            rows.push(OnceBox::new(alloc))?;
        }
        Ok(Cells {
            rows,
            workers,
            places,
        })
    }

    /// Returns the number of workers that have cells.
    pub fn workers(&self) -> u8
        ensures { result ≡ self.now.workers }
    {
        self.workers
    }

    /// Returns the number of cells that each worker has.
    pub fn places(&self) -> u64
        ensures { result ≡ self.now.places }
    {
        self.places
    }

    /// Puts an entry into its ticket's cell, and returns the sighting of it. Returns `Taken` if the
    /// cell holds another value, and `Memory` if an allocation fails; nothing was written to the
    /// cell then. At either fault the entry is dropped. Putting an equal entry again isn't `Taken`.
    pub fn put(&self, alloc: Global, entry: Entry) -> Result<Seen<'_>, Fault>
        requires { HasCell self.now entry.ticket }
        ensures put { IfOk result
            (λ seen. seen ≡ sighting entry.ticket (Some entry) (row_at self.now entry.ticket)) }
        ensures faults { IfErr result (λ fault. (fault ≡ Fault.Memory) ⊎ (fault ≡ Fault.Taken)) }
    {
        let ticket = entry.ticket;
        // Taken apart, since a ticket that is held across a `?` gets no proof.
        let Ticket { worker, number } = ticket;
        let place = self.row(ticket);
        let mut row = place.note();
        let cells = place.get_or_try_init_as(move || Row::open(alloc), &mut row)?;
        let own = cells.cell(number);
        let mut cell = own.note();
        // The box is made before the cell is set, so that `Memory` means that nothing was written.
        let boxed = Box::new(alloc, Some(entry))?;
        let refused = own.set_as(boxed, &mut cell).err();
        let Some(value) = own.get_as(&mut cell) else {
            unreachable!()
        };
        match refused {
            Some(back) if *value != *back => Err(Fault::Taken),
            _ => Ok(Seen {
                ticket: Ticket { worker, number },
                value,
                row,
                cell,
            }),
        }
    }

    /// Returns the value of the ticket's cell. An empty cell is set as absent, for good. Returns
    /// `Memory` if an allocation fails.
    pub fn see(&self, alloc: Global, ticket: Ticket) -> Result<Seen<'_>, Fault>
        requires { HasCell self.now ticket }
        ensures ticket { IfOk result (λ seen. seen.ticket ≡ ticket) }
        ensures row { IfOk result (λ seen. seen.row ≡ row_at self.now ticket) }
        ensures memory { IsOkUnless result Fault.Memory }
    {
        // Taken apart, since a ticket that is held across a `?` gets no proof.
        let Ticket { worker, number } = ticket;
        let place = self.row(ticket);
        let mut row = place.note();
        let cells = place.get_or_try_init_as(move || Row::open(alloc), &mut row)?;
        let own = cells.cell(number);
        let mut cell = own.note();
        let value = own.get_or_try_init_as(move || Box::new(alloc, None), &mut cell)?;
        Ok(Seen {
            ticket: Ticket { worker, number },
            value,
            row,
            cell,
        })
    }

    /// Returns again what was seen of one of these cells. Allocates nothing.
    pub fn see_again(&self, known: &mut Sealed) -> Seen<'_>
        requires has { HasCell self.now known.old.ticket }
        requires row { known.old.row ≡ row_at self.now known.old.ticket }
        ensures seen { result ≡ known.old }
        ensures same { known.new ≡ known.old }
    {
        let Ticket { worker, number } = known.ticket;
        let place = self.row(known.ticket);
        let mut row = known.row.again();
        let Some(cells) = place.get_as(&mut row) else {
            unreachable!()
        };
        let mut cell = known.cell.again();
        let Some(value) = cells.cell(number).get_as(&mut cell) else {
            unreachable!()
        };
        Seen {
            ticket: Ticket { worker, number },
            value,
            row,
            cell,
        }
    }

    /// Returns where the row of the ticket's cell is kept.
    fn row(&self, ticket: Ticket) -> &OnceBox<Row>
        requires { HasCell self.now ticket }
        ensures { cell_name result.now ≡ row_at self.now ticket }
    {
        let before = usize::from(ticket.worker.number()) * rows_of_each(self.places);
        &self.rows[before + (ticket.number / ROW_CELLS) as usize]
    }
}

/// Returns the number of rows that the cells of one worker take.
fn rows_of_each(places: u64) -> usize
    ensures { result ≡ rows_each places }
{
    (places / ROW_CELLS + 1) as usize
}
