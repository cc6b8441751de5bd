//! A row of cells.
ghost use Rattle.std.specs.Prelude.{◌≡◌, Some, slice_get};
ghost use Rattle.once_cell.specs.Once.{cell_name};
ghost use Rattle.uc_cells.specs.Cells.{place_in_row};

use crate::cells::ROW_CELLS;
use mc_model::Entry;
use once_cell::race::OnceBox;
use std::alloc::{AllocError, Global};
use std::marker::Model;

/// A cell: once it is set, it holds an entry, or that there is none.
pub(crate) type Cell = OnceBox<Option<Entry>>;

/// A row of `ROW_CELLS` cells, whoever made it. Contracts see the cells' names.
#[derive(Drop)]
pub(crate) struct Row {
    cells: Vec<Cell>,
}

impl Model for Row {
    ghost use Rattle.std.specs.Prelude.{◌≡◌, ℕ, List, map, vec_len};
    ghost use Rattle.once_cell.specs.Once.{cell_name};
    ghost use Rattle.uc_cells.specs.declared.cells.TheConstants.{ROW_CELLS};

    ghost Value = { List ℕ };

    ghost view = { λ row. map cell_name row.cells.items };

    ghost invariant = { λ row. vec_len row.cells ≡ ROW_CELLS };
}

impl Row {
    /// Returns a row of empty cells.
    pub(crate) fn open(alloc: Global) -> Result<Box<Row>, AllocError> {
        let mut cells = Vec::with_capacity(alloc, ROW_CELLS as usize)?;
        for _cell in 0..ROW_CELLS {
            cells.push(OnceBox::new(alloc))?;
        }
        Ok(Box::new(alloc, Row { cells })?)
    }

    /// Returns the cell of the ticket with this number, if this is its row.
    pub(crate) fn cell(&self, number: u64) -> &Cell
        ensures { slice_get self.now (place_in_row number) ≡ Some (cell_name result.now) }
    {
        &self.cells[(number % ROW_CELLS) as usize]
    }
}
