//! What is true of any cells.
ghost use Rattle.std.specs.Prelude.{◌≡◌, ◌⊎◌, Some, IfOk, IfErr};
ghost use Rattle.mc_model.specs.declared.id.Ticket.{Ticket};
ghost use Rattle.uc_cells.specs.Cells.{HasCell, place_in_row, row_at, row_place};
ghost use Rattle.uc_cells.specs.Sighting.{sighting};

use crate::{Cells, Seen};
use mc_model::{Entry, Fault, Ticket};
use std::alloc::Global;

/// Each ticket that has a cell has its own: if two tickets' cells are at the same place of the same
/// row, the tickets are equal.
pub fn each_ticket_has_its_own_cell(cells: &Cells)
    ensures { (one : Ticket) (other : Ticket) → HasCell cells.now one → HasCell cells.now other →
        row_place cells.now one ≡ row_place cells.now other →
        place_in_row one.number ≡ place_in_row other.number →
        one ≡ other }
{
    let _ = cells;
}

/// What was put is what is seen: no sighting of the cell misses it. Returns `Taken` if the cell
/// holds another value, and `Memory` if an allocation fails.
pub fn what_was_put_is_seen(cells: &Cells, alloc: Global, entry: Entry) -> Result<Seen<'_>, Fault>
    requires { HasCell cells.now entry.ticket }
    ensures put { IfOk result
        (λ seen. seen ≡ sighting entry.ticket (Some entry) (row_at cells.now entry.ticket)) }
    ensures faults { IfErr result (λ fault. (fault ≡ Fault.Memory) ⊎ (fault ≡ Fault.Taken)) }
{
    let ticket = entry.ticket;
    let Ticket { worker, number } = ticket;
    let mut put = cells.put(alloc, entry)?;
    let mut seen = cells.see(alloc, Ticket { worker, number })?;
    seen.agree(&mut put);
    Ok(seen)
}
