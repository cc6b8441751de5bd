//! What the tests share: tickets that have a cell, and entries of commands as a client writes them.
ghost use Rattle.std.specs.Prelude.{◌≡◌, IfOk, IfSome};
ghost use Rattle.uc_cells.specs.Cells.{HasCell};

use crate::texts::command_of;
use mc_model::{Entry, Fault, TenantId, Ticket, WorkerId};
use std::alloc::Global;
use uc_cells::{Cells, Seen};

/// Returns the ticket of this worker and number, if it has a cell.
pub(crate) fn ticket_in(cells: &Cells, worker: u8, number: u64) -> Option<Ticket>
    ensures { IfSome result (λ ticket. HasCell cells.now ticket) }
{
    let id = WorkerId::new(worker)?;
    if worker < cells.workers() && number < cells.places() {
        Some(Ticket { worker: id, number })
    } else {
        None
    }
}

/// Returns the entry of the first tenant under this ticket.
pub(crate) fn entry_of(alloc: Global, ticket: Ticket, text: &str) -> Result<Entry, Fault>
    ensures { IfOk result (λ entry. entry.ticket ≡ ticket) }
{
    let tenant = TenantId::new(0).ok_or(Fault::BadEvent)?;
    let command = command_of(alloc, text)?;
    Ok(Entry {
        ticket,
        tenant,
        command,
    })
}

/// Returns whether the cell that was seen holds the entry of this text under this ticket.
pub(crate) fn holds(
    alloc: Global,
    seen: &Seen<'_>,
    ticket: Ticket,
    text: &str,
) -> Result<bool, Fault> {
    let want = entry_of(alloc, ticket, text)?;
    let is_held = match seen.entry() {
        Some(entry) => *entry == want,
        None => false,
    };
    // A local that its block drops is proved variant by variant of what it holds.
    drop(want);
    Ok(is_held)
}

/// Returns whether a put of this text shows its entry.
pub(crate) fn is_put(
    alloc: Global,
    cells: &Cells,
    ticket: Ticket,
    text: &str,
) -> Result<bool, Fault>
    requires { HasCell cells.now ticket }
{
    // In parts, since a ticket that is passed twice gets no proof.
    let Ticket { worker, number } = ticket;
    let seen = cells.put(alloc, entry_of(alloc, ticket, text)?)?;
    holds(alloc, &seen, Ticket { worker, number }, text)
}

/// Returns whether the cell shows the entry of this text.
pub(crate) fn is_seen(
    alloc: Global,
    cells: &Cells,
    ticket: Ticket,
    text: &str,
) -> Result<bool, Fault>
    requires { HasCell cells.now ticket }
{
    let Ticket { worker, number } = ticket;
    let seen = cells.see(alloc, ticket)?;
    holds(alloc, &seen, Ticket { worker, number }, text)
}
