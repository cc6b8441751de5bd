//! A cell is set at most once.
ghost use Rattle.uc_cells.specs.Cells.{HasCell};

use crate::cells::values::{entry_of, is_put, is_seen, ticket_in};
use mc_model::{Fault, Ticket};
use std::alloc::Global;
use uc_cells::Cells;

const FIRST: &str = "set a 7 0 3\r\nabc\r\n";

const OTHER: &str = "set a 7 0 3\r\nabd\r\n";

/// Returns whether a put of this text returns `Taken`.
fn is_taken(alloc: Global, cells: &Cells, ticket: Ticket, text: &str) -> Result<bool, Fault>
    requires { HasCell cells.now ticket }
{
    let entry = entry_of(alloc, ticket, text)?;
    Ok(cells.put(alloc, entry).err() == Some(Fault::Taken))
}

/// Returns whether the cell is seen absent.
fn is_absent(alloc: Global, cells: &Cells, ticket: Ticket) -> Result<bool, Fault>
    requires { HasCell cells.now ticket }
{
    let seen = cells.see(alloc, ticket)?;
    Ok(seen.entry().is_none())
}

/// Returns whether the first entry is put, shown, and put again, and another is refused.
fn stays(alloc: Global, cells: &Cells, ticket: Ticket) -> Result<bool, Fault>
    requires { HasCell cells.now ticket }
{
    let is_first = is_put(alloc, cells, ticket, FIRST)?;
    let is_taken = is_taken(alloc, cells, ticket, OTHER)?;
    let is_seen = is_seen(alloc, cells, ticket, FIRST)?;
    let is_again = is_put(alloc, cells, ticket, FIRST)?;
    Ok(is_first && is_taken && is_seen && is_again)
}

/// Returns whether the cell is absent, before and after a put that is refused.
fn stays_absent(alloc: Global, cells: &Cells, ticket: Ticket) -> Result<bool, Fault>
    requires { HasCell cells.now ticket }
{
    let is_before = is_absent(alloc, cells, ticket)?;
    let is_taken = is_taken(alloc, cells, ticket, FIRST)?;
    let is_after = is_absent(alloc, cells, ticket)?;
    Ok(is_before && is_taken && is_after)
}

fn first_stays(alloc: Global) -> Result<bool, Fault> {
    let cells = Cells::open(alloc, 1, 2)?;
    match ticket_in(&cells, 0, 0) {
        Some(ticket) => stays(alloc, &cells, ticket),
        None => Err(Fault::BadEvent),
    }
}

fn absent_stays(alloc: Global) -> Result<bool, Fault> {
    let cells = Cells::open(alloc, 1, 2)?;
    match ticket_in(&cells, 0, 1) {
        Some(ticket) => stays_absent(alloc, &cells, ticket),
        None => Err(Fault::BadEvent),
    }
}

#[test]
fn the_first_entry_stays(rt: HostRuntime) {
    assert!(rt; first_stays(rt.alloc()) == Ok(true));
}

#[test]
fn what_was_seen_absent_stays_absent(rt: HostRuntime) {
    assert!(rt; absent_stays(rt.alloc()) == Ok(true));
}
