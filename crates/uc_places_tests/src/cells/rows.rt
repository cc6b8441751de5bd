//! Cells at the ends of their rows, and the greatest numbers of workers and places.
ghost use Rattle.uc_cells.specs.Cells.{HasCell};

use crate::cells::values::{entry_of, is_put, is_seen, ticket_in};
use mc_model::{Fault, Ticket};
use std::alloc::Global;
use std::test::Fail;
use uc_cells::Cells;

/// Places of 3 rows, and numbers at the rows' ends.
const PLACES: u64 = 3_000;

const NUMBERS: &[u64] = &[0, 1_023, 1_024, 2_047, 2_048, 2_999];

/// Returns the text of a command that names its own ticket.
fn own_text(alloc: Global, worker: u8, number: u64) -> Result<String, Fault> {
    Ok(format!(in alloc; "incr w{worker} {number}\r\n")?)
}

fn put(alloc: Global, cells: &Cells, ticket: Ticket, text: &str) -> Result<bool, Fault>
    requires { HasCell cells.now ticket }
{
    let entry = entry_of(alloc, ticket, text)?;
    let seen = cells.put(alloc, entry)?;
    Ok(seen.ticket() == ticket)
}

/// Returns whether a put into the cell shows its ticket.
fn puts(alloc: Global, cells: &Cells, worker: u8, number: u64) -> Result<bool, Fault> {
    let text = own_text(alloc, worker, number)?;
    match ticket_in(cells, worker, number) {
        Some(ticket) => put(alloc, cells, ticket, text.as_str()),
        None => Err(Fault::BadEvent),
    }
}

/// Returns whether the cell shows its own entry.
fn sees(alloc: Global, cells: &Cells, worker: u8, number: u64) -> Result<bool, Fault> {
    let text = own_text(alloc, worker, number)?;
    match ticket_in(cells, worker, number) {
        Some(ticket) => is_seen(alloc, cells, ticket, text.as_str()),
        None => Err(Fault::BadEvent),
    }
}

fn puts_all(alloc: Global, cells: &Cells, worker: u8) -> Result<bool, Fault> {
    for number in NUMBERS {
        if !puts(alloc, cells, worker, *number)? {
            return Ok(false);
        }
    }
    Ok(true)
}

fn sees_all(alloc: Global, cells: &Cells, worker: u8) -> Result<bool, Fault> {
    for number in NUMBERS {
        if !sees(alloc, cells, worker, *number)? {
            return Ok(false);
        }
    }
    Ok(true)
}

/// If nobody has seen a cell, no put is refused, and each cell has its own entry.
#[test]
fn each_ticket_has_its_own_cell(rt: HostRuntime) -> Result<(), Fail> {
    let alloc = rt.alloc();
    let cells = Cells::open(alloc, 2, PLACES)?;
    assert!(rt; puts_all(alloc, &cells, 0) == Ok(true));
    assert!(rt; puts_all(alloc, &cells, 1) == Ok(true));
    assert!(rt; sees_all(alloc, &cells, 0) == Ok(true));
    assert!(rt; sees_all(alloc, &cells, 1) == Ok(true));
    Ok(())
}

/// Returns whether the greatest cells open, and their last cell takes a put.
fn are_open(alloc: Global) -> Result<bool, Fault> {
    let cells = Cells::open(alloc, 16, 1_048_576)?;
    if cells.workers() != 16 || cells.places() != 1_048_576 {
        return Ok(false);
    }
    match ticket_in(&cells, 15, 1_048_575) {
        Some(ticket) => is_put(alloc, &cells, ticket, "flush_all\r\n"),
        None => Err(Fault::BadEvent),
    }
}

#[test]
fn the_greatest_cells_open(rt: HostRuntime) {
    assert!(rt; are_open(rt.alloc()) == Ok(true));
}
