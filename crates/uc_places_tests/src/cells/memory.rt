//! A call that runs out of memory says so, and leaves the cell as it was.
//! `tests/allocation_failures.py` refuses each allocation of these tests in turn: if it is one of
//! the call's own, the test ends with `REPORTED` instead of going on.
ghost use Rattle.uc_cells.specs.Cells.{HasCell};

use crate::cells::values::{entry_of, ticket_in};
use mc_model::{Fault, Ticket};
use std::alloc::Global;
use std::process::Abort;
use std::test::Fail;
use uc_cells::Cells;

const FIRST: &str = "set a 7 0 3\r\nabc\r\n";

const OTHER: &str = "set a 7 0 3\r\nabd\r\n";

const REPORTED: &str = "the call reported that memory ran out, and wrote nothing";

/// Asserts that the fault is `Memory`, and that the cell is still empty: another entry can be put
/// into it.
fn assert_untouched(
    rt: &impl Abort,
    alloc: Global,
    cells: &Cells,
    fault: Fault,
    ticket: Ticket,
) -> Result<(), Fail>
    requires { HasCell cells.now ticket }
{
    assert!(rt; fault == Fault::Memory);
    let other = entry_of(alloc, ticket, OTHER)?;
    match cells.put(alloc, other).err() {
        None => Err(Fail::from(REPORTED)),
        Some(_) => panic!(rt; "the cell was written to"),
    }
}

#[test]
fn a_put_reports_out_of_memory(rt: HostRuntime) -> Result<(), Fail> {
    let alloc = rt.alloc();
    let cells = Cells::open(alloc, 1, 2)?;
    let ticket = ticket_in(&cells, 0, 1).ok_or("no cell")?;
    match cells.put(alloc, entry_of(alloc, ticket, FIRST)?).err() {
        None => Ok(()),
        Some(fault) => assert_untouched(&rt, alloc, &cells, fault, ticket),
    }
}

#[test]
fn a_sighting_reports_out_of_memory(rt: HostRuntime) -> Result<(), Fail> {
    let alloc = rt.alloc();
    let cells = Cells::open(alloc, 1, 2)?;
    let ticket = ticket_in(&cells, 0, 1).ok_or("no cell")?;
    // In parts, since a ticket that is passed twice gets no proof.
    let Ticket { worker, number } = ticket;
    match cells.see(alloc, Ticket { worker, number }).err() {
        None => Ok(()),
        Some(fault) => assert_untouched(&rt, alloc, &cells, fault, ticket),
    }
}
