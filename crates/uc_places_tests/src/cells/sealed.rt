//! What was seen is kept without the cells, and shown again without memory, on any thread.
ghost use Rattle.std.specs.Prelude.{◌≡◌, IfOk};
ghost use Rattle.uc_places_tests.specs.Places.{IsSeenIn};
ghost use Rattle.uc_cells.specs.Cells.{HasCell};

use crate::cells::threads::{assert_agreed, put_or_see};
use crate::cells::values::{entry_of, holds, ticket_in};
use crate::texts::command_of;
use mc_model::{Command, Fault, TenantId, Ticket};
use std::alloc::Global;
use std::process::Abort;
use std::test::Fail;
use std::thread;
use std::thread::Threads;
use uc_cells::{Cells, Sealed, Seen};

const FIRST: &str = "set a 7 0 3\r\nabc\r\n";

/// Returns whether what was put and sealed is shown twice.
fn is_shown_again(alloc: Global, cells: &Cells, ticket: Ticket) -> Result<bool, Fault>
    requires { HasCell cells.now ticket }
{
    let mut known = cells.put(alloc, entry_of(alloc, ticket, FIRST)?)?.seal();
    let is_ticket = known.ticket() == ticket;
    let is_once = holds(alloc, &cells.see_again(&mut known), ticket, FIRST)?;
    let is_twice = holds(alloc, &cells.see_again(&mut known), ticket, FIRST)?;
    Ok(is_ticket && is_once && is_twice)
}

/// Returns whether what was sealed absent is shown absent.
fn is_absent_again(alloc: Global, cells: &Cells, ticket: Ticket) -> Result<bool, Fault>
    requires { HasCell cells.now ticket }
{
    let mut known = cells.see(alloc, ticket)?.seal();
    Ok(cells.see_again(&mut known).entry().is_none())
}

fn first_is_shown_again(alloc: Global) -> Result<bool, Fault> {
    let cells = Cells::open(alloc, 1, 2)?;
    match ticket_in(&cells, 0, 0) {
        Some(ticket) => is_shown_again(alloc, &cells, ticket),
        None => Err(Fault::BadEvent),
    }
}

fn absent_is_shown_again(alloc: Global) -> Result<bool, Fault> {
    let cells = Cells::open(alloc, 1, 2)?;
    match ticket_in(&cells, 0, 1) {
        Some(ticket) => is_absent_again(alloc, &cells, ticket),
        None => Err(Fault::BadEvent),
    }
}

#[test]
fn what_was_sealed_is_shown_again(rt: HostRuntime) {
    assert!(rt; first_is_shown_again(rt.alloc()) == Ok(true));
}

#[test]
fn what_was_sealed_absent_is_shown_absent(rt: HostRuntime) {
    assert!(rt; absent_is_shown_again(rt.alloc()) == Ok(true));
}

/// Returns the command's entry, sealed; or that the cell is absent, if another thread saw it first.
fn sealed_put(
    cells: &Cells,
    alloc: Global,
    ticket: Ticket,
    tenant: TenantId,
    command: &Command,
) -> Result<Sealed, Fault>
    requires { HasCell cells.now ticket }
    ensures ticket { IfOk result (λ known. known.ticket ≡ ticket) }
    ensures cells { IfOk result (IsSeenIn cells.now) }
{
    Ok(put_or_see(cells, alloc, ticket, tenant, command)?.seal())
}

/// Returns what is seen of the cell, sealed.
fn sealed_see(cells: &Cells, alloc: Global, ticket: Ticket) -> Result<Sealed, Fault>
    requires { HasCell cells.now ticket }
    ensures ticket { IfOk result (λ known. known.ticket ≡ ticket) }
    ensures cells { IfOk result (IsSeenIn cells.now) }
{
    Ok(cells.see(alloc, ticket)?.seal())
}

/// Shows what another thread may have sealed.
fn show<'a>(cells: &'a Cells, known: Sealed) -> Seen<'a>
    requires has { HasCell cells.now known.ticket }
    requires cells { IsSeenIn cells.now known }
    ensures { result ≡ known }
{
    let mut known = known;
    cells.see_again(&mut known)
}

/// Has two threads seal what they see of a cell, into which one of them puts the command, and two
/// others show it again.
fn seal_and_show<R: Threads + Sync + Abort>(
    rt: &R,
    cells: &Cells,
    alloc: Global,
    ticket: Ticket,
    command: &Command,
) -> Result<(), Fail>
    requires { HasCell cells.now ticket }
{
    let tenant = TenantId::new(0).ok_or("no tenant")?;
    let (put, seen) = thread::join(
        rt,
        || sealed_put(cells, alloc, ticket, tenant, command),
        || sealed_see(cells, alloc, ticket),
    );
    let (put, seen) = (put?, seen?);
    let (one, other) = thread::join(rt, || show(cells, seen), || show(cells, put));
    let one = assert_agreed(rt, cells, one, other);
    assert!(rt; one.ticket() == ticket);
    assert!(rt; one.entry().is_none_or(|entry| entry.command == *command));
    Ok(())
}

/// Does so with each of the first worker's cells.
fn seal_and_show_all<R: Threads + Sync + Abort>(
    rt: &R,
    cells: &Cells,
    alloc: Global,
    command: &Command,
) -> Result<(), Fail> {
    for number in 0..100 {
        let ticket = ticket_in(cells, 0, number).ok_or("no cell")?;
        seal_and_show(rt, cells, alloc, ticket, command)?;
    }
    Ok(())
}

#[test]
fn what_one_thread_sealed_another_shows(rt: HostRuntime) -> Result<(), Fail> {
    let alloc = rt.alloc();
    let cells = Cells::open(alloc, 1, 100)?;
    let command = command_of(alloc, FIRST)?;
    let shown = seal_and_show_all(&rt, &cells, alloc, &command);
    drop(command);
    shown
}
