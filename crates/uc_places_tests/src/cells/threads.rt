//! Threads that see cells while another puts them: all sightings of a cell are equal, and outlive
//! the threads that made them.
ghost use Rattle.std.specs.Prelude.{◌≡◌, All, IfOk};
ghost use Rattle.uc_places_tests.specs.Places.{IsSeenIn};
ghost use Rattle.uc_cells.specs.Cells.{HasCell, row_at};

use crate::cells::values::ticket_in;
use crate::texts::command_of;
use mc_model::{Command, Entry, Fault, TenantId, Ticket};
use std::alloc::Global;
use std::process::Abort;
use std::test::Fail;
use std::thread;
use std::thread::Threads;
use uc_cells::{Cells, Seen};

/// How many cells the threads share.
const CELLS: u64 = 100;

/// Sees each of the first worker's cells.
fn see_all<'a>(cells: &'a Cells, alloc: Global) -> Result<Vec<Seen<'a>>, Fault>
    ensures { IfOk result (λ all. All (IsSeenIn cells.now) all.items) }
{
    let mut all = Vec::new(alloc);
    for number in 0..CELLS {
        if let Some(ticket) = ticket_in(cells, 0, number) {
            all.push(cells.see(alloc, ticket)?)?;
        }
    }
    Ok(all)
}

/// Puts the command into the cell, and sees it there; or sees that the cell is absent for good, if
/// another thread saw it first.
pub(crate) fn put_or_see<'a>(
    cells: &'a Cells,
    alloc: Global,
    ticket: Ticket,
    tenant: TenantId,
    command: &Command,
) -> Result<Seen<'a>, Fault>
    requires { HasCell cells.now ticket }
    ensures ticket { IfOk result (λ seen. seen.ticket ≡ ticket) }
    ensures row { IfOk result (λ seen. seen.row ≡ row_at cells.now ticket) }
{
    let Ticket { worker, number } = ticket;
    let command = command.try_clone()?;
    let entry = Entry {
        ticket: Ticket { worker, number },
        tenant,
        command,
    };
    match cells.put(alloc, entry) {
        Err(Fault::Taken) => cells.see(alloc, Ticket { worker, number }),
        seen => seen,
    }
}

/// Puts the command into each of the first worker's cells that nobody saw yet.
fn put_all<'a>(
    cells: &'a Cells,
    alloc: Global,
    tenant: TenantId,
    command: &Command,
) -> Result<Vec<Seen<'a>>, Fault>
    ensures { IfOk result (λ all. All (IsSeenIn cells.now) all.items) }
{
    let mut all = Vec::new(alloc);
    for number in 0..CELLS {
        if let Some(ticket) = ticket_in(cells, 0, number) {
            all.push(put_or_see(cells, alloc, ticket, tenant, command)?)?;
        }
    }
    Ok(all)
}

/// Asserts that two sightings of one cell are equal, and that the entries they show are.
pub(crate) fn assert_agreed<'a>(
    rt: &impl Abort,
    cells: &Cells,
    one: Seen<'a>,
    other: Seen<'_>,
) -> Seen<'a>
    requires one { IsSeenIn cells.now one }
    requires other { IsSeenIn cells.now other }
    ensures { result ≡ one.entry }
{
    let (mut one, mut other) = (one, other);
    assert!(rt; one.ticket() == other.ticket());
    one.agree(&mut other);
    assert!(rt; one.entry() == other.entry());
    one
}

/// Compares the sightings of the same tickets, one by one, and returns the first ones.
fn agreed<'a>(
    rt: &impl Abort,
    cells: &Cells,
    alloc: Global,
    ones: Vec<Seen<'a>>,
    others: Vec<Seen<'a>>,
) -> Result<Vec<Seen<'a>>, Fault>
    requires ones { All (IsSeenIn cells.now) ones.items }
    requires others { All (IsSeenIn cells.now) others.items }
    ensures { IfOk result (λ all. All (IsSeenIn cells.now) all.items) }
{
    assert!(rt; ones.len() == others.len());
    let mut all = Vec::new(alloc);
    for (one, other) in ones.into_iter().zip(others) {
        all.push(assert_agreed(rt, cells, one, other))?;
    }
    Ok(all)
}

/// Returns what two threads see.
fn see_twice<'a, R: Threads + Sync>(
    rt: &R,
    cells: &'a Cells,
    alloc: Global,
) -> Result<(Vec<Seen<'a>>, Vec<Seen<'a>>), Fault>
    ensures one { IfOk result (λ both. All (IsSeenIn cells.now) both.0.items) }
    ensures other { IfOk result (λ both. All (IsSeenIn cells.now) both.1.items) }
{
    let (one, other) = thread::join(rt, || see_all(cells, alloc), || see_all(cells, alloc));
    Ok((one?, other?))
}

/// Has one thread put the command and four see: what the five saw of each cell is equal, after all
/// of them have ended.
fn put_and_see<'a, R: Threads + Sync + Abort>(
    rt: &R,
    cells: &'a Cells,
    alloc: Global,
    tenant: TenantId,
    command: &Command,
) -> Result<Vec<Seen<'a>>, Fault> {
    let (put, seen) = thread::join(
        rt,
        || put_all(cells, alloc, tenant, command),
        || thread::join(
            rt,
            || see_twice(rt, cells, alloc),
            || see_twice(rt, cells, alloc),
        ),
    );
    let (one, other) = seen;
    let ((first, second), (third, fourth)) = (one?, other?);
    let all = agreed(rt, cells, alloc, put?, first)?;
    let all = agreed(rt, cells, alloc, all, second)?;
    let all = agreed(rt, cells, alloc, all, third)?;
    let all = agreed(rt, cells, alloc, all, fourth)?;
    agreed(rt, cells, alloc, all, see_all(cells, alloc)?)
}

/// Asserts that what is seen of each cell is the command, or nothing.
fn assert_seen(rt: &impl Abort, all: &[Seen<'_>], command: &Command) {
    for seen in all {
        assert!(rt; seen.entry().is_none_or(|entry| entry.command == *command));
    }
}

/// Has threads put the command and see it, and asserts what they see.
fn assert_seen_alike<R: Threads + Sync + Abort>(
    rt: &R,
    cells: &Cells,
    alloc: Global,
    command: &Command,
) -> Result<(), Fail> {
    let tenant = TenantId::new(0).ok_or("no tenant")?;
    let all = put_and_see(rt, cells, alloc, tenant, command)?;
    assert_eq!(rt; all.len() as u64, CELLS);
    assert_seen(rt, &all, command);
    Ok(())
}

#[test]
fn all_threads_see_the_same(rt: HostRuntime) -> Result<(), Fail> {
    let alloc = rt.alloc();
    let cells = Cells::open(alloc, 1, CELLS)?;
    let command = command_of(alloc, "set a 7 0 3\r\nabc\r\n")?;
    let seen = assert_seen_alike(&rt, &cells, alloc, &command);
    drop(command);
    seen
}
