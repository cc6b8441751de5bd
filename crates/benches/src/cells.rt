//! The cells: a put of an entry and four sightings of it, compared with a push of an entry to a
//! plain vector and four reads of it. Of each pass it prints how often an entry was seen and read,
//! and if timed the nanoseconds of an entry.
ghost use Rattle.uc_cells.specs.Cells.{HasCell};

use crate::figures::{Decimal, nanoseconds_of, print_figure};
use mc_model::{Command, Entry, KeyBlock, KeyList, TenantId, Ticket, WorkerId};
use std::alloc::{AllocError, Global};
use std::io;
use std::rt::Clock;
use std::time::Instant;
use uc_cells::Cells;

/// How many entries are written and read in a pass.
const ENTRIES: u64 = 50_000;

/// How many passes there are.
const PASSES: usize = 7;

/// How often an entry is read.
const READS: usize = 4;

/// Returns a `get a` of the first tenant under this ticket.
fn entry_of(alloc: Global, ticket: Ticket) -> Option<Entry> {
    let mut keys = KeyBlock::new(alloc);
    keys.push(b"a").ok()?;
    let keys = KeyList::new(keys)?;
    Some(Entry {
        ticket,
        tenant: TenantId::new(0)?,
        command: Command::Get {
            keys,
            uniques: false,
        },
    })
}

/// Returns the entries of the first worker's tickets.
fn entries(alloc: Global) -> Option<Vec<Entry>> {
    let mut made = Vec::new(alloc);
    for number in 0..ENTRIES {
        let worker = WorkerId::new(0)?;
        made.push(entry_of(alloc, Ticket { worker, number })?).ok()?;
    }
    Some(made)
}

/// Returns how often an entry is seen in the ticket's cell, of `READS` times.
fn see_often(alloc: Global, cells: &Cells, ticket: Ticket) -> Option<u64>
    requires { HasCell cells.now ticket }
{
    let Ticket { worker, number } = ticket;
    let mut count = 0u64;
    for _ in 0..READS {
        let seen = cells.see(alloc, Ticket { worker, number }).ok()?;
        count = count.saturating_add(u64::from(seen.entry().is_some()));
    }
    Some(count)
}

/// Puts an entry into its cell, and returns how often it is seen there.
fn put_and_see_often(alloc: Global, cells: &Cells, entry: Entry) -> Option<u64> {
    let ticket = entry.ticket;
    let Ticket { worker, number } = ticket;
    if worker.number() < cells.workers() && number < cells.places() {
        cells.put(alloc, entry).ok()?;
        return see_often(alloc, cells, Ticket { worker, number });
    }
    Some(0)
}

/// Puts each entry into its cell and sees it four times. Returns how many entries were seen.
fn put_and_see(alloc: Global, cells: &Cells, entries: Vec<Entry>) -> Option<u64> {
    let mut count = 0u64;
    for entry in entries {
        count = count.saturating_add(put_and_see_often(alloc, cells, entry)?);
    }
    Some(count)
}

/// Pushes each entry and reads it four times. Returns how many entries were read.
fn push_and_read(log: &mut Vec<Entry>, entries: Vec<Entry>) -> Option<u64> {
    let mut count = 0u64;
    for entry in entries {
        let number = entry.ticket.number;
        log.push(entry).ok()?;
        for _ in 0..READS {
            if log
                .get(number as usize)
                .is_some_and(|entry| entry.ticket.number == number)
            {
                count = count.saturating_add(1);
            }
        }
    }
    Some(count)
}

/// Does a pass and prints its measurements.
fn report(rt: &(impl AllocGlobal + Clock + Print), timed: bool) -> io::Result<()> {
    let alloc = rt.alloc();
    let ours = entries(alloc).ok_or(AllocError)?;
    let plain = entries(alloc).ok_or(AllocError)?;
    let cells = Cells::open(alloc, 1, ENTRIES).map_err(|_| AllocError)?;
    let start = Instant::now(rt)?;
    let seen = put_and_see(alloc, &cells, ours).ok_or(AllocError)?;
    let cells_time = nanoseconds_of(start.elapsed(rt)?);
    let mut log = Vec::new(alloc);
    let start = Instant::now(rt)?;
    let read = push_and_read(&mut log, plain).ok_or(AllocError)?;
    let plain_time = nanoseconds_of(start.elapsed(rt)?);
    print_figure(rt, "entries seen in cells", seen, "count")?;
    print_figure(rt, "entries read in a plain vector", read, "count")?;
    if timed {
        let each = Decimal::quotient(cells_time, ENTRIES);
        print_figure(rt, "a put into a cell, and four sightings", each, "ns")?;
        let each = Decimal::quotient(plain_time, ENTRIES);
        print_figure(rt, "a push to a plain vector, and four reads", each, "ns")?;
    }
    Ok(())
}

/// Does all passes.
pub(crate) fn run_all(rt: &(impl AllocGlobal + Clock + Print), timed: bool) -> io::Result<()> {
    for _ in 0..PASSES {
        report(rt, timed)?;
    }
    Ok(())
}
