//! A turn over that runs out of memory says so, and leaves the workers as they were.
//! `tests/allocation_failures.py` refuses its allocations in turn: if it is one of the turn over's
//! own, the test ends with `REPORTED`.
ghost use Rattle.std.specs.Prelude.{◌≡◌, ◌<◌, All, length};
ghost use Rattle.uc_worker.specs.Worker.{tenants_of};

use crate::clients::{Client, both_clients, has_tickets, opened};
use crate::generations::{Ask, Row, ask_rows, is_ready, workers_of};
use crate::recomputing::is_held_alike;
use crate::texts::QUOTAS;
use mc_items::{CellItems, Items};
use mc_model::{Fault, Key, TenantId};
use std::alloc::Global;
use std::test::Fail;
use uc_log::Log;
use uc_worker::{Worker, turn_over};

const ROWS: [Row; 2] = [
    (false, Ask::Text("set a 5 0 1\r\nx\r\n"), "STORED\r\n"),
    (true, Ask::Text("set b 6 0 2\r\nyz\r\n"), "STORED\r\n"),
];

/// Where these commands stand.
const TICKETS: [(u8, u64); 2] = [(0, 0), (1, 0)];

const REPORTED: &str = "the turn over reported that memory ran out, and changed no worker";

/// What the table of each worker is to hold.
#[derive(Drop)]
struct Kept {
    table: Items,
    keys: Vec<Key>,
}

fn keys_of(alloc: Global) -> Result<Vec<Key>, Fault> {
    let mut keys = Vec::new(alloc);
    for name in ["a", "b"] {
        let Some(key) = Key::new(alloc, name.as_bytes())? else {
            return Err(Fault::BadEvent);
        };
        keys.push(key)?;
    }
    Ok(keys)
}

/// Returns a copy of the first tenant's table.
fn kept_of(alloc: Global, client: &Client<'_>) -> Result<Kept, Fault> {
    let Some(tenant) = TenantId::new(0) else {
        return Err(Fault::BadEvent);
    };
    let Some(table) = client.table(tenant) else {
        return Err(Fault::BadEvent);
    };
    Ok(Kept {
        table: table.copied()?,
        keys: keys_of(alloc)?,
    })
}

fn is_alike(alloc: Global, items: &CellItems<'_>, kept: &Kept) -> Result<bool, Fault> {
    for key in &kept.keys {
        if !is_held_alike(alloc, items, &kept.table, key)? {
            return Ok(false);
        }
    }
    Ok(
        items.last_unique() == kept.table.last_unique()
            && items.limits() == kept.table.limits()
            && items.used() == kept.table.used()
            && items.count() == kept.table.count(),
    )
}

/// Returns whether the worker has replayed both commands, and its first tenant's table is this one.
fn is_as_before(alloc: Global, worker: &Worker<'_>, kept: &Kept) -> Result<bool, Fault>
    requires { 0 < length (tenants_of worker.now) }
{
    let Some(tenant) = TenantId::new(0) else {
        return Ok(false);
    };
    let is_alike = is_alike(alloc, worker.table(tenant), kept)?;
    Ok(is_alike && worker.is_done() && has_tickets(worker.history(), &TICKETS))
}

/// Returns whether this is so for both workers.
fn are_as_before(alloc: Global, workers: &[Worker<'_>], kept: &Kept) -> Result<bool, Fault>
    requires { All (λ worker. 0 < length (tenants_of worker)) workers.now }
{
    match (workers.first(), workers.last()) {
        (Some(one), Some(other)) => Ok(
            workers.len() == 2
                && is_as_before(alloc, one, kept)?
                && is_as_before(alloc, other, kept)?,
        ),
        _ => Ok(false),
    }
}

/// Turns the log over. Returns `false` if memory runs out, and the workers are as they were.
fn try_turn_over<'a>(
    alloc: Global,
    log: &'a Log,
    first: Client<'a>,
    second: Client<'a>,
) -> Result<bool, Fault>
    requires one { first.log.now ≡ log.now }
    requires two { second.log.now ≡ log.now }
{
    let settings = log.settings();
    let places = settings.places();
    if settings.tenants().is_empty()
        || !is_ready(&first.worker, places)
        || !is_ready(&second.worker, places)
    {
        return Err(Fault::BadEvent);
    }
    let kept = kept_of(alloc, &first)?;
    let mut workers = workers_of(alloc, first, second)?;
    match turn_over(alloc, &mut workers, settings) {
        Ok(_) => Ok(true),
        Err(Fault::Memory) if are_as_before(alloc, &workers, &kept)? => Ok(false),
        Err(_) => Err(Fault::BadEvent),
    }
}

#[test]
fn a_turn_over_reports_out_of_memory(rt: HostRuntime) -> Result<(), Fail> {
    let alloc = rt.alloc();
    let (log, passes) = opened(alloc, 2, 2, &[QUOTAS])?;
    let (mut first, mut second) = both_clients(alloc, &log, passes)?;
    ask_rows(alloc, &mut first, &mut second, &ROWS)?;
    if try_turn_over(alloc, &log, first, second)? {
        Ok(())
    } else {
        Err(Fail::from(REPORTED))
    }
}
