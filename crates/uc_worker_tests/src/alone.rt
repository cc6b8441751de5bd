//! A log with one worker, which meets nobody, and the log after it.
use crate::clients::{Client, clients_of, opened};
use crate::generations::is_ready;
use crate::texts::QUOTAS;
use mc_model::Fault;
use std::alloc::Global;
use uc_worker::{Next, turn_over_alone};

/// Turns the log over. Returns `BadEvent` if it has another worker, or this one hasn't replayed all
/// of it or has no room for as many places again.
fn turned_over(alloc: Global, client: &Client<'_>) -> Result<Next, Fault> {
    let settings = client.log.settings();
    if settings.workers() != 1 || !is_ready(&client.worker, settings.places()) {
        return Err(Fault::BadEvent);
    }
    turn_over_alone(alloc, &client.worker, settings)
}

/// Returns whether the log has one worker, and one table with this many items.
fn holds(next: &Next, items: u64) -> bool {
    match next.base.tables().first() {
        Some(table) => next.passes.len() == 1 && table.count() == items,
        None => false,
    }
}

/// Returns whether the log after a set has the table.
fn has_the_table(alloc: Global, client: &mut Client<'_>) -> Result<bool, Fault> {
    if !client.says(alloc, "set a 0 0 1\r\nx\r\n", "STORED\r\n")? {
        return Ok(false);
    }
    Ok(holds(&turned_over(alloc, client)?, 1))
}

fn goes_on(alloc: Global) -> Result<bool, Fault> {
    let (log, passes) = opened(alloc, 1, 1, &[QUOTAS])?;
    let mut clients = clients_of(alloc, &log, passes)?;
    match clients.pop() {
        Some(mut client) => has_the_table(alloc, &mut client),
        None => Err(Fault::BadEvent),
    }
}

#[test]
fn the_next_log_has_the_table(rt: HostRuntime) {
    assert!(rt; goes_on(rt.alloc()) == Ok(true));
}
