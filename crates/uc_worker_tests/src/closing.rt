//! When a log is closing: fewer places are left than it has workers.
use crate::clients::{both_clients, opened};
use crate::generations::{Ask, Row, ask_rows};
use crate::texts::QUOTAS;
use mc_model::Fault;
use std::alloc::Global;

/// A command of each worker.
const ROWS: [Row; 2] = [
    (false, Ask::Text("set a 5 0 1\r\nx\r\n"), "STORED\r\n"),
    (true, Ask::Text("get a\r\n"), "VALUE a 5 1\r\nx\r\nEND\r\n"),
];

/// Returns whether a log of two workers with this many places is closing after two commands.
/// Returns `BadEvent` if the workers disagree.
fn is_closing(alloc: Global, places: u64) -> Result<bool, Fault> {
    let (log, passes) = opened(alloc, 2, places, &[QUOTAS])?;
    let (mut first, mut second) = both_clients(alloc, &log, passes)?;
    ask_rows(alloc, &mut first, &mut second, &ROWS)?;
    let is_closing = first.worker.is_closing();
    if second.worker.is_closing() == is_closing {
        Ok(is_closing)
    } else {
        Err(Fault::BadEvent)
    }
}

#[test]
fn a_log_keeps_a_place_for_each_worker(rt: HostRuntime) {
    assert!(rt; is_closing(rt.alloc(), 2) == Ok(true));
    assert!(rt; is_closing(rt.alloc(), 3) == Ok(true));
    assert!(rt; is_closing(rt.alloc(), 4) == Ok(false));
    assert!(rt; is_closing(rt.alloc(), 3_000) == Ok(false));
}
