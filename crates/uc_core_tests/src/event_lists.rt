//! What the tests share: event lists as they are read.
use mc_model::{Fault, Limits};
use mc_schedules::{Action, Item, Reading, Schedule, read_schedule};
use std::alloc::Global;
use std::process::Abort;

/// Returns the list of this text.
pub(crate) fn list_of(alloc: Global, text: &str) -> Result<Schedule, Fault> {
    match read_schedule(alloc, text.as_bytes())? {
        Reading::Schedule(schedule) => Ok(schedule),
        Reading::Bad(_) => Err(Fault::BadEvent),
    }
}

/// Returns whether the items stand at these lines.
fn stand_at(items: &[Item], lines: &[u64]) -> bool {
    for (item, line) in items.iter().zip(lines) {
        if item.line != *line {
            return false;
        }
    }
    items.len() == lines.len()
}

/// Returns whether the list has these settings, and items at these lines.
fn has(list: &Schedule, size: (u64, u64), tenants: &[Limits], lines: &[u64]) -> bool {
    (list.workers, list.places) == size
        && list.tenants.as_slice() == tenants
        && stand_at(&list.items, lines)
}

/// Returns whether the text reads as a list of these settings, and of items at these lines.
pub(crate) fn is_list(
    alloc: Global,
    text: &str,
    size: (u64, u64),
    tenants: &[Limits],
    lines: &[u64],
) -> Result<bool, Fault> {
    let list = list_of(alloc, text)?;
    Ok(has(&list, size, tenants, lines))
}

/// Asserts that the text reads as a list of these settings, and of items at these lines.
pub(crate) fn assert_list(
    rt: &impl Abort,
    alloc: Global,
    text: &str,
    size: (u64, u64),
    tenants: &[Limits],
    lines: &[u64],
) {
    assert_eq!(rt;
        is_list(alloc, text, size, tenants, lines),
        Ok(true),
        "{text}"
    );
}

/// Returns whether the items are one, which asks for this.
fn is_one(items: &[Item], action: &Action) -> bool {
    match items.first() {
        Some(item) => items.len() == 1 && item.action == *action,
        None => false,
    }
}

/// Returns whether the line asks for this.
pub(crate) fn asks_for(alloc: Global, line: &str, action: &Action) -> Result<bool, Fault> {
    let text = format!(in alloc; "core 1 1\ntenant 1 1\n{line}")?;
    let list = list_of(alloc, text.as_str())?;
    Ok(is_one(&list.items, action))
}

/// Returns at which line the bytes are bad, if they are.
pub(crate) fn bad_line(alloc: Global, bytes: &[u8]) -> Result<Option<u64>, Fault> {
    Ok(match read_schedule(alloc, bytes)? {
        Reading::Bad(line) => Some(line),
        Reading::Schedule(_) => None,
    })
}

/// Asserts that the list is bad at this line.
pub(crate) fn assert_bad(rt: &impl Abort, alloc: Global, text: &str, line: u64) {
    assert_eq!(rt; bad_line(alloc, text.as_bytes()), Ok(Some(line)), "{text}");
}
