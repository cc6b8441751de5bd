//! Event lists: settings and actions, line by line.
ghost use Rattle.std.specs.Prelude.{◌≡◌, map, IfOk, IsOkUnless};
ghost use Rattle.mc_schedules.specs.Schedule.{read_as, read_lines, reading};

use crate::draft::Draft;
use crate::line::read_line;
use crate::words::pieces;
use mc_model::{Command, Fault, Limits};
use std::alloc::Global;
use uc_core::Event;

/// The largest number of bytes in an event list.
pub const INPUT_BYTES: usize = 1_048_576;

/// What a line asks for.
#[derive(Debug, PartialEq, Eq, Drop)]
pub enum Action {
    /// One event.
    Event(Event),
    /// All events that a worker needs to announce a command of a tenant, to have it decided, and to
    /// replay all that it has learned.
    Submit(u8, u8, Command),
}

/// An action, and the number of the line that asks for it.
#[derive(Debug, PartialEq, Eq, Drop)]
pub struct Item {
    /// The number of the line, from 1.
    pub line: u64,
    pub action: Action,
}

/// An event list. The numbers of its settings may be out of range, which `Settings::check` rejects.
#[derive(Debug, PartialEq, Eq, Drop)]
pub struct Schedule {
    pub workers: u64,
    pub places: u64,
    pub tenants: Vec<Limits>,
    pub items: Vec<Item>,
}

/// What a byte string reads as.
#[derive(Debug, PartialEq, Eq, Drop)]
pub enum Reading {
    /// The number of the first bad line, from 1; 0 if the input is too long, or ends before its
    /// first tenant line.
    Bad(u64),
    /// An event list.
    Schedule(Schedule),
}

/// Returns what the lines read as, each without its line feed. Returns `Memory` if an allocation
/// fails.
fn read_lines(alloc: Global, lines: &[&[u8]]) -> Result<Reading, Fault>
    ensures reading { IfOk result
        (λ read. read_as read ≡ read_lines (map (λ line. line.now) lines.now)) }
    ensures memory { IsOkUnless result Fault.Memory }
{
    let mut draft = Draft::new(alloc);
    let mut number: u64 = 0;
    for line in lines {
        number += 1;
        match read_line(alloc, line)? {
            Some(said) if draft.has_place_for(&said) => draft.add(number, said)?,
            _ => return Ok(Reading::Bad(number)),
        }
    }
    Ok(draft.finish())
}

/// Returns what the bytes read as: an event list, or the number of the first bad line. Returns
/// `Memory` if an allocation fails.
pub fn read_schedule(alloc: Global, bytes: &[u8]) -> Result<Reading, Fault>
    ensures reading { IfOk result (λ read. read_as read ≡ reading bytes.now) }
    ensures memory { IsOkUnless result Fault.Memory }
{
    if bytes.len() > INPUT_BYTES {
        return Ok(Reading::Bad(0));
    }
    let lines = pieces(alloc, bytes, b'\n')?;
    read_lines(alloc, &lines)
}
