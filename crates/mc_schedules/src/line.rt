//! What a line of an event list says, read from its words.
ghost use Rattle.std.specs.Prelude.{◌≡◌, IfOk, IsOkUnless, map};
ghost use Rattle.mc_schedules.specs.Line.{event, named, order_of, pair_of, said, said_by, named_worker};

use crate::command::{NUMBER, read_command};
use crate::schedule::Action;
use crate::words::{is_word, words};
use mc_model::{Command, Fault, Limits, read_number};
use std::alloc::Global;
use uc_core::Event;

/// The largest number by which a worker or a tenant can be named.
pub const NAMED: u64 = 255;

/// What a line says.
#[derive(Debug, PartialEq, Eq, Drop)]
pub enum Said {
    /// A line without words, or a comment.
    Nothing,
    /// The number of workers and of places.
    Core(u64, u64),
    /// The quotas of the next tenant.
    Tenant(Limits),
    /// An action.
    ToDo(Action),
}

/// Returns the number of a worker or a tenant, which may not exist.
fn read_name(word: &[u8]) -> Option<u8>
    ensures { result ≡ named word.now }
{
    match read_number(word, NAMED) {
        Some(number) => Some(number as u8),
        None => None,
    }
}

/// Returns two numbers, if the words are two numbers.
fn read_pair(arguments: &[&[u8]]) -> Option<(u64, u64)>
    ensures { result ≡ pair_of (map (λ word. word.now) arguments.now) }
{
    let [one, other] = arguments else {
        return None;
    };
    match (read_number(one, NUMBER), read_number(other, NUMBER)) {
        (Some(one), Some(other)) => Some((one, other)),
        _ => None,
    }
}

/// Returns a worker's number, if the words are one.
fn read_worker(arguments: &[&[u8]]) -> Option<u8>
    ensures { result ≡ named_worker (map (λ word. word.now) arguments.now) }
{
    match arguments {
        [worker] => read_name(worker),
        _ => None,
    }
}

/// Returns a worker, a tenant and a command, if the words are these.
fn read_order(alloc: Global, arguments: &[&[u8]]) -> Result<Option<(u8, u8, Command)>, Fault>
    ensures order { IfOk result (λ order. order ≡ order_of (map (λ word. word.now) arguments.now)) }
    ensures memory { IsOkUnless result Fault.Memory }
{
    let [worker, tenant, command @ ..] = arguments else {
        return Ok(None);
    };
    let command = read_command(alloc, command)?;
    match (read_name(worker), read_name(tenant), command) {
        (Some(worker), Some(tenant), Some(command)) => Ok(Some((worker, tenant, command))),
        _ => Ok(None),
    }
}

/// Wraps an event as what a line says.
fn event(happens: Event) -> Said
    ensures { result ≡ event happens }
{
    Said::ToDo(Action::Event(happens))
}

/// Returns what the words say, or `None` if they have no known form. Returns `Memory` if an
/// allocation fails.
fn say(alloc: Global, found: &[&[u8]]) -> Result<Option<Said>, Fault>
    ensures said { IfOk result (λ says. says ≡ said_by (map (λ word. word.now) found.now)) }
    ensures memory { IsOkUnless result Fault.Memory }
{
    let Some((name, arguments)) = found.split_first() else {
        return Ok(Some(Said::Nothing));
    };
    if is_word(name, b"core") {
        Ok(read_pair(arguments).map(|(workers, places)| Said::Core(workers, places)))
    } else if is_word(name, b"tenant") {
        Ok(read_pair(arguments).map(|(items, bytes)| Said::Tenant(Limits { items, bytes })))
    } else if is_word(name, b"announce") {
        Ok(read_order(alloc, arguments)?.map(|(worker, tenant, command)| event(Event::Announce(
            worker, tenant, command,
        ))))
    } else if is_word(name, b"submit") {
        Ok(read_order(alloc, arguments)?.map(|(worker, tenant, command)| {
            Said::ToDo(Action::Submit(worker, tenant, command))
        }))
    } else if is_word(name, b"read") {
        Ok(read_worker(arguments).map(|worker| event(Event::Read(worker))))
    } else if is_word(name, b"look") {
        Ok(read_worker(arguments).map(|worker| event(Event::Look(worker))))
    } else if is_word(name, b"propose") {
        Ok(read_worker(arguments).map(|worker| event(Event::Propose(worker))))
    } else if is_word(name, b"replay") {
        Ok(read_worker(arguments).map(|worker| event(Event::Replay(worker))))
    } else if is_word(name, b"stop") {
        Ok(read_worker(arguments).map(|worker| event(Event::Stop(worker))))
    } else {
        Ok(None)
    }
}

/// Returns what the line says, or `None` if it has no known form; the line comes without its line
/// feed. Returns `Memory` if an allocation fails.
pub fn read_line(alloc: Global, line: &[u8]) -> Result<Option<Said>, Fault>
    ensures said { IfOk result (λ says. says ≡ said line.now) }
    ensures memory { IsOkUnless result Fault.Memory }
{
    if line.first() == Some(&b'#') {
        return Ok(Some(Said::Nothing));
    }
    let found = words(alloc, line)?;
    say(alloc, &found)
}
