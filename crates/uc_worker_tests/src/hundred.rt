//! Two threads that submit a hundred commands each, and then meet.
ghost use Rattle.std.specs.Prelude.{◌≡◌, IfOk};

use crate::clients::{Client, are_equal, both_clients, opened};
use crate::texts::{QUOTAS, command_of};
use mc_model::Fault;
use std::alloc::Global;
use std::test::Fail;
use std::thread;
use std::thread::Threads;
use uc_cells::Seen;

/// The keys of worker 0 and worker 1.
const NAMES: [&str; 2] = ["a", "b"];

/// Each thread sets its key to each of these numbers of three digits, and gets it after that.
const FIRST: u64 = 100;

const END: u64 = 150;

fn set_text(alloc: Global, name: &str, number: u64) -> Result<String, Fault> {
    Ok(format!(in alloc; "set {name} 0 0 3\r\n{number}\r\n")?)
}

fn get_text(alloc: Global, name: &str) -> Result<String, Fault> {
    Ok(format!(in alloc; "get {name}\r\n")?)
}

fn value_text(alloc: Global, name: &str, number: u64) -> Result<String, Fault> {
    Ok(format!(in alloc; "VALUE {name} 0 3\r\n{number}\r\nEND\r\n")?)
}

fn is_stored(alloc: Global, client: &mut Client<'_>, name: &str, number: u64) -> Result<bool, Fault>
    ensures { client.new.log ≡ client.old.log }
{
    let text = set_text(alloc, name, number)?;
    client.says(alloc, text.as_str(), "STORED\r\n")
}

fn is_given(alloc: Global, client: &mut Client<'_>, name: &str, number: u64) -> Result<bool, Fault>
    ensures { client.new.log ≡ client.old.log }
{
    let want = value_text(alloc, name, number)?;
    let text = get_text(alloc, name)?;
    client.says(alloc, text.as_str(), want.as_str())
}

/// Submits the hundred commands. Returns whether each set is stored, and each get gives what was
/// set before it.
fn submit_all(alloc: Global, client: &mut Client<'_>, name: &str) -> Result<bool, Fault>
    ensures { client.new.log ≡ client.old.log }
{
    for number in FIRST..END {
        if !is_stored(alloc, client, name, number)? {
            return Ok(false);
        }
        if !is_given(alloc, client, name, number)? {
            return Ok(false);
        }
    }
    Ok(true)
}

/// Returns the client after its hundred commands, and whether all were answered right.
fn worked<'a>(alloc: Global, client: Client<'a>, name: &str) -> (Client<'a>, Result<bool, Fault>)
    ensures { result.0.log ≡ client.entry.log }
{
    let mut client = client;
    let right = submit_all(alloc, &mut client, name);
    (client, right)
}

/// Returns both clients once their threads have ended, if all was answered right.
fn worked_both<'a, R: Threads + Sync>(
    rt: &R,
    alloc: Global,
    first: Client<'a>,
    second: Client<'a>,
) -> Result<(Client<'a>, Client<'a>), Fault>
    ensures one { IfOk result (λ pair. pair.0.log ≡ first.entry.log) }
    ensures two { IfOk result (λ pair. pair.1.log ≡ second.entry.log) }
{
    let ((first, one), (second, other)) = thread::join(
        rt,
        move || -> (Client<'_>, Result<bool, Fault>)
            ensures { result.0.log ≡ first.entry.log }
        { worked(alloc, first, NAMES[0]) },
        move || -> (Client<'_>, Result<bool, Fault>)
            ensures { result.0.log ≡ second.entry.log }
        { worked(alloc, second, NAMES[1]) },
    );
    if one? && other? {
        Ok((first, second))
    } else {
        Err(Fault::BadEvent)
    }
}

/// Returns whether the command that was seen is the one that a client writes as this text.
fn is_command(alloc: Global, seen: &Seen<'_>, text: &str) -> Result<bool, Fault> {
    let command = command_of(alloc, text)?;
    let is_command = match seen.entry() {
        Some(entry) => entry.command == command,
        None => false,
    };
    drop(command);
    Ok(is_command)
}

/// Returns what the worker submits, in order.
fn texts_of(alloc: Global, name: &str) -> Result<Vec<String>, Fault> {
    let mut texts = Vec::new(alloc);
    for number in FIRST..END {
        texts.push(set_text(alloc, name, number)?)?;
        texts.push(get_text(alloc, name)?)?;
    }
    Ok(texts)
}

/// Returns the worker's places of the history.
fn places_of<'s, 'a>(
    alloc: Global,
    history: &'s [Seen<'a>],
    worker: u8,
) -> Result<Vec<&'s Seen<'a>>, Fault> {
    let mut own = Vec::new(alloc);
    for seen in history {
        if seen.ticket().worker.number() == worker {
            own.push(seen)?;
        }
    }
    Ok(own)
}

/// Returns whether these are the worker's commands, once each and in order, under their numbers.
fn are_all(alloc: Global, own: &[&Seen<'_>], texts: &[String]) -> Result<bool, Fault> {
    for (number, (seen, text)) in own.iter().zip(texts).enumerate() {
        if seen.ticket().number != number as u64 || !is_command(alloc, seen, text.as_str())? {
            return Ok(false);
        }
    }
    Ok(own.len() == 100 && texts.len() == 100)
}

/// Returns whether the worker's commands stand in the history once each and in order, and no others
/// of it.
fn stand_in_order(
    alloc: Global,
    history: &[Seen<'_>],
    worker: u8,
    name: &str,
) -> Result<bool, Fault> {
    let texts = texts_of(alloc, name)?;
    let own = places_of(alloc, history, worker)?;
    are_all(alloc, own.as_slice(), texts.as_slice())
}

/// Returns whether each has replayed all commands before they meet, and both have the same history
/// afterwards.
fn agree<'a>(first: &mut Client<'a>, second: &mut Client<'a>) -> Result<bool, Fault>
    requires { first.old.log.now ≡ second.old.log.now }
{
    first.catch_up()?;
    second.catch_up()?;
    if first.history().len() != 200 || second.history().len() != 200 {
        return Ok(false);
    }
    first.meet(second)?;
    Ok(first.history().len() == 200 && are_equal(first.history(), second.history()))
}

/// Returns whether both agree, and each worker's commands stand in order.
fn are_right<'a>(
    alloc: Global,
    first: &mut Client<'a>,
    second: &mut Client<'a>,
) -> Result<bool, Fault>
    requires { first.old.log.now ≡ second.old.log.now }
{
    if !agree(first, second)? || !stand_in_order(alloc, first.history(), 0, NAMES[0])? {
        return Ok(false);
    }
    stand_in_order(alloc, second.history(), 1, NAMES[1])
}

#[test]
fn two_threads_hundred_commands(rt: HostRuntime) -> Result<(), Fail> {
    let alloc = rt.alloc();
    let (log, passes) = opened(alloc, 2, 1_024, &[QUOTAS])?;
    let (first, second) = both_clients(alloc, &log, passes)?;
    let (mut first, mut second) = worked_both(&rt, alloc, first, second)?;
    assert!(rt; are_right(alloc, &mut first, &mut second) == Ok(true));
    Ok(())
}
