//! A full log takes no more commands, and each later call is refused.
ghost use Rattle.std.specs.Prelude.{◌≡◌};

use crate::clients::{Client, are_equal, both_clients, has_tickets, opened};
use crate::texts::QUOTAS;
use mc_model::Fault;
use std::alloc::Global;
use std::test::Fail;
use uc_worker::Open;

/// In each round, what the first worker asks and what it is answered, and then what the second is
/// answered to a get.
const ROUNDS: [(&str, &str, &str); 2] = [
    (
        "set a 0 0 1\r\nx\r\n",
        "STORED\r\n",
        "VALUE a 0 1\r\nx\r\nEND\r\n",
    ),
    ("delete a\r\n", "DELETED\r\n", "END\r\n"),
];

/// Where these commands stand: the log's four places.
const TICKETS: [(u8, u64); 4] = [(0, 0), (1, 0), (0, 1), (1, 1)];

/// How often each worker asks for more.
const AGAIN: u32 = 100;

/// Returns whether the round is answered like this.
fn is_answered(
    alloc: Global,
    first: &mut Client<'_>,
    second: &mut Client<'_>,
    round: &(&str, &str, &str),
) -> Result<bool, Fault>
    ensures one { first.new.log ≡ first.old.log }
    ensures two { second.new.log ≡ second.old.log }
{
    let (text, want, value) = *round;
    if !first.says(alloc, text, want)? {
        return Ok(false);
    }
    second.says(alloc, "get a\r\n", value)
}

/// Returns whether the rounds are answered like this.
fn are_answered(
    alloc: Global,
    first: &mut Client<'_>,
    second: &mut Client<'_>,
) -> Result<bool, Fault>
    ensures one { first.new.log ≡ first.old.log }
    ensures two { second.new.log ≡ second.old.log }
{
    for round in &ROUNDS {
        if !is_answered(alloc, first, second, round)? {
            return Ok(false);
        }
    }
    Ok(true)
}

/// Returns whether the worker gets `LogFull`.
fn is_refused(alloc: Global, client: &mut Client<'_>, text: &str) -> Result<bool, Fault>
    ensures { client.new.log ≡ client.old.log }
{
    match client.ask(alloc, 0, text, &mut Open).err() {
        Some(Fault::LogFull) => Ok(true),
        Some(fault) => Err(fault),
        None => Ok(false),
    }
}

/// Returns whether the worker gets `LogFull` each time, and keeps this history.
fn stays_full(alloc: Global, client: &mut Client<'_>, tickets: &[(u8, u64)]) -> Result<bool, Fault>
    ensures { client.new.log ≡ client.old.log }
{
    for _ in 0..AGAIN {
        if !is_refused(alloc, client, "set c 0 0 1\r\nz\r\n")? {
            return Ok(false);
        }
    }
    Ok(client.is_full() && has_tickets(client.history(), tickets))
}

/// Returns whether both workers get `LogFull` each time. The first keeps this history, and the
/// second that of all places.
fn both_stay_full(
    alloc: Global,
    first: &mut Client<'_>,
    second: &mut Client<'_>,
    tickets: &[(u8, u64)],
) -> Result<bool, Fault>
    ensures one { first.new.log ≡ first.old.log }
    ensures two { second.new.log ≡ second.old.log }
{
    if !stays_full(alloc, first, tickets)? {
        return Ok(false);
    }
    stays_full(alloc, second, &TICKETS)
}

/// Returns whether the rounds fill the log. The first worker hasn't learned the last place when it
/// asks for more, so its command stays pending for good.
fn fill(alloc: Global, first: &mut Client<'_>, second: &mut Client<'_>) -> Result<bool, Fault>
    ensures one { first.new.log ≡ first.old.log }
    ensures two { second.new.log ≡ second.old.log }
{
    if !are_answered(alloc, first, second)? || first.is_full() || !second.is_full() {
        return Ok(false);
    }
    both_stay_full(alloc, first, second, &TICKETS[..3])
}

/// Returns whether the log stays full when the first worker has replayed the last place too, and
/// when both have met.
fn stay_full<'a>(
    alloc: Global,
    first: &mut Client<'a>,
    second: &mut Client<'a>,
) -> Result<bool, Fault>
    requires { first.old.log.now ≡ second.old.log.now }
{
    first.catch_up()?;
    if !both_stay_full(alloc, first, second, &TICKETS)? {
        return Ok(false);
    }
    first.meet(second)?;
    let is_full = both_stay_full(alloc, first, second, &TICKETS)?;
    Ok(is_full && are_equal(first.history(), second.history()))
}

#[test]
fn a_full_log_says_so_again_and_again(rt: HostRuntime) -> Result<(), Fail> {
    let alloc = rt.alloc();
    let (log, passes) = opened(alloc, 2, 4, &[QUOTAS])?;
    let (mut first, mut second) = both_clients(alloc, &log, passes)?;
    assert!(rt; fill(alloc, &mut first, &mut second) == Ok(true));
    assert!(rt; stay_full(alloc, &mut first, &mut second) == Ok(true));
    Ok(())
}
