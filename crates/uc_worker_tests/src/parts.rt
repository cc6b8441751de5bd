//! A worker that catches up in parts, each of at most some number of places.
ghost use Rattle.std.specs.Prelude.{◌≡◌};

use crate::clients::{Client, both_clients, opened};
use crate::stopped::are_stored;
use crate::texts::QUOTAS;
use mc_model::Fault;
use std::alloc::Global;
use std::test::Fail;

/// The parts of a worker that begins when five of the log's eight places are decided: how many
/// places each may read, whether it stops there, and how many are replayed then.
const PARTS: [(usize, bool, usize); 5] = [
    (0, true, 0),
    (2, true, 2),
    (2, true, 4),
    (2, false, 5),
    (usize::MAX, false, 5),
];

/// The parts that follow when all places are decided.
const LAST_PARTS: [(usize, bool, usize); 3] = [(1, true, 6), (2, false, 8), (0, false, 8)];

/// Returns whether the worker catches up in these parts.
fn catches_up(client: &mut Client<'_>, parts: &[(usize, bool, usize)]) -> Result<bool, Fault>
    ensures { client.new.log ≡ client.old.log }
{
    for (most, stops, replayed) in parts {
        if client.catch_up_some(*most)? != *stops || client.history().len() != *replayed {
            return Ok(false);
        }
    }
    Ok(true)
}

/// Returns whether the one catches up in these parts with what the other has submitted then.
fn catches_up_after(
    alloc: Global,
    one: &mut Client<'_>,
    other: &mut Client<'_>,
    count: u32,
    parts: &[(usize, bool, usize)],
) -> Result<bool, Fault>
    ensures one { one.new.log ≡ one.old.log }
    ensures other { other.new.log ≡ other.old.log }
{
    if !are_stored(alloc, other, count)? {
        return Ok(false);
    }
    catches_up(one, parts)
}

#[test]
fn a_worker_catches_up_in_parts(rt: HostRuntime) -> Result<(), Fail> {
    let alloc = rt.alloc();
    let (log, passes) = opened(alloc, 2, 8, &[QUOTAS])?;
    let (mut first, mut second) = both_clients(alloc, &log, passes)?;
    assert!(rt; catches_up_after(alloc, &mut second, &mut first, 5, &PARTS) == Ok(true));
    assert!(rt; catches_up_after(alloc, &mut second, &mut first, 3, &LAST_PARTS) == Ok(true));
    Ok(())
}
