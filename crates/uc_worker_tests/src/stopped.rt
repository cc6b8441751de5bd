//! A worker that is held after any of its steps stops nobody.
ghost use Rattle.std.specs.Prelude.{◌≡◌};

use crate::clients::{Client, are_equal, both_clients, opened};
use crate::texts::QUOTAS;
use mc_model::Fault;
use std::alloc::Global;
use std::test::Fail;
use uc_worker::{Gate, Step};

/// How many commands the other submits before the worker begins, and how many while it is held.
const BEFORE: u32 = 3;

const BESIDE: u32 = 100;

/// More steps than a submit of these tests has.
const STEPS: u32 = 100;

/// Submits this many sets. Returns whether each is stored.
pub(crate) fn are_stored(alloc: Global, client: &mut Client<'_>, count: u32) -> Result<bool, Fault>
    ensures { client.new.log ≡ client.old.log }
{
    for _ in 0..count {
        if !client.says(alloc, "set b 0 0 1\r\ny\r\n", "STORED\r\n")? {
            return Ok(false);
        }
    }
    Ok(true)
}

/// Lets another worker submit its commands to the end after one step of its own worker.
#[derive(Drop)]
struct Beside<'a> {
    alloc: Global,
    other: Client<'a>,
    /// How many steps are left before the one after which the other worker submits.
    left: u32,
    /// The step after which it did.
    held: Option<Step>,
    /// Whether the other worker was answered right.
    is_right: bool,
}

impl<'a> Gate for Beside<'a> {
    fn at(&mut self, step: Step) {
        if self.held.is_some() {
            return;
        }
        if self.left > 0 {
            self.left -= 1;
            return;
        }
        self.held = Some(step);
        self.is_right = are_stored(self.alloc, &mut self.other, BESIDE) == Ok(true);
    }
}

impl<'a> Beside<'a> {
    /// Returns a gate that holds its worker after `left` steps and one more.
    fn after(alloc: Global, other: Client<'a>, left: u32) -> Beside<'a> {
        Beside {
            alloc,
            other,
            left,
            held: None,
            is_right: false,
        }
    }

    /// Returns the step after which the worker was held, if it took that many.
    ///
    /// Returns `BadEvent` if the other worker was answered wrong, the two have different histories,
    /// or the worker made too many proposals.
    fn held(&mut self, first: &mut Client<'_>, proposals: u64) -> Result<Option<Step>, Fault> {
        if self.held.is_none() {
            return Ok(None);
        }
        if agree_on(first, &mut self.other, 104)? && self.is_right && proposals <= 3 {
            Ok(self.held)
        } else {
            Err(Fault::BadEvent)
        }
    }
}

/// Returns whether both have replayed the same commands, and this many.
fn agree_on(first: &mut Client<'_>, second: &mut Client<'_>, count: usize) -> Result<bool, Fault> {
    first.catch_up()?;
    second.catch_up()?;
    Ok(first.history().len() == count && are_equal(first.history(), second.history()))
}

/// Returns the step after which the first worker was held, if it took that many. Fails as `held`
/// does.
fn held_between(
    alloc: Global,
    mut first: Client<'_>,
    other: Client<'_>,
    left: u32,
) -> Result<Option<Step>, Fault> {
    let mut gate = Beside::after(alloc, other, left);
    let answer = first.ask(alloc, 0, "set a 0 0 1\r\nx\r\n", &mut gate)?;
    let proposals = answer.proposals;
    drop(answer);
    gate.held(&mut first, proposals)
}

/// Returns the step after which a worker was held on a new log, if its submit takes that many.
fn held_after(alloc: Global, left: u32) -> Result<Option<Step>, Fault> {
    let (log, passes) = opened(alloc, 2, 1_024, &[QUOTAS])?;
    let (first, mut second) = both_clients(alloc, &log, passes)?;
    if !are_stored(alloc, &mut second, BEFORE)? {
        return Err(Fault::BadEvent);
    }
    held_between(alloc, first, second, left)
}

/// Returns the steps after which a worker was held, each on a new log, as many as its submit takes.
fn all_held(alloc: Global) -> Result<Vec<Step>, Fault> {
    let mut steps = Vec::new(alloc);
    for left in 0..STEPS {
        match held_after(alloc, left)? {
            Some(step) => steps.push(step)?,
            None => return Ok(steps),
        }
    }
    Ok(steps)
}

#[test]
fn stopped_at_each_step(rt: HostRuntime) -> Result<(), Fail> {
    let steps = all_held(rt.alloc())?;
    assert!(rt; steps.len() == 11);
    let kinds = [
        Step::Announce,
        Step::Read,
        Step::Look,
        Step::Propose,
        Step::Replay,
    ];
    for kind in kinds {
        assert!(rt; steps.contains(&kind));
    }
    Ok(())
}
