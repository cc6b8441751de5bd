//! A worker on a thread of its own that is held after any of its steps keeps no other waiting: on a
//! log, and before, at and after a turn over.
ghost use Rattle.std.specs.Prelude.{◌≡◌, IfOk};

use crate::clients::{Client, are_equal, both_clients, opened};
use crate::flags::comes;
use crate::generations::{Opened, both_over, turned_over};
use crate::stopped::are_stored;
use crate::texts::QUOTAS;
use mc_model::Fault;
use std::alloc::Global;
use std::sync::atomic::{AtomicBool, Ordering};
use std::test::Fail;
use std::thread;
use std::thread::Threads;
use uc_worker::{Gate, Next, Step};

/// How many commands the other worker submits while the first is held.
const BESIDE: u32 = 50;

/// More steps than a call of these tests has, and fewer than the places of their longest log.
const MOST: u32 = 200;

/// What the first worker reads on the log that follows.
const VALUES: &str = "VALUE a 0 1\r\nx\r\nVALUE b 0 1\r\ny\r\nEND\r\n";

/// What both workers do, the first through the gate.
#[derive(Clone, Copy, PartialEq, Eq)]
enum Work {
    /// The first submits one command, and the other `BESIDE`.
    Submit,
    /// The first submits one command, and the other as many as it may until the log closes.
    Close,
    /// Both catch up.
    CatchUp,
}

/// The signals between the two threads.
#[derive(Drop)]
struct Flags {
    /// The first worker is held, or has ended without.
    held: AtomicBool,
    ended: AtomicBool,
}

/// Holds its worker after this many steps and one more, until the other has ended.
#[derive(Drop)]
struct Hold<'f> {
    left: u32,
    flags: &'f Flags,
    step: Option<Step>,
    gave_up: bool,
}

impl<'f> Gate for Hold<'f> {
    fn at(&mut self, step: Step) {
        if self.step.is_some() {
            return;
        }
        if self.left > 0 {
            self.left -= 1;
            return;
        }
        self.step = Some(step);
        self.flags.held.store(true, Ordering::SeqCst);
        self.gave_up = !comes(&self.flags.ended);
    }
}

/// Does the first worker's part of the work. Returns how many proposals its command took.
fn work_through<G: Gate>(
    alloc: Global,
    client: &mut Client<'_>,
    work: Work,
    gate: &mut G,
) -> Result<u64, Fault>
    ensures { client.new.log ≡ client.old.log }
{
    if work == Work::CatchUp {
        client.worker.catch_up(gate)?;
        return Ok(0);
    }
    let answer = client.ask(alloc, 0, "set a 0 0 1\r\nx\r\n", gate)?;
    let proposals = answer.proposals;
    drop(answer);
    Ok(proposals)
}

/// Does the first worker's part. Returns the step after which it was held, if it took that many.
///
/// Returns `BadEvent` if the other didn't end meanwhile, or the command took too many proposals.
fn work_held(
    alloc: Global,
    client: &mut Client<'_>,
    work: Work,
    left: u32,
    flags: &Flags,
) -> Result<Option<Step>, Fault>
    ensures { client.new.log ≡ client.old.log }
{
    let mut gate = Hold {
        left,
        flags,
        step: None,
        gave_up: false,
    };
    let proposals = work_through(alloc, client, work, &mut gate);
    flags.held.store(true, Ordering::SeqCst);
    if gate.gave_up || proposals? > 3 {
        return Err(Fault::BadEvent);
    }
    Ok(gate.step)
}

/// Submits sets until the log closes. Returns whether each is stored.
fn are_stored_until_it_closes(alloc: Global, client: &mut Client<'_>) -> Result<bool, Fault>
    ensures { client.new.log ≡ client.old.log }
{
    for _ in 0..MOST {
        if client.worker.is_closing() {
            return Ok(true);
        }
        if !are_stored(alloc, client, 1)? {
            return Ok(false);
        }
    }
    Ok(false)
}

/// Does the other worker's part. Returns whether it was answered right.
fn work_beside(alloc: Global, client: &mut Client<'_>, work: Work) -> Result<bool, Fault>
    ensures { client.new.log ≡ client.old.log }
{
    match work {
        Work::Submit => are_stored(alloc, client, BESIDE),
        Work::Close => are_stored_until_it_closes(alloc, client),
        Work::CatchUp => {
            client.catch_up()?;
            Ok(true)
        }
    }
}

/// Does the other worker's part once the first is held. Returns `BadEvent` if it was answered
/// wrong, or the first never is.
fn work_meanwhile(
    alloc: Global,
    client: &mut Client<'_>,
    work: Work,
    flags: &Flags,
) -> Result<(), Fault>
    ensures { client.new.log ≡ client.old.log }
{
    if !comes(&flags.held) || !work_beside(alloc, client, work)? {
        return Err(Fault::BadEvent);
    }
    flags.ended.store(true, Ordering::SeqCst);
    Ok(())
}

/// Both workers, and the step after which the first was held, if it took that many.
#[derive(Drop)]
struct Worked<'a> {
    first: Client<'a>,
    second: Client<'a>,
    step: Option<Step>,
}

/// Returns both clients once their threads have ended, if both did their parts.
fn work_on_threads<'a, R: Threads + Sync>(
    rt: &R,
    alloc: Global,
    first: Client<'a>,
    second: Client<'a>,
    work: Work,
    left: u32,
) -> Result<Worked<'a>, Fault>
    ensures one { IfOk result (λ worked. worked.first.log ≡ first.entry.log) }
    ensures two { IfOk result (λ worked. worked.second.log ≡ second.entry.log) }
{
    let flags = Flags {
        held: AtomicBool::new(false),
        ended: AtomicBool::new(false),
    };
    let ((first, step), (second, ended)) = thread::join(
        rt,
        || -> (Client<'_>, Result<Option<Step>, Fault>)
            ensures { result.0.log ≡ first.entry.log }
        {
            let mut first = first;
            let step = work_held(alloc, &mut first, work, left, &flags);
            (first, step)
        },
        || -> (Client<'_>, Result<(), Fault>)
            ensures { result.0.log ≡ second.entry.log }
        {
            let mut second = second;
            let ended = work_meanwhile(alloc, &mut second, work, &flags);
            (second, ended)
        },
    );
    ended?;
    Ok(Worked {
        first,
        second,
        step: step?,
    })
}

/// Returns whether both have replayed the same commands once they have met, and this many.
fn have_met<'a>(
    first: &mut Client<'a>,
    second: &mut Client<'a>,
    count: usize,
) -> Result<bool, Fault>
    requires { first.old.log.now ≡ second.old.log.now }
{
    first.meet(second)?;
    Ok(first.history().len() == count && are_equal(first.history(), second.history()))
}

/// Returns the step after which a worker was held on a new log, if its submit takes that many.
///
/// Returns `BadEvent` if anything else is wrong.
fn held_after<R: Threads + Sync>(rt: &R, alloc: Global, left: u32) -> Result<Option<Step>, Fault> {
    let (log, passes) = opened(alloc, 2, 1_024, &[QUOTAS])?;
    let (first, second) = both_clients(alloc, &log, passes)?;
    let both = work_on_threads(rt, alloc, first, second, Work::Submit, left)?;
    let (mut first, mut second) = (both.first, both.second);
    if have_met(&mut first, &mut second, 51)? {
        Ok(both.step)
    } else {
        Err(Fault::BadEvent)
    }
}

#[test]
fn held_at_each_step_on_a_thread(rt: HostRuntime) -> Result<(), Fail> {
    let mut steps = Vec::new(rt.alloc());
    for left in 0..MOST {
        match held_after(&rt, rt.alloc(), left)? {
            Some(step) => steps.push(step)?,
            None => break,
        }
    }
    let all = [
        Step::Announce,
        Step::Read,
        Step::Look,
        Step::Propose,
        Step::Replay,
    ];
    assert_eq!(rt; steps.as_slice(), all.as_slice());
    Ok(())
}

/// Closes a log beside a worker that is held, catches up beside one that is held, and turns the log
/// over. Returns whether the worker was held too.
fn closed<R: Threads + Sync>(rt: &R, alloc: Global, left: u32) -> Result<(Opened, bool), Fault> {
    let (log, passes) = opened(alloc, 2, 64, &[QUOTAS])?;
    let (first, second) = both_clients(alloc, &log, passes)?;
    let before = work_on_threads(rt, alloc, first, second, Work::Close, left)?;
    let was_held = before.step.is_some();
    let at = work_on_threads(rt, alloc, before.first, before.second, Work::CatchUp, left)?;
    let opened = turned_over(alloc, &log, at.first, at.second)?;
    Ok((opened, was_held || at.step.is_some()))
}

/// Has a worker held on the log that follows. Returns whether it was.
///
/// Returns `BadEvent` if the commands of the log before, or of this one, don't count once each.
fn held_on<R: Threads + Sync>(
    rt: &R,
    alloc: Global,
    opened: Opened,
    left: u32,
) -> Result<bool, Fault> {
    let Opened { next } = opened;
    let Next { log, passes, base } = next;
    let (mut first, second) = both_over(alloc, &log, passes, &base)?;
    if !first.says(alloc, "get a b\r\n", VALUES)? {
        return Err(Fault::BadEvent);
    }
    let both = work_on_threads(rt, alloc, first, second, Work::Submit, left)?;
    let (mut first, mut second) = (both.first, both.second);
    if have_met(&mut first, &mut second, 52)? {
        Ok(both.step.is_some())
    } else {
        Err(Fault::BadEvent)
    }
}

/// Returns whether a worker was held after this many steps before a turn over, at it, or after it.
fn held_around<R: Threads + Sync>(rt: &R, alloc: Global, left: u32) -> Result<bool, Fault> {
    let (opened, was_held) = closed(rt, alloc, left)?;
    Ok(held_on(rt, alloc, opened, left)? || was_held)
}

#[test]
fn held_at_each_step_around_a_turn_over(rt: HostRuntime) -> Result<(), Fail> {
    for left in 0..MOST {
        if !held_around(&rt, rt.alloc(), left)? {
            // To catch up takes the most: a read and a replay of each of the other's 62 commands,
            // and a read of the place behind them.
            assert_eq!(rt; left, 125);
            return Ok(());
        }
    }
    Err(Fail::from("there is always one step more"))
}
