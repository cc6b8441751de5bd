//! Workers that stop between two steps are helped.
ghost use Rattle.std.specs.Prelude.{◌≡◌, ◌∷◌, [], IfOk};
ghost use Rattle.uc_log.specs.Passes.{IsUnusedPass};

use crate::clients::{
    Client, are_equal, both_clients, both_passes, has_tickets, is_answer, opened,
};
use crate::flags::comes;
use crate::generations::{Opened, both_over, is_ready};
use crate::stopped::are_stored;
use crate::texts::{QUOTAS, command_of};
use mc_model::{Fault, TenantId};
use std::alloc::Global;
use std::sync::atomic::{AtomicBool, Ordering};
use std::test::Fail;
use std::thread;
use std::thread::Threads;
use uc_log::{Log, Pass};
use uc_worker::{Answer, Gate, Next, Open, Step, Worker, turn_over};

/// Announces a command for the first tenant through the pass, and takes no other step.
fn announce(log: &Log, alloc: Global, pass: &mut Pass, text: &str) -> Result<(), Fault>
    requires { IsUnusedPass log.now pass.old }
{
    if pass.is_full() {
        return Err(Fault::LogFull);
    }
    let Some(tenant) = TenantId::new(0) else {
        return Err(Fault::BadEvent);
    };
    let command = command_of(alloc, text)?;
    log.announce(alloc, pass, tenant, command)
}

/// Returns the second worker's answer to a get, after the first has announced a set and done
/// nothing else.
fn get_beside<'a>(
    alloc: Global,
    log: &'a Log,
    mut first: Pass,
    second: Pass,
) -> Result<Answer<'a>, Fault>
    requires one { IsUnusedPass log.now first }
    requires two { IsUnusedPass log.now second }
{
    announce(log, alloc, &mut first, "set a 0 0 1\r\nx\r\n")?;
    let mut client = Client::open(alloc, log, second)?;
    client.ask(alloc, 0, "get a\r\n", &mut Open)
}

/// Announcing is all that a worker does: another decides its command, before its own.
#[test]
fn announced_and_left(rt: HostRuntime) -> Result<(), Fail> {
    let alloc = rt.alloc();
    let (log, passes) = opened(alloc, 2, 8, &[QUOTAS])?;
    let (first, second) = both_passes(&log, passes).ok_or("no passes")?;
    let answer = get_beside(alloc, &log, first, second)?;
    assert!(rt; is_answer(alloc, answer, 1, "VALUE a 0 1\r\nx\r\nEND\r\n") == Ok(true));
    Ok(())
}

/// Returns the client's worker alone.
fn worker_of<'a>(alloc: Global, client: Client<'a>) -> Result<Vec<Worker<'a>>, Fault>
    ensures { IfOk result (λ workers. workers.items ≡ client.entry.worker ∷ []) }
{
    let mut workers = Vec::new(alloc);
    workers.push(client.worker)?;
    Ok(workers)
}

/// Turns the log over by one of its workers, which has replayed all of it. Returns `BadEvent` if it
/// hasn't, or has no room for as many places again.
fn turned_over_by<'a>(alloc: Global, log: &'a Log, client: Client<'a>) -> Result<Opened, Fault>
    requires { client.log.now ≡ log.now }
{
    let settings = log.settings();
    if !is_ready(&client.worker, settings.places()) {
        return Err(Fault::BadEvent);
    }
    let mut workers = worker_of(alloc, client)?;
    let next = turn_over(alloc, &mut workers, settings)?;
    Ok(Opened { next })
}

/// Turns the log over by the second worker, which has filled it by sets of its own after the first
/// has announced a set and done nothing else.
fn turned_over_beside(
    alloc: Global,
    log: &Log,
    mut first: Pass,
    second: Pass,
) -> Result<Opened, Fault>
    requires one { IsUnusedPass log.now first }
    requires two { IsUnusedPass log.now second }
{
    announce(log, alloc, &mut first, "set a 0 0 1\r\nx\r\n")?;
    let mut client = Client::open(alloc, log, second)?;
    // With the first's set, which is decided among them, they take all four places.
    if !are_stored(alloc, &mut client, 3)? {
        return Err(Fault::BadEvent);
    }
    turned_over_by(alloc, log, client)
}

/// Returns whether both workers of the log that follows give the item.
fn give_the_item(alloc: Global, opened: Opened) -> Result<bool, Fault> {
    let Opened { next } = opened;
    let Next { log, passes, base } = next;
    let (mut first, mut second) = both_over(alloc, &log, passes, &base)?;
    let value = "VALUE a 0 1\r\nx\r\nEND\r\n";
    Ok(first.says(alloc, "get a\r\n", value)? && second.says(alloc, "get a\r\n", value)?)
}

/// The log is followed without the worker that announced, and its command counts.
#[test]
fn announced_and_left_before_a_turn_over(rt: HostRuntime) -> Result<(), Fail> {
    let alloc = rt.alloc();
    let (log, passes) = opened(alloc, 2, 4, &[QUOTAS])?;
    let (first, second) = both_passes(&log, passes).ok_or("no passes")?;
    let opened = turned_over_beside(alloc, &log, first, second)?;
    assert!(rt; give_the_item(alloc, opened) == Ok(true));
    Ok(())
}

/// Holds its worker once, after its first step of a kind: raises one flag then, and goes on when
/// another is raised.
#[derive(Drop)]
struct Held<'f> {
    step: Step,
    tells: &'f AtomicBool,
    waits: &'f AtomicBool,
    is_past: bool,
    gave_up: bool,
}

impl<'f> Held<'f> {
    fn after(step: Step, tells: &'f AtomicBool, waits: &'f AtomicBool) -> Held<'f> {
        Held {
            step,
            tells,
            waits,
            is_past: false,
            gave_up: false,
        }
    }
}

impl<'f> Gate for Held<'f> {
    fn at(&mut self, step: Step) {
        if self.step == step && !self.is_past {
            self.is_past = true;
            self.tells.store(true, Ordering::SeqCst);
            self.gave_up = !comes(self.waits);
        }
    }
}

/// How the commands of the two threads stand: pairs of a worker and a number.
const TICKETS: [(u8, u64); 4] = [(1, 0), (1, 1), (0, 0), (1, 2)];

/// The signals between the two threads.
#[derive(Drop)]
struct Flags {
    looked: AtomicBool,
    read: AtomicBool,
    ended: AtomicBool,
}

/// Has worker 0 begin once the other has looked, and holds it after its first read until the other
/// has ended.
fn helped<'a>(alloc: Global, client: &mut Client<'a>, flags: &Flags) -> Result<Answer<'a>, Fault>
    ensures { client.new.log ≡ client.old.log }
{
    if !comes(&flags.looked) {
        return Err(Fault::BadEvent);
    }
    let mut gate = Held::after(Step::Read, &flags.read, &flags.ended);
    let answer = client.ask(alloc, 0, "set b 0 0 1\r\ny\r\n", &mut gate);
    if gate.gave_up {
        drop(answer);
        return Err(Fault::BadEvent);
    }
    answer
}

fn place_of(answer: Answer<'_>) -> usize {
    let place = answer.place;
    drop(answer);
    place
}

/// Holds worker 1 after it has first looked, until the other has read; then worker 1 finishes its
/// three commands.
fn helping<'a>(alloc: Global, client: &mut Client<'a>, flags: &Flags) -> Result<Answer<'a>, Fault>
    ensures { client.new.log ≡ client.old.log }
{
    let mut gate = Held::after(Step::Look, &flags.looked, &flags.read);
    let first = place_of(client.ask(alloc, 0, "set a 0 0 1\r\nx\r\n", &mut gate)?);
    let second = place_of(client.ask(alloc, 0, "set a 0 0 1\r\nz\r\n", &mut Open)?);
    if (gate.gave_up, first, second) != (false, 0, 1) {
        return Err(Fault::BadEvent);
    }
    let last = client.ask(alloc, 0, "get b\r\n", &mut Open)?;
    flags.ended.store(true, Ordering::SeqCst);
    Ok(last)
}

/// Returns both answers, and both clients once their threads have ended.
fn both_ended<'a, R: Threads + Sync>(
    rt: &R,
    alloc: Global,
    first: Client<'a>,
    second: Client<'a>,
    flags: &Flags,
) -> (
    (Client<'a>, Result<Answer<'a>, Fault>),
    (Client<'a>, Result<Answer<'a>, Fault>),
)
    ensures one { result.0.0.log ≡ first.entry.log }
    ensures two { result.1.0.log ≡ second.entry.log }
{
    thread::join(
        rt,
        move || -> (Client<'_>, Result<Answer<'_>, Fault>)
            ensures { result.0.log ≡ first.entry.log }
        {
            let mut first = first;
            let answer = helped(alloc, &mut first, flags);
            (first, answer)
        },
        move || -> (Client<'_>, Result<Answer<'_>, Fault>)
            ensures { result.0.log ≡ second.entry.log }
        {
            let mut second = second;
            let answer = helping(alloc, &mut second, flags);
            (second, answer)
        },
    )
}

/// Returns whether both have the same history once they have met.
fn have_met<'a>(first: &mut Client<'a>, second: &mut Client<'a>) -> Result<bool, Fault>
    requires { first.old.log.now ≡ second.old.log.now }
{
    first.meet(second)?;
    Ok(has_tickets(first.history(), &TICKETS) && are_equal(first.history(), second.history()))
}

/// Returns whether the answer came after this many proposals, has this place, and its reply is read
/// as this text.
fn is_proposed(
    alloc: Global,
    answer: Result<Answer<'_>, Fault>,
    proposals: u64,
    place: usize,
    want: &str,
) -> Result<bool, Fault> {
    let answer = answer?;
    let is_proposed = answer.proposals == proposals;
    Ok(is_answer(alloc, answer, place, want)? && is_proposed)
}

/// What worker 1 found when it looked is old by the time of its proposal: the other's announcement
/// is helped at a later place.
#[test]
fn help_on_two_threads(rt: HostRuntime) -> Result<(), Fail> {
    let alloc = rt.alloc();
    let (log, passes) = opened(alloc, 2, 8, &[QUOTAS])?;
    let (first, second) = both_clients(alloc, &log, passes)?;
    let flags = Flags {
        looked: AtomicBool::new(false),
        read: AtomicBool::new(false),
        ended: AtomicBool::new(false),
    };
    let ((mut first, one), (mut second, other)) = both_ended(&rt, alloc, first, second, &flags);
    assert!(rt; have_met(&mut first, &mut second) == Ok(true));
    assert!(rt; is_proposed(alloc, one, 3, 2, "STORED\r\n") == Ok(true));
    let want = "VALUE b 0 1\r\ny\r\nEND\r\n";
    assert!(rt; is_proposed(alloc, other, 2, 3, want) == Ok(true));
    Ok(())
}
