//! A worker that stops for good between two steps stops none of the other three.
ghost use Rattle.std.specs.Prelude.{◌≡◌, All, IfOk};

use crate::asking::{Asked, TENANTS, ask_all};
use crate::clients::{Client, clients_of, opened};
use crate::flags::{comes, counts_to};
use crate::meeting::{Ended, all_meet, are_all_equal};
use crate::recomputing::is_recomputed;
use mc_model::Fault;
use std::alloc::Global;
use std::sync::atomic::{AtomicBool, AtomicU64, Ordering};
use std::thread::{Threads, map_vec};
use uc_log::Log;
use uc_worker::{Gate, Open, Step};

/// How many commands worker 0 finishes before the one in which it stops.
const BEFORE: u32 = 5;

/// How many commands each other worker submits once worker 0 has stopped.
const BESIDE: u64 = 2_000;

/// The step after which worker 0 stops, and the place where its last command stands in the end.
/// Place 8 is the first at which it is helped, since nobody else proposes its command at the places
/// before.
const STOPS: [(Step, usize); 5] = [
    (Step::Announce, 8),
    (Step::Read, 8),
    (Step::Look, 8),
    (Step::Propose, 5),
    (Step::Replay, 5),
];

/// The signals between the threads.
#[derive(Drop)]
struct Flags {
    /// Worker 0 is held.
    stands: AtomicBool,
    /// How many others have ended.
    ended: AtomicU64,
}

/// Holds its worker after a step of a kind until all others have ended.
#[derive(Drop)]
struct Stop<'f> {
    step: Step,
    flags: &'f Flags,
    /// How many steps of the kind are left before that one.
    left: u32,
    is_past: bool,
    gave_up: bool,
}

impl<'f> Gate for Stop<'f> {
    fn at(&mut self, step: Step) {
        if self.step != step || self.is_past {
            return;
        }
        if self.left > 0 {
            self.left -= 1;
            return;
        }
        self.is_past = true;
        self.flags.stands.store(true, Ordering::SeqCst);
        self.gave_up = !counts_to(&self.flags.ended, 3);
    }
}

/// Has worker 0 alone finish some commands, and stop in the next.
fn stand_still<'a>(
    alloc: Global,
    client: &mut Client<'a>,
    step: Step,
    flags: &Flags,
) -> Result<Vec<Asked<'a>>, Fault>
    ensures { client.new.log ≡ client.old.log }
{
    let mut gate = Stop {
        step,
        flags,
        left: BEFORE,
        is_past: false,
        gave_up: false,
    };
    let asked = ask_all(alloc, client, u64::from(BEFORE) + 1, &mut gate)?;
    if gate.is_past && !gate.gave_up {
        Ok(asked)
    } else {
        Err(Fault::BadEvent)
    }
}

/// Has another worker begin once worker 0 is held, and finish its commands.
fn go_on<'a>(alloc: Global, client: &mut Client<'a>, flags: &Flags) -> Result<Vec<Asked<'a>>, Fault>
    ensures { client.new.log ≡ client.old.log }
{
    if !comes(&flags.stands) {
        return Err(Fault::BadEvent);
    }
    let asked = ask_all(alloc, client, BESIDE, &mut Open)?;
    flags.ended.fetch_add(1, Ordering::SeqCst);
    Ok(asked)
}

/// Returns the client after its commands.
fn ended<'a>(alloc: Global, client: Client<'a>, step: Step, flags: &Flags) -> Ended<'a>
    ensures { result.client.log ≡ client.entry.log }
{
    let mut client = client;
    let asked = if client.number() == 0 {
        stand_still(alloc, &mut client, step, flags)
    } else {
        go_on(alloc, &mut client, flags)
    };
    Ended { client, asked }
}

/// Returns all clients once their threads have ended.
fn all_ended<'a, R: Threads + Sync>(
    rt: &R,
    alloc: Global,
    log: &Log,
    clients: Vec<Client<'a>>,
    step: Step,
) -> Result<Vec<Ended<'a>>, Fault>
    requires { All (λ client. client.log.now ≡ log.now) clients.items }
    ensures { IfOk result (λ all. All (λ one. one.client.log.now ≡ log.now) all.items) }
{
    let flags = Flags {
        stands: AtomicBool::new(false),
        ended: AtomicU64::new(0),
    };
    let all = map_vec(
        rt,
        clients,
        &|client: Client<'_>| -> Ended<'_>
            ensures { result.client.log ≡ client.entry.log }
        { ended(alloc, client, step, &flags) },
    )?;
    Ok(all)
}

/// Returns the place of the command in which worker 0 stopped.
fn place_of_last(all: &[Ended<'_>]) -> Option<usize> {
    let asked = all.first()?.asked.as_ref().ok()?;
    Some(asked.last()?.answer.place)
}

/// Returns whether the others finished all their commands while worker 0 was held, and all is
/// answered right.
fn is_right(all: &[Ended<'_>], alloc: Global, place: usize) -> Result<bool, Fault> {
    Ok(
        are_all_equal(all, 6_006)
            && place_of_last(all) == Some(place)
            && is_recomputed(alloc, &TENANTS, all)?,
    )
}

/// Returns whether this is so if worker 0 stops after this step.
fn stops_nobody<R: Threads + Sync>(
    rt: &R,
    alloc: Global,
    step: Step,
    place: usize,
) -> Result<bool, Fault> {
    let (log, passes) = opened(alloc, 4, 8_192, &TENANTS)?;
    let clients = clients_of(alloc, &log, passes)?;
    let all = all_ended(rt, alloc, &log, clients, step)?;
    let all = all_meet(alloc, &log, all)?;
    is_right(&all, alloc, place)
}

#[test]
fn one_of_four_stops_for_good(rt: HostRuntime) {
    for (step, place) in STOPS {
        assert!(rt;
            stops_nobody(&rt, rt.alloc(), step, place) == Ok(true),
            "{step:?}"
        );
    }
}
