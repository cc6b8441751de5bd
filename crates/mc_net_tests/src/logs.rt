//! Clients over sockets whose connections outlive the log on which they began.
ghost use Rattle.std.specs.Prelude.{◌≡◌, ℕ, All, IfOk, IsTrue, Some, length, slice_get, vec_len};
ghost use Rattle.mc_model.specs.Replay.{HaveRoom};
ghost use Rattle.uc_log.specs.Passes.{IsUnusedPass};
ghost use Rattle.uc_worker.specs.Worker.{history_of, tables_of};

use crate::clients::{Act, first_failure};
use crate::house::{Counting, House, open_workers};
use crate::signals::{Holding, Signals};
use crate::visits::{QUOTAS, Visit, connections_of, gates_of, opened};
use mc_model::{Fault, Limits, Settings};
use mc_net::{Ended, Front, FrontSettings};
use std::alloc::Global;
use std::io;
use std::net::{Net, TcpListener, TcpStream};
use std::sync::Wait;
use std::test::Fail;
use std::thread::{Threads, join};
use uc_log::{Log, Pass};
use uc_worker::{Base, Next, Open, Worker, catch_up_all, turn_over};

/// Returns whether each worker has replayed `used` places of its log, and `places` more changes can
/// get uniques in its tables.
fn can_be_followed(workers: &[Worker<'_>], used: usize, places: u64) -> bool
    ensures { IsTrue result →
        All (λ worker. (length (history_of worker) ≡ used) × HaveRoom (tables_of worker) places)
        workers.now }
{
    workers.iter().all(|worker| worker.history().len() == used && worker.has_room(places))
}

/// Closes a log whose workers have come back, and opens the one that follows it.
fn next_log(alloc: Global, log: &Log, workers: &mut [Worker<'_>]) -> Result<Next, Fault>
    requires { All (λ worker. worker.log.now ≡ log.now) workers.old }
    ensures settings { IfOk result (λ next. next.log.settings ≡ log.now.settings) }
    ensures unused { IfOk result (λ next. (number : ℕ) (pass : _) →
        slice_get next.passes.items number ≡ Some pass → IsUnusedPass next.log pass) }
    ensures tenants { IfOk result
        (λ next. length next.base.tables.items ≡ length next.log.settings.tenants) }
    ensures room { IfOk result
        (λ next. HaveRoom next.base.tables.items next.log.settings.places) }
{
    catch_up_all(workers)?;
    let Some(first) = workers.first() else {
        return Err(Fault::BadEvent);
    };
    let used = first.history().len();
    if !can_be_followed(workers, used, log.settings().places()) {
        return Err(Fault::BadEvent);
    }
    turn_over(alloc, workers, log.settings())
}

/// Opens a worker for each pass of the log, over the tables of the base.
fn open_workers_over<'a>(
    alloc: Global,
    log: &'a Log,
    passes: Vec<Pass>,
    base: &'a Base,
) -> Result<Vec<Worker<'a>>, Fault>
    requires passes { (number : ℕ) (pass : _) → slice_get passes.items number ≡ Some pass →
        IsUnusedPass log.now pass }
    requires tenants { length base.now.tables.items ≡ length log.now.settings.tenants }
    requires room { HaveRoom base.now.tables.items log.now.settings.places }
    ensures { IfOk result (λ workers. All (λ worker. worker.log.now ≡ log.now) workers.items) }
{
    let mut workers = Vec::new(alloc);
    for pass in passes {
        workers.push(Worker::open_over(alloc, log, pass, base)?)?;
    }
    Ok(workers)
}

/// Serves the last log, and counts that it began. Returns how serving it ended.
fn serve_last<R: Threads + Wait + Sync>(
    rt: &R,
    alloc: Global,
    front: &mut Front,
    workers: usize,
    next: Next,
    begun: &mut u32,
) -> Result<Ended, Fault>
    requires loops { vec_len front.old.event_loops ≡ workers }
    requires front { front.old.tenants ≡ length next.log.settings.tenants }
    requires passes { (number : ℕ) (pass : _) →
        slice_get next.passes.items number ≡ Some pass → IsUnusedPass next.log pass }
    requires tenants { length next.base.tables.items ≡ length next.log.settings.tenants }
    requires room { HaveRoom next.base.tables.items next.log.settings.places }
{
    let Next { log, passes, base } = next;
    let over = open_workers_over(alloc, &log, passes, &base)?;
    if over.len() != workers {
        return Err(Fault::BadSettings);
    }
    let gates = vec![in alloc; Open; workers]?;
    let (_, ended) = front.serve_generation(rt, alloc, &log, over, gates, true, &Counting, begun)?;
    Ok(ended)
}

/// Serves `connections` connections of tenants over two logs of this many places, by as many
/// workers as there are gates, which hold them on the first log only. Returns how serving each log
/// ended.
///
/// Returns `BadEvent` if serving a log didn't begin exactly once, or the first log wasn't full.
fn serve_two<R: Threads + Wait + Net + Sync>(
    rt: &R,
    alloc: Global,
    house: House,
    places: u64,
    connections: u64,
    gates: Vec<Holding<'_>>,
) -> Result<(Ended, Ended), Fault> {
    let House { quotas, listeners } = house;
    let settings = Settings::check(gates.len() as u64, places, quotas)?;
    let (log, passes) = Log::open(alloc, &settings)?;
    let workers = open_workers(alloc, &log, passes)?;
    let count = workers.len();
    if listeners.is_empty() || count == 0 || count != gates.len() {
        return Err(Fault::BadSettings);
    }
    let front_settings = FrontSettings {
        workers: count,
        tenants: log.settings().tenants().len(),
        reserve: 0,
        log_bytes: u64::MAX,
        connections,
    };
    let mut front = Front::new(rt, alloc, front_settings, listeners, Vec::new(alloc))?;
    let mut begun = 0;
    let (mut workers, first) = front.serve_generation(
        rt, alloc, &log, workers, gates, false, &Counting, &mut begun,
    )?;
    if begun != 1 {
        return Err(Fault::BadEvent);
    }
    let next = next_log(alloc, &log, &mut workers)?;
    let second = serve_last(rt, alloc, &mut front, count, next, &mut begun)?;
    if begun != 2 {
        return Err(Fault::BadEvent);
    }
    Ok((first, second))
}

/// The outcome of a visit over two logs.
#[derive(Drop)]
struct Outcome {
    /// Which act failed first, if any did.
    failed: Option<usize>,
    /// How serving each log ended.
    ended: Result<(Ended, Ended), Fault>,
}

/// Serves the clients over two logs of this many places while they act. The first worker is held by
/// the signals if it is to be.
fn outcome_of<R>(
    rt: &R,
    alloc: Global,
    visit: Visit,
    places: u64,
    is_held: bool,
) -> io::Result<Outcome>
where
    R: Threads + Wait + Net<Listener = TcpListener, Stream = TcpStream> + Sync,
{
    let (house, addresses) = opened(rt, alloc, visit)?;
    let signals = Signals::new();
    let gates = gates_of(alloc, visit.workers, is_held.then_some(&signals))?;
    let connections = connections_of(visit);
    let (ended, failed) = join(
        rt,
        || serve_two(rt, alloc, house, places, connections, gates),
        || first_failure(rt, alloc, &signals, &addresses, visit.acts),
    );
    Ok(Outcome { failed, ended })
}

/// The first log is full after two commands, and the third finds the item on the next one.
const STAYS: [Act<'static>; 5] = [
    Act::Connect(0),
    Act::Send(0, b"set a 5 0 3\r\nabc\r\nget a\r\n"),
    Act::Read(0, b"STORED\r\nVALUE a 5 3\r\nabc\r\nEND\r\n"),
    Act::Send(0, b"get a\r\nquit\r\n"),
    Act::Finish(0, b"VALUE a 5 3\r\nabc\r\nEND\r\n"),
];

#[test]
fn a_connection_outlives_its_log(rt: HostRuntime) -> Result<(), Fail> {
    let visit = Visit {
        quotas: &[Limits {
            items: 4,
            bytes: 100,
        }],
        listeners: &[0],
        workers: 1,
        acts: &STAYS,
    };
    let Outcome { failed, ended } = outcome_of(&rt, rt.alloc(), visit, 2, false)?;
    assert_eq!(rt; failed, None);
    assert_eq!(rt; ended?, (Ended::Full, Ended::Done));
    Ok(())
}

/// The first client's worker is held after it has announced the client's command, until the other
/// has left one place of six: after two sets, the command that it helps, and two of its client's
/// own. The third of those is left to the next log, since the last place is kept for the held
/// worker.
///
/// The third place is the first worker's turn, so its command comes before those of the other. Each
/// command counts once: four make `n` four, and one makes `m` one.
const HELD: [Act<'static>; 16] = [
    Act::Connect(0),
    Act::Connect(0),
    Act::Send(1, b"set n 0 0 1\r\n0\r\nset m 0 0 1\r\n0\r\n"),
    Act::Read(1, b"STORED\r\nSTORED\r\n"),
    Act::Send(0, b"incr n 1\r\n"),
    Act::AwaitHeld,
    Act::Send(1, b"incr n 1\r\nincr n 1\r\nincr n 1\r\n"),
    Act::Read(1, b"2\r\n3\r\n"),
    Act::Silence(1),
    Act::Free,
    Act::Read(0, b"1\r\n"),
    Act::Send(0, b"incr m 1\r\nquit\r\n"),
    Act::Finish(0, b"1\r\n"),
    Act::Read(1, b"4\r\n"),
    Act::Send(1, b"get n m\r\nquit\r\n"),
    Act::Finish(1, b"VALUE n 0 1\r\n4\r\nVALUE m 0 1\r\n1\r\nEND\r\n"),
];

#[test]
fn a_held_worker_finds_its_log_closing(rt: HostRuntime) -> Result<(), Fail> {
    let visit = Visit {
        quotas: &[QUOTAS],
        listeners: &[0],
        workers: 2,
        acts: &HELD,
    };
    let Outcome { failed, ended } = outcome_of(&rt, rt.alloc(), visit, 6, true)?;
    assert_eq!(rt; failed, None);
    assert_eq!(rt; ended?, (Ended::Full, Ended::Done));
    Ok(())
}
