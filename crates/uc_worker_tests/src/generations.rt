//! Logs one after another: each begins with the tables that the one before has left.
ghost use Rattle.std.specs.Prelude.{◌≡◌, ◌∷◌, [], ℕ, All, Some, length, slice_get, IfOk, IsTrue};
ghost use Rattle.mc_model.specs.Replay.{HaveRoom};
ghost use Rattle.uc_log.specs.Passes.{IsUnusedPass};
ghost use Rattle.uc_worker.specs.Worker.{HasReplayedAll, history_of, tables_of};

use crate::clients::{Client, are_equal, both_clients, both_passes, is_said, opened};
use crate::texts::{QUOTAS, command_of};
use mc_model::{Command, Fault, Limits};
use std::alloc::Global;
use uc_log::{Log, Pass};
use uc_worker::{Base, Next, Open, Worker, catch_up_all, turn_over};

/// What a worker is asked.
#[derive(Clone, Copy)]
pub(crate) enum Ask {
    /// What a client writes.
    Text(&'static str),
    /// To set the tenant's quotas.
    Quotas(Limits),
}

/// Whether the second worker is asked and not the first, what, and what the client reads.
pub(crate) type Row = (bool, Ask, &'static str);

/// Two commands for each of three logs. The first worker's unique of the first log is that of its
/// item in the second, and uniques go on from log to log.
const LOGS: [[Row; 2]; 3] = [
    [
        (false, Ask::Text("set a 5 0 1\r\nx\r\n"), "STORED\r\n"),
        (true, Ask::Text("set b 6 0 1\r\ny\r\n"), "STORED\r\n"),
    ],
    [
        (
            true,
            Ask::Text("gets a b\r\n"),
            "VALUE a 5 1 1\r\nx\r\nVALUE b 6 1 2\r\ny\r\nEND\r\n",
        ),
        (false, Ask::Text("cas a 7 0 1 1\r\nz\r\n"), "STORED\r\n"),
    ],
    [
        (
            false,
            Ask::Text("gets a b\r\n"),
            "VALUE a 7 1 3\r\nz\r\nVALUE b 6 1 2\r\ny\r\nEND\r\n",
        ),
        (true, Ask::Text("cas b 0 0 1 1\r\nw\r\n"), "EXISTS\r\n"),
    ],
];

const NO_ROOM: &str = "SERVER_ERROR out of memory storing object\r\n";

/// The quotas that are set in the first log hold in the second, though the settings say others.
const LIMITED: [[Row; 2]; 2] = [
    [
        (
            true,
            Ask::Quotas(Limits {
                items: 1,
                bytes: 100,
            }),
            "OK\r\n",
        ),
        (false, Ask::Text("set a 0 0 1\r\nx\r\n"), "STORED\r\n"),
    ],
    [
        (false, Ask::Text("set b 0 0 1\r\ny\r\n"), NO_ROOM),
        (true, Ask::Text("set a 0 0 1\r\nz\r\n"), "STORED\r\n"),
    ],
];

fn command_for(alloc: Global, ask: &Ask) -> Result<Command, Fault> {
    match ask {
        Ask::Text(text) => command_of(alloc, text),
        Ask::Quotas(limits) => Ok(Command::Limit { limits: *limits }),
    }
}

/// Returns whether the client of the first tenant reads this text.
fn is_answered(alloc: Global, client: &mut Client<'_>, ask: &Ask, want: &str) -> Result<bool, Fault>
    ensures { client.new.log ≡ client.old.log }
{
    let command = command_for(alloc, ask)?;
    is_said(alloc, client.submit(0, command, &mut Open)?, want)
}

/// Returns whether the row's worker answers like this.
fn is_row(
    alloc: Global,
    first: &mut Client<'_>,
    second: &mut Client<'_>,
    row: &Row,
) -> Result<bool, Fault>
    ensures one { first.new.log ≡ first.old.log }
    ensures two { second.new.log ≡ second.old.log }
{
    let (is_second, ask, want) = row;
    if *is_second {
        is_answered(alloc, second, ask, want)
    } else {
        is_answered(alloc, first, ask, want)
    }
}

/// Asks the rows' workers, and lets both replay all that is decided then. Returns `BadEvent` if a
/// row is answered otherwise.
pub(crate) fn ask_rows(
    alloc: Global,
    first: &mut Client<'_>,
    second: &mut Client<'_>,
    rows: &[Row],
) -> Result<(), Fault>
    ensures one { first.new.log ≡ first.old.log }
    ensures two { second.new.log ≡ second.old.log }
{
    for row in rows {
        if !is_row(alloc, first, second, row)? {
            return Err(Fault::BadEvent);
        }
    }
    first.catch_up()?;
    second.catch_up()
}

/// Returns the workers of both clients.
pub(crate) fn workers_of<'a>(
    alloc: Global,
    first: Client<'a>,
    second: Client<'a>,
) -> Result<Vec<Worker<'a>>, Fault>
    ensures { IfOk result
        (λ workers. workers.items ≡ first.entry.worker ∷ second.entry.worker ∷ []) }
{
    let mut workers = Vec::new(alloc);
    workers.push(first.worker)?;
    workers.push(second.worker)?;
    Ok(workers)
}

/// Opens the clients of worker 0 and worker 1 over the base.
pub(crate) fn both_over<'a>(
    alloc: Global,
    log: &'a Log,
    passes: Vec<Pass>,
    base: &'a Base,
) -> Result<(Client<'a>, Client<'a>), Fault>
    requires passes { (number : ℕ) (pass : _) → slice_get passes.items number ≡ Some pass →
        IsUnusedPass log.now pass }
    requires tenants { length base.now.tables.items ≡ length log.now.settings.tenants }
    requires room { HaveRoom base.now.tables.items log.now.settings.places }
    ensures one { IfOk result (λ pair. pair.0.log.now ≡ log.now) }
    ensures two { IfOk result (λ pair. pair.1.log.now ≡ log.now) }
{
    let Some((first, second)) = both_passes(log, passes) else {
        return Err(Fault::BadEvent);
    };
    let first = Client::open_over(alloc, log, first, base)?;
    let second = Client::open_over(alloc, log, second, base)?;
    Ok((first, second))
}

/// A log that nothing was done on, and the tables that it begins with.
#[derive(Drop)]
pub(crate) struct Opened {
    pub(crate) next: Next,
    ghost passes: { (number : ℕ) (pass : _) → slice_get next.passes.items number ≡ Some pass → IsUnusedPass next.log pass },
    ghost tenants: { length next.base.tables.items ≡ length next.log.settings.tenants },
    ghost room: { HaveRoom next.base.tables.items next.log.settings.places },
}

/// Returns whether the worker has replayed its log, and has room for this many places.
pub(crate) fn is_ready(worker: &Worker<'_>, places: u64) -> bool
    ensures done { IsTrue result → HasReplayedAll worker.now }
    ensures room { IsTrue result → HaveRoom (tables_of worker.now) places }
{
    worker.is_done() && worker.has_room(places)
}

/// Returns whether there are two workers of one history.
fn have_one_history(workers: &[Worker<'_>]) -> bool {
    match (workers.first(), workers.last()) {
        (Some(one), Some(other)) => {
            workers.len() == 2 && are_equal(one.history(), other.history())
        }
        _ => false,
    }
}

/// Returns whether each worker has replayed `used` places of its log, and has room for `places`
/// more changes.
fn can_be_followed(workers: &[Worker<'_>], used: usize, places: u64) -> bool
    ensures { IsTrue result →
        All (λ worker. (length (history_of worker) ≡ used) × HaveRoom (tables_of worker) places)
        workers.now }
{
    workers.iter().all(|worker| worker.history().len() == used && worker.has_room(places))
}

/// Closes a log, at its last place or before, and opens the one that follows it. Returns `BadEvent`
/// if one worker has replayed more places than another, or has no room for the changes of a log.
fn next_log(alloc: Global, log: &Log, workers: &mut [Worker<'_>]) -> Result<Next, Fault>
    requires { All (λ worker. worker.log.now ≡ log.now) workers.old }
    ensures unused { IfOk result (λ next. (number : ℕ) (pass : _) →
        slice_get next.passes.items number ≡ Some pass → IsUnusedPass next.log pass) }
    ensures tenants { IfOk result
        (λ next. length next.base.tables.items ≡ length next.log.settings.tenants) }
    ensures room { IfOk result
        (λ next. HaveRoom next.base.tables.items next.log.settings.places) }
{
    catch_up_all(workers)?;
    let Some(first) = workers.first() else {
        return Err(Fault::BadEvent);
    };
    let used = first.history().len();
    if !can_be_followed(workers, used, log.settings().places()) {
        return Err(Fault::BadEvent);
    }
    turn_over(alloc, workers, log.settings())
}

/// Turns the log over, as `next_log` does. Returns `BadEvent` also if one worker has another
/// history than the other.
pub(crate) fn turned_over<'a>(
    alloc: Global,
    log: &'a Log,
    first: Client<'a>,
    second: Client<'a>,
) -> Result<Opened, Fault>
    requires one { first.log.now ≡ log.now }
    requires two { second.log.now ≡ log.now }
{
    let mut workers = workers_of(alloc, first, second)?;
    let next = next_log(alloc, log, &mut workers)?;
    if !have_one_history(&workers) {
        return Err(Fault::BadEvent);
    }
    Ok(Opened { next })
}

/// Asks both workers of the log, and turns it over.
fn played<'a>(
    alloc: Global,
    log: &'a Log,
    first: Client<'a>,
    second: Client<'a>,
    rows: &[Row],
) -> Result<Opened, Fault>
    requires one { first.log.now ≡ log.now }
    requires two { second.log.now ≡ log.now }
{
    let (mut first, mut second) = (first, second);
    ask_rows(alloc, &mut first, &mut second, rows)?;
    turned_over(alloc, log, first, second)
}

/// Plays a log with this many places that begins with empty tables.
fn begun(alloc: Global, quotas: Limits, places: u64, rows: &[Row]) -> Result<Opened, Fault> {
    let (log, passes) = opened(alloc, 2, places, &[quotas])?;
    let (first, second) = both_clients(alloc, &log, passes)?;
    played(alloc, &log, first, second, rows)
}

/// Plays a log that begins with the tables of the one before.
fn gone_on(alloc: Global, before: Opened, rows: &[Row]) -> Result<Opened, Fault> {
    let Opened { next } = before;
    let Next { log, passes, base } = next;
    let (first, second) = both_over(alloc, &log, passes, &base)?;
    played(alloc, &log, first, second, rows)
}

/// Plays each of the logs, which have this many places, one after another. Returns `BadEvent` if a
/// row is answered otherwise.
fn go_through(alloc: Global, quotas: Limits, places: u64, logs: &[[Row; 2]]) -> Result<(), Fault> {
    let Some((rows, more)) = logs.split_first() else {
        return Err(Fault::BadEvent);
    };
    let mut next = begun(alloc, quotas, places, rows)?;
    for rows in more {
        next = gone_on(alloc, next, rows)?;
    }
    Ok(())
}

#[test]
fn uniques_and_answered_commands_go_on(rt: HostRuntime) {
    assert!(rt; go_through(rt.alloc(), QUOTAS, 2, &LOGS) == Ok(()));
}

#[test]
fn quotas_that_were_set_go_on(rt: HostRuntime) {
    assert!(rt; go_through(rt.alloc(), QUOTAS, 2, &LIMITED) == Ok(()));
}

#[test]
fn logs_are_closed_before_their_last_place(rt: HostRuntime) {
    assert!(rt; go_through(rt.alloc(), QUOTAS, 3, &LOGS) == Ok(()));
    assert!(rt; go_through(rt.alloc(), QUOTAS, 1_024, &LOGS) == Ok(()));
}
