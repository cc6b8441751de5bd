//! What a replica answers, with ample memory: the golden examples of several tenants or workers.
//! Each row is a command as a client writes it, and the reply as the client reads it, which is
//! empty if none comes.
ghost use Rattle.std.specs.Prelude.{◌≡◌, [], IfOk};
ghost use Rattle.uc_cells.specs.Cells.{HasCell};

use mc_items::Hashing;
use mc_model::{Command, Entry, Fault, Limits, Reply, TenantId, Ticket, WorkerId};
use mc_replica::Replica;
use shared_tests::values::{command_of, numbered_get, numbered_set, numbered_values, reads_as};
use std::alloc::Global;
use std::process::Abort;
use std::test::Fail;
use uc_cells::{Cells, Seen};

pub(crate) const QUOTAS: Limits = Limits {
    items: 4,
    bytes: 100,
};

const FULL: &str = "SERVER_ERROR out of memory storing object\r\n";

pub(crate) fn worker_of(number: u8) -> Result<WorkerId, Fault> {
    WorkerId::new(number).ok_or(Fault::BadEvent)
}

pub(crate) fn ticket_of(worker: WorkerId, number: u64) -> Ticket {
    Ticket { worker, number }
}

fn tenant_of(number: u8) -> Result<TenantId, Fault> {
    TenantId::new(number).ok_or(Fault::BadEvent)
}

/// Returns cells for the tickets of three workers, as many as any test here needs.
fn cells_of(alloc: Global) -> Result<Cells, Fault> {
    Cells::open(alloc, 3, 1_001)
}

pub(crate) fn assert_cell(rt: &impl Abort, cells: &Cells, ticket: Ticket)
    ensures { HasCell cells.now ticket }
{
    assert!(rt; ticket.worker.number() < cells.workers() && ticket.number < cells.places());
}

/// Puts an entry into its ticket's cell.
pub(crate) fn put(
    rt: &impl Abort,
    alloc: Global,
    cells: &Cells,
    entry: Entry,
) -> Result<(), Fault> {
    assert_cell(rt, cells, entry.ticket);
    let _ = cells.put(alloc, entry)?;
    Ok(())
}

/// Returns what is seen of a ticket's cell.
fn see<'a>(
    rt: &impl Abort,
    alloc: Global,
    cells: &'a Cells,
    ticket: Ticket,
) -> Result<Seen<'a>, Fault> {
    let Ticket { worker, number } = ticket;
    assert_cell(rt, cells, ticket);
    cells.see(alloc, Ticket { worker, number })
}

/// Returns what is seen of a worker's command on a tenant's table, once it is in its cell.
fn seen_of<'a>(
    rt: &impl Abort,
    alloc: Global,
    cells: &'a Cells,
    entry: Entry,
) -> Result<Seen<'a>, Fault> {
    let ticket = entry.ticket;
    put(rt, alloc, cells, entry)?;
    see(rt, alloc, cells, ticket)
}

fn replay<'a>(replica: &mut Replica<'a>, seen: Seen<'a>) -> Result<Option<Reply<'a>>, Fault> {
    if !replica.has_place() {
        return Err(Fault::LogFull);
    }
    replica.replay(seen)
}

fn unique_at(replica: &Replica<'_>, tenant: TenantId) -> Option<u64> {
    if replica.has_tenant(tenant) {
        Some(replica.table(tenant).last_unique())
    } else {
        None
    }
}

/// Returns the unique of the latest change of a tenant's table, if there is such a tenant.
pub(crate) fn unique_of(replica: &Replica<'_>, tenant: u8) -> Option<u64> {
    unique_at(replica, TenantId::new(tenant)?)
}

/// Returns whether a client reads this text for the reply, and nothing if there is none.
fn is_shown(alloc: Global, reply: Option<Reply<'_>>, want: &str) -> Result<bool, Fault> {
    match reply {
        Some(reply) => reads_as(alloc, reply, want.as_bytes()),
        None => Ok(want.is_empty()),
    }
}

/// Returns whether what was seen is answered like this.
fn is_answered<'a>(
    alloc: Global,
    replica: &mut Replica<'a>,
    seen: Seen<'a>,
    want: &str,
) -> Result<bool, Fault> {
    is_shown(alloc, replay(replica, seen)?, want)
}

/// A worker, a tenant, what is asked and the expected answer.
pub(crate) type Row = (u8, u8, &'static str, &'static str);

/// Returns the entry of a row, with its worker's ticket of this number.
pub(crate) fn entry_of(alloc: Global, number: u64, row: Row) -> Result<Entry, Fault> {
    let (worker, tenant, text, _want) = row;
    let ticket = ticket_of(worker_of(worker)?, number);
    let tenant = tenant_of(tenant)?;
    let command = command_of(alloc, text.as_bytes())?;
    Ok(Entry {
        ticket,
        tenant,
        command,
    })
}

/// Puts the entry of a row into its ticket's cell.
pub(crate) fn put_row(
    rt: &impl Abort,
    alloc: Global,
    cells: &Cells,
    number: u64,
    row: Row,
) -> Result<(), Fault> {
    put(rt, alloc, cells, entry_of(alloc, number, row)?)
}

/// Returns whether the row is answered, once it is in its cell.
fn is_row<'a>(
    rt: &impl Abort,
    alloc: Global,
    cells: &'a Cells,
    replica: &mut Replica<'a>,
    number: u64,
    row: Row,
) -> Result<bool, Fault> {
    let seen = seen_of(rt, alloc, cells, entry_of(alloc, number, row)?)?;
    is_answered(alloc, replica, seen, row.3)
}

/// Asserts the answers of rows one after another.
fn assert_rows<'a>(
    rt: &impl Abort,
    alloc: Global,
    cells: &'a Cells,
    replica: &mut Replica<'a>,
    rows: &[Row],
) {
    for (number, row) in rows.iter().enumerate() {
        let answered = is_row(rt, alloc, cells, replica, number as u64, *row);
        assert_eq!(rt; answered, Ok(true), "{}", row.2);
    }
}

pub(crate) fn opened<'a>(
    alloc: Global,
    worker: u8,
    limits: &[Limits],
    places: u64,
) -> Result<Replica<'a>, Fault>
    ensures { IfOk result (λ replica. replica.history ≡ []) }
{
    let worker = WorkerId::new(worker).ok_or(Fault::BadEvent)?;
    Replica::open(alloc, Hashing::Fixed, worker, limits, places)
}

/// Returns a replica of this worker after these rows.
fn replayed<'a>(
    rt: &impl Abort,
    alloc: Global,
    cells: &'a Cells,
    worker: u8,
    limits: &[Limits],
    rows: &[Row],
) -> Result<Replica<'a>, Fault> {
    let mut replica = opened(alloc, worker, limits, 8)?;
    assert_rows(rt, alloc, cells, &mut replica, rows);
    Ok(replica)
}

/// Returns whether this many places are replayed, and the uniques of two tenants' tables are these.
fn stands(replica: &Replica<'_>, places: usize, uniques: (u64, u64)) -> bool {
    replica.history().len() == places
        && unique_of(replica, 0) == Some(uniques.0)
        && unique_of(replica, 1) == Some(uniques.1)
}

/// A run of one worker's replica, of eight places.
#[derive(Clone, Copy)]
struct Run {
    worker: u8,
    limits: &'static [Limits],
    rows: &'static [Row],
    /// The uniques of the first two tenants' tables in the end, if they are checked.
    uniques: Option<(u64, u64)>,
}

const RUNS: [Run; 3] = [
    // Tenants are apart.
    Run {
        worker: 0,
        limits: &[QUOTAS, QUOTAS],
        rows: &[
            (0, 0, "set a 0 0 1\r\nx\r\n", "STORED\r\n"),
            (0, 0, "set a 0 0 1\r\nx\r\n", "STORED\r\n"),
            (0, 0, "set a 0 0 1\r\nx\r\n", "STORED\r\n"),
            (0, 1, "set a 0 0 1\r\nq\r\n", "STORED\r\n"),
            (0, 1, "gets a\r\n", "VALUE a 0 1 1\r\nq\r\nEND\r\n"),
        ],
        uniques: Some((3, 1)),
    },
    // Another worker's commands are applied without a reply.
    Run {
        worker: 1,
        limits: &[QUOTAS],
        rows: &[
            (0, 0, "set a 0 0 1\r\nx\r\n", ""),
            (0, 0, "set b 0 0 1\r\ny\r\n", ""),
            (1, 0, "gets b\r\n", "VALUE b 0 1 2\r\ny\r\nEND\r\n"),
            (2, 0, "delete b\r\n", ""),
            (0, 0, "gets b\r\n", ""),
            (1, 0, "gets b\r\n", "END\r\n"),
            (1, 0, "delete a\r\n", "DELETED\r\n"),
        ],
        uniques: None,
    },
    // Quotas are each tenant's own.
    Run {
        worker: 0,
        limits: &[
            Limits {
                items: 1,
                bytes: 100,
            },
            Limits {
                items: 100,
                bytes: 3,
            },
            QUOTAS,
        ],
        rows: &[
            (0, 0, "set a 0 0 1\r\nx\r\n", "STORED\r\n"),
            (0, 1, "set a 0 0 1\r\nx\r\n", "STORED\r\n"),
            (0, 2, "set a 0 0 1\r\nx\r\n", "STORED\r\n"),
            (0, 0, "set b 0 0 1\r\ny\r\n", FULL),
            (0, 1, "set b 0 0 1\r\ny\r\n", FULL),
            (0, 2, "set b 0 0 1\r\ny\r\n", "STORED\r\n"),
            (0, 0, "set a 0 0 1\r\nz\r\n", "STORED\r\n"),
            (0, 1, "gets b\r\n", "END\r\n"),
        ],
        uniques: None,
    },
];

/// Returns whether the replica is what the run leaves.
fn is_left(replica: &Replica<'_>, run: Run) -> bool {
    replica.worker().number() == run.worker
        && replica.history().len() == run.rows.len()
        && replica.has_place() == (run.rows.len() < 8)
        && match run.uniques {
            Some(uniques) => stands(replica, run.rows.len(), uniques),
            None => true,
        }
}

/// Returns whether a replica is what the run leaves, after asserting the run's answers.
fn is_run(rt: &impl Abort, alloc: Global, cells: &Cells, run: Run) -> Result<bool, Fault> {
    let replica = replayed(rt, alloc, cells, run.worker, run.limits, run.rows)?;
    Ok(is_left(&replica, run))
}

#[test]
fn runs_of_one_replica(rt: HostRuntime) -> Result<(), Fail> {
    for run in RUNS {
        let cells = cells_of(rt.alloc())?;
        assert!(rt; is_run(&rt, rt.alloc(), &cells, run) == Ok(true));
    }
    Ok(())
}

/// Returns whether the cell of worker 0's ticket of this number is absent, and changes nothing.
fn is_absent<'a>(
    rt: &impl Abort,
    alloc: Global,
    cells: &'a Cells,
    replica: &mut Replica<'a>,
    number: u64,
) -> Result<bool, Fault> {
    let ticket = ticket_of(worker_of(0)?, number);
    let seen = see(rt, alloc, cells, ticket)?;
    let is_absent = seen.ticket() == ticket && seen.entry().is_none();
    let reply = replay(replica, seen)?;
    Ok(is_absent && reply.is_none())
}

fn knows_tenant(replica: &Replica<'_>, tenant: u8) -> bool {
    match TenantId::new(tenant) {
        Some(tenant) => replica.has_tenant(tenant),
        None => false,
    }
}

/// Returns whether an absent cell, and an entry of a tenant that there isn't, change nothing.
fn are_nobodys<'a>(
    rt: &impl Abort,
    alloc: Global,
    cells: &'a Cells,
    replica: &mut Replica<'a>,
) -> Result<bool, Fault> {
    const UNKNOWN: Row = (0, 2, "set a 0 0 1\r\ny\r\n", "");
    let is_absent = is_absent(rt, alloc, cells, replica, 1)?;
    let is_silent = is_row(rt, alloc, cells, replica, 2, UNKNOWN)?;
    Ok(is_absent && is_silent && !knows_tenant(replica, 2) && stands(replica, 3, (0, 1)))
}

/// Returns whether the cell of a ticket counts as absent while those of the next ticket, and of
/// another worker's ticket of the same number, hold entries.
fn counts_as_absent<'a>(
    rt: &impl Abort,
    alloc: Global,
    cells: &'a Cells,
    replica: &mut Replica<'a>,
) -> Result<bool, Fault> {
    const STRANGE: &str = "set a 0 0 1\r\ny\r\n";
    put_row(rt, alloc, cells, 3, (0, 0, STRANGE, ""))?;
    put_row(rt, alloc, cells, 2, (1, 0, STRANGE, ""))?;
    let is_absent = is_absent(rt, alloc, cells, replica, 2)?;
    Ok(is_absent && stands(replica, 2, (0, 1)))
}

/// Which entries are tried after a known one.
#[derive(Clone, Copy)]
enum Others {
    /// Those of nobody.
    Nobodys,
    /// Those of the next ticket, and of another worker's ticket of the same number.
    Strange,
}

/// Returns whether these entries change no table.
fn change_no_table(
    rt: &impl Abort,
    alloc: Global,
    cells: &Cells,
    others: Others,
) -> Result<bool, Fault> {
    const KNOWN: [Row; 1] = [(0, 1, "set a 0 0 1\r\nx\r\n", "STORED\r\n")];
    let mut replica = replayed(rt, alloc, cells, 0, &[QUOTAS, QUOTAS], &KNOWN)?;
    match others {
        Others::Nobodys => are_nobodys(rt, alloc, cells, &mut replica),
        Others::Strange => counts_as_absent(rt, alloc, cells, &mut replica),
    }
}

#[test]
fn entries_that_change_no_table(rt: HostRuntime) -> Result<(), Fail> {
    for others in [Others::Nobodys, Others::Strange] {
        let cells = cells_of(rt.alloc())?;
        assert!(rt; change_no_table(&rt, rt.alloc(), &cells, others) == Ok(true));
    }
    Ok(())
}

/// Returns whether two replicas of one log come to the same uniques, though only one of them
/// answers the command.
fn are_alike<'a>(
    rt: &impl Abort,
    alloc: Global,
    cells: &'a Cells,
    short: &mut Replica<'a>,
    long: &mut Replica<'a>,
    tenant: u8,
) -> Result<bool, Fault> {
    let (number, text) = (u64::from(tenant), "set a 0 0 1\r\nx\r\n");
    let is_stored = is_row(
        rt,
        alloc,
        cells,
        short,
        number,
        (0, tenant, text, "STORED\r\n"),
    )?;
    let is_silent = is_row(rt, alloc, cells, long, number, (0, tenant, text, ""))?;
    Ok(
        is_stored
            && is_silent
            && unique_of(short, tenant) == Some(1)
            && unique_of(long, tenant) == Some(1),
    )
}

fn has_places(replica: &Replica<'_>, places: u64, has_place: bool) -> bool {
    replica.places() == places && replica.has_place() == has_place
}

/// Returns whether both histories are equal, place by place.
fn are_same(ones: &[Seen<'_>], others: &[Seen<'_>]) -> bool {
    for (one, other) in ones.iter().zip(others) {
        if one.ticket() != other.ticket() || one.entry() != other.entry() {
            return false;
        }
    }
    ones.len() == others.len()
}

/// Returns whether both have one history, in replicas of two places and of a thousand.
fn are_unequal(short: &Replica<'_>, long: &Replica<'_>) -> bool {
    are_same(short.history(), long.history())
        && has_places(short, 2, false)
        && has_places(long, 1000, true)
}

/// Has both replay a command of each of two tenants, and asserts that they agree.
fn assert_agreed<'a>(
    rt: &impl Abort,
    alloc: Global,
    cells: &'a Cells,
    short: &mut Replica<'a>,
    long: &mut Replica<'a>,
) {
    assert!(rt; are_alike(rt, alloc, cells, short, long, 0) == Ok(true));
    assert!(rt; are_alike(rt, alloc, cells, short, long, 1) == Ok(true));
    assert!(rt; are_unequal(short, long));
}

#[test]
fn replicas_of_unequal_places_agree(rt: HostRuntime) -> Result<(), Fail> {
    let cells = cells_of(rt.alloc())?;
    let mut short = opened(rt.alloc(), 0, &[QUOTAS, QUOTAS], 2)?;
    let mut long = opened(rt.alloc(), 1, &[QUOTAS, QUOTAS], 1000)?;
    assert_agreed(&rt, rt.alloc(), &cells, &mut short, &mut long);
    Ok(())
}

/// An owner, its ticket's number, a tenant, what is asked and what the owner is answered.
type LogRow = (u8, u64, u8, &'static str, &'static str);

/// Returns what a worker answers to a row: its reply if the worker owns it, and otherwise nothing.
fn answer_by(worker: u8, row: &LogRow) -> &'static str {
    if row.0 == worker { row.4 } else { "" }
}

/// Returns whether a worker's replica answers like this what is in the cell of a row's ticket.
fn is_learned<'a>(
    rt: &impl Abort,
    alloc: Global,
    cells: &'a Cells,
    replica: &mut Replica<'a>,
    row: &LogRow,
) -> Result<bool, Fault> {
    let ticket = ticket_of(worker_of(row.0)?, row.1);
    let seen = see(rt, alloc, cells, ticket)?;
    let want = answer_by(replica.worker().number(), row);
    is_answered(alloc, replica, seen, want)
}

/// Returns whether a worker that has replayed as much of one log as it has learned answers its own
/// commands alone. A row's reply is that to its owner; to another worker its command is silent.
fn are_learned(
    rt: &impl Abort,
    alloc: Global,
    cells: &Cells,
    worker: u8,
    learned: &[LogRow],
) -> Result<bool, Fault> {
    let two_items = Limits {
        items: 2,
        bytes: 50,
    };
    let one_item = Limits { items: 1, bytes: 9 };
    let mut replica = opened(alloc, worker, &[two_items, one_item], 9)?;
    for row in learned {
        if !is_learned(rt, alloc, cells, &mut replica, row)? {
            return Ok(false);
        }
    }
    Ok(stands(&replica, learned.len(), (1, 1)))
}

fn assert_worker(rt: &impl Abort, alloc: Global, cells: &Cells, worker: u8, learned: &[LogRow]) {
    assert_eq!(rt;
        are_learned(rt, alloc, cells, worker, learned),
        Ok(true),
        "{worker}"
    );
}

/// Puts each owner's entry into its cell.
fn put_all(rt: &impl Abort, alloc: Global, cells: &Cells, log: &[LogRow]) -> Result<(), Fault> {
    for (owner, number, tenant, text, want) in log {
        put_row(rt, alloc, cells, *number, (*owner, *tenant, *text, *want))?;
    }
    Ok(())
}

#[test]
fn three_workers_answer_their_own_commands_of_one_log(rt: HostRuntime) -> Result<(), Fail> {
    const LOG: [LogRow; 4] = [
        (2, 0, 1, "set a 0 0 1\r\nq\r\n", "STORED\r\n"),
        (1, 0, 0, "set a 0 0 1\r\nx\r\n", "STORED\r\n"),
        (0, 0, 1, "set b 0 0 1\r\nq\r\n", FULL),
        (2, 1, 0, "gets a\r\n", "VALUE a 0 1 1\r\nx\r\nEND\r\n"),
    ];
    let cells = cells_of(rt.alloc())?;
    put_all(&rt, rt.alloc(), &cells, &LOG)?;
    assert_worker(&rt, rt.alloc(), &cells, 0, &LOG[..3]);
    assert_worker(&rt, rt.alloc(), &cells, 1, &LOG[..2]);
    assert_worker(&rt, rt.alloc(), &cells, 2, &LOG);
    Ok(())
}

/// Returns worker 0's entry that stores one letter under a number.
fn numbered_entry(alloc: Global, number: u64) -> Result<Entry, Fault> {
    let ticket = ticket_of(worker_of(0)?, number);
    let tenant = tenant_of(0)?;
    let command = numbered_set(alloc, number)?;
    Ok(Entry {
        ticket,
        tenant,
        command,
    })
}

/// Returns worker 0's entry that asks for `count` numbers.
fn asking_entry(alloc: Global, count: u64) -> Result<Entry, Fault> {
    let ticket = ticket_of(worker_of(0)?, count);
    let tenant = tenant_of(0)?;
    let command = numbered_get(alloc, count)?;
    Ok(Entry {
        ticket,
        tenant,
        command,
    })
}

/// Returns whether the entry is answered like this, once it is in its cell.
fn is_entry<'a>(
    rt: &impl Abort,
    alloc: Global,
    cells: &'a Cells,
    replica: &mut Replica<'a>,
    entry: Entry,
    want: &str,
) -> Result<bool, Fault> {
    let seen = seen_of(rt, alloc, cells, entry)?;
    is_answered(alloc, replica, seen, want)
}

/// Returns whether `count` numbers are stored, one after another.
fn are_stored<'a>(
    rt: &impl Abort,
    alloc: Global,
    cells: &'a Cells,
    replica: &mut Replica<'a>,
    count: u64,
) -> Result<bool, Fault> {
    for number in 0..count {
        let entry = numbered_entry(alloc, number)?;
        if !is_entry(rt, alloc, cells, replica, entry, "STORED\r\n")? {
            return Ok(false);
        }
    }
    Ok(true)
}

/// Returns whether a retrieval shows `count` numbers, in order.
fn are_shown<'a>(
    rt: &impl Abort,
    alloc: Global,
    cells: &'a Cells,
    replica: &mut Replica<'a>,
    count: u64,
) -> Result<bool, Fault> {
    let want = numbered_values(alloc, count)?;
    is_entry(
        rt,
        alloc,
        cells,
        replica,
        asking_entry(alloc, count)?,
        want.as_str(),
    )
}

/// A retrieval shows each of a thousand keys that are held, in the order asked.
#[test]
fn a_thousand_keys(rt: HostRuntime) -> Result<(), Fail> {
    let quotas = Limits {
        items: 1_000,
        bytes: 1_048_577,
    };
    let cells = cells_of(rt.alloc())?;
    let mut replica = opened(rt.alloc(), 0, &[quotas], 1_001)?;
    assert!(rt; are_stored(&rt, rt.alloc(), &cells, &mut replica, 1_000) == Ok(true));
    assert!(rt; are_shown(&rt, rt.alloc(), &cells, &mut replica, 1_000) == Ok(true));
    Ok(())
}
