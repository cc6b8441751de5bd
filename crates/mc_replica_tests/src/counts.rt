//! Of requests of every kind each number is counted once, what is published is shown, and the
//! resident memory is found.
use mc_counters::{
    Asked, Board, COMMAND_KINDS, CommandKind, LogBoard, LogPublisher, LogShown, Publisher,
    REFUSAL_KINDS, Tally, TenantShown, WorkerShown, new_board, new_log_board, resident_in,
};
use mc_model::{Command, Key, Limits, Reply, TenantId};
use std::alloc::{AllocError, Global};
use std::test::Fail;

/// Counts a request of each kind of command.
fn count_commands(tally: &mut Tally) {
    for kind in &COMMAND_KINDS {
        let asked = Asked {
            kind: *kind,
            keys: 0,
        };
        tally.count(&Some(asked), &Reply::Ok);
    }
}

/// Counts a request for each kind of refusal.
fn count_refusals(tally: &mut Tally) {
    for refusal in &REFUSAL_KINDS {
        tally.count(&None, &Reply::Refused(*refusal));
    }
}

/// Returns whether one command of each kind is counted.
fn has_each_command(tally: &Tally) -> bool {
    COMMAND_KINDS.iter().all(|kind| tally.of_kind(*kind) == 1)
}

/// Returns whether one refusal of each kind is counted.
fn has_each_refusal(tally: &Tally) -> bool {
    REFUSAL_KINDS
        .iter()
        .all(|refusal| tally.of_refusal(*refusal) == 1)
}

fn has_one_of_each(tally: &Tally) -> bool {
    has_each_command(tally) && has_each_refusal(tally) && tally.hits == 0 && tally.misses == 0
}

#[test]
fn counts_a_request_of_each_kind(rt: HostRuntime) {
    let mut tally = Tally::new();
    count_commands(&mut tally);
    count_refusals(&mut tally);
    assert!(rt; has_one_of_each(&tally));
}

/// Returns what a command asks for.
fn asked_by(command: Command) -> Asked {
    let asked = Asked::by(&command);
    // A local enum that its block drops is proved variant by variant.
    drop(command);
    asked
}

fn is_asked(command: Command, kind: CommandKind) -> bool {
    let asked = asked_by(command);
    asked.kind == kind && asked.keys == 0
}

#[test]
fn reads_what_a_command_asks_for(rt: HostRuntime) -> Result<(), Fail> {
    let Some(key) = Key::new(rt.alloc(), b"k")? else {
        return Ok(());
    };
    assert!(rt; is_asked(Command::Delete { key }, CommandKind::Delete));
    assert!(rt; is_asked(Command::Flush, CommandKind::Flush));
    Ok(())
}

/// Returns counts that are all different.
fn tally_of(first: u64) -> Tally {
    let mut tally = Tally::new();
    let mut next = first;
    for count in tally.commands.iter_mut() {
        *count = next;
        next = next.wrapping_add(1);
    }
    for count in tally.refusals.iter_mut() {
        *count = next;
        next = next.wrapping_add(1);
    }
    tally.hits = next.wrapping_add(1);
    tally.misses = next.wrapping_add(2);
    tally
}

/// Returns numbers that are all different.
fn shown_of(first: u64) -> TenantShown {
    TenantShown {
        connections: first.wrapping_add(30),
        items: first.wrapping_add(31),
        bytes: first.wrapping_add(32),
        quotas: Limits {
            items: first.wrapping_add(33),
            bytes: first.wrapping_add(34),
        },
    }
}

/// Returns whether two tallies are alike.
fn are_alike(one: &Tally, other: &Tally) -> bool {
    one.commands == other.commands
        && one.refusals == other.refusals
        && one.hits == other.hits
        && one.misses == other.misses
}

/// Shows the generation of the log, and how long two turn overs took.
fn publish_log(publisher: &mut LogPublisher) {
    publisher.show_generation(7);
    publisher.count_turn_over(40);
    publisher.count_turn_over(2);
}

/// Two tenants, and the first of the numbers that are shown of each.
type Tenants = [(TenantId, u64); 2];

fn tenants() -> Option<Tenants> {
    Some([(TenantId::new(0)?, 100), (TenantId::new(1)?, 200)])
}

fn publish(publisher: &mut Publisher, tenants: &Tenants) {
    for (tenant, number) in tenants {
        publisher.show_tenant(*tenant, &shown_of(*number));
        publisher.show_tally(*tenant, &tally_of(*number));
    }
    publisher.show_worker(1, 2, 3);
}

/// Returns whether the numbers of this tenant are shown.
fn shows_tenant(board: &Board, tenant: TenantId, number: u64) -> bool {
    board.tenant(tenant) == shown_of(number) && are_alike(&board.tally(tenant), &tally_of(number))
}

fn shows_worker(board: &Board) -> bool {
    let wanted = WorkerShown {
        generation: 7,
        replayed: 1,
        bytes: 2,
        connections: 3,
    };
    board.worker() == wanted
}

fn shows_log(board: &LogBoard) -> bool {
    let wanted = LogShown {
        generation: 7,
        turn_overs: 2,
        turn_over_micros: 42,
    };
    board.logs() == wanted
}

fn shows_tenants(board: &Board, tenants: &Tenants) -> bool {
    tenants
        .iter()
        .all(|(tenant, number)| shows_tenant(board, *tenant, *number))
}

/// Returns whether what is published of these tenants is shown.
fn is_published(alloc: Global, tenants: &Tenants) -> Result<bool, AllocError> {
    let (mut log_publisher, log_board) = new_log_board(alloc)?;
    let (mut publisher, board) = new_board(alloc, 2, &log_board)?;
    publish_log(&mut log_publisher);
    publish(&mut publisher, tenants);
    Ok(shows_tenants(&board, tenants) && shows_worker(&board) && shows_log(&log_board))
}

#[test]
fn shows_what_is_published(rt: HostRuntime) {
    let Some(tenants) = tenants() else {
        return;
    };
    assert!(rt; is_published(rt.alloc(), &tenants) == Ok(true));
}

#[test]
fn finds_how_much_memory_is_resident(rt: HostRuntime) {
    let lines = b"Name:\twfmc\nVmHWM:\t  999 kB\nVmRSS:\t   1234 kB\nThreads:\t3\n";
    assert!(rt; resident_in(lines) == Some(1_263_616));
    assert!(rt; resident_in(b"Name:\twfmc\nVmRSS:\t kB\n").is_none());
    assert!(rt; resident_in(b"").is_none());
}
