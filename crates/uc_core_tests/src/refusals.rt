//! Every event in every phase that refuses it, and by which fault; and that a refused event changes
//! nothing.
use crate::events::{AMPLE, Replies, event_of, events_of, opened, shown_by, shows, stepped};
use mc_model::Fault;
use std::alloc::Global;
use std::process::Abort;
use uc_core::{Core, RunFault};

/// Returns a core of 2 workers and this many places, after these events.
fn after(alloc: Global, places: u64, before: &str) -> Result<Core, Fault> {
    let mut core = opened(alloc, 2, places, &[AMPLE])?;
    if !before.is_empty() {
        let _ = stepped(alloc, &mut core, before)?;
    }
    Ok(core)
}

/// Returns whether the event is refused by this fault, and the core shows the same after it.
fn is_refused(alloc: Global, core: &mut Core, text: &str, fault: Fault) -> Result<bool, Fault> {
    let shown = shown_by(alloc, core)?;
    let refusal = core.step(event_of(alloc, text)?).err();
    Ok(refusal == Some(fault) && shows(alloc, core, shown.as_str())?)
}

/// Asserts that each of the events `refused` is refused by this fault.
fn assert_each_refused(
    rt: &impl Abort,
    alloc: Global,
    core: &mut Core,
    refused: &str,
    fault: Fault,
) {
    for event in refused.split('/') {
        assert!(rt;
            is_refused(alloc, core, event, fault) == Ok(true),
            "{event}"
        );
    }
}

/// How many places there are, events, and then events of which each is refused, by which fault.
type Row = (u64, &'static str, &'static str, Fault);

/// Asserts that each of a row's last events is refused by its fault after the first ones.
fn assert_all_refused(rt: &impl Abort, alloc: Global, row: Row) {
    match after(alloc, row.0, row.1) {
        Ok(mut core) => assert_each_refused(rt, alloc, &mut core, row.2, row.3),
        Err(fault) => panic!(rt; "{fault}"),
    }
}

/// Each event of worker 0 that a tenant's command allows.
const ALL: &str = "announce 0 0 get a\r\n/read 0/look 0/propose 0/replay 0/stop 0";

/// The only place is decided, and learned by both workers; worker 1's command is pending.
const FULL: &str = "announce 0 0 set a 0 0 1\r\nx\r\n/read 0/look 0/propose 0/replay 0\
    /announce 1 0 get a\r\n/read 1";

const ROWS: [Row; 11] = [
    // An idle worker announces and reads alone.
    (
        4,
        "",
        "look 0/propose 0/replay 0/announce 0 1 get a\r\n/announce 0 255 get a\r\n",
        Fault::BadEvent,
    ),
    // A pending worker looks once it has a mark.
    (
        4,
        "announce 0 0 get a\r\n",
        "announce 0 0 get a\r\n/look 0/propose 0/replay 0",
        Fault::BadEvent,
    ),
    (
        4,
        "announce 0 0 get a\r\n/read 0",
        "announce 0 0 get a\r\n/propose 0/replay 0",
        Fault::BadEvent,
    ),
    // A worker that has looked proposes.
    (
        4,
        "announce 0 0 get a\r\n/read 0/look 0",
        "announce 0 0 get a\r\n/read 0/look 0/replay 0",
        Fault::BadEvent,
    ),
    // A stopped worker does nothing, whatever its phase was, and with a place left to replay.
    (
        4,
        "announce 0 0 get a\r\n/read 0/stop 0",
        ALL,
        Fault::BadEvent,
    ),
    (
        4,
        "announce 0 0 get a\r\n/read 0/look 0/stop 0",
        ALL,
        Fault::BadEvent,
    ),
    (
        4,
        "announce 0 0 get a\r\n/read 0/look 0/propose 0/stop 0",
        ALL,
        Fault::BadEvent,
    ),
    // A worker that doesn't exist does nothing.
    (
        4,
        "",
        "announce 2 0 get a\r\n/read 2/look 2/propose 2/replay 2/stop 2",
        Fault::BadEvent,
    ),
    (
        4,
        "",
        "announce 255 0 get a\r\n/read 255/look 255/propose 255/replay 255/stop 255",
        Fault::BadEvent,
    ),
    // A full log refuses, isn't read, and knows no other tenant.
    (1, FULL, "announce 0 0 get a\r\n/look 1", Fault::LogFull),
    (
        1,
        FULL,
        "announce 0 1 get a\r\n/read 0/read 1/look 0",
        Fault::BadEvent,
    ),
];

#[test]
fn events_out_of_their_phases(rt: HostRuntime) {
    for row in ROWS {
        assert_all_refused(&rt, rt.alloc(), row);
    }
}

/// Returns whether a run of these events on one place gives one reply, ends at this fault, and
/// leaves what is shown.
fn ends(alloc: Global, events: &str, fault: RunFault, shown: &str) -> Result<bool, Fault> {
    let events = events_of(alloc, events)?;
    let mut replies: Replies = Vec::new(alloc);
    let mut core = after(alloc, 1, "")?;
    let ended = core.run(&events, &mut replies) == Err(fault);
    Ok(ended && replies.len() == 1 && shows(alloc, &core, shown)?)
}

/// A run ends at the first event that is refused; the events before it keep their effect.
#[test]
fn a_run_ends_at_its_first_fault(rt: HostRuntime) {
    let events = "announce 0 0 get a\r\n/read 0/look 0/propose 0/replay 0/replay 0/stop 0";
    let fault = RunFault {
        at: 5,
        fault: Fault::BadEvent,
    };
    let shown = "log (0,0)\nworker 0 idle learned 1 replayed 1 proposals 1\n\
        worker 1 idle learned 0 replayed 0 proposals 0\n";
    assert!(rt; ends(rt.alloc(), events, fault, shown) == Ok(true));
}

/// The only place goes to worker 0; worker 1's command is pending, and it finds the log full when
/// it looks.
#[test]
fn a_run_meets_the_full_log(rt: HostRuntime) {
    let events = "announce 0 0 set a 0 0 1\r\nx\r\n/read 0/look 0/propose 0/replay 0\
        /announce 1 0 get a\r\n/read 1/look 1";
    let fault = RunFault {
        at: 7,
        fault: Fault::LogFull,
    };
    let shown = "log (0,0)\nworker 0 idle learned 1 replayed 1 proposals 1\n\
        worker 1 pending learned 1 replayed 0 proposals 0\n";
    assert!(rt; ends(rt.alloc(), events, fault, shown) == Ok(true));
}
