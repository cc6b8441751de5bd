//! Reports of runs, byte for byte.
use crate::events::{AMPLE, Replies, events_of, opened};
use mc_model::{Command, Data, Fault, Key, Verb};
use mc_schedules::Outcome;
use std::alloc::Global;
use std::process::Abort;
use uc_core::Event;

/// A run: a core of this many workers and places takes these events, and ends by this fault.
#[derive(Clone, Copy)]
struct Run {
    size: (u64, u64),
    events: &'static str,
    fault: Option<(u64, Fault)>,
}

/// Returns the outcome of these events.
fn outcome_of(
    alloc: Global,
    size: (u64, u64),
    events: &[Event],
    fault: Option<(u64, Fault)>,
) -> Result<Outcome, Fault> {
    let mut core = opened(alloc, size.0, size.1, &[AMPLE])?;
    let mut replies: Replies = Vec::new(alloc);
    if core.run(events, &mut replies).is_err() {
        return Err(Fault::BadEvent);
    }
    Ok(Outcome {
        core,
        replies,
        fault,
    })
}

/// Returns whether the report of these events is this text.
fn is_report_of(
    alloc: Global,
    run: &Run,
    events: &[Event],
    quiet: bool,
    text: &str,
) -> Result<bool, Fault> {
    let outcome = outcome_of(alloc, run.size, events, run.fault)?;
    let report = outcome.report(alloc, quiet)?;
    Ok(report.as_slice() == text.as_bytes())
}

fn is_report(alloc: Global, run: &Run, quiet: bool, text: &str) -> Result<bool, Fault> {
    let events = events_of(alloc, run.events)?;
    is_report_of(alloc, run, &events, quiet, text)
}

fn assert_report(rt: &impl Abort, alloc: Global, run: &Run, quiet: bool, text: &str) {
    assert_eq!(rt; is_report(alloc, run, quiet, text), Ok(true), "{text}");
}

/// A worker stops before its command is decided, and another helps it.
const HELPED: Run = Run {
    size: (2, 8),
    events: "announce 0 0 set a 0 0 1\r\nx\r\n/stop 0/announce 1 0 get a\r\n\
        /read 1/look 1/propose 1/look 1/propose 1/replay 1/replay 1",
    fault: None,
};

/// The log is full at its only place.
const FULL: Run = Run {
    size: (2, 1),
    events: "announce 0 0 set a 0 0 1\r\nx\r\n/read 0/look 0/propose 0/replay 0\
        /announce 1 0 get a\r\n/read 1",
    fault: Some((4, Fault::LogFull)),
};

/// Runs, whether their reports are quiet, and these.
const REPORTS: [(Run, bool, &str); 4] = [
    (
        HELPED,
        false,
        "reply 1 1 VALUE a 0 1\\r\\nx\\r\\nEND\\r\\n\nlog (0,0) (1,0)\n\
        worker 0 stopped learned 0 replayed 0 proposals 0\n\
        worker 1 idle learned 2 replayed 2 proposals 2\n",
    ),
    (
        HELPED,
        true,
        "log (0,0) (1,0)\nworker 0 stopped learned 0 replayed 0 proposals 0\n\
        worker 1 idle learned 2 replayed 2 proposals 2\n",
    ),
    // The fault stands before the log.
    (
        FULL,
        true,
        "fault 4 log full\nlog (0,0)\nworker 0 idle learned 1 replayed 1 proposals 1\n\
        worker 1 pending learned 1 replayed 0 proposals 0\n",
    ),
    (
        FULL,
        false,
        "reply 0 0 STORED\\r\\n\nfault 4 log full\nlog (0,0)\n\
        worker 0 idle learned 1 replayed 1 proposals 1\n\
        worker 1 pending learned 1 replayed 0 proposals 0\n",
    ),
];

#[test]
fn lines_of_reports(rt: HostRuntime) {
    for (run, quiet, text) in REPORTS {
        assert_report(&rt, rt.alloc(), &run, quiet, text);
    }
}

#[test]
fn nothing_has_happened(rt: HostRuntime) {
    let run = Run {
        size: (1, 3),
        events: "",
        fault: None,
    };
    let text = "log\nworker 0 idle learned 0 replayed 0 proposals 0\n";
    let shown = is_report_of(rt.alloc(), &run, &[], false, text);
    assert!(rt; shown == Ok(true));
}

/// Returns a data block of all bytes that aren't printed as they are, and of their neighbours.
fn odd_data(alloc: Global) -> Result<Data, Fault> {
    let bytes = [
        0, 9, 10, 11, 13, 26, 31, 32, 33, 91, 92, 93, 126, 127, 128, 171, 255,
    ];
    Data::new(Vec::from_slice(alloc, &bytes)?).ok_or(Fault::BadEvent)
}

/// Returns the event that announces a set of these data.
fn odd_set(alloc: Global) -> Result<Event, Fault> {
    let block = odd_data(alloc)?;
    let key = Key::new(alloc, b"a\\b")?.ok_or(Fault::BadEvent)?;
    let set = Command::Store {
        verb: Verb::Set,
        key,
        flags: 4_294_967_295,
        block,
    };
    Ok(Event::Announce(0, 0, set))
}

/// Returns the events by which a worker sets these data and gets them.
fn odd_events(alloc: Global, rest: &str) -> Result<Vec<Event>, Fault> {
    let mut events = Vec::new(alloc);
    events.push(odd_set(alloc)?)?;
    for event in events_of(alloc, rest)? {
        events.push(event)?;
    }
    Ok(events)
}

fn is_odd_report(alloc: Global, run: &Run, text: &str) -> Result<bool, Fault> {
    let events = odd_events(alloc, run.events)?;
    is_report_of(alloc, run, &events, false, text)
}

#[test]
fn bytes_outside_visible_ascii(rt: HostRuntime) {
    let run = Run {
        size: (1, 8),
        events: "read 0/look 0/propose 0/replay 0\
            /announce 0 0 gets a\\b\r\n/read 0/look 0/propose 0/replay 0",
        fault: None,
    };
    let text = "reply 0 0 STORED\\r\\n\n\
        reply 0 1 VALUE a\\\\b 4294967295 17 1\\r\\n\\x00\\x09\\n\\x0b\\r\\x1a\\x1f ![\\\\]~\\x7f\\x80\\xab\\xff\\r\\nEND\\r\\n\n\
        log (0,0) (0,1)\nworker 0 idle learned 2 replayed 2 proposals 1\n";
    assert!(rt; is_odd_report(rt.alloc(), &run, text) == Ok(true));
}
