//! Runs of mc_schedule: its command line, an event list, and what comes out.
use crate::programs::{NO_STEPS, Program, Steps, check_run};
use crate::runs::{joined, single_pulls, single_pushes};
use mc_programs::{InputStep, OutputStep};
use shared_tests::runs::Wanted;
use std::alloc::{AllocError, Global};
use std::process::Abort;
use std::sync::Wait;

/// Asserts that a run with these words and steps leaves what it must.
fn check_steps(
    rt: &(impl AllocGlobal + Wait + Abort),
    given: &str,
    list: &str,
    steps: Steps,
    wanted: Wanted,
) -> Result<(), AllocError> {
    check_run(rt, Program::Schedule, given, list.as_bytes(), steps, wanted)
}

/// Asserts that a list is reported like this, with whole pulls and pushes, and with a byte a pull
/// and a byte a push.
fn check_reported(
    rt: &(impl AllocGlobal + Wait + Abort),
    given: &str,
    list: &str,
    status: u8,
    report: &str,
) -> Result<(), AllocError> {
    let wanted = Wanted {
        status,
        output: report.as_bytes(),
        errors: b"",
    };
    let pulls = single_pulls(rt.alloc(), list.len())?;
    let pushes = single_pushes(rt.alloc(), report.len())?;
    let steps = Steps {
        pulls: &pulls,
        pushes: &pushes,
        tells: &[],
    };
    check_steps(rt, given, list, NO_STEPS, wanted)?;
    check_steps(rt, given, list, steps, wanted)
}

/// Asserts that a list is refused by this line, before anything is done.
fn check_refused(
    rt: &(impl AllocGlobal + Wait + Abort),
    given: &str,
    list: &str,
    text: &str,
) -> Result<(), AllocError> {
    let wanted = Wanted {
        status: 2,
        output: b"",
        errors: text.as_bytes(),
    };
    check_steps(rt, given, list, NO_STEPS, wanted)
}

/// A worker that stops after its announcement.
const STOPPED: &str = "core 2 8\ntenant 4 100\nannounce 0 0 set a 0 x\nstop 0\nsubmit 1 0 get a\n";

#[test]
fn two_tenants_have_their_own_items_and_uniques(rt: HostRuntime) -> Result<(), AllocError> {
    let list =
        "core 1 8\ntenant 4 100\ntenant 4 100\nsubmit 0 0 set a 0 x\nsubmit 0 0 set a 0 x\nsubmit 0 0 set a 0 x\n\
        submit 0 1 set a 0 q\nsubmit 0 1 gets a\n";
    let report =
        "reply 0 0 STORED\\r\\n\nreply 0 1 STORED\\r\\n\nreply 0 2 STORED\\r\\n\nreply 0 3 STORED\\r\\n\n\
        reply 0 4 VALUE a 0 1 1\\r\\nq\\r\\nEND\\r\\n\nlog (0,0) (0,1) (0,2) (0,3) (0,4)\n\
        worker 0 idle learned 5 replayed 5 proposals 1\n";
    check_reported(&rt, "", list, 0, report)
}

#[test]
fn a_stopped_worker_is_helped(rt: HostRuntime) -> Result<(), AllocError> {
    let report = "reply 1 1 VALUE a 0 1\\r\\nx\\r\\nEND\\r\\n\nlog (0,0) (1,0)\n\
        worker 0 stopped learned 0 replayed 0 proposals 0\nworker 1 idle learned 2 replayed 2 proposals 2\n";
    check_reported(&rt, "", STOPPED, 0, report)
}

#[test]
fn helping_changes_the_proposal(rt: HostRuntime) -> Result<(), AllocError> {
    let list =
        "core 2 8\ntenant 4 100\nannounce 1 0 set a 0 x\nread 1\nlook 1\nannounce 0 0 set b 0 y\nread 0\npropose 1\n\
        submit 1 0 set a 0 z\nsubmit 1 0 get b\nlook 0\npropose 0\nlook 0\npropose 0\nlook 0\npropose 0\n\
        replay 0\nreplay 0\nreplay 0\n";
    let report =
        "reply 1 0 STORED\\r\\n\nreply 1 1 STORED\\r\\n\nreply 1 3 VALUE b 0 1\\r\\ny\\r\\nEND\\r\\n\n\
        reply 0 2 STORED\\r\\n\nlog (1,0) (1,1) (0,0) (1,2)\n\
        worker 0 idle learned 3 replayed 3 proposals 3\nworker 1 idle learned 4 replayed 4 proposals 2\n";
    check_reported(&rt, "", list, 0, report)
}

#[test]
fn three_workers_serve_two_tenants(rt: HostRuntime) -> Result<(), AllocError> {
    let list =
        "core 3 9\ntenant 2 50\ntenant 1 9\nsubmit 2 1 set a 0 q\nsubmit 1 0 set a 0 x\nsubmit 0 1 set b 0 q\n\
        submit 2 0 gets a\n";
    let report = "reply 2 0 STORED\\r\\n\nreply 1 1 STORED\\r\\n\n\
        reply 0 2 SERVER_ERROR out of memory storing object\\r\\n\n\
        reply 2 3 VALUE a 0 1 1\\r\\nx\\r\\nEND\\r\\n\nlog (2,0) (1,0) (0,0) (2,1)\n\
        worker 0 idle learned 3 replayed 3 proposals 1\nworker 1 idle learned 2 replayed 2 proposals 1\n\
        worker 2 idle learned 4 replayed 4 proposals 1\n";
    check_reported(&rt, "", list, 0, report)?;

    // The log agrees with that one for tenant 0, and so do its replies.
    let list = "core 1 4\ntenant 2 50\nsubmit 0 0 set a 0 x\nsubmit 0 0 gets a\n";
    let report =
        "reply 0 0 STORED\\r\\n\nreply 0 1 VALUE a 0 1 1\\r\\nx\\r\\nEND\\r\\n\nlog (0,0) (0,1)\n\
        worker 0 idle learned 2 replayed 2 proposals 1\n";
    check_reported(&rt, "", list, 0, report)
}

const FAULTS: [(&str, &str); 4] = [
    // A full log, and what stands there so far.
    (
        "core 2 1\ntenant 4 100\nsubmit 0 0 set a 0 x\nsubmit 1 0 get a\n",
        "reply 0 0 STORED\\r\\n\nfault 4 log full\nlog (0,0)\n\
        worker 0 idle learned 1 replayed 1 proposals 1\nworker 1 pending learned 1 replayed 0 proposals 0\n",
    ),
    // Nothing was learned.
    (
        "core 1 4\ntenant 4 100\nreplay 0\n",
        "fault 3 event not enabled\nlog\nworker 0 idle learned 0 replayed 0 proposals 0\n",
    ),
    // No later event runs; a worker that doesn't exist; the last line lacks its line feed.
    (
        "core 1 4\ntenant 4 100\n\n# no such worker\nread 1\nsubmit 0 0 get a",
        "fault 5 event not enabled\nlog\nworker 0 idle learned 0 replayed 0 proposals 0\n",
    ),
    // A worker that has looked.
    (
        "core 1 4\ntenant 4 100\nannounce 0 0 get a\nread 0\nlook 0\nread 0\n",
        "fault 6 event not enabled\nlog\nworker 0 looked learned 0 replayed 0 proposals 0\n",
    ),
];

#[test]
fn faults_of_events_end_the_run(rt: HostRuntime) -> Result<(), AllocError> {
    for row in &FAULTS {
        check_reported(&rt, "", row.0, 1, row.1)?;
    }
    Ok(())
}

const PICTURE: &str =
    "   line  worker 0    worker 1    log\n      3  announce    |\n      4  stop        |\n      5              announce\n\
    \x20     5              read empty\n      5              look -> 0\n      5              propose     0 (0,0)\n\
    \x20     5              look -> 1\n      5              propose *   1 (1,0)\n      5              replay\n\
    \x20     5              replay\n\n";

const REPLY: &str = "reply 1 1 VALUE a 0 1\\r\\nx\\r\\nEND\\r\\n\n";

const OTHERS: &str = "log (0,0) (1,0)\n\
    worker 0 stopped learned 0 replayed 0 proposals 0\nworker 1 idle learned 2 replayed 2 proposals 2\n";

/// The words of runs, and the pieces of what they print.
const PRINTED: [(&str, [&str; 3]); 4] = [
    ("--quiet", ["", "", OTHERS]),
    ("--picture", [PICTURE, REPLY, OTHERS]),
    ("--quiet --picture", [PICTURE, "", OTHERS]),
    ("--picture --quiet", [PICTURE, "", OTHERS]),
];

/// Asserts that a run of `STOPPED` with these words prints these pieces.
fn check_pieces(
    rt: &(impl AllocGlobal + Wait + Abort),
    given: &str,
    pieces: &[&str; 3],
) -> Result<(), AllocError> {
    let report = pieces.concat(rt.alloc())?;
    check_reported(rt, given, STOPPED, 0, report.as_str())
}

#[test]
fn words_leave_replies_out_and_add_a_picture(rt: HostRuntime) -> Result<(), AllocError> {
    for row in &PRINTED {
        check_pieces(&rt, row.0, &row.1)?;
    }
    Ok(())
}

const BAD_LISTS: [(&str, &str); 10] = [
    (
        "core 1 4\ntenant 4 100\njump 0\n",
        "mc_schedule: line 3: bad line\n",
    ),
    (
        "core 0 4\ntenant 4 100\njump 0\n",
        "mc_schedule: line 3: bad line\n",
    ),
    (
        "core 1 4\r\ntenant 4 100\n",
        "mc_schedule: line 1: bad line\n",
    ),
    ("core 1 4\nread 0\n", "mc_schedule: line 2: bad line\n"),
    ("", "mc_schedule: line 0: bad line\n"),
    ("core 99 4\n", "mc_schedule: line 0: bad line\n"),
    ("core 0 4\ntenant 4 100\n", "mc_schedule: bad settings\n"),
    ("core 17 4\ntenant 4 100\n", "mc_schedule: bad settings\n"),
    (
        "core 1 1048577\ntenant 4 100\n",
        "mc_schedule: bad settings\n",
    ),
    (
        "core 1 4\ntenant 4 100\ntenant 0 100\nread 9\n",
        "mc_schedule: bad settings\n",
    ),
];

#[test]
fn bad_lines_come_before_bad_settings(rt: HostRuntime) -> Result<(), AllocError> {
    for row in &BAD_LISTS {
        check_refused(&rt, "", row.0, row.1)?;
        check_refused(&rt, "--picture", row.0, row.1)?;
    }
    Ok(())
}

/// A list that asks for nothing.
const OPENING: &str = "core 1 4\ntenant 4 100\n";

/// Returns the same list with a comment after it, `count` bytes in total.
fn list_of_bytes(alloc: Global, count: usize) -> Result<Vec<u8>, AllocError> {
    let comment = "#".repeat(alloc, count.saturating_sub(OPENING.len()))?;
    joined(alloc, &[OPENING.as_bytes(), comment.as_bytes()])
}

/// Asserts that a run of the list of `count` bytes leaves what it must.
fn check_long(
    rt: &(impl AllocGlobal + Wait + Abort),
    count: usize,
    wanted: Wanted,
) -> Result<(), AllocError> {
    let list = list_of_bytes(rt.alloc(), count)?;
    check_run(rt, Program::Schedule, "", &list, NO_STEPS, wanted)
}

#[test]
fn a_list_of_1_048_576_bytes_is_read(rt: HostRuntime) -> Result<(), AllocError> {
    let wanted = Wanted {
        status: 0,
        output: b"log\nworker 0 idle learned 0 replayed 0 proposals 0\n",
        errors: b"",
    };
    check_long(&rt, 1_048_576, wanted)
}

#[test]
fn a_list_of_one_byte_more_is_refused(rt: HostRuntime) -> Result<(), AllocError> {
    let wanted = Wanted {
        status: 2,
        output: b"",
        errors: b"mc_schedule: line 0: bad line\n",
    };
    check_long(&rt, 1_048_577, wanted)
}

/// Asserts that a run of `STOPPED` with these steps prints the first text and reports the second.
fn check_failed<'a>(
    rt: &(impl AllocGlobal + Wait + Abort),
    pulls: &'a [InputStep],
    pushes: &'a [OutputStep],
    wanted: (&str, &str),
) -> Result<(), AllocError> {
    let steps = Steps {
        pulls,
        pushes,
        tells: &[OutputStep::Take(1), OutputStep::Full],
    };
    let wanted = Wanted {
        status: 1,
        output: wanted.0.as_bytes(),
        errors: wanted.1.as_bytes(),
    };
    check_steps(rt, "", STOPPED, steps, wanted)
}

#[test]
fn failed_streams_are_told(rt: HostRuntime) -> Result<(), AllocError> {
    check_failed(
        &rt,
        &[InputStep::Give(30), InputStep::Fail],
        &[OutputStep::Full, OutputStep::Full],
        ("", "mc_schedule: input failed\n"),
    )?;
    check_failed(
        &rt,
        &[InputStep::Give(30), InputStep::Empty],
        &[OutputStep::Take(9), OutputStep::Fail],
        ("reply 1 1", "mc_schedule: output failed\n"),
    )
}

/// Asserts that these words are answered on standard output.
fn check_shown(
    rt: &(impl AllocGlobal + Wait + Abort),
    given: &str,
    text: &str,
) -> Result<(), AllocError> {
    let wanted = Wanted {
        status: 0,
        output: text.as_bytes(),
        errors: b"",
    };
    check_steps(rt, given, STOPPED, NO_STEPS, wanted)
}

const HELP: &str = "\
Runs an event list, and prints its replies, the log and the workers

Usage: mc_schedule [OPTIONS]

Options:
      --quiet    Leaves out the replies
      --picture  Draws the run before its report
  -h, --help     Print help
  -V, --version  Print version

An event list stands on standard input, line by line, its words with spaces between them:
  core WORKERS PLACES   first: 1 to 16 workers, and a log with 1 to 1048576 places for commands
  tenant ITEMS BYTES    then 1 to 64 such lines: each tenant's quotas, to 1048576 and 1073741824
and then any number of these, where W is a worker and T a tenant, each numbered from 0:
  submit W T COMMAND    W announces a command of T, helps by turns until it is decided, and replays
  announce W T COMMAND  W announces a command of T, and no more
  read W                W learns what stands at its next place, if anything does
  look W                W looks for a command that waits, of the worker whose turn its next place is
  propose W             W proposes what it found, or else its own command, and learns what is decided
  replay W              W applies the next command that it has learned, and answers its own
  stop W                W does nothing more
COMMAND is set, add, replace, append or prepend KEY FLAGS DATA, cas KEY FLAGS UNIQUE DATA,
get or gets KEY.., delete KEY, incr or decr KEY NUMBER, flush_all, or limit ITEMS BYTES, which sets
T's quotas. DATA is one word, and a point stands for no data. A line that begins with # is a
comment.

Example, in which worker 1 brings the command of worker 0, which has stopped, into the log:
  core 2 8
  tenant 4 100
  announce 0 0 set a 0 x
  stop 0
  submit 1 0 get a
";

const SHOWN: [(&str, &str); 3] = [
    ("--help", HELP),
    ("-h", HELP),
    ("--version", "mc_schedule 1.0.0\n"),
];

#[test]
fn help_and_the_version_are_shown(rt: HostRuntime) -> Result<(), AllocError> {
    for row in &SHOWN {
        check_shown(&rt, row.0, row.1)?;
    }
    Ok(())
}

const REFUSED: [(&str, &str); 2] = [
    (
        "--quiet --quiet",
        "error: the argument '--quiet' cannot be used multiple times\n\nUsage: mc_schedule [OPTIONS]\n\nFor more information, try '--help'.\n",
    ),
    (
        "list",
        "error: unexpected argument 'list' found\n\nUsage: mc_schedule [OPTIONS]\n\nFor more information, try '--help'.\n",
    ),
];

#[test]
fn words_of_no_form_are_refused(rt: HostRuntime) -> Result<(), AllocError> {
    for row in &REFUSED {
        check_refused(&rt, row.0, STOPPED, row.1)?;
    }
    Ok(())
}
