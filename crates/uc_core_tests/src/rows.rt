//! Golden runs, as single events: what is answered, and what the log and its workers show at the
//! end. Each is taken by `step` and by `run`.
use crate::events::{AMPLE, opened, ran, shows, stepped};
use mc_model::{Fault, Limits};
use std::alloc::Global;
use std::process::Abort;

/// A golden run: a core of this many workers and places takes these events, gives these answers and
/// shows this at the end.
#[derive(Clone, Copy)]
struct Row<'a> {
    name: &'a str,
    size: (u64, u64),
    tenants: &'a [Limits],
    events: &'a str,
    replies: &'a str,
    shows: &'a str,
}

/// Returns whether the row holds for its events one at a time.
fn is_stepped(alloc: Global, row: &Row<'_>) -> Result<bool, Fault> {
    let mut core = opened(alloc, row.size.0, row.size.1, row.tenants)?;
    let said = stepped(alloc, &mut core, row.events)?;
    Ok(said.as_slice() == row.replies.as_bytes() && shows(alloc, &core, row.shows)?)
}

/// Returns whether the row holds for one run of its events.
fn is_run(alloc: Global, row: &Row<'_>) -> Result<bool, Fault> {
    let mut core = opened(alloc, row.size.0, row.size.1, row.tenants)?;
    let said = ran(alloc, &mut core, row.events)?;
    Ok(said.as_slice() == row.replies.as_bytes() && shows(alloc, &core, row.shows)?)
}

fn assert_row(rt: &impl Abort, alloc: Global, row: &Row<'_>) {
    assert!(rt; is_stepped(alloc, row) == Ok(true), "{}", row.name);
    assert!(rt; is_run(alloc, row) == Ok(true), "{}", row.name);
}

const ROWS: [Row<'static>; 5] = [
    Row {
        name: "tenants are apart",
        size: (1, 8),
        tenants: &[AMPLE, AMPLE],
        events: "announce 0 0 set a 0 0 1\r\nx\r\n/read 0/look 0/propose 0/replay 0\
            /announce 0 0 set a 0 0 1\r\nx\r\n/read 0/look 0/propose 0/replay 0\
            /announce 0 0 set a 0 0 1\r\nx\r\n/read 0/look 0/propose 0/replay 0\
            /announce 0 1 set a 0 0 1\r\nq\r\n/read 0/look 0/propose 0/replay 0\
            /announce 0 1 gets a\r\n/read 0/look 0/propose 0/replay 0",
        replies: "0 0 STORED\r\n0 1 STORED\r\n0 2 STORED\r\n0 3 STORED\r\n\
            0 4 VALUE a 0 1 1\r\nq\r\nEND\r\n",
        shows: "log (0,0) (0,1) (0,2) (0,3) (0,4)\n\
            worker 0 idle learned 5 replayed 5 proposals 1\n",
    },
    Row {
        name: "helped after stop",
        size: (2, 8),
        tenants: &[AMPLE],
        events: "announce 0 0 set a 0 0 1\r\nx\r\n/stop 0\
            /announce 1 0 get a\r\n/read 1/look 1/propose 1/look 1/propose 1/replay 1/replay 1",
        replies: "1 1 VALUE a 0 1\r\nx\r\nEND\r\n",
        shows: "log (0,0) (1,0)\n\
            worker 0 stopped learned 0 replayed 0 proposals 0\n\
            worker 1 idle learned 2 replayed 2 proposals 2\n",
    },
    Row {
        name: "helping changes the proposal",
        size: (2, 8),
        tenants: &[AMPLE],
        events: "announce 1 0 set a 0 0 1\r\nx\r\n/read 1/look 1\
            /announce 0 0 set b 0 0 1\r\ny\r\n/read 0/propose 1\
            /announce 1 0 set a 0 0 1\r\nz\r\n/read 1/look 1/propose 1/replay 1/replay 1\
            /announce 1 0 get b\r\n/read 1/look 1/propose 1/look 1/propose 1/replay 1/replay 1\
            /look 0/propose 0/look 0/propose 0/look 0/propose 0/replay 0/replay 0/replay 0",
        replies: "1 0 STORED\r\n1 1 STORED\r\n1 3 VALUE b 0 1\r\ny\r\nEND\r\n0 2 STORED\r\n",
        shows: "log (1,0) (1,1) (0,0) (1,2)\n\
            worker 0 idle learned 3 replayed 3 proposals 3\n\
            worker 1 idle learned 4 replayed 4 proposals 2\n",
    },
    Row {
        name: "three workers two tenants",
        size: (3, 9),
        tenants: &[
            Limits {
                items: 2,
                bytes: 50,
            },
            Limits { items: 1, bytes: 9 },
        ],
        events: "announce 2 1 set a 0 0 1\r\nq\r\n/read 2/look 2/propose 2/replay 2\
            /announce 1 0 set a 0 0 1\r\nx\r\n/read 1/read 1/look 1/propose 1/replay 1/replay 1\
            /announce 0 1 set b 0 0 1\r\nq\r\n/read 0/read 0/read 0/look 0/propose 0/replay 0/replay 0/replay 0\
            /announce 2 0 gets a\r\n/read 2/read 2/read 2/look 2/propose 2/replay 2/replay 2/replay 2",
        replies: "2 0 STORED\r\n1 1 STORED\r\n0 2 SERVER_ERROR out of memory storing object\r\n\
            2 3 VALUE a 0 1 1\r\nx\r\nEND\r\n",
        shows: "log (2,0) (1,0) (0,0) (2,1)\n\
            worker 0 idle learned 3 replayed 3 proposals 1\n\
            worker 1 idle learned 2 replayed 2 proposals 1\n\
            worker 2 idle learned 4 replayed 4 proposals 1\n",
    },
    // It agrees with the log "three workers two tenants" for the first tenant, and so do replies.
    Row {
        name: "agreeing logs answer alike",
        size: (1, 4),
        tenants: &[Limits {
            items: 2,
            bytes: 50,
        }],
        events: "announce 0 0 set a 0 0 1\r\nx\r\n/read 0/look 0/propose 0/replay 0\
            /announce 0 0 gets a\r\n/read 0/look 0/propose 0/replay 0",
        replies: "0 0 STORED\r\n0 1 VALUE a 0 1 1\r\nx\r\nEND\r\n",
        shows: "log (0,0) (0,1)\nworker 0 idle learned 2 replayed 2 proposals 1\n",
    },
];

#[test]
fn golden_runs(rt: HostRuntime) {
    for row in ROWS {
        assert_row(&rt, rt.alloc(), &row);
    }
}
