//! What one worker answers to the clients of two tenants: each row is a tenant, what its client
//! writes, and what it reads.

use crate::clients::{Client, both_clients, is_answer, opened};
use mc_model::{Fault, Limits};
use std::alloc::Global;
use std::test::Fail;
use uc_worker::Open;

/// The first tenant may hold 6 bytes, the second one item.
const QUOTAS: [Limits; 2] = [
    Limits { items: 3, bytes: 6 },
    Limits {
        items: 1,
        bytes: 100,
    },
];

const FULL: &str = "SERVER_ERROR out of memory storing object\r\n";

const NON_NUMERIC: &str = "CLIENT_ERROR cannot increment or decrement non-numeric value\r\n";

type Row = (u8, &'static str, &'static str);

/// In the order in which the commands stand in the log.
const ROWS: [Row; 38] = [
    (0, "set a 5 0 3\r\nabc\r\n", "STORED\r\n"),
    (0, "get a\r\n", "VALUE a 5 3\r\nabc\r\nEND\r\n"),
    (1, "get a\r\n", "END\r\n"),
    (0, "add a 0 0 1\r\nx\r\n", "NOT_STORED\r\n"),
    (0, "append a 9 0 1\r\nd\r\n", "STORED\r\n"),
    (0, "prepend a 9 0 1\r\nz\r\n", "STORED\r\n"),
    (
        0,
        "gets a b a\r\n",
        "VALUE a 5 5 3\r\nzabcd\r\nVALUE a 5 5 3\r\nzabcd\r\nEND\r\n",
    ),
    (0, "append a 0 0 1\r\ny\r\n", FULL),
    (1, "replace a 0 0 1\r\nx\r\n", "NOT_STORED\r\n"),
    (1, "append a 0 0 1\r\nx\r\n", "NOT_STORED\r\n"),
    (1, "add a 7 0 2\r\n10\r\n", "STORED\r\n"),
    (1, "decr a 1\r\n", "9\r\n"),
    (1, "gets a\r\n", "VALUE a 7 1 2\r\n9\r\nEND\r\n"),
    (1, "decr a 20\r\n", "0\r\n"),
    (1, "set b 0 0 1\r\ny\r\n", FULL),
    (1, "set a 0 0 20\r\n18446744073709551615\r\n", "STORED\r\n"),
    (1, "incr a 2\r\n", "1\r\n"),
    (1, "cas a 0 0 1 5\r\nq\r\n", "STORED\r\n"),
    (1, "cas a 0 0 1 5\r\nw\r\n", "EXISTS\r\n"),
    (1, "cas b 0 0 1 5\r\nw\r\n", "NOT_FOUND\r\n"),
    (1, "incr a 1\r\n", NON_NUMERIC),
    (1, "incr b 1\r\n", "NOT_FOUND\r\n"),
    (0, "delete a\r\n", "DELETED\r\n"),
    (0, "delete a\r\n", "NOT_FOUND\r\n"),
    (0, "set n 0 0 1\r\n9\r\n", "STORED\r\n"),
    (0, "set m 0 0 4\r\n1000\r\n", FULL),
    (0, "set m 0 0 2\r\n99\r\n", "STORED\r\n"),
    (0, "incr m 1\r\n", "100\r\n"),
    (0, "incr n 1\r\n", FULL),
    (
        0,
        "gets n m\r\n",
        "VALUE n 0 1 4\r\n9\r\nVALUE m 0 3 6\r\n100\r\nEND\r\n",
    ),
    (1, "flush_all\r\n", "OK\r\n"),
    (1, "get a\r\n", "END\r\n"),
    (0, "get m\r\n", "VALUE m 0 3\r\n100\r\nEND\r\n"),
    (1, "set b 3 0 0\r\n\r\n", "STORED\r\n"),
    (1, "gets b\r\n", "VALUE b 3 0 7\r\n\r\nEND\r\n"),
    (0, "replace n 1 0 1\r\n7\r\n", "STORED\r\n"),
    (0, "decr m 1\r\n", "99\r\n"),
    (
        0,
        "gets m n\r\n",
        "VALUE m 0 2 8\r\n99\r\nVALUE n 1 1 7\r\n7\r\nEND\r\n",
    ),
];

/// Returns whether the row's command is answered like this, at this place of the log.
fn is_answered(
    alloc: Global,
    client: &mut Client<'_>,
    place: usize,
    row: Row,
) -> Result<bool, Fault> {
    let (tenant, text, want) = row;
    is_answer(
        alloc,
        client.ask(alloc, tenant, text, &mut Open)?,
        place,
        want,
    )
}

/// Returns the first command that isn't answered as its row says, if any.
fn first_wrong(
    alloc: Global,
    client: &mut Client<'_>,
    rows: &[Row],
) -> Result<Option<&'static str>, Fault> {
    for (place, row) in rows.iter().enumerate() {
        if !is_answered(alloc, client, place, *row)? {
            return Ok(Some(row.1));
        }
    }
    Ok(None)
}

/// The second worker does nothing.
#[test]
fn one_worker_answers_two_tenants(rt: HostRuntime) -> Result<(), Fail> {
    let alloc = rt.alloc();
    let (log, passes) = opened(alloc, 2, 64, &QUOTAS)?;
    let (mut client, _idle) = both_clients(alloc, &log, passes)?;
    assert_eq!(rt; first_wrong(alloc, &mut client, &ROWS), Ok(None));
    Ok(())
}
