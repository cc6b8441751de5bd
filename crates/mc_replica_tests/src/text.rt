//! Each reply's text, with ample memory, and what is left if memory runs out.
use mc_model::{Fault, Reply, ValueList, WireNo};
use mc_write::{refusal_text, write_reply};
use shared_tests::values::{reads_as, value_of};
use std::alloc::Global;
use std::process::Abort;
use std::test::Fail;

#[test]
fn writes_lines(rt: HostRuntime) {
    let cases = [
        (Reply::Stored, "STORED\r\n"),
        (Reply::NotStored, "NOT_STORED\r\n"),
        (Reply::Exists, "EXISTS\r\n"),
        (Reply::NotFound, "NOT_FOUND\r\n"),
        (Reply::Deleted, "DELETED\r\n"),
        (Reply::Ok, "OK\r\n"),
        (Reply::Number(0), "0\r\n"),
        (Reply::Number(u64::MAX), "18446744073709551615\r\n"),
        (Reply::Version, "VERSION 1.0.0\r\n"),
    ];
    for (reply, line) in cases {
        assert!(rt;
            reads_as(rt.alloc(), reply, line.as_bytes()) == Ok(true),
            "{line}"
        );
    }
}

fn assert_refusal(rt: &impl Abort, alloc: Global, refusal: WireNo, line: &str) {
    let text = line.as_bytes();
    assert!(rt; refusal_text(refusal) == text, "{line}");
    assert!(rt;
        reads_as(alloc, Reply::Refused(refusal), text) == Ok(true),
        "{line}"
    );
}

#[test]
fn writes_refusals(rt: HostRuntime) {
    const CASES: [(WireNo, &str); 11] = [
        (WireNo::E1, "ERROR\r\n"),
        (WireNo::E2, "CLIENT_ERROR bad command line format\r\n"),
        (WireNo::E3, "CLIENT_ERROR bad data chunk\r\n"),
        (WireNo::E4, "CLIENT_ERROR expiry is not supported\r\n"),
        (WireNo::E5, "CLIENT_ERROR line too long\r\n"),
        (WireNo::E6, "SERVER_ERROR object too large for cache\r\n"),
        (WireNo::E7, "SERVER_ERROR out of memory storing object\r\n"),
        (
            WireNo::E8,
            "CLIENT_ERROR cannot increment or decrement non-numeric value\r\n",
        ),
        (
            WireNo::E9,
            "CLIENT_ERROR invalid numeric delta argument\r\n",
        ),
        (WireNo::E10, "SERVER_ERROR log full\r\n"),
        (WireNo::E11, "SERVER_ERROR out of memory\r\n"),
    ];
    for (refusal, line) in CASES {
        assert_refusal(&rt, rt.alloc(), refusal, line);
    }
}

/// Returns the reply that shows one item.
fn one_value(alloc: Global) -> Result<Reply<'static>, Fault> {
    let value = value_of(alloc, ("k", 1, "data", Some(2)))?;
    Ok(Reply::Values(ValueList::new(vec![in alloc; value]?)))
}

const ONE_VALUE: &str = "VALUE k 1 4 2\r\ndata\r\nEND\r\n";

const AFTER_OLD_BYTES: &str = "oldVALUE k 1 4 2\r\ndata\r\nEND\r\n";

/// Writes the reply after what was there.
fn write(reply: Reply<'_>, out: &mut Vec<u8>) -> Result<(), Fault> {
    let written = write_reply(&reply, out);
    drop(reply);
    written
}

/// Returns what is there after the reply is written after other bytes.
fn written_after(alloc: Global, old: &[u8], reply: Reply<'_>) -> Result<Vec<u8>, Fault> {
    let mut out = Vec::from_slice(alloc, old)?;
    write(reply, &mut out)?;
    Ok(out)
}

/// Returns whether a reply without values is appended.
fn is_appended(alloc: Global) -> Result<bool, Fault> {
    let none = Reply::Values(ValueList::new(Vec::new(alloc)));
    let out = written_after(alloc, b"STORED\r\n", none)?;
    Ok(out.as_slice() == b"STORED\r\nEND\r\n".as_slice())
}

/// The reply's text stands after what was there.
#[test]
fn appends_to_old_bytes(rt: HostRuntime) {
    assert!(rt; is_appended(rt.alloc()) == Ok(true));
}

/// Returns the reply that shows two items.
fn two_values(alloc: Global) -> Result<Reply<'static>, Fault> {
    let first = value_of(alloc, ("abc", 5, "a\r\nEND\r\nb", Some(70)))?;
    let second = value_of(alloc, ("d", u32::MAX, "", None))?;
    Ok(Reply::Values(ValueList::new(vec![in alloc; first, second]?)))
}

fn is_written(alloc: Global, text: &str) -> Result<bool, Fault> {
    reads_as(alloc, two_values(alloc)?, text.as_bytes())
}

#[test]
fn writes_items(rt: HostRuntime) {
    let text = "VALUE abc 5 9 70\r\na\r\nEND\r\nb\r\nVALUE d 4294967295 0\r\n\r\nEND\r\n";
    assert!(rt; is_written(rt.alloc(), text) == Ok(true));
}

/// If an allocation fails (`rt try --test --fail-alloc N`), the old bytes stay.
#[test]
fn out_of_memory_keeps_old_bytes(rt: HostRuntime) -> Result<(), Fail> {
    let mut out = Vec::from_slice(rt.alloc(), b"old")?;
    match write(one_value(rt.alloc())?, &mut out) {
        Ok(()) => {
            assert!(rt; out.as_slice() == AFTER_OLD_BYTES.as_bytes());
        }
        Err(fault) => {
            assert!(rt; fault == Fault::Memory && out.as_slice() == b"old".as_slice());
        }
    }
    Ok(())
}

/// Returns whether the reply is written into as much room as its text needs.
fn fits_its_room(alloc: Global) -> Result<bool, Fault> {
    let mut out = Vec::with_capacity(alloc, ONE_VALUE.len())?;
    write(one_value(alloc)?, &mut out)?;
    Ok(out.as_slice() == ONE_VALUE.as_bytes() && out.capacity() == ONE_VALUE.len())
}

/// With as much room as the text needs no more is asked for, so no failing allocation falls in
/// here.
#[test]
fn room_is_enough(rt: HostRuntime) {
    assert!(rt; fits_its_room(rt.alloc()) == Ok(true));
}
