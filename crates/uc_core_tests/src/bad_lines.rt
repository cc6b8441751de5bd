//! Event lists with bad lines: the number of the first is reported.
use crate::event_lists::{assert_bad, bad_line, is_list};
use mc_model::{Fault, Limits};
use std::alloc::Global;
use std::process::Abort;

/// Returns a list of `core 1 4` and a tenant with this third line.
fn third_line(alloc: Global, front: &str, words: &str) -> Result<String, Fault> {
    Ok(format!(in alloc; "core 1 4\ntenant 4 100\n{front}{words}\nread 0\nread x\n")?)
}

/// Returns at which line the list is bad with this third line, if it is.
fn bad_with(alloc: Global, front: &str, words: &str) -> Result<Option<u64>, Fault> {
    bad_line(alloc, third_line(alloc, front, words)?.as_bytes())
}

/// Asserts that the list is bad at its third line, with `front` before any of these words.
fn assert_bad_lines(rt: &impl Abort, alloc: Global, front: &str, all: &str) {
    for words in all.split('/') {
        assert_eq!(rt; bad_with(alloc, front, words), Ok(Some(3)), "{words}");
    }
}

#[test]
fn lines_of_no_form(rt: HostRuntime) {
    let lines =
        "jump 0/read/read 0 0/read 256/read -1/read x/READ 0/ #/read 0\r/\r/read\t0/look/stop/\
        core 1 4/tenant 4/tenant 4 100 1/tenant 4 18446744073709551616/submit/submit 0/submit 0 0/\
        submit 256 0 flush_all/submit 0 256 flush_all/announce 0 0/announce 0 get a";
    assert_bad_lines(&rt, rt.alloc(), "", lines);
}

#[test]
fn commands_of_no_form(rt: HostRuntime) {
    let commands =
        "set a 0/set a 0 x y/set a 4294967296 x/set a x x/set a 0 \x7f/set a 0 ä/set a\x7f 0 x/set a 0 x\r/\
        cas a 0 x/cas a 0 18446744073709551616 x/cas a 0 1 x y/get/gets/get a \x7f/delete/delete a 0/\
        delete a noreply/incr a/incr a x/incr a 18446744073709551616/decr a 1 noreply/flush_all 0/\
        limit/limit 1/limit 1 1 1/limit 0 1/limit 1 0/limit 1048577 1/limit 1 1073741825/limit 1 x/limit -1 1/version/quit/SET a 0 x";
    assert_bad_lines(&rt, rt.alloc(), "submit 0 0 ", commands);
}

/// Lists, and at which line each is bad: lines out of their places, and lists without tenants.
const BAD: [(&str, u64); 13] = [
    ("core 1 4\ntenant 4 100\njump 0\n", 3),
    ("tenant 4 100\ncore 1 4\n", 1),
    ("#\n\nread 0\n", 3),
    ("core 1 4\nread 0\n", 2),
    ("core 1 4\ncore 1 4\ntenant 4 100\n", 2),
    ("core 1 4\ntenant 4 100\nread 0\ntenant 4 100\n", 4),
    ("core 1 4\ntenant 4 100\nread 0\ncore 1 4\n", 4),
    ("core 1 18446744073709551616\n", 1),
    ("", 0),
    ("\n\n", 0),
    ("# core 1 4\n", 0),
    ("core 1 4", 0),
    ("core 99 0\n\n#\n", 0),
];

#[test]
fn lines_out_of_their_places(rt: HostRuntime) {
    for (text, line) in BAD {
        assert_bad(&rt, rt.alloc(), text, line);
    }
}

/// Returns a list of `count` tenants.
fn tenants(alloc: Global, count: usize) -> Result<String, Fault> {
    let mut text = String::from_str(alloc, "core 1 4\n")?;
    for _ in 0..count {
        text.push_str("tenant 4 100\n")?;
    }
    Ok(text)
}

const TENANT: Limits = Limits {
    items: 4,
    bytes: 100,
};

/// Returns whether as many tenants as there may be are read.
fn are_read(alloc: Global) -> Result<bool, Fault> {
    let list = tenants(alloc, 64)?;
    is_list(alloc, list.as_str(), (1, 4), &[TENANT; 64], &[])
}

/// Returns at which line a list of one tenant more is bad, if it is.
fn bad_tenant(alloc: Global) -> Result<Option<u64>, Fault> {
    bad_line(alloc, tenants(alloc, 65)?.as_bytes())
}

#[test]
fn at_most_64_tenants(rt: HostRuntime) {
    assert!(rt; are_read(rt.alloc()) == Ok(true));
    assert!(rt; bad_tenant(rt.alloc()) == Ok(Some(66)));
}

/// Returns these lines, and a comment that makes the list `length` bytes long.
fn long_list(alloc: Global, lines: &str, length: usize) -> Result<String, Fault> {
    let mut text = String::from_str(alloc, lines)?;
    text.push_str("#")?;
    for _ in text.len()..length {
        text.push_str("x")?;
    }
    Ok(text)
}

const LINES: &str = "core 1 4\ntenant 4 100\n";

/// Returns whether a list of this length is read.
fn is_long_read(alloc: Global, length: usize) -> Result<bool, Fault> {
    let list = long_list(alloc, LINES, length)?;
    is_list(alloc, list.as_str(), (1, 4), &[TENANT], &[])
}

/// Returns at which line a list of these lines and this length is bad, if it is.
fn bad_long(alloc: Global, lines: &str, length: usize) -> Result<Option<u64>, Fault> {
    bad_line(alloc, long_list(alloc, lines, length)?.as_bytes())
}

#[test]
fn a_list_that_is_too_long(rt: HostRuntime) {
    assert!(rt; is_long_read(rt.alloc(), 1_048_576) == Ok(true));
    assert!(rt; bad_long(rt.alloc(), LINES, 1_048_577) == Ok(Some(0)));
    assert!(rt; bad_long(rt.alloc(), "read 0\n", 1_048_577) == Ok(Some(0)));
}
