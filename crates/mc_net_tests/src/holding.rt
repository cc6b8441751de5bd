//! A worker that is held over sockets holds no other.
use crate::clients::Act;
use crate::visits::{QUOTAS, Visit, check};
use std::test::Fail;

/// The first client's worker is held after it has announced the client's command, until the second
/// client has all its replies.
const ACTS: [Act<'static>; 8] = [
    Act::Connect(0),
    Act::Send(0, b"set a 0 0 1\r\nx\r\nquit\r\n"),
    Act::AwaitHeld,
    Act::Connect(0),
    Act::Send(1, b"set b 0 0 1\r\ny\r\nget b\r\nquit\r\n"),
    Act::Finish(1, b"STORED\r\nVALUE b 0 1\r\ny\r\nEND\r\n"),
    Act::Free,
    Act::Finish(0, b"STORED\r\n"),
];

#[test]
fn two_workers_at_once(rt: HostRuntime) -> Result<(), Fail> {
    let visit = Visit {
        quotas: &[QUOTAS],
        listeners: &[0],
        workers: 2,
        acts: &ACTS,
    };
    check(&rt, visit, true, &[3])
}
