//! Clients over sockets that leave, never read or reset their connection, next to one that the same
//! worker serves to the end.
use crate::clients::Act;
use crate::visits::{Outcome, QUOTAS, Visit, check, outcome_of};
use std::alloc::{AllocError, Global};
use std::test::Fail;

/// Two clients leave in the middle of a block: one at once, and one after another client has been
/// answered.
const HALF: [Act<'static>; 11] = [
    Act::Connect(0),
    Act::Send(0, b"set a 0 0 10\r\nabc"),
    Act::Leave(0),
    Act::Connect(0),
    Act::Send(1, b"set a 0 0 10\r\nabc"),
    Act::Connect(0),
    Act::Send(2, b"set a 5 0 3\r\nabc\r\n"),
    Act::Read(2, b"STORED\r\n"),
    Act::Leave(1),
    Act::Send(2, b"get a\r\nquit\r\n"),
    Act::Finish(2, b"VALUE a 5 3\r\nabc\r\nEND\r\n"),
];

/// Returns a set of a large block, of 100,000 bytes.
fn large_set(alloc: Global) -> Result<Vec<u8>, AllocError> {
    let mut bytes = Vec::from_slice(alloc, b"set k 0 0 100000\r\n")?;
    for _ in 0..100u8 {
        bytes.extend_from_slice(&[b'v'; 1_000])?;
    }
    bytes.extend_from_slice(b"\r\n")?;
    Ok(bytes)
}

#[test]
fn two_leave_in_a_block(rt: HostRuntime) -> Result<(), Fail> {
    let visit = Visit {
        quotas: &[QUOTAS],
        listeners: &[0],
        workers: 1,
        acts: &HALF,
    };
    check(&rt, visit, false, &[2])
}

#[test]
fn one_never_reads_and_resets(rt: HostRuntime) -> Result<(), Fail> {
    let set = large_set(rt.alloc())?;
    let acts = [
        Act::Connect(0),
        Act::Send(0, &set),
        Act::Read(0, b"STORED\r\n"),
        Act::Flood(0, b"get k\r\n"),
        Act::Connect(0),
        Act::Send(1, b"set a 5 0 3\r\nabc\r\n"),
        Act::Read(1, b"STORED\r\n"),
        Act::Leave(0),
        Act::Send(1, b"get a\r\nquit\r\n"),
        Act::Finish(1, b"VALUE a 5 3\r\nabc\r\nEND\r\n"),
    ];
    let visit = Visit {
        quotas: &[QUOTAS],
        listeners: &[0],
        workers: 1,
        acts: &acts,
    };
    let Outcome { failed, tenants } = outcome_of(&rt, rt.alloc(), visit, false)?;
    assert_eq!(rt; failed, None);
    assert!(rt; tenants.is_ok());
    Ok(())
}
