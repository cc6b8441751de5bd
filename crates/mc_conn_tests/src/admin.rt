//! An administrator's connection next to a tenant's, over two workers of one log.
use crate::acts::Act;
use crate::lines::{Client, Wire};
use crate::pairs::both_play;
use mc_conn::{Conn, State};
use mc_model::{Fault, Name, Names};
use std::alloc::Global;

/// A run: what the administrator sends and reads, and what tenant `a`'s client sends after that and
/// reads.
type Run = [&'static str; 4];

/// A quota of items, a name that no tenant has, a line that only tenants have, and the end.
const LOWERED: Run = [
    "limit a 2 100\r\nlimit x 1 1\r\nget a\r\nquit\r\n",
    "OK\r\nCLIENT_ERROR bad command line format\r\nERROR\r\n",
    "set k 0 0 1\r\n1\r\nset l 0 0 1\r\n2\r\nset m 0 0 1\r\n3\r\nget k l m\r\n",
    "STORED\r\nSTORED\r\nSERVER_ERROR out of memory storing object\r\n\
     VALUE k 0 1\r\n1\r\nVALUE l 0 1\r\n2\r\nEND\r\n",
];

/// A quota of bytes that is set without a reply, and a refusal all the same.
const UNANSWERED: Run = [
    "limit a 9 3 noreply\r\nlimit x 9 3 noreply\r\nversion\r\n",
    "CLIENT_ERROR bad command line format\r\nVERSION 1.0.0\r\n",
    "set k 0 0 2\r\n12\r\nset l 0 0 1\r\n3\r\nget k l\r\n",
    "STORED\r\nSERVER_ERROR out of memory storing object\r\nVALUE k 0 2\r\n12\r\nEND\r\n",
];

/// The quotas of another tenant, and a tenant's client that asks for quotas itself.
const APART: Run = [
    "limit b 1 1\r\n",
    "OK\r\n",
    "limit a 1 1\r\nset k 0 0 1\r\n1\r\nset l 0 0 1\r\n2\r\n",
    "ERROR\r\nSTORED\r\nSTORED\r\n",
];

/// Returns the names of two tenants, `a` and `b`.
fn two_names(alloc: Global) -> Result<Names, Fault> {
    let mut names = Vec::new(alloc);
    for bytes in [b"a", b"b"] {
        let Some(name) = Name::new(alloc, bytes)? else {
            return Err(Fault::BadSettings);
        };
        names.push(name)?;
    }
    Names::new(names)
}

/// Returns a client that sends this, whole, and takes all at once.
fn client(sent: &str) -> Client<'_> {
    Client {
        sent,
        pulls: &[],
        pushes: &[],
    }
}

/// Returns the wires of an administrator and of tenant `a`.
fn both_wires(alloc: Global, run: &Run) -> Result<(Wire, Wire), Fault> {
    let conn = Conn::admin(alloc, two_names(alloc)?);
    let admin = Wire::open(alloc, conn, client(run[0]))?;
    Ok((admin, Wire::of_tenant(alloc, 0, client(run[2]))?))
}

/// Returns whether both read what they are owed, first the administrator.
fn are_answered(alloc: Global, run: &Run) -> Result<bool, Fault> {
    let wires = both_wires(alloc, run)?;
    let acts = [
        (false, Act::Turns(State::Closed)),
        (false, Act::Pushed(run[1])),
        (true, Act::Turns(State::Closed)),
        (true, Act::Pushed(run[3])),
    ];
    both_play(alloc, wires, &acts)
}

#[test]
fn quotas_by_name(rt: HostRuntime) -> Result<(), Fault> {
    for run in [LOWERED, UNANSWERED, APART] {
        assert!(rt; are_answered(rt.alloc(), &run)?, "{:?}", run[0]);
    }
    Ok(())
}
