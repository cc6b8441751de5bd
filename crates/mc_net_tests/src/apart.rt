//! Isolation of tenants over sockets: each has its own table, and a client belongs to the tenant at
//! whose listener it connected.
use crate::clients::Act;
use crate::visits::{Visit, check};
use mc_model::Limits;
use std::test::Fail;

/// Each of two tenants' clients sets the same key.
const SAME_KEY: [Act<'static>; 6] = [
    Act::Connect(0),
    Act::Send(0, b"set a 0 0 1\r\nx\r\ngets a\r\nquit\r\n"),
    Act::Connect(1),
    Act::Send(1, b"gets a\r\nset a 0 0 1\r\ny\r\ngets a\r\nquit\r\n"),
    Act::Finish(0, b"STORED\r\nVALUE a 0 1 1\r\nx\r\nEND\r\n"),
    Act::Finish(1, b"END\r\nSTORED\r\nVALUE a 0 1 1\r\ny\r\nEND\r\n"),
];

/// At each of three listeners one client sets three keys, and another, served by another worker,
/// reads the first. All have connected before any has sent a block, and the quotas show by what is
/// stored whose client each is.
const CROSSED: [Act<'static>; 21] = [
    Act::Connect(0),
    Act::Connect(1),
    Act::Connect(2),
    Act::Connect(0),
    Act::Connect(1),
    Act::Connect(2),
    Act::Send(0, b"set a 0 0 1\r\n"),
    Act::Send(1, b"set a 0 0 1\r\n"),
    Act::Send(2, b"set a 0 0 1\r\n"),
    Act::Send(0, b"x\r\nset b 0 0 0\r\n\r\nset c 0 0 0\r\n\r\nquit\r\n"),
    Act::Send(1, b"y\r\nset b 0 0 0\r\n\r\nset c 0 0 0\r\n\r\nquit\r\n"),
    Act::Send(2, b"z\r\nset b 0 0 0\r\n\r\nset c 0 0 0\r\n\r\nquit\r\n"),
    Act::Finish(0, b"STORED\r\nSTORED\r\nSTORED\r\n"),
    Act::Finish(
        1,
        b"STORED\r\nSERVER_ERROR out of memory storing object\r\nSERVER_ERROR out of memory storing object\r\n",
    ),
    Act::Finish(
        2,
        b"STORED\r\nSTORED\r\nSERVER_ERROR out of memory storing object\r\n",
    ),
    Act::Send(3, b"get a\r\nquit\r\n"),
    Act::Send(4, b"get a\r\nquit\r\n"),
    Act::Send(5, b"get a\r\nquit\r\n"),
    Act::Finish(3, b"VALUE a 0 1\r\nx\r\nEND\r\n"),
    Act::Finish(4, b"VALUE a 0 1\r\ny\r\nEND\r\n"),
    Act::Finish(5, b"VALUE a 0 1\r\nz\r\nEND\r\n"),
];

/// Returns quotas of this many items.
fn items(items: u64) -> Limits {
    Limits { items, bytes: 100 }
}

#[test]
fn two_tenants_two_connections(rt: HostRuntime) -> Result<(), Fail> {
    let visit = Visit {
        quotas: &[items(4), items(4)],
        listeners: &[0, 1],
        workers: 2,
        acts: &SAME_KEY,
    };
    check(&rt, visit, false, &[2, 3])
}

#[test]
fn clients_are_their_listeners_tenants(rt: HostRuntime) -> Result<(), Fail> {
    let visit = Visit {
        quotas: &[items(1), items(2), items(3)],
        listeners: &[2, 0, 1],
        workers: 2,
        acts: &CROSSED,
    };
    check(&rt, visit, false, &[4, 4, 4])
}
