//! An administrator over sockets next to a tenant, whose quotas it sets.
use crate::clients::Act;
use crate::visits::{QUOTAS, Visit, check};
use std::test::Fail;

/// The administrator connects first, at the last listener, and lowers the quotas between two sets
/// of a client. Another client, served by the other worker, finds them lowered too.
const LOWERED: [Act<'static>; 12] = [
    Act::Connect(1),
    Act::Connect(0),
    Act::Send(1, b"set a 0 0 1\r\nx\r\n"),
    Act::Read(1, b"STORED\r\n"),
    Act::Send(0, b"limit a 1 100\r\nlimit x 1 1\r\nget a\r\nquit\r\n"),
    Act::Finish(
        0,
        b"OK\r\nCLIENT_ERROR bad command line format\r\nERROR\r\n",
    ),
    Act::Send(1, b"set b 0 0 1\r\ny\r\nget a\r\nlimit a 5 5\r\n"),
    Act::Read(
        1,
        b"SERVER_ERROR out of memory storing object\r\nVALUE a 0 1\r\nx\r\nEND\r\nERROR\r\n",
    ),
    Act::Connect(0),
    Act::Send(2, b"set c 0 0 1\r\nz\r\nquit\r\n"),
    Act::Finish(2, b"SERVER_ERROR out of memory storing object\r\n"),
    Act::Leave(1),
];

#[test]
fn an_administrator_lowers_a_tenants_quotas(rt: HostRuntime) -> Result<(), Fail> {
    let visit = Visit {
        quotas: &[QUOTAS],
        listeners: &[0],
        workers: 2,
        acts: &LOWERED,
    };
    // Two sets, a limit, a get and a set: what the tenant asked of the administrator isn't logged.
    check(&rt, visit, false, &[5])
}
