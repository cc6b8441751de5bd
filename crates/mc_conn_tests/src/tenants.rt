//! Two connections of two tenants over two workers of one log.
use crate::acts::Act;
use crate::lines::{Client, Wire};
use crate::pairs::both_play;
use mc_conn::State;
use mc_model::Fault;
use mc_stream::InputStep;
use std::alloc::Global;

/// What the first tenant's client sends, a request a pull.
const FIRST: Client<'static> = Client {
    sent: "set a 1 0 1\r\nx\r\nappend a 0 0 1\r\ny\r\ngets a\r\n",
    pulls: &[InputStep::Give(16), InputStep::Give(19), InputStep::Give(8)],
    pushes: &[],
};

/// What the second tenant's client sends.
const SECOND: Client<'static> = Client {
    sent: "set a 2 0 1\r\n5\r\nincr a 3\r\ngets a\r\n",
    pulls: &[InputStep::Give(16), InputStep::Give(10), InputStep::Give(8)],
    pushes: &[],
};

/// What each reads, whatever the other does.
const REPLIES: [&str; 2] = [
    "STORED\r\nSTORED\r\nVALUE a 1 2 2\r\nxy\r\nEND\r\n",
    "STORED\r\n8\r\nVALUE a 2 1 2\r\n8\r\nEND\r\n",
];

/// A turn that does something.
const BUSY: Act<'static> = Act::Stays(State::Busy, 1);

/// Each order of three turns of the one and three of the other: whether a turn is the second
/// tenant's.
const ORDERS: [[bool; 6]; 20] = [
    [false, false, false, true, true, true],
    [false, false, true, false, true, true],
    [false, false, true, true, false, true],
    [false, false, true, true, true, false],
    [false, true, false, false, true, true],
    [false, true, false, true, false, true],
    [false, true, false, true, true, false],
    [false, true, true, false, false, true],
    [false, true, true, false, true, false],
    [false, true, true, true, false, false],
    [true, false, false, false, true, true],
    [true, false, false, true, false, true],
    [true, false, false, true, true, false],
    [true, false, true, false, false, true],
    [true, false, true, false, true, false],
    [true, false, true, true, false, false],
    [true, true, false, false, false, true],
    [true, true, false, false, true, false],
    [true, true, false, true, false, false],
    [true, true, true, false, false, false],
];

/// Returns the wires of both tenants.
fn both_wires(alloc: Global) -> Result<(Wire, Wire), Fault> {
    let first = Wire::of_tenant(alloc, 0, FIRST)?;
    Ok((first, Wire::of_tenant(alloc, 1, SECOND)?))
}

/// Returns whether each turn, in this order, does something, each tenant is served as if it were
/// alone, and the worker of the last turn has replayed all six entries.
fn are_apart(alloc: Global, order: &[bool; 6]) -> Result<bool, Fault> {
    let wires = both_wires(alloc)?;
    let acts = [
        (order[0], BUSY),
        (order[1], BUSY),
        (order[2], BUSY),
        (order[3], BUSY),
        (order[4], BUSY),
        (order[5], BUSY),
        (false, Act::Pushed(REPLIES[0])),
        (true, Act::Pushed(REPLIES[1])),
        (order[5], Act::Replayed(6)),
    ];
    both_play(alloc, wires, &acts)
}

#[test]
fn two_tenants_two_workers(rt: HostRuntime) -> Result<(), Fault> {
    for order in ORDERS {
        assert!(rt; are_apart(rt.alloc(), &order)?, "{order:?}");
    }
    Ok(())
}
