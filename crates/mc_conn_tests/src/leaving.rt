//! A connection whose worker's log is closing: its next command is left to another log.
use crate::acts::Act;
use crate::lines::{Client, play};
use mc_conn::State;
use mc_model::Fault;
use mc_stream::OutputStep;
use std::alloc::Global;

/// What a client sends to a log of three places and two workers, which is closing after two
/// commands.
const SENT: &str =
    "version\r\nset a 0 0 1\r\nx\r\nbogus\r\nget a\r\nversion\r\nget a\r\nversion\r\nget a\r\n";

/// What it reads before the third command.
const REPLIES: &str =
    "VERSION 1.0.0\r\nSTORED\r\nERROR\r\nVALUE a 0 1\r\nx\r\nEND\r\nVERSION 1.0.0\r\n";

/// What it reads after them, if the third command takes the place that was kept free.
const TAKEN: &str = "VALUE a 0 1\r\nx\r\nEND\r\nVERSION 1.0.0\r\nSERVER_ERROR log full\r\n";

/// The third command is left twice, and then taken by turns that leave none.
const LEAVES_THE_THIRD: [Act<'static>; 6] = [
    Act::Until(State::Full),
    Act::Pushed(REPLIES),
    Act::Until(State::Full),
    Act::Pushed(REPLIES),
    Act::Turns(State::Closed),
    Act::PushedLast(TAKEN),
];

/// Returns whether a log of three places serves a client whose output follows these steps by these
/// acts.
fn is_left(alloc: Global, pushes: &[OutputStep], acts: &[Act]) -> Result<bool, Fault> {
    let client = Client {
        sent: SENT,
        pulls: &[],
        pushes,
    };
    play(alloc, 3, client, acts)
}

#[test]
fn a_command_is_left_to_the_next_log(rt: HostRuntime) -> Result<(), Fault> {
    let pieces = [OutputStep::Take(3), OutputStep::Take(1)];
    assert!(rt; is_left(rt.alloc(), &[], &LEAVES_THE_THIRD)?);
    assert!(rt; is_left(rt.alloc(), &pieces, &LEAVES_THE_THIRD)?);
    Ok(())
}

/// A full output is pushed to once by a turn that leaves a command.
const BESIDE_A_FULL_OUTPUT: [Act<'static>; 8] = [
    Act::Until(State::Full),
    Act::Pushed("VE"),
    Act::Until(State::Full),
    Act::Pushed(REPLIES),
    Act::Until(State::Full),
    Act::Pushed(REPLIES),
    Act::Turns(State::Closed),
    Act::PushedLast(TAKEN),
];

#[test]
fn what_the_output_takes_is_pushed_first(rt: HostRuntime) -> Result<(), Fault> {
    let pushes = [OutputStep::Take(2), OutputStep::Full, OutputStep::Full];
    assert!(rt; is_left(rt.alloc(), &pushes, &BESIDE_A_FULL_OUTPUT)?);
    Ok(())
}

/// A connection that is closed as if memory had run out says so, and stays closed.
const REPORTS_ITS_END: [Act<'static>; 5] = [
    Act::Until(State::Full),
    Act::Pushed(REPLIES),
    Act::Close(Fault::Memory),
    Act::PushedLast("SERVER_ERROR out of memory\r\n"),
    Act::Stays(State::Closed, 2),
];

#[test]
fn a_connection_is_closed_without_a_log(rt: HostRuntime) -> Result<(), Fault> {
    assert!(rt; is_left(rt.alloc(), &[], &REPORTS_ITS_END)?);
    Ok(())
}
