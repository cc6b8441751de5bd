//! How a connection's requests are counted, however they come.
use crate::acts::Act;
use crate::lines::{Client, play};
use mc_conn::State;
use mc_counters::CommandKind;
use mc_model::{Fault, WireNo};
use mc_stream::InputStep;

/// Two commands that are answered, two that say noreply, a retrieval of three keys of which two
/// have items, lines that are refused, one of them quietly, and the end.
const SENT: &str = "set a 0 0 1\r\n1\r\nset b 0 0 1 noreply\r\n2\r\nget a x b\r\n\
    delete x noreply\r\nnothing\r\nset a 0 9 1 noreply\r\n3\r\ngets y\r\nversion\r\nquit\r\n\
    get a\r\n";

/// What is counted of these requests.
const COUNTED: [Act; 10] = [
    Act::Turns(State::Closed),
    Act::Answered(8),
    Act::Found(2, 2),
    Act::Commands(CommandKind::Set, 2),
    Act::Commands(CommandKind::Get, 1),
    Act::Commands(CommandKind::Gets, 1),
    Act::Commands(CommandKind::Delete, 1),
    Act::Refused(WireNo::UNKNOWN_COMMAND, 1),
    Act::Refused(WireNo::E4, 1),
    Act::Refused(WireNo::BAD_FORMAT, 0),
];

/// What is counted in a log of one place: the command that found it full was refused.
const FULL: [Act; 5] = [
    Act::Turns(State::Closed),
    Act::Answered(8),
    Act::Commands(CommandKind::Set, 2),
    Act::Commands(CommandKind::Get, 1),
    Act::Refused(WireNo::LOG_FULL, 4),
];

/// Pieces in which the requests come.
const PIECES: [&[InputStep]; 3] = [
    &[],
    &[InputStep::Give(1), InputStep::Give(20), InputStep::Empty],
    &[InputStep::Give(13), InputStep::Empty, InputStep::Give(30)],
];

#[test]
fn each_request_is_counted_once(rt: HostRuntime) -> Result<(), Fault> {
    for (row, pulls) in PIECES.iter().enumerate() {
        let client = Client {
            sent: SENT,
            pulls: *pulls,
            pushes: &[],
        };
        assert!(rt; play(rt.alloc(), 64, client, &COUNTED)?, "{row}");
        assert!(rt; play(rt.alloc(), 1, client, &FULL)?, "{row} at a full log");
    }
    Ok(())
}
