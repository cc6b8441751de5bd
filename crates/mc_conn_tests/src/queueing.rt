//! Back-pressure from a client that takes nothing at first: replies are queued up to a bound, and
//! further requests wait. A client that takes long replies in small pieces. And one that sends more
//! requests at once than a turn takes.
use crate::acts::Act;
use crate::lines::{Client, play, reads};
use mc_conn::State;
use mc_model::Fault;
use mc_stream::{InputStep, OutputStep};
use std::alloc::{AllocError, Global};

/// How many bytes the item has, and how many a pull gives at most.
const ITEM: usize = 1_048_576;

const PULL: usize = 16_384;

/// As many pulls as the item has, and then the bytes of the lines around it.
const PULLS: usize = 64;

const LINES: usize = 21;

/// How many bytes are owed: for the set 8, and for each get 1,048,602.
const OWED: usize = 3_145_814;

/// A set of the item, for which `@` stands, and three gets of it.
const SENT: &str = "set b 0 0 1048576\r\n@\r\nget b\r\nget b\r\nget b\r\n";

/// No later turn can do anything once the set and one get are taken; and all is taken and sent once
/// the output takes it.
const WAITS: [Act<'static>; 7] = [
    Act::Turns(State::Idle),
    Act::Stays(State::Idle, 100),
    Act::Replayed(2),
    Act::PushedBytes(0),
    Act::Turns(State::Closed),
    Act::Replayed(4),
    Act::PushedBytes(OWED),
];

/// Returns many pulls for the set, and a last one for the gets.
fn pulls(alloc: Global) -> Result<Vec<InputStep>, AllocError> {
    let mut steps = vec![in alloc; InputStep::Give(PULL); PULLS]?;
    steps.push(InputStep::Give(LINES))?;
    Ok(steps)
}

/// Returns the text with this word, again and again, in the place of each `@`.
pub(crate) fn filled(
    alloc: Global,
    text: &str,
    word: &str,
    times: usize,
) -> Result<String, AllocError> {
    let words = word.repeat(alloc, times)?;
    text.replace(alloc, '@', &words)
}

/// Returns whether a client that sends this waits after two replies, and goes on once its output
/// takes them.
fn waits(alloc: Global, sent: &str) -> Result<bool, Fault> {
    let pulls = pulls(alloc)?;
    // More pushes than the turns make before the worker has replayed two entries.
    let pushes = [OutputStep::Full; 1_000];
    let client = Client {
        sent,
        pulls: &pulls,
        pushes: &pushes,
    };
    play(alloc, 64, client, &WAITS)
}

/// Returns whether that is so with an item that is longer than what may be queued.
fn long_items_wait(alloc: Global) -> Result<bool, Fault> {
    let sent = filled(alloc, SENT, "x", ITEM)?;
    waits(alloc, &sent)
}

#[test]
fn queue_above_its_bound(rt: HostRuntime) -> Result<(), Fault> {
    assert!(rt; long_items_wait(rt.alloc())?);
    Ok(())
}

/// What an item begins with again and again, so that a byte at a wrong place is seen.
const TEXT: &str = "0123456789 abcdefghijklmnopqrst";

/// How often that stands in an item, for which `@0` stands below.
const TIMES: usize = 33_825;

/// Requests that set the item, and get it once, five times by one line, and once more.
const LONG_REQUESTS: &str = "set b 0 0 1048576\r\n@0\r\nget b\r\nget b b b b b\r\nget b\r\n";

/// What is owed for these requests.
const LONG_REPLIES: &str = "STORED\r\n\
    VALUE b 0 1048576\r\n@0\r\nEND\r\n\
    VALUE b 0 1048576\r\n@0\r\nVALUE b 0 1048576\r\n@0\r\nVALUE b 0 1048576\r\n@0\r\n\
    VALUE b 0 1048576\r\n@0\r\nVALUE b 0 1048576\r\n@0\r\nEND\r\n\
    VALUE b 0 1048576\r\n@0\r\nEND\r\n";

/// Returns whether a client that sends this and takes the replies in small pieces reads that.
fn reads_in_pieces(alloc: Global, sent: &str, want: &str) -> Result<bool, Fault> {
    // Pushes that take a piece and nothing in turn, more than the replies need.
    let pushes = [OutputStep::Take(50_000), OutputStep::Full].repeat(alloc, 200)?;
    let client = Client {
        sent,
        pulls: &[],
        pushes: &pushes,
    };
    reads(alloc, 64, client, want)
}

/// Returns whether a client reads long replies in small pieces.
fn reads_long_replies(alloc: Global) -> Result<bool, Fault> {
    let sent = filled(alloc, LONG_REQUESTS, TEXT, TIMES)?;
    let want = filled(alloc, LONG_REPLIES, TEXT, TIMES)?;
    reads_in_pieces(alloc, &sent, &want)
}

#[test]
fn long_replies_in_small_pieces(rt: HostRuntime) -> Result<(), Fault> {
    assert!(rt; reads_long_replies(rt.alloc())?);
    Ok(())
}

/// Lines of one byte, each of which is refused, and the end of the stream: more requests at once
/// than a turn takes.
const SHORT_LINES: &str = "@quit\r\nversion\r\n";

/// Two turns take as many as a turn may, and the third takes the others up to the end; what comes
/// behind it is never answered.
const SHORT_TURNS: [Act<'static>; 9] = [
    Act::Stays(State::Busy, 1),
    Act::Answered(64),
    Act::PushedBytes(64 * 7),
    Act::Stays(State::Busy, 1),
    Act::Answered(128),
    Act::PushedBytes(128 * 7),
    Act::Stays(State::Closed, 1),
    Act::Answered(130),
    Act::PushedBytes(130 * 7),
];

/// Returns whether a turn takes no more of these requests than it may, though all have come.
fn short_lines_wait(alloc: Global) -> Result<bool, Fault> {
    let sent = filled(alloc, SHORT_LINES, "\n", 130)?;
    let client = Client {
        sent: &sent,
        pulls: &[],
        pushes: &[],
    };
    play(alloc, 64, client, &SHORT_TURNS)
}

#[test]
fn many_requests_at_once_take_several_turns(rt: HostRuntime) -> Result<(), Fault> {
    assert!(rt; short_lines_wait(rt.alloc())?);
    Ok(())
}
