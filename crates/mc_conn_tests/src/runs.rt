//! Long blocks in a reply, which the queue doesn't copy: however the output takes them, and when
//! memory runs out while they are queued.
use crate::acts::Act;
use crate::lines::{Client, play, reads};
use crate::queueing::filled;
use mc_conn::State;
use mc_model::Fault;
use mc_stream::OutputStep;
use std::alloc::{AllocError, Global};

/// What a block of 40,000 bytes has again and again, so that a byte at a wrong place is seen.
const WORD: &str = "0123456789";

/// How often it has it. The block stands for each `@` below.
const TIMES: usize = 4_000;

/// A long block and a short one, which are then asked for in turn.
const REQUESTS: &str =
    "set b 1 0 40000\r\n@\r\nset s 0 0 3\r\nabc\r\nget b s b\r\ngets b\r\nget s\r\n";

/// What is owed for these requests.
const REPLIES: &str = "STORED\r\nSTORED\r\n\
    VALUE b 1 40000\r\n@\r\nVALUE s 0 3\r\nabc\r\nVALUE b 1 40000\r\n@\r\nEND\r\n\
    VALUE b 1 40000 1\r\n@\r\nEND\r\nVALUE s 0 3\r\nabc\r\nEND\r\n";

/// Steps that an output takes again and again, and how often: enough for these replies.
const PIECES: [(&[OutputStep], usize); 5] = [
    (&[OutputStep::Take(1)], 121_000),
    (&[OutputStep::Take(7_919), OutputStep::Full], 100),
    (&[OutputStep::Take(39_999), OutputStep::Take(2)], 100),
    (&[OutputStep::Take(40_000), OutputStep::Full], 100),
    (&[OutputStep::Take(1_000_000)], 100),
];

/// Returns whether a client reads the replies if its output takes these steps this often.
fn reads_by(alloc: Global, (steps, times): (&[OutputStep], usize)) -> Result<bool, Fault> {
    let sent = filled(alloc, REQUESTS, WORD, TIMES)?;
    let want = filled(alloc, REPLIES, WORD, TIMES)?;
    let pushes = steps.repeat(alloc, times)?;
    let client = Client {
        sent: &sent,
        pulls: &[],
        pushes: &pushes,
    };
    reads(alloc, 64, client, &want)
}

#[test]
fn long_blocks_however_they_are_taken(rt: HostRuntime) -> Result<(), Fault> {
    for (row, piece) in PIECES.iter().enumerate() {
        assert!(rt; reads_by(rt.alloc(), *piece)?, "{row}");
    }
    Ok(())
}

/// What is owed for the long block's set and a get of it, and then what reports that memory ran
/// out.
const STARVED: &str = "STORED\r\nVALUE b 1 40000\r\n@\r\nEND\r\nSERVER_ERROR out of memory\r\n";

/// What an output takes as memory runs out, and how many bytes that are: all; a part of the line;
/// that and a part of the block; all but the report; and a part of that.
const TAKEN: [(&[OutputStep], usize); 5] = [
    (&[OutputStep::Full], 40_060),
    (
        &[OutputStep::Full, OutputStep::Take(9), OutputStep::Full],
        9,
    ),
    (
        &[
            OutputStep::Full,
            OutputStep::Take(100),
            OutputStep::Take(20_000),
            OutputStep::Full,
        ],
        20_025,
    ),
    (
        &[
            OutputStep::Full,
            OutputStep::Take(25),
            OutputStep::Take(40_000),
            OutputStep::Take(7),
            OutputStep::Full,
        ],
        40_032,
    ),
    (
        &[
            OutputStep::Full,
            OutputStep::Take(25),
            OutputStep::Take(40_000),
            OutputStep::Take(7),
            OutputStep::Take(10),
            OutputStep::Full,
        ],
        40_042,
    ),
];

/// Returns whether a client reads this many bytes if memory runs out while the long block is
/// queued. Three pulls bring the requests; the first push, after them, takes nothing.
fn is_starved(alloc: Global, (pushes, count): (&[OutputStep], usize)) -> Result<bool, Fault> {
    let sent = filled(alloc, "set b 1 0 40000\r\n@\r\nget b\r\n", WORD, TIMES)?;
    let want = filled(alloc, STARVED, WORD, TIMES)?;
    let client = Client {
        sent: &sent,
        pulls: &[],
        pushes,
    };
    let acts = [
        Act::Turns(State::Busy),
        Act::Turns(State::Busy),
        Act::Turns(State::Busy),
        Act::PushedBytes(0),
        Act::Close(Fault::Memory),
        Act::PushedBytes(count),
        Act::PushedOf(&want),
    ];
    play(alloc, 64, client, &acts)
}

#[test]
fn memory_runs_out_behind_a_long_block(rt: HostRuntime) -> Result<(), Fault> {
    for (row, taken) in TAKEN.iter().enumerate() {
        assert!(rt; is_starved(rt.alloc(), *taken)?, "{row}");
    }
    Ok(())
}

/// How often the item of 1,000 bytes is asked for by one line: more than the queue's bound.
const ASKED: usize = 1_200;

/// Returns this, then that so often, and then what ends both.
fn repeated(
    alloc: Global,
    first: &str,
    again: &str,
    times: usize,
    last: &str,
) -> Result<String, AllocError> {
    let mut text = String::from_str(alloc, first)?;
    text.push_str(&again.repeat(alloc, times)?)?;
    text.push_str(last)?;
    Ok(text)
}

/// Returns whether a client reads a reply that is longer than the queue's bound, of short blocks.
fn reads_short_blocks(alloc: Global) -> Result<bool, Fault> {
    let set = filled(alloc, "set m 0 0 1000\r\n@\r\nget", WORD, 100)?;
    let sent = repeated(alloc, &set, " m", ASKED, "\r\n")?;
    let value = filled(alloc, "VALUE m 0 1000\r\n@\r\n", WORD, 100)?;
    let want = repeated(alloc, "STORED\r\n", &value, ASKED, "END\r\n")?;
    let pushes = [OutputStep::Take(50_000), OutputStep::Full].repeat(alloc, 1_000)?;
    let client = Client {
        sent: &sent,
        pulls: &[],
        pushes: &pushes,
    };
    reads(alloc, 64, client, &want)
}

#[test]
fn short_blocks_above_the_bound(rt: HostRuntime) -> Result<(), Fault> {
    assert!(rt; reads_short_blocks(rt.alloc())?);
    Ok(())
}
