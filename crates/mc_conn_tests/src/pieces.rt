//! Golden streams in pieces: a client's input comes, and what it is owed goes, however both are
//! cut.
use crate::lines::{Client, reads};
use mc_model::Fault;
use mc_stream::{InputStep, OutputStep};
use std::alloc::Global;

/// What a client sends, and what it reads.
const STREAMS: [(&str, &str); 3] = [
    (
        "set a 5 0 3\r\nabc\r\nget a\r\n",
        "STORED\r\nVALUE a 5 3\r\nabc\r\nEND\r\n",
    ),
    (
        "set e 0 0 0\r\n\r\ngets e x\r\n",
        "STORED\r\nVALUE e 0 0 1\r\n\r\nEND\r\n",
    ),
    BLOCK,
];

/// Line ends inside a block don't end it.
const BLOCK: (&str, &str) = (
    "set k 0 0 7\r\n\r\nEND\r\n\r\nget k\r\n",
    "STORED\r\nVALUE k 0 7\r\n\r\nEND\r\n\r\nEND\r\n",
);

/// Returns whether a client that sends the first text reads the second, with a new log of this many
/// places and by these steps of the input and the output.
fn is_served<'a>(
    alloc: Global,
    places: u64,
    (sent, want): (&'a str, &'a str),
    pulls: &'a [InputStep],
    pushes: &'a [OutputStep],
) -> Result<bool, Fault> {
    let client = Client {
        sent,
        pulls,
        pushes,
    };
    reads(alloc, places, client, want)
}

/// Returns whether the client is served if pulls give nothing and one byte in turn, and pushes take
/// nothing and one byte in turn.
fn is_served_by_turns(alloc: Global, stream: (&str, &str)) -> Result<bool, Fault> {
    let pulls = [InputStep::Empty, InputStep::Give(1)].repeat(alloc, stream.0.len())?;
    let pushes = [OutputStep::Full, OutputStep::Take(1)].repeat(alloc, stream.1.len())?;
    is_served(alloc, 64, stream, &pulls, &pushes)
}

#[test]
fn empty_and_full_in_turn(rt: HostRuntime) -> Result<(), Fault> {
    for stream in &STREAMS {
        assert!(rt; is_served_by_turns(rt.alloc(), *stream)?, "{}", stream.0);
    }
    Ok(())
}

/// Returns whether the client of `BLOCK` is served if the first pull gives this many bytes, and the
/// second the others.
fn is_served_in_two(alloc: Global, count: usize) -> Result<bool, Fault> {
    is_served(alloc, 64, BLOCK, &[InputStep::Give(count)], &[])
}

#[test]
fn block_cut_anywhere(rt: HostRuntime) -> Result<(), Fault> {
    for count in 1..BLOCK.0.len() {
        assert!(rt; is_served_in_two(rt.alloc(), count)?, "{count}");
    }
    Ok(())
}

/// The third command finds the log full, and the replies that need no log are given as before.
#[test]
fn log_full_on_the_wire(rt: HostRuntime) -> Result<(), Fault> {
    let stream = (
        "set a 0 0 1\r\nx\r\nset b 0 0 1\r\ny\r\nget a\r\nversion\r\n",
        "STORED\r\nSTORED\r\nSERVER_ERROR log full\r\nVERSION 1.0.0\r\n",
    );
    assert!(rt; is_served(rt.alloc(), 2, stream, &[], &[])?);
    Ok(())
}
