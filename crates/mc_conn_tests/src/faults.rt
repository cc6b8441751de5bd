//! A pull or a push that fails closes the connection for good.
use crate::acts::Act;
use crate::lines::{Client, play};
use mc_model::Fault;
use mc_stream::{InputStep, OutputStep, Pull, Push};
use std::alloc::{AllocError, Global};

/// What a client sends, and what it reads.
const STREAM: (&str, &str) = (
    "set a 5 0 3\r\nabc\r\nget a\r\n",
    "STORED\r\nVALUE a 5 3\r\nabc\r\nEND\r\n",
);

/// How many turns follow the fault.
const LATER: u32 = 3;

/// Returns steps that pull `good` single bytes, and then a failure and an empty pull.
fn failing_pulls(alloc: Global, good: usize) -> Result<Vec<InputStep>, AllocError> {
    let mut steps = vec![in alloc; InputStep::Give(1); good]?;
    steps.extend_from_slice(&[InputStep::Fail, InputStep::Empty])?;
    Ok(steps)
}

/// Returns steps that push `good` single bytes, and then a failure and a full push.
fn failing_pushes(alloc: Global, good: usize) -> Result<Vec<OutputStep>, AllocError> {
    let mut steps = vec![in alloc; OutputStep::Take(1); good]?;
    steps.extend_from_slice(&[OutputStep::Fail, OutputStep::Full])?;
    Ok(steps)
}

/// Returns whether this fault closes the line that sends the stream by these steps for good, what
/// was pushed before it is the front of what is owed, and the steps after the fault are `next`.
fn closes<'a>(
    alloc: Global,
    pulls: &'a [InputStep],
    pushes: &'a [OutputStep],
    fault: Fault,
    next: (Pull, Push),
) -> Result<bool, Fault> {
    let client = Client {
        sent: STREAM.0,
        pulls,
        pushes,
    };
    let acts = [
        Act::Breaks(fault),
        Act::Rests(LATER),
        Act::PushedOf(STREAM.1),
        Act::Next(next.0, next.1),
    ];
    play(alloc, 64, client, &acts)
}

/// Returns whether a pull that fails after `good` bytes closes the connection for good.
fn closes_at_pull(alloc: Global, good: usize) -> Result<bool, Fault> {
    let pulls = failing_pulls(alloc, good)?;
    let next = (Pull::Empty, Push::Taken(1));
    closes(alloc, &pulls, &[], Fault::Input, next)
}

/// Returns whether a push that fails after `good` bytes closes the connection for good. The whole
/// stream is pulled before it, and a second pull would fail.
fn closes_at_push(alloc: Global, good: usize) -> Result<bool, Fault> {
    let pulls = [InputStep::Give(100), InputStep::Fail];
    let pushes = failing_pushes(alloc, good)?;
    let next = (Pull::Failed, Push::Full);
    closes(alloc, &pulls, &pushes, Fault::Output, next)
}

#[test]
fn a_fault_closes_for_good(rt: HostRuntime) -> Result<(), Fault> {
    for good in 0..=STREAM.0.len() {
        assert!(rt; closes_at_pull(rt.alloc(), good)?, "pull {good}");
    }
    for good in 0..STREAM.1.len() {
        assert!(rt; closes_at_push(rt.alloc(), good)?, "push {good}");
    }
    Ok(())
}
