//! Hostile streams through the serving loop: a stream with any byte replaced, one that ends
//! anywhere, and inputs and outputs that fail anywhere; over one log, and over short logs that
//! follow one another, so that each of this also falls before, at and after a turn over.
use mc_model::{Fault, Limits};
use mc_programs::{
    Hashing, InputStep, MemoryInput, MemoryOutput, OutputStep, TurnOverAlone, serve_client,
};
use std::alloc::{AllocError, Global};
use std::sync::Wait;

/// What a client sends, and what it reads.
const SENT: &str = "set a 0 0 1\r\nx\r\ncas a 0 0 1 1\r\ny\r\ncas a 0 0 1 1\r\nz\r\n\
    cas b 0 0 1 1\r\nw\r\ngets a\r\n";

const READ: &str = "STORED\r\nSTORED\r\nEXISTS\r\nNOT_FOUND\r\nVALUE a 0 1 2\r\ny\r\nEND\r\n";

/// What each byte of the stream is replaced by.
const BYTES: [u8; 7] = [0, 10, 13, 32, 45, 48, 255];

const LIMITS: Limits = Limits {
    items: 100,
    bytes: 100_000,
};

/// Which logs serve the client. Those of one or two places are as many as it needs.
#[derive(Clone, Copy)]
enum Logs {
    One,
    OfTwoPlaces,
    OfOnePlace,
}

const ALL_LOGS: [Logs; 3] = [Logs::One, Logs::OfTwoPlaces, Logs::OfOnePlace];

/// What was pushed to a client, and how serving it ended.
#[derive(Drop)]
struct Run {
    result: Result<(), Fault>,
    output: MemoryOutput,
}

fn input_of(alloc: Global, sent: &[u8], pulls: &[InputStep]) -> Result<MemoryInput, AllocError> {
    let bytes = Vec::from_slice(alloc, sent)?;
    Ok(MemoryInput::new(bytes, Vec::from_slice(alloc, pulls)?))
}

fn output_of(alloc: Global, pushes: &[OutputStep]) -> Result<MemoryOutput, AllocError> {
    let pushes = Vec::from_slice(alloc, pushes)?;
    Ok(MemoryOutput::new(alloc, pushes))
}

/// Serves the client of these streams.
fn serve(
    rt: &(impl Wait + AllocGlobal),
    logs: Logs,
    input: &mut MemoryInput,
    output: &mut MemoryOutput,
) -> Result<(), Fault> {
    let (over, hashing, alloc) = (&TurnOverAlone, Hashing::Fixed, rt.alloc());
    match logs {
        Logs::One => serve_client(rt, alloc, hashing, over, LIMITS, 16, 1, input, output),
        Logs::OfTwoPlaces => serve_client(rt, alloc, hashing, over, LIMITS, 2, 16, input, output),
        Logs::OfOnePlace => serve_client(rt, alloc, hashing, over, LIMITS, 1, 16, input, output),
    }
}

/// Serves a client that sends these bytes, by these steps.
fn served(
    rt: &(impl Wait + AllocGlobal),
    logs: Logs,
    sent: &[u8],
    pulls: &[InputStep],
    pushes: &[OutputStep],
) -> Result<Run, AllocError> {
    let mut input = input_of(rt.alloc(), sent, pulls)?;
    let mut output = output_of(rt.alloc(), pushes)?;
    let result = serve(rt, logs, &mut input, &mut output);
    Ok(Run { result, output })
}

/// Returns whether the client is served by these pulls without a fault, and reads this.
fn reads(
    rt: &(impl Wait + AllocGlobal),
    logs: Logs,
    sent: &[u8],
    pulls: &[InputStep],
    want: &[u8],
) -> Result<bool, AllocError> {
    let run = served(rt, logs, sent, pulls, &[])?;
    Ok(run.result == Ok(()) && run.output.as_bytes() == want)
}

/// Returns whether the client reads this in pulls of 7 bytes and of one, and from short logs.
fn reads_however_cut(
    rt: &(impl Wait + AllocGlobal),
    sent: &[u8],
    want: &[u8],
) -> Result<bool, AllocError> {
    let sevens = vec![in rt.alloc(); InputStep::Give(7); SENT.len()]?;
    let singles = vec![in rt.alloc(); InputStep::Give(1); SENT.len()]?;
    Ok(
        reads(rt, Logs::One, sent, &sevens, want)?
            && reads(rt, Logs::One, sent, &singles, want)?
            && reads(rt, Logs::OfTwoPlaces, sent, &sevens, want)?
            && reads(rt, Logs::OfOnePlace, sent, &[], want)?,
    )
}

/// Returns whether the client reads the same however its stream is cut and whichever logs serve it.
fn reads_the_same(rt: &(impl Wait + AllocGlobal), sent: &[u8]) -> Result<bool, AllocError> {
    let whole = served(rt, Logs::One, sent, &[], &[])?;
    Ok(whole.result == Ok(()) && reads_however_cut(rt, sent, whole.output.as_bytes())?)
}

/// Returns the stream with this byte in the place of the one at the index.
fn replaced(alloc: Global, index: usize, byte: u8) -> Result<Vec<u8>, AllocError> {
    let mut sent = Vec::from_slice(alloc, SENT.as_bytes())?;
    if let Some(old) = sent.get_mut(index) {
        *old = byte;
    }
    Ok(sent)
}

/// Returns whether the client reads the same with each of the bytes at the index.
fn reads_replaced(rt: &(impl Wait + AllocGlobal), index: usize) -> Result<bool, AllocError> {
    for byte in BYTES {
        let sent = replaced(rt.alloc(), index, byte)?;
        if !reads_the_same(rt, &sent)? {
            return Ok(false);
        }
    }
    Ok(true)
}

#[test]
fn each_byte_of_the_first_half_replaced(rt: HostRuntime) -> Result<(), AllocError> {
    assert!(rt; reads_however_cut(&rt, SENT.as_bytes(), READ.as_bytes())?);
    for index in 0..SENT.len() / 2 {
        assert!(rt; reads_replaced(&rt, index)?, "{index}");
    }
    Ok(())
}

#[test]
fn each_byte_of_the_second_half_replaced(rt: HostRuntime) -> Result<(), AllocError> {
    for index in SENT.len() / 2..SENT.len() {
        assert!(rt; reads_replaced(&rt, index)?, "{index}");
    }
    Ok(())
}

#[test]
fn an_input_that_ends_after_any_byte(rt: HostRuntime) -> Result<(), AllocError> {
    for end in 0..=SENT.len() {
        assert!(rt; reads_the_same(&rt, &SENT.as_bytes()[..end])?, "{end}");
    }
    Ok(())
}

/// Returns whether a pull that fails after `good` single bytes ends each service, with a front of
/// what is owed.
fn ends_at_pull(rt: &(impl Wait + AllocGlobal), good: usize) -> Result<bool, AllocError> {
    let mut pulls = vec![in rt.alloc(); InputStep::Give(1); good]?;
    pulls.push(InputStep::Fail)?;
    for logs in ALL_LOGS {
        let run = served(rt, logs, SENT.as_bytes(), &pulls, &[])?;
        let is_front = READ.as_bytes().starts_with(run.output.as_bytes());
        if run.result != Err(Fault::Input) || !is_front {
            return Ok(false);
        }
    }
    Ok(true)
}

/// Returns whether a push that fails after `good` single bytes ends each service, with as many
/// bytes of what is owed.
fn ends_at_push(rt: &(impl Wait + AllocGlobal), good: usize) -> Result<bool, AllocError> {
    let mut pushes = vec![in rt.alloc(); OutputStep::Take(1); good]?;
    pushes.push(OutputStep::Fail)?;
    for logs in ALL_LOGS {
        let run = served(rt, logs, SENT.as_bytes(), &[], &pushes)?;
        let is_front = READ.as_bytes().starts_with(run.output.as_bytes());
        if run.result != Err(Fault::Output) || !is_front || run.output.as_bytes().len() != good {
            return Ok(false);
        }
    }
    Ok(true)
}

#[test]
fn each_pull_and_each_push_fails(rt: HostRuntime) -> Result<(), AllocError> {
    for good in 0..=SENT.len() {
        assert!(rt; ends_at_pull(&rt, good)?, "pull {good}");
    }
    for good in 0..READ.len() {
        assert!(rt; ends_at_push(&rt, good)?, "push {good}");
    }
    Ok(())
}
