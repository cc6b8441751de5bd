//! Whole runs of programs: their command line, what comes in, and what goes out.
use crate::runs::demand;
use mc_programs::{
    Hashing, InputStep, MemoryInput, MemoryOutput, OutputStep, TurnOverAlone, run_schedule,
    run_stdin,
};
use shared_tests::runs::{Wanted, input_of, output_of, words_of};
use std::alloc::{AllocError, Global};
use std::process::Abort;
use std::sync::Wait;

/// Which program runs.
#[derive(Clone, Copy)]
pub enum Program {
    Stdin,
    Schedule,
}

/// The steps of a run's streams.
#[derive(Clone, Copy)]
pub struct Steps<'a> {
    pub pulls: &'a [InputStep],
    pub pushes: &'a [OutputStep],
    pub tells: &'a [OutputStep],
}

pub const NO_STEPS: Steps<'static> = Steps {
    pulls: &[],
    pushes: &[],
    tells: &[],
};

/// A run's streams.
#[derive(Drop)]
struct Streams {
    input: MemoryInput,
    output: MemoryOutput,
    errors: MemoryOutput,
}

fn streams_of(alloc: Global, sent: &[u8], steps: Steps) -> Result<Streams, AllocError> {
    Ok(Streams {
        input: input_of(alloc, sent, steps.pulls)?,
        output: output_of(alloc, steps.pushes)?,
        errors: output_of(alloc, steps.tells)?,
    })
}

fn run<R: Wait>(
    rt: &R,
    alloc: Global,
    program: Program,
    words: Vec<String>,
    streams: &mut Streams,
) -> u8 {
    let Streams {
        input,
        output,
        errors,
    } = streams;
    match program {
        Program::Stdin => run_stdin(
            rt,
            alloc,
            Hashing::Fixed,
            &TurnOverAlone,
            words,
            input,
            output,
            errors,
        ),
        Program::Schedule => run_schedule(rt, alloc, words, input, output, errors),
    }
}

/// Returns whether the run left what it must.
fn has_left(wanted: Wanted, status: u8, streams: &Streams) -> bool {
    status == wanted.status
        && streams.output.as_bytes() == wanted.output
        && streams.errors.as_bytes() == wanted.errors
}

/// Runs the program with these words.
fn run_given<R: Wait + AllocGlobal>(
    rt: &R,
    program: Program,
    given: &str,
    streams: &mut Streams,
) -> Result<u8, AllocError> {
    let words = words_of(rt.alloc(), given)?;
    Ok(run(rt, rt.alloc(), program, words, streams))
}

/// Asserts that a run of the program with these words and steps leaves what it must.
pub fn check_run(
    rt: &(impl AllocGlobal + Wait + Abort),
    program: Program,
    given: &str,
    sent: &[u8],
    steps: Steps,
    wanted: Wanted,
) -> Result<(), AllocError> {
    let mut streams = streams_of(rt.alloc(), sent, steps)?;
    let status = run_given(rt, program, given, &mut streams)?;
    demand(rt, has_left(wanted, status, &streams), given, sent.len());
    Ok(())
}
