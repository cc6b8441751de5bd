//! A memcached server for one client, from standard input to standard output.
#![tactic(auto)]

use mc_programs::{
    ReadInput, TurnOverAlone, WriteOutput, fail, random_hashing, refuse_words, run_stdin,
    words_after_name,
};
use std::process::ExitCode;

fn main(rt: HostRuntime) -> ExitCode {
    let mut errors = WriteOutput::new(rt.stderr());
    let words = match words_after_name(rt.alloc(), std::env::args(&rt)) {
        Ok(words) => words,
        Err(error) => return ExitCode::from(refuse_words(&rt, b"mc_stdin", &error, &mut errors)),
    };
    let hashing = match random_hashing(&rt) {
        Ok(hashing) => hashing,
        Err(fault) => return ExitCode::from(fail(&rt, b"mc_stdin", fault, &mut errors)),
    };
    let mut input = ReadInput::new(rt.stdin());
    let mut output = WriteOutput::new(rt.stdout());
    let status = run_stdin(
        &rt,
        rt.alloc(),
        hashing,
        &TurnOverAlone,
        words,
        &mut input,
        &mut output,
        &mut errors,
    );
    ExitCode::from(status)
}
