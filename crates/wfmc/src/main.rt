//! A memcached server for several tenants, each at its own port.
#![tactic(auto)]

use mc_server::{WriteOutput, fail, random_hashing, refuse_words, run_wfmc, words_after_name};
use std::process::ExitCode;

fn main(rt: HostRuntime) -> ExitCode {
    let mut errors = WriteOutput::new(rt.stderr());
    let words = match words_after_name(rt.alloc(), std::env::args(&rt)) {
        Ok(words) => words,
        Err(error) => return ExitCode::from(refuse_words(&rt, b"wfmc", &error, &mut errors)),
    };
    let hashing = match random_hashing(&rt) {
        Ok(hashing) => hashing,
        Err(fault) => return ExitCode::from(fail(&rt, b"wfmc", fault, &mut errors)),
    };
    let mut output = WriteOutput::new(rt.stdout());
    let status = run_wfmc(&rt, rt.alloc(), hashing, words, &mut output, &mut errors);
    ExitCode::from(status)
}
