//! Has workers of a log submit, meet, or go on to the next log, as the first word says, and prints
//! what they answer. It is there for its allocations: `tests/allocation_failures.py` refuses each
//! of them in turn, and knows what may be printed then. Without a word each of the three is done.
#![tactic(auto)]

mod clients;
mod scenes;

use mc_model::Fault;
use std::env;
use std::process::ExitCode;

/// Does what the word says. Returns `BadEvent` for an unknown word, and `Memory` if memory ran out
/// outside of the calls whose answers are printed.
fn run<R: AllocGlobal + Print>(rt: &R, word: &str) -> Result<(), Fault> {
    match word {
        "submit" => scenes::submits(rt, rt.alloc()),
        "meet" => scenes::meets(rt, rt.alloc()),
        "turn-over" => scenes::turns_over(rt, rt.alloc()),
        _ => Err(Fault::BadEvent),
    }
}

fn run_each<R: AllocGlobal + Print>(rt: &R) -> Result<(), Fault> {
    for word in ["submit", "meet", "turn-over"] {
        run(rt, word)?;
    }
    Ok(())
}

/// Does what the words say, of which the first is the program's name.
fn run_words<R: AllocGlobal + Print>(rt: &R, words: &[String]) -> Result<(), Fault> {
    match words.get(1) {
        Some(word) => run(rt, word.as_str()),
        None => run_each(rt),
    }
}

fn main(rt: HostRuntime) -> ExitCode {
    let ran = match env::args(&rt) {
        Ok(words) => words
            .collect::<Vec<String>>(rt.alloc())
            .map_err(Fault::from),
        Err(_) => Err(Fault::Memory),
    };
    let ended: Result<(), Fault> = match ran {
        Ok(words) => run_words(&rt, &words),
        Err(fault) => Err(fault),
    };
    match ended {
        Ok(()) => ExitCode::from(0),
        Err(fault) => {
            let _ = println!(rt; "ended: {fault}");
            ExitCode::from(1)
        }
    }
}
