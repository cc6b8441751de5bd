//! The words of a command line: their numbers and flags, and those that ask for help or the
//! version, are a mistake, or can't be read.
ghost use Rattle.clap.specs.Simple.{App};
ghost use Rattle.clap.specs.Walk.{Text};
ghost use Rattle.clap.specs.Words.{found_of, kind_of, rule_of};
ghost use Rattle.clap.specs.declared.error.kind.ErrorKind.TheVariants.{OutOfMemory};
ghost use Rattle.std.specs.IoError.{error_kind};
ghost use Rattle.std.specs.declared.io.ErrorKind.TheVariants.{OutOfMemory as StdOutOfMemory};
ghost use Rattle.std.specs.Prelude.{◌≡◌, ◌≢◌, ◌⊎◌, List, Err, IfErr, false};
ghost use Rattle.mc_model.specs.declared.fault.Fault.{Fault};
ghost use Rattle.mc_programs.specs.Faults.{fault_line};
ghost use Rattle.mc_programs.specs.Words.{AnswersWords, ClapReturns, EndsUnserved, flag_given, flag_rule, number_given, number_rule, unreadable_line};
ghost use Rattle.mc_stream.specs.Pushing.{PushesOrFails};
ghost use Rattle.mc_stream.specs.Stream.{Inflow, both};

use crate::faults::{fail, tell_line};
use crate::waiting::push_all;
use clap::error::ErrorKind;
use clap::{Arg, ArgAction, ArgMatches, Error, value_parser};
use mc_model::Fault;
use mc_stream::Output;
use std::alloc::Global;
use std::env::Args;
use std::io;
use std::sync::Wait;

/// Returns an option `--name N`, a number of 64 bits.
pub fn number_option<'a>(alloc: Global, name: &'a str, help: &'a str) -> Arg<'a>
    ensures rule { rule_of result ≡ number_rule name.now }
    ensures local { result.global ≡ false }
{
    Arg::new(alloc, name)
        .long(name)
        .value_name("N")
        .help(help)
        .value_parser(value_parser!(u64))
}

/// Returns the number that an option was given, or `None` if it wasn't given.
pub fn number(matches: &ArgMatches, name: &str) -> Option<u64>
    ensures { result ≡ number_given (found_of matches.now) name.now }
{
    matches.get_one::<u64>(name)
}

/// Returns an option `--name` without a value.
pub fn flag_option<'a>(alloc: Global, name: &'a str, help: &'a str) -> Arg<'a>
    ensures rule { rule_of result ≡ flag_rule name.now }
    ensures local { result.global ≡ false }
{
    Arg::new(alloc, name)
        .long(name)
        .help(help)
        .action(ArgAction::SetTrue)
}

/// Returns whether an option without a value was given.
pub fn flag(matches: &ArgMatches, name: &str) -> bool
    ensures { result ≡ flag_given (found_of matches.now) name.now }
{
    // `get_flag` does the same, but its contract covers only the texts `true` and `false`.
    matches.get_one::<bool>(name).unwrap_or(false)
}

/// Answers words that ask for help or the version or are a mistake with clap's text, and returns
/// the program's exit status.
///
/// Help and the version go to `output`, with status 0, and a mistake to `errors`, with status 2. If
/// memory runs out or the output fails, that is reported on `errors`, with status 1. A failure of
/// `errors` is ignored.
pub fn answer_words<R: Wait, O: Output, E: Output>(
    rt: &R,
    alloc: Global,
    program: &[u8],
    error: &Error,
    output: &mut O,
    errors: &mut E,
) -> u8
    ensures kind { AnswersWords program.now (kind_of error.now) result
        (O.tells output.old) (O.tells output.new) (E.tells errors.old) (E.tells errors.new) }

    // In terms of the words, if the error is clap's for them, or memory ran out.
    ensures words { (app : App) (words : List Text) (input : Inflow) →
        (kind_of error.now ≡ OutOfMemory) ⊎ ClapReturns app words (kind_of error.now) →
        EndsUnserved program.now app words result
        (both input (O.tells output.old)) (both input (O.tells output.new))
        (E.tells errors.old) (E.tells errors.new) }
{
    answer_kind(rt, alloc, program, error, output, errors)
}

/// Answers an error of clap's by its kind, as `answer_words` does.
fn answer_kind<R: Wait, O: Output, E: Output>(
    rt: &R,
    alloc: Global,
    program: &[u8],
    error: &Error,
    output: &mut O,
    errors: &mut E,
) -> u8
    ensures { AnswersWords program.now (kind_of error.now) result
        (O.tells output.old) (O.tells output.new) (E.tells errors.old) (E.tells errors.new) }
{
    if error.kind() == ErrorKind::OutOfMemory {
        return fail(rt, program, Fault::Memory, errors);
    }
    let Ok(text) = format!(in alloc; "{error}") else {
        return fail(rt, program, Fault::Memory, errors);
    };
    if error.use_stderr() {
        let _ = push_all(rt, text.as_bytes(), errors);
        return 2;
    }
    match push_all(rt, text.as_bytes(), output) {
        Ok(()) => 0,
        Err(fault) => fail(rt, program, fault, errors),
    }
}

/// Returns the words after the program's name.
///
/// Returns std's error if it gives one for the arguments, and an error of the kind `OutOfMemory` if
/// memory runs out.
pub fn words_after_name(alloc: Global, given: io::Result<Args>) -> io::Result<Vec<String>>
    ensures starved { IfErr result
        (λ error. (given ≡ Err error) ⊎ (error_kind error ≡ StdOutOfMemory)) }
{
    let mut words = given?;
    let _name = words.next();
    Ok(words.collect(alloc)?)
}

/// Reports why a program's words couldn't be collected, and returns its exit status: 1 if memory
/// ran out, and 2 if they aren't UTF-8. A failure of `errors` is ignored.
pub fn refuse_words<R: Wait, E: Output>(
    rt: &R,
    program: &[u8],
    error: &io::Error,
    errors: &mut E,
) -> u8
    ensures { (error_kind error.now ≡ StdOutOfMemory) × (result ≡ 1)
        × PushesOrFails (fault_line program.now Fault.Memory) (E.tells errors.old)
        (E.tells errors.new)
        ⊎ (error_kind error.now ≢ StdOutOfMemory) × (result ≡ 2)
        × PushesOrFails (unreadable_line program.now) (E.tells errors.old) (E.tells errors.new) }
{
    if error.kind() == io::ErrorKind::OutOfMemory {
        return fail(rt, program, Fault::Memory, errors);
    }
    let _ = tell_line(rt, program, b"the command line is not UTF-8", errors);
    2
}
