//! The program that serves one client over standard input and output.
ghost use Rattle.std.specs.Prelude.{map, string_bytes};
ghost use Rattle.mc_programs.specs.Options.{StdinEnds};
ghost use Rattle.mc_stream.specs.Stream.{both};

use crate::faults::{fail, tell_fault};
use crate::options::read_words;
use crate::serving::{Memory, Service, serve_and_leave};
use crate::turning_over::TurnOver;
use crate::words::answer_words;
use mc_model::Fault;
use mc_stream::{Input, Output};
use std::alloc::Global;
use std::sync::Wait;
use uc_worker::Hashing;

/// The program's name, the prefix of its messages.
const NAME: &[u8] = b"mc_stdin";

/// Does what the words after the program's name ask for, and returns the program's exit status.
///
/// Serves one client from the input to the output. The status is 0 if the input ended or a request
/// ended the stream, and 1 if a fault ended the service, which is reported on `errors` as
/// `mc_stdin: TEXT` and a line feed. `--places N` sets how many places a log has (by default
/// 65,536), `--generations N` how many logs there are at most, one after another (1), `--items N`
/// how many items the table may hold (1,048,576), and `--bytes N` how many bytes its keys and data
/// may have (67,108,864). A number out of its range is reported as `bad settings`, with status 2.
///
/// Help and the version go to the output, with status 0, and a mistake in the words to `errors`,
/// with status 2, as clap's text; running out of memory and a failure of the output are faults
/// there too. Nothing is pulled then. A failure of `errors` is ignored.
///
/// The program is expected to end afterwards: the memory of the last log's commands is left to the
/// operating system.
pub fn run_stdin<R: Wait, T: TurnOver, I: Input, O: Output, E: Output>(
    rt: &R,
    alloc: Global,
    hashing: Hashing,
    over: &T,
    words: Vec<String>,
    input: &mut I,
    output: &mut O,
    errors: &mut E,
) -> u8
    // How the run ends, from what came in to what went out, by what the words ask for.
    ensures { StdinEnds T.refused (map string_bytes words.items) result
        (both (I.tells input.old) (O.tells output.old))
        (both (I.tells input.new) (O.tells output.new))
        (E.tells errors.old) (E.tells errors.new) }
{
    let options = match read_words(alloc, &words) {
        Ok(options) => options,
        Err(error) => return answer_words(rt, alloc, NAME, &error, output, errors),
    };
    if !options.is_in_range() {
        tell_fault(rt, NAME, Fault::BadSettings, errors);
        return 2;
    }
    let service = Service {
        alloc,
        hashing,
        over,
        limits: options.limits,
        places: options.places,
        generations: options.generations,
        memory: Memory::Left,
    };
    let served = serve_and_leave(rt, &service, input, output);
    match served {
        Ok(()) => 0,
        Err(fault) => fail(rt, NAME, fault, errors),
    }
}
