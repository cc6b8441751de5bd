//! The program that runs event lists.
ghost use Rattle.std.specs.Prelude.{◌≡◌, MatchResult, map, string_bytes};
ghost use Rattle.mc_programs.specs.Lists.{ScheduleEnds, Receives, StopsReading, bad_line_text};
ghost use Rattle.mc_programs.specs.Reporting.{Gives, IsAnswerTo, IsAnswerToInput, RunsItems};
ghost use Rattle.mc_stream.specs.Pushing.{PushesOrFails};
ghost use Rattle.mc_stream.specs.Stream.{both};

use crate::faults::{fail, tell_fault};
use crate::schedule_words::{ScheduleOptions, read_words};
use crate::waiting::push_all;
use crate::words::answer_words;
use itoa::Buffer;
use mc_conn::PULL_BYTES;
use mc_model::{Fault, Settings};
use mc_schedules::schedule::INPUT_BYTES;
use mc_schedules::{Item, Reading, Unwatched, draw_items, read_schedule, run_items};
use mc_stream::{Input, Output, Pull};
use std::alloc::Global;
use std::sync::Wait;

/// The program's name, the prefix of its messages.
const NAME: &[u8] = b"mc_schedule";

/// The answer to an event list.
#[derive(Debug, Drop)]
enum Answer {
    /// The text to print on its run, and what ended the run early, if anything did: the number of a
    /// line, and the fault that its event met.
    Report {
        text: Vec<u8>,
        end: Option<(u64, Fault)>,
    },
    /// The number of its first bad line.
    BadLine(u64),
    /// A number of its settings is out of its range.
    BadSettings,
}

/// Returns the bytes of an event list: all that come up to the input's end, or more than a list may
/// have.
///
/// An input that has nothing is asked again. Returns `Memory` if memory runs out, and `Input` if
/// the input fails.
fn receive<R: Wait, I: Input>(rt: &R, alloc: Global, input: &mut I) -> Result<Vec<u8>, Fault>
    ensures outcome { MatchResult result
        (λ bytes. Receives bytes.items (I.tells input.old) (I.tells input.new))
        (StopsReading (I.tells input.old) (I.tells input.new)) }
{
    let mut buffer = [0u8; PULL_BYTES];
    let mut bytes = Vec::new(alloc);
    for _ in rt.forever() {
        if bytes.len() > INPUT_BYTES {
            return Ok(bytes);
        }
        match input.pull(&mut buffer) {
            Pull::Bytes(count) => bytes.extend_from_slice(&buffer[..count])?,
            Pull::Empty => {}
            Pull::Ended => return Ok(bytes),
            Pull::Failed => return Err(Fault::Input),
        }
    }
    unreachable!()
}

/// Returns the text to print on the run of these items, and what ended the run early.
///
/// Returns `Memory` if memory runs out.
fn report_of(
    alloc: Global,
    settings: &Settings,
    items: Vec<Item>,
    options: ScheduleOptions,
) -> Result<(Vec<u8>, Option<(u64, Fault)>), Fault>
    ensures outcome { MatchResult result
        (λ told. RunsItems settings.now items.items options told.1 told.0.items)
        (λ fault. fault ≡ Fault.Memory) }
{
    let (mut text, outcome) = if options.picture {
        draw_items(alloc, settings, items)?
    } else {
        let outcome = run_items(alloc, settings, items, &mut Unwatched)?;
        (Vec::new(alloc), outcome)
    };
    let lines = outcome.report(alloc, options.quiet)?;
    text.extend_from_slice(&lines)?;
    Ok((text, outcome.fault))
}

/// Returns the answer to a list of these bytes.
///
/// Returns `Memory` if memory runs out.
fn answer_to(alloc: Global, options: ScheduleOptions, bytes: &[u8]) -> Result<Answer, Fault>
    ensures outcome { MatchResult result (IsAnswerTo options bytes.now)
        (λ fault. fault ≡ Fault.Memory) }
{
    let schedule = match read_schedule(alloc, bytes)? {
        Reading::Bad(line) => return Ok(Answer::BadLine(line)),
        Reading::Schedule(schedule) => schedule,
    };
    let Ok(settings) = Settings::check(schedule.workers, schedule.places, schedule.tenants) else {
        return Ok(Answer::BadSettings);
    };
    let (text, end) = report_of(alloc, &settings, schedule.items, options)?;
    Ok(Answer::Report { text, end })
}

/// Reads the event list on the input, runs it, and returns the answer to it.
///
/// Returns `Memory` if memory runs out, and `Input` if the input fails.
fn do_list<R: Wait, I: Input>(
    rt: &R,
    alloc: Global,
    options: ScheduleOptions,
    input: &mut I,
) -> Result<Answer, Fault>
    ensures outcome { MatchResult result
        (IsAnswerToInput options (I.tells input.old) (I.tells input.new))
        (StopsReading (I.tells input.old) (I.tells input.new)) }
{
    let bytes = receive(rt, alloc, input)?;
    answer_to(alloc, options, &bytes)
}

/// Reports the number of a list's first bad line. Needs no memory.
///
/// Returns `Output` if `errors` fails.
fn tell_bad_line<R: Wait, E: Output>(rt: &R, line: u64, errors: &mut E) -> Result<(), Fault>
    ensures { PushesOrFails (bad_line_text line) (E.tells errors.old) (E.tells errors.new) }
{
    let mut buffer = Buffer::new();
    push_all(rt, b"mc_schedule: line ", errors)?;
    push_all(rt, buffer.format(line).as_bytes(), errors)?;
    push_all(rt, b": bad line\n", errors)
}

/// Pushes the answer to a list, and returns the program's exit status.
fn give<R: Wait, O: Output, E: Output>(
    rt: &R,
    answer: &Answer,
    output: &mut O,
    errors: &mut E,
) -> u8
    ensures { Gives answer.now result (O.tells output.old) (O.tells output.new)
        (E.tells errors.old) (E.tells errors.new) }
{
    match answer {
        Answer::Report { text, end } => match push_all(rt, text, output) {
            Ok(()) => u8::from(end.is_some()),
            Err(fault) => fail(rt, NAME, fault, errors),
        },
        Answer::BadLine(line) => {
            let _ = tell_bad_line(rt, *line, errors);
            2
        }
        Answer::BadSettings => {
            tell_fault(rt, NAME, Fault::BadSettings, errors);
            2
        }
    }
}

/// Does what the words after the program's name ask for, and returns the program's exit status.
///
/// Reads an event list from the input, runs it, and pushes a report on the run to the output. The
/// status is 0 if all of it was done, and 1 if an event met a fault, which the report names.
/// `--quiet` leaves the replies out of the report, and `--picture` puts a picture of the run before
/// it.
///
/// A list with a bad line is reported as `mc_schedule: line K: bad line`, and one whose settings
/// are out of range as `mc_schedule: bad settings`; the status is 2, and nothing was run. If memory
/// runs out, or the input or the output fails, that is reported as `mc_schedule: TEXT`; the status
/// is 1, and nothing was pushed to the output unless it was the output that failed. Each of these
/// is a line on `errors`.
///
/// Help and the version go to the output, with status 0, and a mistake in the words to `errors`,
/// with status 2, as clap's text. Nothing is pulled then. A failure of `errors` is ignored.
pub fn run_schedule<R: Wait, I: Input, O: Output, E: Output>(
    rt: &R,
    alloc: Global,
    words: Vec<String>,
    input: &mut I,
    output: &mut O,
    errors: &mut E,
) -> u8
    // How the run ends, from the bytes that came in to the bytes that went out.
    ensures { ScheduleEnds (map string_bytes words.items) result
        (both (I.tells input.old) (O.tells output.old))
        (both (I.tells input.new) (O.tells output.new))
        (E.tells errors.old) (E.tells errors.new) }
{
    let options = match read_words(alloc, &words) {
        Ok(options) => options,
        Err(error) => return answer_words(rt, alloc, NAME, &error, output, errors),
    };
    match do_list(rt, alloc, options, input) {
        Ok(answer) => give(rt, &answer, output, errors),
        Err(fault) => fail(rt, NAME, fault, errors),
    }
}
