//! The options of mc_schedule's command line.
ghost use Rattle.std.specs.Prelude.{◌≡◌, IfOk, MatchResult, map, string_bytes};
ghost use Rattle.clap.specs.Words.{HasKind, app_of, fault_of};
ghost use Rattle.mc_programs.specs.Lists.{schedule_app};
ghost use Rattle.mc_programs.specs.Reporting.{ScheduleAsksFor};

use crate::words::{flag, flag_option};
use clap::{Command, Error};
use std::alloc::{AllocError, Global};

/// The forms of an event list's lines, as help shows them.
const FORMS: &str = "\
An event list stands on standard input, line by line, its words with spaces between them:
  core WORKERS PLACES   first: 1 to 16 workers, and a log with 1 to 1048576 places for commands
  tenant ITEMS BYTES    then 1 to 64 such lines: each tenant's quotas, to 1048576 and 1073741824
and then any number of these, where W is a worker and T a tenant, each numbered from 0:
  submit W T COMMAND    W announces a command of T, helps by turns until it is decided, and replays
  announce W T COMMAND  W announces a command of T, and no more
  read W                W learns what stands at its next place, if anything does
  look W                W looks for a command that waits, of the worker whose turn its next place is
  propose W             W proposes what it found, or else its own command, and learns what is decided
  replay W              W applies the next command that it has learned, and answers its own
  stop W                W does nothing more
COMMAND is set, add, replace, append or prepend KEY FLAGS DATA, cas KEY FLAGS UNIQUE DATA,
get or gets KEY.., delete KEY, incr or decr KEY NUMBER, flush_all, or limit ITEMS BYTES, which sets
T's quotas. DATA is one word, and a point stands for no data. A line that begins with # is a
comment.

Example, in which worker 1 brings the command of worker 0, which has stopped, into the log:
  core 2 8
  tenant 4 100
  announce 0 0 set a 0 x
  stop 0
  submit 1 0 get a";

/// What the words of mc_schedule ask for: whether the report leaves out the replies, and whether a
/// picture comes before it.
#[derive(Clone, Copy, Debug, PartialEq, Eq)]
pub(crate) struct ScheduleOptions {
    pub quiet: bool,
    pub picture: bool,
}

/// Returns the command line that mc_schedule takes.
///
/// Returns an error if memory runs out.
fn schedule_command<'a>(alloc: Global) -> Result<Command<'a>, AllocError>
    ensures { IfOk result (λ command. app_of command ≡ schedule_app) }
{
    Command::new(alloc, "mc_schedule")
        .no_binary_name(true)
        .version("1.0.0")
        .about("Runs an event list, and prints its replies, the log and the workers")
        .after_help(FORMS)
        .arg(flag_option(alloc, "quiet", "Leaves out the replies"))?
        .arg(flag_option(alloc, "picture", "Draws the run before its report"))
}

/// Returns what the words after the program's name ask for.
///
/// Returns clap's error if they ask for help or the version, are a mistake, or memory runs out.
pub(crate) fn read_words(alloc: Global, words: &[String]) -> Result<ScheduleOptions, Error>
    ensures outcome { MatchResult result (ScheduleAsksFor (map string_bytes words.now))
        (HasKind (fault_of schedule_app (map string_bytes words.now))) }
{
    let matches = schedule_command(alloc)?.try_get_matches_from(words)?;
    Ok(ScheduleOptions {
        quiet: flag(&matches, "quiet"),
        picture: flag(&matches, "picture"),
    })
}
