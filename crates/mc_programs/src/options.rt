//! The options of mc_stdin's command line.
ghost use Rattle.std.specs.Prelude.{◌≡◌, ◌↔◌, IfOk, IsTrue, MatchResult, map, string_bytes};
ghost use Rattle.clap.specs.Words.{HasKind, app_of, fault_of};
ghost use Rattle.mc_model.specs.Settings.{AreLawfulLimits, IsBetween};
ghost use Rattle.mc_model.specs.declared.settings.TheConstants.{MAX_PLACES};
ghost use Rattle.mc_programs.specs.declared.options.TheConstants.{MAX_GENERATIONS};
ghost use Rattle.mc_programs.specs.Options.{StdinAsksFor, log_app, stdin_app};

use crate::words::{number, number_option};
use clap::{Command, Error};
use mc_model::Limits;
use mc_model::settings::MAX_PLACES;
use std::alloc::{AllocError, Global};

/// How many places a log has by default.
pub const DEFAULT_PLACES: u64 = 65_536;

/// How many logs there are by default, one after another.
pub const DEFAULT_GENERATIONS: u64 = 1;

/// How many logs may be asked for, one after another; of wfmc 0 asks for logs without an end.
pub const MAX_GENERATIONS: u64 = 65_536;

/// How many items a tenant's table may hold by default.
const DEFAULT_ITEMS: u64 = 1_048_576;

/// How many bytes the keys and data of a tenant's table may have by default.
const DEFAULT_BYTES: u64 = 67_108_864;

/// What the words of mc_stdin ask for: how many places a log has, how many logs there are at most,
/// and its tenant's quotas.
#[derive(Clone, Copy, Debug, PartialEq, Eq)]
pub(crate) struct StdinOptions {
    pub places: u64,
    pub generations: u64,
    pub limits: Limits,
}

impl StdinOptions {
    /// Returns whether the numbers are within their bounds.
    pub(crate) fn is_in_range(&self) -> bool
        ensures { IsTrue result ↔ IsBetween 1 MAX_PLACES self.now.places
            × IsBetween 1 MAX_GENERATIONS self.now.generations
            × AreLawfulLimits self.now.limits }
    {
        (1..=MAX_PLACES).contains(&self.places)
            && (1..=MAX_GENERATIONS).contains(&self.generations)
            && self.limits.are_lawful()
    }
}

/// Returns mc_stdin's command line without the options on its table.
///
/// Returns an error if memory runs out.
fn log_command<'a>(alloc: Global) -> Result<Command<'a>, AllocError>
    ensures { IfOk result (λ command. app_of command ≡ log_app) }
{
    let places = "How many commands a log takes, from 1 to 1048576 [default: 65536]";
    let generations = "How many logs there are, one after another, from 1 to 65536 [default: 1]";
    Command::new(alloc, "mc_stdin")
        .no_binary_name(true)
        .version("1.0.0")
        .about("A memcached server for one client, from standard input to standard output")
        .arg(number_option(alloc, "places", places))?
        .arg(number_option(alloc, "generations", generations))
}

/// Returns the command line that mc_stdin takes.
///
/// Returns an error if memory runs out.
fn stdin_command<'a>(alloc: Global) -> Result<Command<'a>, AllocError>
    ensures { IfOk result (λ command. app_of command ≡ stdin_app) }
{
    let items = "How many items may be held, from 1 to 1048576 [default: 1048576]";
    let bytes = "How many bytes keys and data may have, from 1 to 1073741824 [default: 67108864]";
    log_command(alloc)?
        .arg(number_option(alloc, "items", items))?
        .arg(number_option(alloc, "bytes", bytes))
}

/// Returns what the words after the program's name ask for.
///
/// Returns clap's error if they ask for help or the version, are a mistake, or memory runs out.
pub(crate) fn read_words(alloc: Global, words: &[String]) -> Result<StdinOptions, Error>
    ensures outcome { MatchResult result (StdinAsksFor (map string_bytes words.now))
        (HasKind (fault_of stdin_app (map string_bytes words.now))) }
{
    let matches = stdin_command(alloc)?.try_get_matches_from(words)?;
    let limits = Limits {
        items: number(&matches, "items").unwrap_or(DEFAULT_ITEMS),
        bytes: number(&matches, "bytes").unwrap_or(DEFAULT_BYTES),
    };
    Ok(StdinOptions {
        places: number(&matches, "places").unwrap_or(DEFAULT_PLACES),
        generations: number(&matches, "generations").unwrap_or(DEFAULT_GENERATIONS),
        limits,
    })
}
