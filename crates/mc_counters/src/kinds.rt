//! The kinds of commands and refusals, by which requests are counted.
ghost use Rattle.std.specs.Prelude.{◌≡◌, ◌<◌};
ghost use Rattle.mc_counters.specs.Kinds.{asked_for_by, kind_of, place_of_kind, place_of_refusal};
ghost use Rattle.mc_counters.specs.declared.kinds.TheConstants.{COMMANDS, REFUSALS};

use mc_model::{Command, Verb, WireNo};

/// How many kinds of commands there are.
pub const COMMANDS: usize = 13;

/// How many of them tenants send.
pub const TENANT_COMMANDS: usize = 12;

/// How many kinds of refusals there are.
pub const REFUSALS: usize = 11;

/// The kind of a command: the name of its line.
#[derive(Clone, Copy, Debug, PartialEq, Eq)]
pub enum CommandKind {
    Get,
    Gets,
    Set,
    Add,
    Replace,
    Append,
    Prepend,
    Cas,
    Delete,
    Incr,
    Decr,
    Flush,
    /// The command of an administrator, on the table of the tenant whose quotas it sets.
    Limit,
}

/// The kinds of commands of tenants, each at its place. `Limit` isn't one: an administrator sends
/// it.
pub const COMMAND_KINDS: [CommandKind; TENANT_COMMANDS] = [
    CommandKind::Get,
    CommandKind::Gets,
    CommandKind::Set,
    CommandKind::Add,
    CommandKind::Replace,
    CommandKind::Append,
    CommandKind::Prepend,
    CommandKind::Cas,
    CommandKind::Delete,
    CommandKind::Incr,
    CommandKind::Decr,
    CommandKind::Flush,
];

/// The kinds of refusals, each at its place. `OUT_OF_MEMORY` is what a client gets in place of a
/// reply where memory ran out, before its connection ends.
pub const REFUSAL_KINDS: [WireNo; REFUSALS] = [
    WireNo::E1,
    WireNo::E2,
    WireNo::E3,
    WireNo::E4,
    WireNo::E5,
    WireNo::E6,
    WireNo::E7,
    WireNo::E8,
    WireNo::E9,
    WireNo::E10,
    WireNo::E11,
];

impl CommandKind {
    /// Returns the kind of a command.
    pub fn of(command: &Command) -> CommandKind
        ensures { result ≡ kind_of command.now }
    {
        match command {
            Command::Store { verb, .. } => match verb {
                Verb::Set => CommandKind::Set,
                Verb::Add => CommandKind::Add,
                Verb::Replace => CommandKind::Replace,
                Verb::Append => CommandKind::Append,
                Verb::Prepend => CommandKind::Prepend,
            },
            Command::Cas { .. } => CommandKind::Cas,
            Command::Get { uniques, .. } => {
                if *uniques {
                    CommandKind::Gets
                } else {
                    CommandKind::Get
                }
            }
            Command::Delete { .. } => CommandKind::Delete,
            Command::Incr { .. } => CommandKind::Incr,
            Command::Decr { .. } => CommandKind::Decr,
            Command::Flush => CommandKind::Flush,
            Command::Limit { .. } => CommandKind::Limit,
        }
    }

    /// Returns at which place counts keep the kind.
    pub(crate) fn place(self) -> usize
        ensures place { result ≡ place_of_kind self }
        ensures below { result < COMMANDS }
    {
        match self {
            CommandKind::Get => 0,
            CommandKind::Gets => 1,
            CommandKind::Set => 2,
            CommandKind::Add => 3,
            CommandKind::Replace => 4,
            CommandKind::Append => 5,
            CommandKind::Prepend => 6,
            CommandKind::Cas => 7,
            CommandKind::Delete => 8,
            CommandKind::Incr => 9,
            CommandKind::Decr => 10,
            CommandKind::Flush => 11,
            CommandKind::Limit => 12,
        }
    }
}

/// Returns at which place counts keep the kind of a refusal.
pub(crate) fn refusal_place(refusal: WireNo) -> usize
    ensures place { result ≡ place_of_refusal refusal }
    ensures below { result < REFUSALS }
{
    match refusal {
        WireNo::E1 => 0,
        WireNo::E2 => 1,
        WireNo::E3 => 2,
        WireNo::E4 => 3,
        WireNo::E5 => 4,
        WireNo::E6 => 5,
        WireNo::E7 => 6,
        WireNo::E8 => 7,
        WireNo::E9 => 8,
        WireNo::E10 => 9,
        WireNo::E11 => 10,
    }
}

/// What a command asks for: its kind, and how many keys it retrieves.
#[derive(Clone, Copy, Debug, PartialEq, Eq)]
pub struct Asked {
    pub kind: CommandKind,
    pub keys: usize,
}

impl Asked {
    /// Returns what a command asks for.
    pub fn by(command: &Command) -> Asked
        ensures { result ≡ asked_for_by command.now }
    {
        let keys = match command {
            Command::Get { keys, .. } => keys.len(),
            _ => 0,
        };
        Asked {
            kind: CommandKind::of(command),
            keys,
        }
    }
}
