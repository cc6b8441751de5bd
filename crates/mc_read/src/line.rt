//! What a line asks for, by its words.
ghost use Rattle.std.specs.Prelude.{◌≡◌, IfOk, IsOkUnless, codes};
ghost use Rattle.mc_read.specs.Line.{HasLawfulBlock, asked, is_quiet_refusal, malformed, no_command, refused, verb_named};
ghost use Rattle.mc_read.specs.Text.{storing};
ghost use Rattle.mc_read.specs.Word.{is_word};

use crate::storage::{ask_cas, ask_storage};
use crate::without_block::{ask_retrieval, ask_without_block};
use crate::words::{Words, is_word};
use mc_model::{Command, Data, Fault, Key, Reply, Request, Verb, WireNo};
use std::alloc::Global;

/// The largest number of bytes in a line, without its line feed.
pub const LINE_BYTES: usize = 65_536;

/// The largest length of a block that a line can name.
pub const BLOCK_LENGTH: u64 = 2_147_483_645;

/// The largest flags.
pub const FLAGS: u64 = 4_294_967_295;

/// The largest unique that a line can name.
pub const UNIQUE: u64 = 18_446_744_073_709_551_615;

/// The largest delta.
pub const DELTA: u64 = 18_446_744_073_709_551_615;

/// What a line asks for.
#[derive(Debug, PartialEq, Eq, Drop)]
pub enum Asked {
    /// The line by itself is this request.
    LineOnly(Request),
    /// A block of this length follows the line, and is refused whatever it holds.
    RefusedBlock {
        length: u64,
        refusal: WireNo,
        quiet: bool,
    },
    /// A block follows the line, and is to be stored.
    StoredBlock(Header),
}

/// What a storage line says of its block, if it may be stored.
#[derive(Debug, PartialEq, Eq, Drop)]
pub struct Header {
    pub length: u64,
    pub storage: Storage,
    pub key: Key,
    pub flags: u32,
    pub quiet: bool,
}

/// How a block is stored.
#[derive(Clone, Copy, Debug, PartialEq, Eq)]
pub enum Storage {
    /// As the verb says.
    Plain(Verb),
    /// Only if the item has this unique: check and set.
    CheckAndSet(u64),
}

impl Storage {
    /// Returns the command that stores a block in this way.
    pub fn command(self, key: Key, flags: u32, block: Data) -> Command
        ensures { result ≡ storing self key flags block }
    {
        match self {
            Storage::Plain(verb) => Command::Store {
                verb,
                key,
                flags,
                block,
            },
            Storage::CheckAndSet(unique) => Command::Cas {
                key,
                flags,
                block,
                unique,
            },
        }
    }
}

/// Returns a refusal, which is answered without the log.
pub fn refused(refusal: WireNo, quiet: bool) -> Request
    ensures { result ≡ refused refusal quiet }
{
    Request::Local {
        reply: Reply::Refused(refusal),
        quiet,
    }
}

/// Returns the refusal of an unknown name, or of a number of words that no line of this name has.
pub fn no_command() -> Asked
    ensures { result ≡ no_command }
{
    Asked::LineOnly(refused(WireNo::UNKNOWN_COMMAND, false))
}

/// Returns the refusal of malformed words.
pub fn malformed() -> Asked
    ensures { result ≡ malformed }
{
    Asked::LineOnly(refused(WireNo::BAD_FORMAT, false))
}

/// Returns whether a refusal of a line that says `noreply` is quiet.
pub fn is_quiet_refusal(refusal: WireNo) -> bool
    ensures { result ≡ is_quiet_refusal refusal }
{
    !matches!(
        refusal,
        WireNo::UNKNOWN_COMMAND | WireNo::BAD_FORMAT | WireNo::BAD_DELTA
    )
}

/// Returns the storage command with this name, except for `cas`.
fn verb_named(name: &[u8]) -> Option<Verb>
    ensures { result ≡ verb_named name.now }
{
    if is_word(name, b"set") {
        Some(Verb::Set)
    } else if is_word(name, b"add") {
        Some(Verb::Add)
    } else if is_word(name, b"replace") {
        Some(Verb::Replace)
    } else if is_word(name, b"append") {
        Some(Verb::Append)
    } else if is_word(name, b"prepend") {
        Some(Verb::Prepend)
    } else {
        None
    }
}

/// Returns whether the name is that of a retrieval without uniques.
fn is_get(name: &[u8]) -> bool
    ensures { result ≡ is_word name.now (codes "get") }
{
    matches!(name, b"get")
}

/// Returns what a line asks for; the line comes without its line feed. Returns `Memory` if an
/// allocation fails.
pub fn ask(alloc: Global, line: &[u8]) -> Result<Asked, Fault>
    ensures asked { IfOk result (λ result. result ≡ asked line.now) }
    ensures lawful { IfOk result HasLawfulBlock }
    ensures memory { IsOkUnless result Fault.Memory }
{
    let mut arguments = Words::of(line);
    let Some(name) = arguments.next() else {
        return Ok(no_command());
    };
    // First, since most lines have this name.
    if is_get(name) {
        ask_retrieval(alloc, false, arguments)
    } else if let Some(verb) = verb_named(name) {
        ask_storage(alloc, verb, arguments)
    } else if is_word(name, b"cas") {
        ask_cas(alloc, arguments)
    } else {
        ask_without_block(alloc, name, arguments)
    }
}
