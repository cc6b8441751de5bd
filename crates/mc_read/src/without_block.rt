//! Lines without a block: `get`, `gets`, `delete`, `incr`, `decr`, `flush_all`, and names with no
//! words after them.
ghost use Rattle.std.specs.List.{list_all};
ghost use Rattle.std.specs.Prelude.{◌≡◌, [], ◌∷◌, true, false, IfOk, IsOkUnless, codes, is_some};
ghost use Rattle.mc_model.specs.declared.command.Command.TheVariants.{Delete, Flush};
ghost use Rattle.mc_model.specs.declared.reply.TheConstants.WireNo.{BAD_FORMAT};
ghost use Rattle.mc_model.specs.declared.request.Request.TheVariants.{Logged};
ghost use Rattle.mc_model.specs.Key.{is_lawful_key};
ghost use Rattle.mc_model.specs.Number.{number_up_to};
ghost use Rattle.mc_read.specs.declared.line.Asked.TheVariants.{LineOnly};
ghost use Rattle.mc_read.specs.Line.{HasLawfulBlock, asked_after, asked_of_change, asked_of_delete, asked_of_delta, asked_of_flush, asked_of_name, asked_of_others, asked_of_retrieval, asked_without_block, changed, exptime_checks};
ghost use Rattle.mc_read.specs.Word.{is_word};

use crate::line::{Asked, DELTA, malformed, no_command, refused};
use crate::words::{Words, is_exptime, is_noreply, is_word, is_zero};
use mc_model::{Command, Fault, Key, KeyBlock, KeyList, Reply, Request, WireNo, read_number};
use std::alloc::Global;

/// Wraps the command of a line without a block.
fn logged(command: Command, quiet: bool) -> Asked
    ensures { result ≡ LineOnly (Logged command quiet) }
{
    Asked::LineOnly(Request::Logged { command, quiet })
}

/// Returns the keys of a retrieval, whose words are valid keys, in a block for which there is room
/// of this size. Returns `Memory` if an allocation fails.
fn read_keys(alloc: Global, words: Words<'_>, size: usize) -> Result<KeyBlock, Fault>
    requires { list_all is_lawful_key words ≡ true }
    ensures keys { IfOk result (λ keys. keys ≡ words.entry) }
    ensures memory { IsOkUnless result Fault.Memory }
{
    let mut keys = KeyBlock::with_capacity(alloc, size)?;
    let mut words = words;
    while let Some(word) = words.next() {
        keys.push(word)?;
    }
    Ok(keys)
}

/// Returns how many bytes a block of the words takes, or `None` if one isn't a valid key. Allocates
/// nothing.
fn size_of_keys(words: Words<'_>) -> Option<usize>
    ensures { is_some result ≡ list_all is_lawful_key words.entry }
{
    let mut words = words;
    let mut size: usize = 0;
    while let Some(word) = words.next() {
        if !Key::is_lawful(word) {
            return None;
        }
        size = size.saturating_add(1).saturating_add(word.len());
    }
    Some(size)
}

/// Returns what the retrieval of one key asks for. Returns `Memory` if an allocation fails.
fn ask_single(alloc: Global, uniques: bool, word: &[u8]) -> Result<Asked, Fault>
    ensures asked { IfOk result (λ asked. asked ≡ asked_of_retrieval uniques (word.now ∷ [])) }
    ensures memory { IsOkUnless result Fault.Memory }
{
    match Key::new(alloc, word)? {
        Some(key) => {
            let keys = KeyList::single(key);
            Ok(logged(Command::Get { keys, uniques }, false))
        }
        None => Ok(malformed()),
    }
}

/// Returns what the retrieval of any number of keys asks for; none is no command. Nothing is
/// allocated before all of them are known to be valid. Returns `Memory` if an allocation fails.
fn ask_several(alloc: Global, uniques: bool, words: Words<'_>) -> Result<Asked, Fault>
    ensures asked { IfOk result (λ asked. asked ≡ asked_of_retrieval uniques words.entry) }
    ensures memory { IsOkUnless result Fault.Memory }
{
    let Some(size) = size_of_keys(words.again()) else {
        return Ok(malformed());
    };
    let keys = read_keys(alloc, words, size)?;
    match KeyList::new(keys) {
        Some(keys) => Ok(logged(Command::Get { keys, uniques }, false)),
        None => Ok(no_command()),
    }
}

/// Returns what a retrieval asks for, given the words after its name. Returns `Memory` if an
/// allocation fails.
pub fn ask_retrieval(alloc: Global, uniques: bool, arguments: Words<'_>) -> Result<Asked, Fault>
    ensures asked { IfOk result (λ asked. asked ≡ asked_of_retrieval uniques arguments.entry) }
    ensures memory { IsOkUnless result Fault.Memory }
{
    let mut others = arguments.again();
    let Some(word) = others.next() else {
        return Ok(no_command());
    };
    if others.next().is_none() {
        return ask_single(alloc, uniques, word);
    }
    ask_several(alloc, uniques, arguments)
}

/// Returns the deletion of a key, if the words after the key are valid.
fn delete(alloc: Global, key: &[u8], are_lawful: bool, quiet: bool) -> Result<Asked, Fault>
    ensures asked { IfOk result
        (λ asked. asked ≡ asked_after
        ((are_lawful, BAD_FORMAT) ∷ (is_lawful_key key.now, BAD_FORMAT) ∷ [])
        (Delete key.now) quiet) }
    ensures memory { IsOkUnless result Fault.Memory }
{
    if !are_lawful {
        return Ok(malformed());
    }
    match Key::new(alloc, key)? {
        Some(key) => Ok(logged(Command::Delete { key }, quiet)),
        None => Ok(malformed()),
    }
}

/// Returns what a deletion asks for, given the words after its name.
fn ask_delete(alloc: Global, arguments: Words<'_>) -> Result<Asked, Fault>
    ensures asked { IfOk result (λ asked. asked ≡ asked_of_delete arguments.entry) }
    ensures memory { IsOkUnless result Fault.Memory }
{
    let mut arguments = arguments;
    let Some(key) = arguments.next() else {
        return Ok(no_command());
    };
    let Some(time) = arguments.next() else {
        return delete(alloc, key, true, false);
    };
    let Some(last) = arguments.next() else {
        let noreply = is_noreply(time);
        return delete(alloc, key, noreply || is_word(time, b"0"), noreply);
    };
    if arguments.next().is_some() {
        return Ok(no_command());
    }
    delete(alloc, key, is_word(time, b"0") && is_noreply(last), true)
}

/// A change to the number under a key.
#[derive(Clone, Copy, Debug, PartialEq, Eq)]
pub enum Change {
    /// Adds.
    Incr,
    /// Subtracts.
    Decr,
}

impl Change {
    /// Returns the command that changes a key's number by this much.
    fn command(self, key: Key, by: u64) -> Command
        ensures { result ≡ changed self key by }
    {
        match self {
            Change::Incr => Command::Incr { key, by },
            Change::Decr => Command::Decr { key, by },
        }
    }

    /// Returns the change of a key's number by a delta, if the word after these is valid.
    fn ask(
        self,
        alloc: Global,
        key: &[u8],
        delta: &[u8],
        is_lawful: bool,
        quiet: bool,
    ) -> Result<Asked, Fault>
        ensures asked { IfOk result
            (λ asked. asked ≡ asked_of_delta self is_lawful key.now (number_up_to DELTA delta.now) quiet) }
        ensures memory { IsOkUnless result Fault.Memory }
    {
        if !(is_lawful && Key::is_lawful(key)) {
            return Ok(malformed());
        }
        let Some(by) = read_number(delta, DELTA) else {
            return Ok(Asked::LineOnly(refused(WireNo::BAD_DELTA, false)));
        };
        match Key::new(alloc, key)? {
            Some(key) => Ok(logged(self.command(key, by), quiet)),
            None => unreachable!(),
        }
    }
}

/// Returns what a line of `incr` or `decr` asks for, given the words after its name.
fn ask_change(alloc: Global, change: Change, arguments: Words<'_>) -> Result<Asked, Fault>
    ensures asked { IfOk result (λ asked. asked ≡ asked_of_change change arguments.entry) }
    ensures memory { IsOkUnless result Fault.Memory }
{
    let mut arguments = arguments;
    let Some(key) = arguments.next() else {
        return Ok(no_command());
    };
    let Some(delta) = arguments.next() else {
        return Ok(no_command());
    };
    let Some(last) = arguments.next() else {
        return change.ask(alloc, key, delta, true, false);
    };
    if arguments.next().is_some() {
        return Ok(no_command());
    }
    change.ask(alloc, key, delta, is_noreply(last), true)
}

/// Returns a flush of the table, if the exptime is valid.
fn flush(exptime: &[u8], quiet: bool) -> Asked
    ensures asked { result ≡ asked_after (exptime_checks exptime.now) Flush quiet }
    ensures lawful { HasLawfulBlock result }
{
    if !is_exptime(exptime) {
        malformed()
    } else if !is_zero(exptime) {
        Asked::LineOnly(refused(WireNo::NO_EXPIRY, quiet))
    } else {
        logged(Command::Flush, quiet)
    }
}

/// Returns what a line of `flush_all` asks for, given the words after its name.
fn ask_flush(arguments: Words<'_>) -> Asked
    ensures asked { result ≡ asked_of_flush arguments.entry }
    ensures lawful { HasLawfulBlock result }
{
    let mut arguments = arguments;
    let Some(exptime) = arguments.next() else {
        return flush(b"0", false);
    };
    let Some(last) = arguments.next() else {
        if is_noreply(exptime) {
            return flush(b"0", true);
        }
        return flush(exptime, false);
    };
    if arguments.next().is_some() {
        no_command()
    } else if is_noreply(last) {
        flush(exptime, true)
    } else {
        malformed()
    }
}

/// Returns what a name without arguments asks for; `arguments` are the words after it.
pub fn ask_name(request: Request, arguments: Words<'_>) -> Asked
    ensures { result ≡ asked_of_name request arguments.entry }
{
    let mut arguments = arguments;
    if arguments.next().is_none() {
        Asked::LineOnly(request)
    } else {
        no_command()
    }
}

/// Returns what a line asks for whose name stores nothing, reads nothing and counts nothing. Kept
/// apart from the other names, since a function clears the stack space for what each of its calls
/// returns.
fn ask_others(alloc: Global, name: &[u8], arguments: Words<'_>) -> Result<Asked, Fault>
    ensures asked { IfOk result (λ asked. asked ≡ asked_of_others name.now arguments.entry) }
    ensures lawful { IfOk result HasLawfulBlock }
    ensures memory { IsOkUnless result Fault.Memory }
{
    if is_word(name, b"delete") {
        ask_delete(alloc, arguments)
    } else if is_word(name, b"flush_all") {
        Ok(ask_flush(arguments))
    } else if is_word(name, b"version") {
        Ok(ask_name(
            Request::Local {
                reply: Reply::Version,
                quiet: false,
            },
            arguments,
        ))
    } else if is_word(name, b"quit") {
        Ok(ask_name(Request::Quit, arguments))
    } else {
        Ok(no_command())
    }
}

/// Returns what a line asks for whose name stores nothing and isn't `get`, given the words after
/// it. Returns `Memory` if an allocation fails.
pub fn ask_without_block(alloc: Global, name: &[u8], arguments: Words<'_>) -> Result<Asked, Fault>
    requires { is_word name.now (codes "get") ≡ false }
    ensures asked { IfOk result (λ asked. asked ≡ asked_without_block name.now arguments.entry) }
    ensures lawful { IfOk result HasLawfulBlock }
    ensures memory { IsOkUnless result Fault.Memory }
{
    if is_word(name, b"gets") {
        ask_retrieval(alloc, true, arguments)
    } else if is_word(name, b"incr") {
        ask_change(alloc, Change::Incr, arguments)
    } else if is_word(name, b"decr") {
        ask_change(alloc, Change::Decr, arguments)
    } else {
        ask_others(alloc, name, arguments)
    }
}
