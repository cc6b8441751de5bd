//! The commands of an event list, read from their words.
ghost use Rattle.std.specs.List.{list_all};
ghost use Rattle.std.specs.Prelude.{◌≡◌, IfOk, IfSome, IsOkUnless, is_some, map};
ghost use Rattle.mc_model.specs.Key.{is_lawful_key};
ghost use Rattle.mc_model.specs.Number.{number_up_to};
ghost use Rattle.mc_schedules.specs.Command.{cas_of, change_of, command_of, data_of, deletion_of, flush_of, is_data_byte, limit_of, retrieval_of, storage_of};

use crate::words::is_word;
use mc_model::item::DATA_BYTES;
use mc_model::{Command, Data, Fault, Key, KeyBlock, KeyList, Limits, Verb, read_number};
use std::alloc::Global;

/// The largest flags.
pub const FLAGS: u64 = 4_294_967_295;

/// The largest number that 64 bits hold.
pub const NUMBER: u64 = 18_446_744_073_709_551_615;

/// Returns the flags, if the word is a number in their range.
fn read_flags(word: &[u8]) -> Option<u32>
    ensures { result ≡ number_up_to FLAGS word.now }
{
    match read_number(word, FLAGS) {
        Some(flags) => Some(flags as u32),
        None => None,
    }
}

/// Returns whether each byte is visible ASCII.
fn are_data(word: &[u8]) -> bool
    ensures { result ≡ list_all is_data_byte word.now }
{
    word.iter().all(|byte| *byte > 32 && *byte < 127)
}

/// Returns the data that the word stands for, if it stands for any. Returns `Memory` if the
/// allocation fails.
fn read_data(alloc: Global, word: &[u8]) -> Result<Option<Data>, Fault>
    ensures block { IfOk result (λ block. block ≡ data_of word.now) }
    ensures memory { IsOkUnless result Fault.Memory }
{
    if is_word(word, b".") {
        return Ok(Data::new(Vec::new(alloc)));
    }
    if word.len() > DATA_BYTES || !are_data(word) {
        return Ok(None);
    }
    Ok(Data::new(Vec::from_slice(alloc, word)?))
}

/// Returns the storage command of a key, flags and data, or `None` if a word can't be read.
fn read_storage(alloc: Global, verb: Verb, arguments: &[&[u8]]) -> Result<Option<Command>, Fault>
    ensures command { IfOk result
        (λ command. command ≡ storage_of verb (map (λ word. word.now) arguments.now)) }
    ensures memory { IsOkUnless result Fault.Memory }
{
    let [key, flags, block] = arguments else {
        return Ok(None);
    };
    let key = Key::new(alloc, key)?;
    let block = read_data(alloc, block)?;
    match (key, read_flags(flags), block) {
        (Some(key), Some(flags), Some(block)) => Ok(Some(Command::Store {
            verb,
            key,
            flags,
            block,
        })),
        _ => Ok(None),
    }
}

/// Returns the check and set of a key, flags, a unique and data, or `None` if a word can't be read.
fn read_cas(alloc: Global, arguments: &[&[u8]]) -> Result<Option<Command>, Fault>
    ensures command { IfOk result
        (λ command. command ≡ cas_of (map (λ word. word.now) arguments.now)) }
    ensures memory { IsOkUnless result Fault.Memory }
{
    let [key, flags, unique, block] = arguments else {
        return Ok(None);
    };
    let key = Key::new(alloc, key)?;
    let block = read_data(alloc, block)?;
    match (key, read_flags(flags), read_number(unique, NUMBER), block) {
        (Some(key), Some(flags), Some(unique), Some(block)) => Ok(Some(Command::Cas {
            key,
            flags,
            block,
            unique,
        })),
        _ => Ok(None),
    }
}

/// Returns the keys of a retrieval, or `None` if a word isn't a valid key. Returns `Memory` if an
/// allocation fails.
fn read_keys(alloc: Global, words: &[&[u8]]) -> Result<Option<KeyBlock>, Fault>
    ensures lawful { IfOk result
        (λ keys. is_some keys ≡ list_all is_lawful_key (map (λ word. word.now) words.now)) }
    ensures keys { IfOk result
        (λ keys. IfSome keys (λ keys. keys ≡ map (λ word. word.now) words.now)) }
    ensures memory { IsOkUnless result Fault.Memory }
{
    let mut keys = KeyBlock::new(alloc);
    for word in words {
        if !keys.push(word)? {
            return Ok(None);
        }
    }
    Ok(Some(keys))
}

/// Returns the retrieval of one or more keys, or `None` if a word can't be read.
fn read_retrieval(
    alloc: Global,
    uniques: bool,
    arguments: &[&[u8]],
) -> Result<Option<Command>, Fault>
    ensures command { IfOk result
        (λ command. command ≡ retrieval_of uniques (map (λ word. word.now) arguments.now)) }
    ensures memory { IsOkUnless result Fault.Memory }
{
    let Some(keys) = read_keys(alloc, arguments)? else {
        return Ok(None);
    };
    match KeyList::new(keys) {
        Some(keys) => Ok(Some(Command::Get { keys, uniques })),
        None => Ok(None),
    }
}

/// Returns the deletion of a key, or `None` if it can't be read.
fn read_deletion(alloc: Global, arguments: &[&[u8]]) -> Result<Option<Command>, Fault>
    ensures command { IfOk result
        (λ command. command ≡ deletion_of (map (λ word. word.now) arguments.now)) }
    ensures memory { IsOkUnless result Fault.Memory }
{
    let [key] = arguments else {
        return Ok(None);
    };
    match Key::new(alloc, key)? {
        Some(key) => Ok(Some(Command::Delete { key })),
        None => Ok(None),
    }
}

/// Returns the key of a change, and by how much its number changes, or `None` if a word can't be
/// read.
fn read_change(alloc: Global, arguments: &[&[u8]]) -> Result<Option<(Key, u64)>, Fault>
    ensures change { IfOk result
        (λ change. change ≡ change_of (map (λ word. word.now) arguments.now)) }
    ensures memory { IsOkUnless result Fault.Memory }
{
    let [key, by] = arguments else {
        return Ok(None);
    };
    let key = Key::new(alloc, key)?;
    match (key, read_number(by, NUMBER)) {
        (Some(key), Some(by)) => Ok(Some((key, by))),
        _ => Ok(None),
    }
}

/// Returns the flush of the table, or `None` if there are words after its name.
fn read_flush(arguments: &[&[u8]]) -> Option<Command>
    ensures { result ≡ flush_of (map (λ word. word.now) arguments.now) }
{
    if arguments.is_empty() {
        Some(Command::Flush)
    } else {
        None
    }
}

/// Returns the command that sets these quotas, or `None` if the words aren't quotas of a tenant.
fn read_limit(arguments: &[&[u8]]) -> Option<Command>
    ensures { result ≡ limit_of (map (λ word. word.now) arguments.now) }
{
    let [items, bytes] = arguments else {
        return None;
    };
    let limits = Limits::read(items, bytes)?;
    Some(Command::Limit { limits })
}

/// Returns the command that the words say, or `None` if they say none. Returns `Memory` if an
/// allocation fails.
pub fn read_command(alloc: Global, found: &[&[u8]]) -> Result<Option<Command>, Fault>
    ensures command { IfOk result
        (λ command. command ≡ command_of (map (λ word. word.now) found.now)) }
    ensures memory { IsOkUnless result Fault.Memory }
{
    let Some((name, arguments)) = found.split_first() else {
        return Ok(None);
    };
    if is_word(name, b"set") {
        read_storage(alloc, Verb::Set, arguments)
    } else if is_word(name, b"add") {
        read_storage(alloc, Verb::Add, arguments)
    } else if is_word(name, b"replace") {
        read_storage(alloc, Verb::Replace, arguments)
    } else if is_word(name, b"append") {
        read_storage(alloc, Verb::Append, arguments)
    } else if is_word(name, b"prepend") {
        read_storage(alloc, Verb::Prepend, arguments)
    } else if is_word(name, b"cas") {
        read_cas(alloc, arguments)
    } else if is_word(name, b"get") {
        read_retrieval(alloc, false, arguments)
    } else if is_word(name, b"gets") {
        read_retrieval(alloc, true, arguments)
    } else if is_word(name, b"delete") {
        read_deletion(alloc, arguments)
    } else if is_word(name, b"incr") {
        Ok(read_change(alloc, arguments)?.map(|(key, by)| Command::Incr { key, by }))
    } else if is_word(name, b"decr") {
        Ok(read_change(alloc, arguments)?.map(|(key, by)| Command::Decr { key, by }))
    } else if is_word(name, b"flush_all") {
        Ok(read_flush(arguments))
    } else if is_word(name, b"limit") {
        Ok(read_limit(arguments))
    } else {
        Ok(None)
    }
}
