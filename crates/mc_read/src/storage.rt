//! Lines with a block: `set`, `add`, `replace`, `append`, `prepend` and `cas`.
ghost use Rattle.std.specs.Prelude.{◌≡◌, IfOk, IsOkUnless};
ghost use Rattle.mc_model.specs.Number.{number_up_to};
ghost use Rattle.mc_read.specs.Line.{HasLawfulBlock, asked_of_block, asked_of_cas, asked_of_storage, first_failure, ignores_exptime, storage_checks};

use crate::line::{
    Asked, BLOCK_LENGTH, FLAGS, Header, Storage, UNIQUE, is_quiet_refusal, malformed, no_command,
};
use crate::words::{Words, is_exptime, is_noreply, is_zero};
use mc_model::item::DATA_BYTES;
use mc_model::{Fault, Key, Verb, WireNo, read_number};
use std::alloc::Global;

/// The words of a storage line after its name. Flags that aren't a number are `None`.
#[derive(Clone, Copy)]
struct StorageLine<'a> {
    /// How the block is stored; `None` if the unique of `cas` can't be read.
    storage: Option<Storage>,
    key: &'a [u8],
    flags: Option<u32>,
    exptime: &'a [u8],
    size: &'a [u8],
    /// The last word of the longer form.
    last: Option<&'a [u8]>,
}

/// Returns the flags, if the word is a number in their range.
fn read_flags(word: &[u8]) -> Option<u32>
    ensures { result ≡ number_up_to FLAGS word.now }
{
    match read_number(word, FLAGS) {
        Some(flags) => Some(flags as u32),
        None => None,
    }
}

/// Returns whether the value of the exptime is ignored, because the item keeps its own.
fn ignores_exptime(storage: Option<Storage>) -> bool
    ensures { result ≡ ignores_exptime storage }
{
    matches!(storage, Some(Storage::Plain(Verb::Append | Verb::Prepend)))
}

impl StorageLine<'_> {
    ghost use Rattle.mc_read.specs.Words.{storage_line};

    /// Returns the refusal of the first check that fails, for a block of this length.
    fn refusal(&self, length: u64) -> Option<WireNo>
        ensures { result ≡ first_failure (storage_checks (storage_line self.now) length) }
    {
        let is_well_formed = self.last.is_none_or(|word| is_noreply(word))
            && Key::is_lawful(self.key)
            && self.flags.is_some()
            && is_exptime(self.exptime)
            && self.storage.is_some();
        if !is_well_formed {
            Some(WireNo::BAD_FORMAT)
        } else if !ignores_exptime(self.storage) && !is_zero(self.exptime) {
            Some(WireNo::NO_EXPIRY)
        } else if length > DATA_BYTES as u64 {
            Some(WireNo::TOO_LARGE)
        } else {
            None
        }
    }

    /// Returns what the line asks for. Returns `Memory` if an allocation fails.
    fn ask(&self, alloc: Global) -> Result<Asked, Fault>
        ensures asked { IfOk result (λ asked. asked ≡ asked_of_block (storage_line self.now)) }
        ensures lawful { IfOk result HasLawfulBlock }
        ensures memory { IsOkUnless result Fault.Memory }
    {
        let Some(length) = read_number(self.size, BLOCK_LENGTH) else {
            return Ok(malformed());
        };
        let noreply = self.last.is_some();
        if let Some(refusal) = self.refusal(length) {
            return Ok(Asked::RefusedBlock {
                length,
                refusal,
                quiet: noreply && is_quiet_refusal(refusal),
            });
        }
        match (self.storage, Key::new(alloc, self.key)?, self.flags) {
            (Some(storage), Some(key), Some(flags)) => Ok(Asked::StoredBlock(Header {
                length,
                storage,
                key,
                flags,
                quiet: noreply,
            })),
            _ => unreachable!(),
        }
    }
}

/// Returns what a line of `set`, `add`, `replace`, `append` or `prepend` asks for, given the words
/// after its name. Returns `Memory` if an allocation fails.
pub fn ask_storage(alloc: Global, verb: Verb, arguments: Words<'_>) -> Result<Asked, Fault>
    ensures asked { IfOk result (λ asked. asked ≡ asked_of_storage verb arguments.entry) }
    ensures lawful { IfOk result HasLawfulBlock }
    ensures memory { IsOkUnless result Fault.Memory }
{
    let mut arguments = arguments;
    let Some(key) = arguments.next() else {
        return Ok(no_command());
    };
    let Some(flags) = arguments.next() else {
        return Ok(no_command());
    };
    let Some(exptime) = arguments.next() else {
        return Ok(no_command());
    };
    let Some(size) = arguments.next() else {
        return Ok(no_command());
    };
    let last = arguments.next();
    if arguments.next().is_some() {
        return Ok(no_command());
    }
    let line = StorageLine {
        storage: Some(Storage::Plain(verb)),
        key,
        flags: read_flags(flags),
        exptime,
        size,
        last,
    };
    line.ask(alloc)
}

/// Returns what a line of `cas` asks for, given the words after its name. Returns `Memory` if an
/// allocation fails.
pub fn ask_cas(alloc: Global, arguments: Words<'_>) -> Result<Asked, Fault>
    ensures asked { IfOk result (λ asked. asked ≡ asked_of_cas arguments.entry) }
    ensures lawful { IfOk result HasLawfulBlock }
    ensures memory { IsOkUnless result Fault.Memory }
{
    let mut arguments = arguments;
    let Some(key) = arguments.next() else {
        return Ok(no_command());
    };
    let Some(flags) = arguments.next() else {
        return Ok(no_command());
    };
    let Some(exptime) = arguments.next() else {
        return Ok(no_command());
    };
    let Some(size) = arguments.next() else {
        return Ok(no_command());
    };
    let Some(unique) = arguments.next() else {
        return Ok(no_command());
    };
    let last = arguments.next();
    let more = arguments.next();
    if more.is_some() {
        return Ok(no_command());
    }
    let line = StorageLine {
        storage: read_number(unique, UNIQUE).map(Storage::CheckAndSet),
        key,
        flags: read_flags(flags),
        exptime,
        size,
        last,
    };
    line.ask(alloc)
}
