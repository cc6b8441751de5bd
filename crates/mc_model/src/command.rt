//! Commands on a tenant's table.
ghost use Rattle.std.specs.Prelude.{◌≡◌, IfOk, IsOkUnless};

use crate::{Data, Fault, Key, KeyList, Limits};

/// The kind of a storage command.
#[derive(Clone, Copy, Debug, PartialEq, Eq)]
pub enum Verb {
    /// Stores the data, whether or not the key is held.
    Set,
    /// Stores the data only if the key isn't held.
    Add,
    /// Stores the data only if the key is held.
    Replace,
    /// Appends the data to the key's data.
    Append,
    /// Prepends the data to the key's data.
    Prepend,
}

/// A command on a tenant's table.
#[derive(Debug, PartialEq, Eq, Drop)]
pub enum Command {
    /// Stores data under a key.
    Store {
        verb: Verb,
        key: Key,
        flags: u32,
        block: Data,
    },
    /// Stores data under a key if its item still has this unique: check and set.
    Cas {
        key: Key,
        flags: u32,
        block: Data,
        unique: u64,
    },
    /// Retrieves the items under these keys, with their uniques if `uniques` is set.
    Get {
        keys: KeyList,
        uniques: bool,
    },
    /// Removes the key.
    Delete {
        key: Key,
    },
    /// Adds to the number under the key.
    Incr {
        key: Key,
        by: u64,
    },
    /// Subtracts from the number under the key.
    Decr {
        key: Key,
        by: u64,
    },
    /// Removes all keys.
    Flush,
    /// Sets the tenant's quotas. Items that are there stay.
    Limit {
        limits: Limits,
    },
}

impl Command {
    /// Returns a copy of the command. Returns `Memory` if an allocation fails.
    pub fn try_clone(&self) -> Result<Command, Fault>
        ensures command { IfOk result (λ command. command ≡ self.now) }
        ensures memory { IsOkUnless result Fault.Memory }
    {
        Ok(match self {
            Command::Store {
                verb,
                key,
                flags,
                block,
            } => Command::Store {
                verb: *verb,
                key: key.try_clone()?,
                flags: *flags,
                block: block.try_clone()?,
            },
            Command::Cas {
                key,
                flags,
                block,
                unique,
            } => Command::Cas {
                key: key.try_clone()?,
                flags: *flags,
                block: block.try_clone()?,
                unique: *unique,
            },
            Command::Get { keys, uniques } => Command::Get {
                keys: keys.try_clone()?,
                uniques: *uniques,
            },
            Command::Delete { key } => Command::Delete {
                key: key.try_clone()?,
            },
            Command::Incr { key, by } => Command::Incr {
                key: key.try_clone()?,
                by: *by,
            },
            Command::Decr { key, by } => Command::Decr {
                key: key.try_clone()?,
                by: *by,
            },
            Command::Flush => Command::Flush,
            Command::Limit { limits } => Command::Limit { limits: *limits },
        })
    }
}
