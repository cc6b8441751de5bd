//! Replies, and the refusals among them.
ghost use Rattle.std.specs.Prelude.{◌≡◌, List, IfErr, IfOk, IsOkUnless};

use crate::{Fault, Fragments, Key};
use std::alloc::Global;
use std::marker::Model;

/// A refusal. Each variant is documented by the line that the client reads.
#[derive(Clone, Copy, Debug, PartialEq, Eq)]
pub enum WireNo {
    /// `ERROR`
    E1,
    /// `CLIENT_ERROR bad command line format`
    E2,
    /// `CLIENT_ERROR bad data chunk`
    E3,
    /// `CLIENT_ERROR expiry is not supported`
    E4,
    /// `CLIENT_ERROR line too long`
    E5,
    /// `SERVER_ERROR object too large for cache`
    E6,
    /// `SERVER_ERROR out of memory storing object`
    E7,
    /// `CLIENT_ERROR cannot increment or decrement non-numeric value`
    E8,
    /// `CLIENT_ERROR invalid numeric delta argument`
    E9,
    /// `SERVER_ERROR log full`
    E10,
    /// `SERVER_ERROR out of memory`
    E11,
}

/// The refusals by name, each with what it is given for.
impl WireNo {
    /// For a line without a known name, or with a number of words that its name doesn't take.
    pub const UNKNOWN_COMMAND: WireNo = WireNo::E1;

    /// For a line with a word that isn't allowed where it is.
    pub const BAD_FORMAT: WireNo = WireNo::E2;

    /// For a block that isn't followed by `\r\n`.
    pub const BAD_BLOCK: WireNo = WireNo::E3;

    /// For an exptime that isn't zero.
    pub const NO_EXPIRY: WireNo = WireNo::E4;

    /// For a line without an end within the bytes that a line may have; the stream ends.
    pub const LINE_TOO_LONG: WireNo = WireNo::E5;

    /// For a block, sent or joined, of more bytes than a block may have.
    pub const TOO_LARGE: WireNo = WireNo::E6;

    /// For a change that would lead above a quota.
    pub const NO_ROOM: WireNo = WireNo::E7;

    /// For an `incr` or `decr` of data that are no number.
    pub const NOT_A_NUMBER: WireNo = WireNo::E8;

    /// For an `incr` or `decr` by a delta that can't be read.
    pub const BAD_DELTA: WireNo = WireNo::E9;

    /// For a command after the last place of the log.
    pub const LOG_FULL: WireNo = WireNo::E10;

    /// For a failed allocation; the stream ends.
    pub const OUT_OF_MEMORY: WireNo = WireNo::E11;
}

/// An item as a retrieval shows it; `unique` is `Some` if the retrieval shows uniques.
#[derive(Debug, PartialEq, Eq, Drop)]
pub struct Value<'a> {
    pub key: Key,
    pub flags: u32,
    pub block: Fragments<'a>,
    pub unique: Option<u64>,
}

impl<'a> Value<'a> {
    /// Returns the same value, which borrows nothing. Returns `Memory` if an allocation fails.
    pub fn into_owned(self, alloc: Global) -> Result<Value<'static>, Fault>
        ensures same { IfOk result (λ value. value ≡ self.entry) }
        ensures memory { IsOkUnless result Fault.Memory }
    {
        Ok(Value {
            key: self.key,
            flags: self.flags,
            block: self.block.into_owned(alloc)?,
            unique: self.unique,
        })
    }
}

/// The items that a retrieval found, in the line's order.
#[derive(Debug, Drop)]
pub struct ValueList<'a> {
    values: Vec<Value<'a>>,
}

impl<'a> Model for ValueList<'a> {
    ghost use Rattle.std.specs.Prelude.{List};
    ghost use Rattle.mc_model.specs.declared.reply.Value.{Value as Shown};

    ghost Value = { List Shown };

    ghost view = { λ list. list.values.items };
}

impl<'a> ValueList<'a> {
    /// Returns the list of these values.
    pub fn new(values: Vec<Value<'a>>) -> ValueList<'a>
        ensures { result ≡ values.entry.items }
    {
        ValueList { values }
    }

    /// Returns the values as a slice.
    pub fn as_slice(&self) -> &[Value<'a>]
        ensures { result.now ≡ self.now }
    {
        self.values.as_slice()
    }

    /// Returns the values, in the vector that they were given in.
    pub fn into_values(self) -> Vec<Value<'a>>
        ensures { result.items ≡ self.entry }
    {
        let Self { values } = self;
        values
    }

    /// Returns the same values, which borrow nothing. Returns `Memory` if an allocation fails.
    pub fn into_owned(self, alloc: Global) -> Result<ValueList<'static>, Fault>
        ensures same { IfOk result (λ list. list ≡ self.entry) }
        ensures memory { IsOkUnless result Fault.Memory }
    {
        let values = self.into_values();
        let mut owned = Vec::with_capacity(alloc, values.len())?;
        for value in values {
            owned.push(value.into_owned(alloc)?)?;
        }
        Ok(ValueList { values: owned })
    }
}

impl<'a> PartialEq for ValueList<'a> {
    ghost use Rattle.std.specs.Cmp.{partial_equiv_from_equiv};
    ghost use Rattle.std.specs.Cmp.Lexicographic.{lists_equiv, pointwise};
    ghost use Rattle.mc_model.specs.contracts.reply.ValuePartialEq.TheImpl as shown;
    ghost use Rattle.mc_model.specs.contracts.reply.ValueEq.TheImpl.Laws as shown_laws;

    ghost eq = { pointwise shown.ghosts.eq };

    ghost laws = { partial_equiv_from_equiv (lists_equiv shown_laws.lawful.laws) };

    fn eq(&self, other: &ValueList<'a>) -> bool {
        self.values == other.values
    }
}

impl<'a> Eq for ValueList<'a> {
    ghost use Rattle.std.specs.Cmp.Lexicographic.{lists_equiv};
    ghost use Rattle.mc_model.specs.contracts.reply.ValueEq.TheImpl.Laws as shown_laws;

    ghost laws = { lists_equiv shown_laws.lawful.laws };
}

/// The reply to a request.
#[derive(Debug, PartialEq, Eq, Drop)]
pub enum Reply<'a> {
    /// `STORED`
    Stored,
    /// `NOT_STORED`
    NotStored,
    /// `EXISTS`
    Exists,
    /// `NOT_FOUND`
    NotFound,
    /// `DELETED`
    Deleted,
    /// `OK`
    Ok,
    /// The number after an arithmetic command.
    Number(u64),
    /// The items found, then `END`.
    Values(ValueList<'a>),
    /// `VERSION 1.0.0`
    Version,
    /// A refusal.
    Refused(WireNo),
}

impl<'a> Reply<'a> {
    ghost use Rattle.mc_model.specs.declared.reply.Value.{Value as Shown};

    /// Returns the same reply, which borrows nothing. Returns `Memory` if an allocation fails; only
    /// the items of a retrieval need one.
    pub fn into_owned(self, alloc: Global) -> Result<Reply<'static>, Fault>
        ensures same { IfOk result (λ reply. reply ≡ self.entry) }
        ensures memory { IsOkUnless result Fault.Memory }
        ensures items { IfErr result
            (λ fault. (values : List Shown) × (self.entry ≡ Reply.Values values)) }
    {
        Ok(match self {
            Reply::Stored => Reply::Stored,
            Reply::NotStored => Reply::NotStored,
            Reply::Exists => Reply::Exists,
            Reply::NotFound => Reply::NotFound,
            Reply::Deleted => Reply::Deleted,
            Reply::Ok => Reply::Ok,
            Reply::Number(number) => Reply::Number(number),
            Reply::Values(values) => Reply::Values(values.into_owned(alloc)?),
            Reply::Version => Reply::Version,
            Reply::Refused(refusal) => Reply::Refused(refusal),
        })
    }
}
