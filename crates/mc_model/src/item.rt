//! What a table holds under a key.
ghost use Rattle.std.specs.Cmp.{partial_equiv_from_equiv};
ghost use Rattle.std.specs.Cmp.Lexicographic.{nat_list_eq_equiv, pointwise};
ghost use Rattle.std.specs.Option.{SomeIff};
ghost use Rattle.std.specs.Prelude.{◌≡◌, ℕ, ◌≤◌, List, length, nat_eq, vec_len, IfOk, IsOkUnless};
ghost use Rattle.mc_model.specs.declared.item.TheConstants.{DATA_BYTES};

use crate::Fault;
use bytes::Bytes;
use smallvec::SmallVec;
use std::marker::Model;

/// The largest number of bytes in a data block.
pub const DATA_BYTES: usize = 1_048_576;

/// The least number of bytes of a block whose copies share its bytes: fewer are copied sooner than
/// they are counted.
pub const SHARED_BYTES: usize = 256;

/// How many bytes of a block's own need no allocation: as many as a shared block takes besides.
const INLINE_BYTES: usize = 24;

/// Where a block's bytes are.
#[derive(Debug, Drop)]
enum Octets {
    /// In a vector of the block's own.
    Owned(SmallVec<u8, INLINE_BYTES>),
    /// In a buffer that others may share.
    Shared(Bytes),
}

/// A data block: any bytes, at most `DATA_BYTES` of them.
#[derive(Debug, Drop)]
pub struct Data {
    octets: Octets,
}

impl Model for Data {
    ghost use Rattle.std.specs.Prelude.{ℕ, ◌≤◌, List, length};
    ghost use Rattle.mc_model.specs.declared.item.TheConstants.{DATA_BYTES};

    ghost Value = { List ℕ };

    ghost use Rattle.mc_model.specs.Octets.{bytes_of};

    ghost view = { λ block. bytes_of block.octets };

    ghost invariant = { λ block. length (bytes_of block.octets) ≤ DATA_BYTES };
}

impl Data {
    /// Returns the block of these bytes, or `None` if there are more than `DATA_BYTES`.
    pub fn new(bytes: Vec<u8>) -> Option<Data>
        ensures { SomeIff result (vec_len bytes ≤ DATA_BYTES) bytes.items }
    {
        if bytes.len() <= DATA_BYTES {
            Some(Data {
                octets: Octets::Owned(SmallVec::from_vec(bytes)),
            })
        } else {
            None
        }
    }

    /// Returns the block of these bytes, or `None` if there are more than `DATA_BYTES`. Copies of a
    /// block of at least `SHARED_BYTES` share its bytes, which takes an allocation. Returns
    /// `Memory` if that fails.
    pub fn shareable(bytes: Vec<u8>) -> Result<Option<Data>, Fault>
        ensures block { IfOk result
            (λ block. SomeIff block (vec_len bytes ≤ DATA_BYTES) bytes.items) }
        ensures memory { IsOkUnless result Fault.Memory }
    {
        if bytes.len() < SHARED_BYTES {
            return Ok(Data::new(bytes));
        }
        Ok(Data::from_bytes(Bytes::from_vec(bytes)?))
    }

    /// Returns the block of these bytes, which it shares, or `None` if there are more than
    /// `DATA_BYTES`. Allocates nothing.
    pub fn from_bytes(bytes: Bytes) -> Option<Data>
        ensures { SomeIff result (length bytes ≤ DATA_BYTES) bytes }
    {
        if bytes.len() > DATA_BYTES {
            return None;
        }
        Some(Data {
            octets: Octets::Shared(bytes),
        })
    }

    /// Returns the block's bytes.
    pub fn as_bytes(&self) -> &[u8]
        ensures value { result.now ≡ self.now }
        ensures few { length self.now ≤ DATA_BYTES }
    {
        match &self.octets {
            Octets::Owned(bytes) => bytes.as_slice(),
            Octets::Shared(bytes) => bytes.as_slice(),
        }
    }

    /// Returns a copy of the block, which shares a shared block's bytes. Returns `Memory` if the
    /// allocation fails.
    pub fn try_clone(&self) -> Result<Data, Fault>
        ensures block { IfOk result (λ block. block ≡ self.now) }
        ensures memory { IsOkUnless result Fault.Memory }
    {
        let octets = match &self.octets {
            Octets::Owned(bytes) => Octets::Owned(SmallVec::from_slice(*bytes.allocator(), bytes)?),
            Octets::Shared(bytes) => Octets::Shared(bytes.clone()?),
        };
        Ok(Data { octets })
    }
}

impl PartialEq for Data {
    ghost eq = { pointwise nat_eq };

    ghost laws = { partial_equiv_from_equiv nat_list_eq_equiv };

    fn eq(&self, other: &Data) -> bool {
        self.as_bytes() == other.as_bytes()
    }
}

impl Eq for Data {
    ghost laws = { nat_list_eq_equiv };
}

/// An item of a table: the flags and data that a client stored, and the unique of that change.
#[derive(Debug, PartialEq, Eq, Drop)]
pub struct Item {
    pub flags: u32,
    pub block: Data,
    pub unique: u64,
}
