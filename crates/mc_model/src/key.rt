//! Keys.
ghost use Rattle.std.specs.Cmp.{partial_equiv_from_equiv, partial_order_from_agreeing_total};
ghost use mathlib.Core.Path.{ap};
ghost use Rattle.std.specs.Cmp.Lexicographic.{bytes_decides, lists_equiv, nat_list_cmp_total, nat_list_eq_equiv, pointwise, slice_cmp, texts_ties};
ghost use Rattle.std.specs.List.{list_all};
ghost use Rattle.std.specs.Option.{SomeIff};
ghost use Rattle.std.specs.Ordering.{nat_cmp};
ghost use Rattle.std.specs.Prelude.{◌≡◌, ◌≢◌, ℕ, ◌<◌, ◌≤◌, [], ◌∷◌, List, length, nat_eq, vec_len, Some, refl, All, IsTrue, IfOk, OnErr, IsOkUnless};
ghost use Rattle.mc_model.specs.Key.{is_key_byte, is_lawful_key, key_of};

use crate::Fault;
use crate::compare::compare;
use smallvec::SmallVec;
use std::alloc::Global;
use std::cmp::Ordering;
use std::hash::{Hash, Hasher};
use std::marker::Model;

/// The largest number of bytes in a key.
pub const KEY_BYTES: usize = 250;

/// How many bytes of a key need no allocation.
const INLINE_BYTES: usize = 24;

/// A valid key: 1 to `KEY_BYTES` bytes, none of them a control character or a space.
#[derive(Debug, Drop)]
pub struct Key {
    bytes: SmallVec<u8, INLINE_BYTES>,
}

impl Model for Key {
    ghost Value = { List ℕ };

    ghost view = { λ key. key.bytes.items };

    ghost invariant = { λ key. IsTrue (is_lawful_key key.bytes.items) };
}

impl Key {
    /// Returns whether the bytes are a valid key.
    pub fn is_lawful(bytes: &[u8]) -> bool
        ensures { result ≡ is_lawful_key bytes.now }
    {
        !bytes.is_empty() && bytes.len() <= KEY_BYTES && are_plain(bytes)
    }

    /// Returns the key of these bytes, or `None` if they aren't a valid key. Returns `Memory` if
    /// the allocation fails; only a valid key is allocated.
    pub fn new(alloc: Global, bytes: &[u8]) -> Result<Option<Key>, Fault>
        ensures key { IfOk result (λ key. key ≡ key_of bytes.now) }
        ensures memory { IsOkUnless result Fault.Memory }
        ensures unlawful { OnErr result (IsTrue (is_lawful_key bytes.now)) }
    {
        if !Key::is_lawful(bytes) {
            return Ok(None);
        }
        Ok(Some(Key {
            bytes: SmallVec::from_slice(alloc, bytes)?,
        }))
    }

    /// Returns the key's bytes.
    pub fn as_bytes(&self) -> &[u8]
        ensures value { result.now ≡ self.now }
        ensures lawful { IsTrue (is_lawful_key self.now) }

        // What makes a key valid.
        ensures some { 0 < length self.now }
        ensures few { length self.now ≤ KEY_BYTES }
        ensures plain { All (λ byte. (32 < byte) × (byte ≢ 127)) self.now }
    {
        self.bytes.as_slice()
    }

    /// Returns a copy of the key. Returns `Memory` if the allocation fails.
    pub fn try_clone(&self) -> Result<Key, Fault>
        ensures key { IfOk result (λ key. key ≡ self.now) }
        ensures memory { IsOkUnless result Fault.Memory }
    {
        Ok(Key {
            bytes: SmallVec::from_slice(*self.bytes.allocator(), self.as_bytes())?,
        })
    }
}

/// Returns whether no byte is a control character or a space. It looks at all of them, without a
/// branch at each, so that many are compared at once.
fn are_plain(bytes: &[u8]) -> bool
    ensures { result ≡ list_all is_key_byte bytes.now }
{
    let mut are_plain = true;
    for byte in bytes {
        are_plain &= (*byte > 32) & (*byte != 127);
    }
    are_plain
}

impl PartialEq for Key {
    ghost eq = { pointwise nat_eq };

    ghost laws = { partial_equiv_from_equiv nat_list_eq_equiv };

    fn eq(&self, other: &Key) -> bool {
        self.as_bytes() == other.as_bytes()
    }
}

impl Eq for Key {
    ghost laws = { nat_list_eq_equiv };
}

/// A hasher takes in the bytes by one write, where a slice of bytes writes its length and then each
/// byte. A length keeps apart the parts of what has several: a key is all that is hashed.
impl Hash for Key {
    ghost hash_input = { λ key. key ∷ [] };

    ghost respects_eq = { λ key other same. ap (λ bytes. bytes ∷ []) ((bytes_decides key other).0 same) };

    #[inline(always)]
    fn hash<H: Hasher>(&self, state: &mut H) {
        state.write(self.as_bytes());
    }
}

impl PartialOrd for Key {
    ghost partial_cmp = { λ key other. Some (slice_cmp nat_cmp key other) };

    ghost laws = { partial_order_from_agreeing_total (slice_cmp nat_cmp) nat_list_cmp_total (λ key other. refl) texts_ties };

    fn partial_cmp(&self, other: &Key) -> Option<Ordering> {
        Some(self.cmp(other))
    }
}

/// Keys are ordered as their bytes are.
impl Ord for Key {
    ghost cmp = { slice_cmp nat_cmp };

    ghost total = { nat_list_cmp_total };

    ghost matches_partial_cmp = { λ key other. refl };

    ghost matches_eq = { texts_ties };

    fn cmp(&self, other: &Key) -> Ordering {
        compare(self.as_bytes(), other.as_bytes())
    }
}
