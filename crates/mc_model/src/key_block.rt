//! Several keys in one block.
ghost use Rattle.std.specs.Cmp.{partial_equiv_from_equiv};
ghost use Rattle.std.specs.Cmp.Lexicographic.{lists_equiv, nat_list_eq_equiv, pointwise};
ghost use Rattle.std.specs.Prelude.{◌≡◌, [], ◌∷◌, ◌++◌, length, nat_eq, false, IfOk, IsOk, IsTrue, IsOkUnless, MatchOption, OnErr, OnOk, if◌then◌else◌};
ghost use Rattle.mc_model.specs.Key.{is_lawful_key};
ghost use Rattle.mc_model.specs.KeyBlocks.{block_of};

use crate::{Fault, Key};
use std::alloc::Global;
use std::marker::Model;

/// Keys one after another in one block, each after a byte with its length, so that they take as
/// many bytes as in a line.
#[derive(Debug, Drop)]
pub struct KeyBlock {
    count: usize,
    bytes: Vec<u8>,
}

impl Model for KeyBlock {
    ghost use Rattle.std.specs.Prelude.{List};
    ghost use Rattle.mc_model.specs.declared.key.Key.{Key};

    ghost Value = { List Key };

    ghost use Rattle.mc_model.specs.KeyBlocks.{IsKeyBlock, keys_in};

    ghost view = { λ block. keys_in block.count block.bytes.items };

    ghost invariant = { λ block. IsKeyBlock block.count block.bytes.items };
}

impl KeyBlock {
    /// Returns a block without keys. Allocates nothing.
    pub fn new(alloc: Global) -> KeyBlock
        ensures { result ≡ [] }
    {
        KeyBlock {
            count: 0,
            bytes: Vec::new(alloc),
        }
    }

    /// Returns a block without keys, with room for this many bytes: those of each key, and one for
    /// its length. Returns `Memory` if the allocation fails.
    pub fn with_capacity(alloc: Global, bytes: usize) -> Result<KeyBlock, Fault>
        ensures none { IfOk result (λ block. block ≡ []) }
        ensures memory { IsOkUnless result Fault.Memory }
    {
        Ok(KeyBlock {
            count: 0,
            bytes: Vec::with_capacity(alloc, bytes)?,
        })
    }

    /// Adds a key after the others and returns true, or returns false if the bytes aren't a valid
    /// key. Returns `Memory` if an allocation fails; nothing changes then.
    pub fn push(&mut self, key: &[u8]) -> Result<bool, Fault>
        ensures lawful { IfOk result (λ pushed. pushed ≡ is_lawful_key key.now) }
        ensures keys { OnOk result
            (self.new ≡ (if is_lawful_key key.now then self.old ++ key.now ∷ [] else self.old)) }
        ensures memory { IsOkUnless result Fault.Memory }
        // What is no key needs no memory.
        ensures unlawful { is_lawful_key key.now ≡ false → IsOk result }
        ensures unchanged { OnErr result (self.new ≡ self.old) }
    {
        if !Key::is_lawful(key) {
            return Ok(false);
        }
        self.bytes.reserve(1 + key.len())?;
        self.bytes.push(key.len() as u8)?;
        self.bytes.extend_from_slice(key)?;
        self.count += 1;
        Ok(true)
    }

    /// Returns the number of keys.
    pub fn len(&self) -> usize
        ensures { result ≡ length self.now }
    {
        self.count
    }

    /// Returns how many bytes the block takes: those of each key, and one for its length.
    pub fn size(&self) -> usize
        ensures { result ≡ length (block_of self.now) }
    {
        self.bytes.len()
    }

    /// Returns the keys, to be looked at one after another.
    pub fn texts(&self) -> KeyTexts<'_>
        ensures { result ≡ self.now }
    {
        KeyTexts {
            single: None,
            count: self.count,
            bytes: &self.bytes,
        }
    }

    /// Returns whether this key is the only one.
    pub fn is_only(&self, key: &Key) -> bool
        ensures { result ≡ pointwise (pointwise nat_eq) (key.now ∷ []) self.now }
    {
        let mut texts = self.texts();
        match (texts.next(), texts.next()) {
            (Some(text), None) => key.as_bytes() == text,
            _ => false,
        }
    }

    /// Returns a copy. Returns `Memory` if the allocation fails.
    pub fn try_clone(&self) -> Result<KeyBlock, Fault>
        ensures keys { IfOk result (λ block. block ≡ self.now) }
        ensures memory { IsOkUnless result Fault.Memory }
    {
        Ok(KeyBlock {
            count: self.count,
            bytes: Vec::from_slice(*self.bytes.allocator(), &self.bytes)?,
        })
    }
}

impl PartialEq for KeyBlock {
    ghost eq = { pointwise (pointwise nat_eq) };

    ghost laws = { partial_equiv_from_equiv (lists_equiv nat_list_eq_equiv) };

    fn eq(&self, other: &KeyBlock) -> bool {
        self.count == other.count && self.bytes == other.bytes
    }
}

impl Eq for KeyBlock {
    ghost laws = { lists_equiv nat_list_eq_equiv };
}

/// The bytes of keys that are still to be looked at, where they stand.
#[derive(Debug, Drop)]
pub struct KeyTexts<'a> {
    single: Option<&'a Key>,
    count: usize,
    bytes: &'a [u8],
}

impl<'a> Model for KeyTexts<'a> {
    ghost use Rattle.std.specs.Prelude.{◌++◌, List};
    ghost use Rattle.mc_model.specs.declared.key.Key.{Key};

    ghost Value = { List Key };

    ghost use Rattle.mc_model.specs.KeyBlocks.{IsKeyBlock, lone_key, keys_in};

    ghost view = { λ texts. lone_key texts.single ++ keys_in texts.count texts.bytes.now };

    ghost invariant = { λ texts. IsKeyBlock texts.count texts.bytes.now };
}

impl<'a> KeyTexts<'a> {
    /// Returns the bytes of a key that stands alone.
    pub fn of(key: &'a Key) -> KeyTexts<'a>
        ensures { result ≡ key.now ∷ [] }
    {
        KeyTexts {
            single: Some(key),
            count: 0,
            bytes: &[],
        }
    }

    /// Takes the next key, if there is one, and returns its bytes.
    pub fn next(&mut self) -> Option<&'a [u8]>
        ensures { MatchOption result ((self.old ≡ []) × (self.new ≡ []))
            (λ text. (self.old ≡ text.now ∷ self.new) × IsTrue (is_lawful_key text.now)) }
    {
        if let Some(key) = self.single {
            self.single = None;
            return Some(key.as_bytes());
        }
        let (len, bytes) = self.bytes.split_first()?;
        let (text, others) = bytes.split_at(usize::from(*len));
        self.count -= 1;
        self.bytes = others;
        Some(text)
    }
}
