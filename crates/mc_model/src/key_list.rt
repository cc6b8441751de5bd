//! The list of keys of a retrieval.
ghost use Rattle.std.specs.Cmp.{partial_equiv_from_equiv};
ghost use Rattle.std.specs.Cmp.Lexicographic.{lists_equiv, nat_list_eq_equiv, pointwise};
ghost use Rattle.std.specs.Option.{SomeIff};
ghost use Rattle.std.specs.Prelude.{◌≡◌, ◌<◌, [], ◌∷◌, length, nat_eq, IfOk, IfSome, IsOkUnless};
ghost use Rattle.mc_model.specs.KeyBlocks.{block_of};

use crate::key_block::KeyTexts;
use crate::{Fault, Key, KeyBlock};
use std::marker::Model;

/// Where the keys of a list are.
#[derive(Debug, Drop)]
enum Keys {
    /// The only key, without a block.
    Single(Key),
    /// In a block.
    Several(KeyBlock),
}

/// The keys of a retrieval, at least one, in the line's order.
#[derive(Debug, Drop)]
pub struct KeyList {
    keys: Keys,
}

impl Model for KeyList {
    ghost use Rattle.std.specs.Prelude.{◌<◌, List, length};
    ghost use Rattle.mc_model.specs.declared.key.Key.{Key};

    ghost Value = { List Key };

    ghost use Rattle.mc_model.specs.Keys.{keys_of};

    ghost view = { λ list. keys_of list.keys };

    ghost invariant = { λ list. 0 < length (keys_of list.keys) };
}

impl KeyList {
    /// Returns the list of these keys, or `None` if there are none.
    pub fn new(keys: KeyBlock) -> Option<KeyList>
        ensures { SomeIff result (0 < length keys) keys }
    {
        if keys.len() == 0 {
            None
        } else {
            Some(KeyList {
                keys: Keys::Several(keys),
            })
        }
    }

    /// Returns the list of this key alone. Allocates nothing.
    pub fn single(key: Key) -> KeyList
        ensures { result ≡ key ∷ [] }
    {
        KeyList {
            keys: Keys::Single(key),
        }
    }

    /// Returns the number of keys, of which there is at least one.
    pub fn len(&self) -> usize
        ensures len { result ≡ length self.now }
        ensures some { 0 < result }
    {
        match &self.keys {
            Keys::Single(_) => 1,
            Keys::Several(keys) => keys.len(),
        }
    }

    /// Returns how many bytes the keys take in a block: their own, and one for the length of each.
    pub fn size(&self) -> usize
        ensures { result ≡ length (block_of self.now) }
    {
        match &self.keys {
            Keys::Single(key) => 1 + key.as_bytes().len(),
            Keys::Several(keys) => keys.size(),
        }
    }

    /// Returns the key that is the list's only one, if it was made of that.
    pub fn only(&self) -> Option<&Key>
        ensures { IfSome result (λ key. self.now ≡ key.now ∷ []) }
    {
        match &self.keys {
            Keys::Single(key) => Some(key),
            Keys::Several(_) => None,
        }
    }

    /// Returns the keys, to be looked at one after another.
    pub fn texts(&self) -> KeyTexts<'_>
        ensures { result ≡ self.now }
    {
        match &self.keys {
            Keys::Single(key) => KeyTexts::of(key),
            Keys::Several(keys) => keys.texts(),
        }
    }

    /// Returns a copy of the list. Returns `Memory` if the allocation fails.
    pub fn try_clone(&self) -> Result<KeyList, Fault>
        ensures keys { IfOk result (λ keys. keys ≡ self.now) }
        ensures memory { IsOkUnless result Fault.Memory }
    {
        let keys = match &self.keys {
            Keys::Single(key) => Keys::Single(key.try_clone()?),
            Keys::Several(keys) => Keys::Several(keys.try_clone()?),
        };
        Ok(KeyList { keys })
    }
}

impl PartialEq for KeyList {
    ghost eq = { pointwise (pointwise nat_eq) };

    ghost laws = { partial_equiv_from_equiv (lists_equiv nat_list_eq_equiv) };

    fn eq(&self, other: &KeyList) -> bool {
        match (&self.keys, &other.keys) {
            (Keys::Single(key), Keys::Single(other)) => key == other,
            (Keys::Single(key), Keys::Several(keys)) => keys.is_only(key),
            (Keys::Several(keys), Keys::Single(key)) => keys.is_only(key),
            (Keys::Several(keys), Keys::Several(others)) => keys == others,
        }
    }
}

impl Eq for KeyList {
    ghost laws = { lists_equiv nat_list_eq_equiv };
}
