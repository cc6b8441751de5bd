//! What is left of fragments, to compare them with others.
ghost use Rattle.std.specs.Cmp.Lexicographic.{pointwise};
ghost use Rattle.std.specs.Prelude.{◌≡◌, ◌≢◌, ◌≤◌, ◌⊎◌, [], ◌++◌, IsFalse, IsTrue, flat_map, length, nat_eq, take};
ghost use Rattle.mc_model.specs.Joined.{fragment_bytes, fragments_left, unread_bytes};

use crate::fragments::Fragment;
use std::collections::VecDeque;

/// What is left of some fragments: the rest of one, and those of a list from a place on.
#[derive(Drop)]
pub(crate) struct Unread<'f, 'a> {
    rest: &'f [u8],
    list: Option<&'f VecDeque<Fragment<'a>>>,
    next: usize,
}

impl<'f, 'a> Unread<'f, 'a> {
    /// Returns one fragment, none of whose bytes is read.
    pub(crate) fn single(bytes: &'f [u8]) -> Unread<'f, 'a>
        ensures { unread_bytes result ≡ bytes.now }
    {
        Unread {
            rest: bytes,
            list: None,
            next: 0,
        }
    }

    /// Returns a list of fragments, none of which is read.
    pub(crate) fn list(list: &'f VecDeque<Fragment<'a>>) -> Unread<'f, 'a>
        ensures { unread_bytes result ≡ flat_map fragment_bytes list.now.items }
    {
        Unread {
            rest: b"",
            list: Some(list),
            next: 0,
        }
    }

    /// Reads these bytes, and returns whether they come next. If they don't, it is left in part.
    pub(crate) fn reads(&mut self, bytes: &[u8]) -> bool
        ensures read { IsTrue result → unread_bytes self.old ≡ bytes.now ++ unread_bytes self.new }
        ensures others { IsFalse result →
            take (length bytes.now) (unread_bytes self.old) ≢ bytes.now }
    {
        let Some(list) = self.list else {
            return self.reads_here(bytes);
        };
        let mut wanted = bytes;
        for place in self.next..list.len() {
            if wanted.len() <= self.rest.len() {
                return self.reads_here(wanted);
            }
            let (front, back) = wanted.split_at(self.rest.len());
            if front != self.rest {
                return false;
            }
            wanted = back;
            self.rest = list[place].as_bytes();
            self.next = place + 1;
        }
        self.reads_here(wanted)
    }

    /// Reads all that is left, and returns whether it is these bytes, of which there are as many.
    pub(crate) fn is(&mut self, bytes: &[u8]) -> bool
        requires { length bytes.now ≡ length (unread_bytes self.old) }
        ensures { result ≡ pointwise nat_eq bytes.now (unread_bytes self.old) }
    {
        self.reads(bytes)
    }

    /// Does as `reads` for bytes that can come in one fragment alone.
    fn reads_here(&mut self, bytes: &[u8]) -> bool
        requires { (length bytes.now ≤ length self.old.rest.now)
            ⊎ (fragments_left self.old ≡ []) }
        ensures read { IsTrue result → unread_bytes self.old ≡ bytes.now ++ unread_bytes self.new }
        ensures others { IsFalse result →
            take (length bytes.now) (unread_bytes self.old) ≢ bytes.now }
    {
        if self.rest.len() < bytes.len() {
            return false;
        }
        let (front, back) = self.rest.split_at(bytes.len());
        self.rest = back;
        front == bytes
    }
}
