//! Data as a list of fragments.
ghost use Rattle.std.specs.Cmp.{partial_equiv_from_equiv};
ghost use Rattle.std.specs.Cmp.Lexicographic.{nat_list_eq_equiv, pointwise};
ghost use Rattle.std.specs.Io.{StartsWith};
ghost use Rattle.std.specs.Prelude.{◌≡◌, ◌+◌, ◌≤◌, ◌<◌, [], ◌++◌, IsTrue, decimal, flat_map, length, nat_eq, take, vec_capacity, vec_len, IfOk, OnOk, OnErr, IsOk, IsOkUnless};
ghost use Rattle.std.specs.VecDeque.{deque_capacity, deque_len};
ghost use Rattle.mc_model.specs.Number.{numeric_value};
ghost use Rattle.mc_model.specs.declared.item.TheConstants.{DATA_BYTES};
ghost use Rattle.mc_model.specs.Joined.{fragment_bytes, is_single, joined_pieces, unread_bytes};

use crate::digits::Digits;
use crate::unread::Unread;
use crate::{Data, Fault, Sink, read_number};
use std::alloc::{AllocError, Global};
use std::collections::VecDeque;
use std::marker::Model;
use std::mem::replace;

/// The largest number of bytes of a number in data.
const NUMBER_BYTES: usize = 20;

/// The room of a list of fragments at first.
const FIRST_ROOM: usize = 4;

/// One fragment of data.
#[derive(Debug, Drop)]
pub enum Fragment<'a> {
    /// The data of a command, which it borrows.
    Block(&'a Data),
    /// The digits of a number, which no command holds.
    Digits(Digits),
    /// Data that no command holds.
    Own(Box<Data>),
}

impl<'a> Fragment<'a> {
    /// Returns the fragment's bytes.
    pub fn as_bytes(&self) -> &[u8]
        ensures { result.now ≡ fragment_bytes self.now }
    {
        match self {
            Fragment::Block(block) => block.as_bytes(),
            Fragment::Digits(digits) => digits.as_bytes(),
            Fragment::Own(block) => block.as_bytes(),
        }
    }

    /// Gives the fragment to a sink.
    fn give<S: Sink>(&self, sink: &mut S) -> Result<(), AllocError>
        ensures joined { OnOk result
            (S.taken sink.new ≡ S.taken sink.old ++ fragment_bytes self.now) }
        ensures begun { StartsWith (S.taken sink.new) (S.taken sink.old) }
    {
        match self {
            Fragment::Block(block) => sink.take_block(*block),
            Fragment::Digits(digits) => sink.take_bytes(digits.as_bytes()),
            Fragment::Own(block) => sink.take_block(&**block),
        }
    }
}

/// Where the fragments are. One alone is in no list.
#[derive(Debug, Drop)]
enum Pieces<'a> {
    Block(&'a Data),
    Digits(Digits),
    Own(Box<Data>),
    Many(Box<VecDeque<Fragment<'a>>>),
}

/// Data that can borrow from commands: at most `DATA_BYTES` bytes, as a list of fragments.
#[derive(Debug, Drop)]
pub struct Fragments<'a> {
    len: u32,
    pieces: Pieces<'a>,
}

impl<'a> Model for Fragments<'a> {
    ghost use Rattle.std.specs.Prelude.{◌≡◌, ◌≤◌, ℕ, List, length};
    ghost use Rattle.mc_model.specs.declared.item.TheConstants.{DATA_BYTES};

    ghost Value = { List ℕ };

    ghost use Rattle.mc_model.specs.Joined.{joined_pieces};

    ghost view = { λ fragments. joined_pieces fragments.pieces };

    ghost invariant = { λ fragments. (fragments.len ≡ length (joined_pieces fragments.pieces)) × (fragments.len ≤ DATA_BYTES) };
}

impl<'a> Fragments<'a> {
    /// Returns no data. Allocates nothing.
    pub fn empty() -> Fragments<'a>
        ensures { result ≡ [] }
    {
        Fragments {
            len: 0,
            pieces: Pieces::Digits(Digits::none()),
        }
    }

    /// Returns a block's data, which it borrows. Allocates nothing.
    pub fn new(block: &'a Data) -> Fragments<'a>
        ensures { result ≡ block.now }
    {
        Fragments {
            len: block.as_bytes().len() as u32,
            pieces: Pieces::Block(block),
        }
    }

    /// Returns a block's data, which it takes. Returns `Memory` if an allocation fails.
    pub fn from_data(alloc: Global, block: Data) -> Result<Fragments<'a>, Fault>
        ensures same { IfOk result (λ fragments. fragments ≡ block) }
        ensures memory { IsOkUnless result Fault.Memory }
    {
        let len = block.as_bytes().len() as u32;
        let pieces = Pieces::Own(Box::new(alloc, block)?);
        Ok(Fragments { len, pieces })
    }

    /// Returns the digits of a number, without leading zeros. Allocates nothing.
    pub fn from_number(number: u64) -> Fragments<'a>
        ensures { result ≡ decimal number }
    {
        let digits = Digits::new(number);
        Fragments {
            len: digits.as_bytes().len() as u32,
            pieces: Pieces::Digits(digits),
        }
    }

    /// Returns the number of bytes.
    pub fn len(&self) -> usize
        ensures len { result ≡ length self.now }
        ensures few { length self.now ≤ DATA_BYTES }
    {
        self.len as usize
    }

    /// Appends a block, without copying its data; one without bytes adds no fragment. Returns
    /// `Memory` if an allocation fails; the data are unchanged then.
    pub fn append(&mut self, alloc: Global, block: &'a Data) -> Result<(), Fault>
        requires { length self.old + length block.now ≤ DATA_BYTES }
        ensures joined { OnOk result (self.new ≡ self.old ++ block.now) }
        ensures memory { IsOkUnless result Fault.Memory }
        ensures unchanged { OnErr result (self.new ≡ self.old) }
        // What has no bytes takes no memory, so that a short number has few fragments.
        ensures nothing { length block.now ≡ 0 → IsOk result }
    {
        let len = block.as_bytes().len() as u32;
        if len == 0 {
            return Ok(());
        }
        push_back(alloc, &mut self.pieces, block)?;
        self.len += len;
        Ok(())
    }

    /// Prepends a block, without copying its data; one without bytes adds no fragment. Returns
    /// `Memory` if an allocation fails; the data are unchanged then.
    pub fn prepend(&mut self, alloc: Global, block: &'a Data) -> Result<(), Fault>
        requires { length self.old + length block.now ≤ DATA_BYTES }
        ensures joined { OnOk result (self.new ≡ block.now ++ self.old) }
        ensures memory { IsOkUnless result Fault.Memory }
        ensures unchanged { OnErr result (self.new ≡ self.old) }
        ensures nothing { length block.now ≡ 0 → IsOk result }
    {
        let len = block.as_bytes().len() as u32;
        if len == 0 {
            return Ok(());
        }
        push_front(alloc, &mut self.pieces, block)?;
        self.len += len;
        Ok(())
    }

    /// Joins the fragments, if there are several: they are copied into one, which `shared` doesn't
    /// copy again if it is long. Returns `Memory` if an allocation fails.
    pub fn join(&mut self, alloc: Global) -> Result<(), Fault>
        ensures same { self.new ≡ self.old }
        ensures memory { IsOkUnless result Fault.Memory }
    {
        if let Pieces::Many(_) = &self.pieces {
            let block = self.to_data(alloc)?;
            self.pieces = Pieces::Own(Box::new(alloc, block)?);
        }
        Ok(())
    }

    /// Returns the same data, which borrow what these borrow. Several fragments are copied into
    /// one, and a short one that borrows nothing is copied. Returns `Memory` if an allocation
    /// fails.
    pub fn shared(&self, alloc: Global) -> Result<Fragments<'a>, Fault>
        ensures same { IfOk result (λ fragments. fragments ≡ self.now) }
        ensures memory { IsOkUnless result Fault.Memory }
    {
        let pieces = match &self.pieces {
            Pieces::Block(block) => Pieces::Block(*block),
            Pieces::Digits(digits) => Pieces::Digits(digits.copied()),
            Pieces::Own(block) => Pieces::Own(Box::new(alloc, block.try_clone()?)?),
            Pieces::Many(_) => Pieces::Own(Box::new(alloc, self.to_data(alloc)?)?),
        };
        Ok(Fragments {
            len: self.len,
            pieces,
        })
    }

    /// Returns the same data, which borrow nothing: a long block is shared, and other data that
    /// were borrowed are copied. Returns `Memory` if an allocation fails.
    pub fn into_owned(self, alloc: Global) -> Result<Fragments<'static>, Fault>
        ensures same { IfOk result (λ fragments. fragments ≡ self.entry) }
        ensures memory { IsOkUnless result Fault.Memory }
    {
        let Self { len, pieces } = self;
        let pieces = match pieces {
            Pieces::Block(block) => Pieces::Own(Box::new(alloc, block.try_clone()?)?),
            Pieces::Digits(digits) => Pieces::Digits(digits),
            Pieces::Own(block) => Pieces::Own(block),
            Pieces::Many(list) => {
                let block = joined(alloc, len as usize, &Pieces::Many(list))?;
                Pieces::Own(Box::new(alloc, block)?)
            }
        };
        Ok(Fragments { len, pieces })
    }

    /// Returns the number that the joined data spell, or `None` if they aren't numeric. Allocates
    /// nothing.
    pub fn number(&self) -> Option<u64>
        ensures { result ≡ numeric_value self.now }
    {
        if self.len as usize > NUMBER_BYTES {
            return None;
        }
        let mut bytes = [0; 20];
        let len = gather(&self.pieces, &mut bytes);
        read_number(&bytes[..len], u64::MAX)
    }

    /// Writes the joined data at the end of a vector. If an allocation fails, a part of them may
    /// have been written. It succeeds if the vector has capacity for them.
    pub fn write(&self, out: &mut Vec<u8>) -> Result<(), AllocError>
        ensures joined { OnOk result (out.new.items ≡ out.old.items ++ self.now) }
        ensures begun { StartsWith out.new.items out.old.items }
        ensures room { vec_len out.old + length self.now ≤ vec_capacity out.old → IsOk result }
        ensures capacity { vec_capacity out.old ≤ vec_capacity out.new }
    {
        write_pieces(&self.pieces, out)
    }

    /// Gives the fragments to a sink, one after the other. If an allocation fails, a part of them
    /// may have been taken.
    pub fn give<S: Sink>(&self, sink: &mut S) -> Result<(), AllocError>
        ensures joined { OnOk result (S.taken sink.new ≡ S.taken sink.old ++ self.now) }
        ensures begun { StartsWith (S.taken sink.new) (S.taken sink.old) }
    {
        give_pieces(&self.pieces, sink)
    }

    /// Returns a copy of the joined data, in memory of their own. Returns `Memory` if an allocation
    /// fails.
    pub fn to_data(&self, alloc: Global) -> Result<Data, Fault>
        ensures joined { IfOk result (λ block. block ≡ self.now) }
        ensures memory { IsOkUnless result Fault.Memory }
    {
        joined(alloc, self.len(), &self.pieces)
    }
}

/// Returns a copy of the joined fragments, which have this many bytes.
fn joined(alloc: Global, len: usize, pieces: &Pieces<'_>) -> Result<Data, Fault>
    requires len { len ≡ length (joined_pieces pieces.now) }
    requires few { len ≤ DATA_BYTES }
    ensures joined { IfOk result (λ block. block ≡ joined_pieces pieces.now) }
    ensures memory { IsOkUnless result Fault.Memory }
{
    let mut bytes = Vec::with_capacity(alloc, len)?;
    write_pieces(pieces, &mut bytes)?;
    Ok(Data::shareable(bytes)?.unwrap())
}

/// Returns a list without fragments, with room for the first.
fn room<'a>(alloc: Global) -> Result<Box<VecDeque<Fragment<'a>>>, Fault>
    ensures none { IfOk result (λ list. list.value.items ≡ []) }
    ensures few { IfOk result (λ list. deque_len list.value ≡ 0) }
    ensures room { IfOk result (λ list. 2 ≤ deque_capacity list.value) }
    ensures memory { IsOkUnless result Fault.Memory }
{
    Ok(Box::new(alloc, VecDeque::with_capacity(alloc, FIRST_ROOM)?)?)
}

/// Takes out a fragment that is in no list, and leaves nothing.
fn take_single<'a>(pieces: &mut Pieces<'a>) -> Fragment<'a>
    requires { IsTrue (is_single pieces.old) }
    ensures { fragment_bytes result ≡ joined_pieces pieces.old }
{
    match replace(pieces, Pieces::Digits(Digits::none())) {
        Pieces::Block(block) => Fragment::Block(block),
        Pieces::Digits(digits) => Fragment::Digits(digits),
        Pieces::Own(block) => Fragment::Own(block),
        Pieces::Many(_) => unreachable!(),
    }
}

/// Appends a fragment.
fn push_back<'a>(alloc: Global, pieces: &mut Pieces<'a>, block: &'a Data) -> Result<(), Fault>
    ensures joined { OnOk result
        (joined_pieces pieces.new ≡ joined_pieces pieces.old ++ block.now) }
    ensures memory { IsOkUnless result Fault.Memory }
    ensures unchanged { OnErr result (joined_pieces pieces.new ≡ joined_pieces pieces.old) }
{
    if let Pieces::Many(list) = pieces {
        list.push_back(Fragment::Block(block))?;
        return Ok(());
    }
    let mut list = room(alloc)?;
    let first = take_single(pieces);
    list.push_back_reserved(first);
    list.push_back_reserved(Fragment::Block(block));
    *pieces = Pieces::Many(list);
    Ok(())
}

/// Prepends a fragment.
fn push_front<'a>(alloc: Global, pieces: &mut Pieces<'a>, block: &'a Data) -> Result<(), Fault>
    ensures joined { OnOk result
        (joined_pieces pieces.new ≡ block.now ++ joined_pieces pieces.old) }
    ensures memory { IsOkUnless result Fault.Memory }
    ensures unchanged { OnErr result (joined_pieces pieces.new ≡ joined_pieces pieces.old) }
{
    if let Pieces::Many(list) = pieces {
        list.push_front(Fragment::Block(block))?;
        return Ok(());
    }
    let mut list = room(alloc)?;
    let last = take_single(pieces);
    list.push_back_reserved(last);
    list.push_front_reserved(Fragment::Block(block));
    *pieces = Pieces::Many(list);
    Ok(())
}

/// Copies a few bytes side by side into a buffer, and returns how many they are.
fn gather(pieces: &Pieces<'_>, out: &mut [u8; 20]) -> usize
    requires { length (joined_pieces pieces.now) ≤ 20 }
    ensures len { result ≡ length (joined_pieces pieces.now) }
    ensures bytes { take result out.new ≡ joined_pieces pieces.now }
{
    match pieces {
        Pieces::Block(block) => put_at(out, 0, block.as_bytes()),
        Pieces::Digits(digits) => put_at(out, 0, digits.as_bytes()),
        Pieces::Own(block) => put_at(out, 0, block.as_bytes()),
        Pieces::Many(many) => {
            let mut at = 0;
            for place in 0..many.len() {
                at = put_at(out, at, many[place].as_bytes());
            }
            at
        }
    }
}

/// Copies bytes into a buffer from `at` on, and returns where they end.
fn put_at(out: &mut [u8; 20], at: usize, bytes: &[u8]) -> usize
    requires { at + length bytes.now ≤ 20 }
    ensures end { result ≡ at + length bytes.now }
    ensures bytes { take result out.new ≡ take at out.old ++ bytes.now }
{
    out[at..at + bytes.len()].copy_from_slice(bytes);
    at + bytes.len()
}

/// Writes the fragments one after the other.
fn write_pieces(pieces: &Pieces<'_>, out: &mut Vec<u8>) -> Result<(), AllocError>
    ensures joined { OnOk result (out.new.items ≡ out.old.items ++ joined_pieces pieces.now) }
    ensures begun { StartsWith out.new.items out.old.items }
    ensures room { vec_len out.old + length (joined_pieces pieces.now) ≤ vec_capacity out.old →
        IsOk result }
    ensures capacity { vec_capacity out.old ≤ vec_capacity out.new }
{
    match pieces {
        Pieces::Block(block) => out.extend_from_slice(block.as_bytes()),
        Pieces::Digits(digits) => out.extend_from_slice(digits.as_bytes()),
        Pieces::Own(block) => out.extend_from_slice(block.as_bytes()),
        Pieces::Many(many) => {
            for place in 0..many.len() {
                out.extend_from_slice(many[place].as_bytes())?;
            }
            Ok(())
        }
    }
}

/// Gives the fragments to a sink, one after the other.
fn give_pieces<S: Sink>(pieces: &Pieces<'_>, sink: &mut S) -> Result<(), AllocError>
    ensures joined { OnOk result
        (S.taken sink.new ≡ S.taken sink.old ++ joined_pieces pieces.now) }
    ensures begun { StartsWith (S.taken sink.new) (S.taken sink.old) }
{
    match pieces {
        Pieces::Block(block) => sink.take_block(*block),
        Pieces::Digits(digits) => sink.take_bytes(digits.as_bytes()),
        Pieces::Own(block) => sink.take_block(&**block),
        Pieces::Many(many) => {
            for place in 0..many.len() {
                many[place].give(sink)?;
            }
            Ok(())
        }
    }
}

/// Returns the fragments, none of whose bytes is read.
fn unread<'f, 'a>(pieces: &'f Pieces<'a>) -> Unread<'f, 'a>
    ensures { unread_bytes result ≡ joined_pieces pieces.now }
{
    match pieces {
        Pieces::Block(block) => Unread::single(block.as_bytes()),
        Pieces::Digits(digits) => Unread::single(digits.as_bytes()),
        Pieces::Own(block) => Unread::single(block.as_bytes()),
        Pieces::Many(many) => Unread::list(&**many),
    }
}

/// Returns whether fragments with as many bytes join to the same.
fn are_same(left: &Pieces<'_>, right: &Pieces<'_>) -> bool
    requires { length (joined_pieces left.now) ≡ length (joined_pieces right.now) }
    ensures { result ≡ pointwise nat_eq (joined_pieces left.now) (joined_pieces right.now) }
{
    let mut rest = unread(right);
    match left {
        Pieces::Block(block) => rest.is(block.as_bytes()),
        Pieces::Digits(digits) => rest.is(digits.as_bytes()),
        Pieces::Own(block) => rest.is(block.as_bytes()),
        Pieces::Many(many) => {
            for place in 0..many.len() {
                if !rest.reads(many[place].as_bytes()) {
                    return false;
                }
            }
            true
        }
    }
}

impl<'a> PartialEq for Fragments<'a> {
    ghost eq = { pointwise nat_eq };

    ghost laws = { partial_equiv_from_equiv nat_list_eq_equiv };

    fn eq(&self, other: &Fragments<'a>) -> bool {
        self.len == other.len && are_same(&self.pieces, &other.pieces)
    }
}

impl<'a> Eq for Fragments<'a> {
    ghost laws = { nat_list_eq_equiv };
}
