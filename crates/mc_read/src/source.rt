//! The bytes that have arrived and aren't read yet.
ghost use Rattle.std.specs.Prelude.{◌≡◌, ℕ, ◌+◌, ◌-◌, ◌<◌, ◌≤◌, ◌⊎◌, List, [], ◌++◌, drop, length, min, take, vec_len, IfOk, IfSome, IsOkUnless, MatchOption, OnOk, OnErr};
ghost use Rattle.memchr.specs.Find.{IsFirstByte, is_byte};
ghost use Rattle.mc_model.specs.declared.item.TheConstants.{DATA_BYTES};
ghost use Rattle.mc_read.specs.Administering.{lines_spoken};
ghost use Rattle.mc_read.specs.Line.{HasLawfulBlock};
ghost use Rattle.mc_read.specs.Pulling.{PullsBehind};
ghost use Rattle.mc_read.specs.State.{IsFinished, IsLineAt, IsSearched, IsSought, IsTaken};
ghost use Rattle.mc_read.specs.Text.{ends_well};

use crate::awaited::{Awaited, ReadLine};
use crate::block::{copy_block, share_block, whole_block};
use crate::buffer::Buffer;
use crate::line::{Asked, Header, LINE_BYTES};
use crate::reader::Sought;
use crate::speaker::Speaker;
use bytes::Bytes;
use mc_model::{Data, Fault};
use mc_stream::{Input, Pull};
use memchr::memchr;
use std::alloc::Global;
use std::marker::Model;

/// The least number of bytes of a piece that is kept as it came, and of a block that shares it. A
/// shorter block would keep too much of it.
const LONG_BYTES: usize = 4_096;

/// A piece that is shared, and before it the bytes that were copied or pulled: what is left of the
/// pieces before. What comes after a piece is copied or pulled behind what is left of that.
#[derive(Debug, Drop)]
pub struct Source {
    rest: Buffer,
    piece: Bytes,
}

impl Model for Source {
    ghost use Rattle.std.specs.Prelude.{ℕ, List, ◌++◌};

    ghost Value = { List ℕ };

    ghost view = { λ source. source.rest ++ source.piece };
}

/// Returns the place of the first line feed from `start` up to the limit, counted from `start`.
fn find_in(bytes: &[u8], start: usize, limit: usize) -> Option<usize>
    requires { (start ≤ limit) × (limit ≤ length bytes.now) }
    ensures { IsFirstByte (is_byte 10) (take (limit - start) (drop start bytes.now)) result }
{
    memchr(b'\n', &bytes[start..limit])
}

/// Searches the piece behind the rest for the end of the first line, which isn't in the rest and
/// the first `searched` bytes.
fn find_behind(rest: &[u8], piece: &[u8], searched: usize) -> Sought
    requires searched { IsSearched searched (rest.now ++ piece.now) }
    requires behind { length rest.now ≤ searched }
    ensures { IsSought (rest.now ++ piece.now) result }
{
    let held = rest.len();
    let limit = piece.len().min(LINE_BYTES + 1 - held);
    match find_in(piece, searched - held, limit) {
        Some(place) => Sought::Found(searched + place),
        None if piece.len() > LINE_BYTES - held => Sought::TooLong,
        None => Sought::Open,
    }
}

/// Searches for the end of the first line, which isn't in the first `searched` bytes.
fn find_line(rest: &[u8], piece: &[u8], searched: usize) -> Sought
    requires { IsSearched searched (rest.now ++ piece.now) }
    ensures { IsSought (rest.now ++ piece.now) result }
{
    if rest.len() <= searched {
        return find_behind(rest, piece, searched);
    }
    let limit = rest.len().min(LINE_BYTES + 1);
    match find_in(rest, searched, limit) {
        Some(place) => Sought::Found(searched + place),
        None if rest.len() > LINE_BYTES => Sought::TooLong,
        None => find_behind(rest, piece, rest.len()),
    }
}

/// Returns the first `count` bytes, which stand together.
fn front<'a>(rest: &'a [u8], piece: &'a [u8], count: usize) -> &'a [u8]
    requires together { (rest.now ≡ []) ⊎ (count ≤ length rest.now) }
    requires some { count ≤ length rest.now + length piece.now }
    ensures { result.now ≡ take count (rest.now ++ piece.now) }
{
    if rest.is_empty() {
        return &piece[..count];
    }
    &rest[..count]
}

/// Returns the bytes from `start` to `end`, if they stand together.
#[inline(always)]
fn between<'a>(rest: &'a [u8], piece: &'a [u8], start: usize, end: usize) -> Option<&'a [u8]>
    requires { (start ≤ end) × (end ≤ length rest.now + length piece.now) }
    ensures { MatchOption result ((start < length rest.now) × (length rest.now < end))
        (λ bytes. bytes.now ≡ take (end - start) (drop start (rest.now ++ piece.now))) }
{
    let held = rest.len();
    if end <= held {
        Some(&rest[start..end])
    } else if held <= start {
        Some(&piece[start - held..end - held])
    } else {
        None
    }
}

/// Removes `count` bytes from the front of a piece. One that is used up keeps no memory.
fn advance_piece(piece: &mut Bytes, count: usize)
    requires { count ≤ length piece.old }
    ensures { piece.new ≡ drop count piece.old }
{
    if count < piece.len() {
        piece.advance(count);
    } else if count > 0 {
        *piece = Bytes::new();
    }
}

/// Moves what is left of the piece behind the rest. Returns `Memory` if an allocation fails; nothing
/// changes then.
#[inline(always)]
fn join(rest: &mut Buffer, piece: &mut Bytes) -> Result<(), Fault>
    ensures same { rest.new ++ piece.new ≡ rest.old ++ piece.old }
    ensures joined { OnOk result (piece.new ≡ []) }
    ensures memory { IsOkUnless result Fault.Memory }
{
    if !piece.is_empty() {
        rest.extend(piece.as_slice())?;
        *piece = Bytes::new();
    }
    Ok(())
}

/// Moves bytes from the front of the piece to the end of the rest, until this has `count`; if it is
/// empty, the first `count` bytes already stand together. Returns `Memory` if an allocation fails;
/// nothing changes then.
fn gather(rest: &mut Buffer, piece: &mut Bytes, count: usize) -> Result<(), Fault>
    requires { count ≤ length rest.old + length piece.old }
    ensures same { rest.new ++ piece.new ≡ rest.old ++ piece.old }
    ensures count { OnOk result ((rest.new ≡ []) ⊎ (count ≤ length rest.new)) }
    ensures memory { IsOkUnless result Fault.Memory }
{
    let held = rest.as_slice().len();
    if (held > 0) & (held < count) {
        rest.extend(&piece.as_slice()[..count - held])?;
        piece.advance(count - held);
    }
    Ok(())
}

/// Copies the bytes from `start` to `end` to memory of their own. Returns `Memory` if an allocation
/// fails.
fn copy_between(
    alloc: Global,
    rest: &[u8],
    piece: &[u8],
    start: usize,
    end: usize,
) -> Result<Vec<u8>, Fault>
    requires parted { (start ≤ length rest.now) × (length rest.now ≤ end) }
    requires inside { end ≤ length rest.now + length piece.now }
    ensures bytes { IfOk result (λ bytes. bytes.items
        ≡ take (end - start) (drop start (rest.now ++ piece.now))) }
    ensures memory { IsOkUnless result Fault.Memory }
{
    let mut bytes = Vec::with_capacity(alloc, end - start)?;
    bytes.extend_from_slice(&rest[start..])?;
    bytes.extend_from_slice(&piece[..end - rest.len()])?;
    Ok(bytes)
}

/// Returns the block from `start` on, which has arrived whole and ends two bytes before `end`, with
/// whether these two are a line end. Returns `Memory` if an allocation fails.
#[inline(always)]
fn block_between(
    alloc: Global,
    rest: &[u8],
    piece: &Bytes,
    start: usize,
    end: usize,
) -> Result<(Data, bool), Fault>
    requires some { start + 2 ≤ end }
    requires small { end ≤ start + (DATA_BYTES + 2) }
    requires whole { end ≤ length rest.now + length piece.now }
    ensures block { IfOk result (λ block. block.0
        ≡ take (end - start - 2) (take (end - start) (drop start (rest.now ++ piece.now)))) }
    ensures ends_well { IfOk result (λ block. block.1 ≡ ends_well
        (drop (end - start - 2) (take (end - start) (drop start (rest.now ++ piece.now))))) }
    ensures memory { IsOkUnless result Fault.Memory }
{
    let size = end - start - 2;
    if size >= LONG_BYTES && rest.len() <= start {
        return share_block(piece, start - rest.len(), size);
    }
    match between(rest, piece.as_slice(), start, end) {
        Some(body) => copy_block(alloc, size, body),
        None => {
            let mut body = copy_between(alloc, rest, piece.as_slice(), start, end)?;
            whole_block(&mut body, size)
        }
    }
}

impl Source {
    /// Returns a source without bytes. Allocates nothing.
    pub fn new(alloc: Global) -> Source
        ensures { result ≡ [] }
    {
        Source {
            rest: Buffer::new(alloc),
            piece: Bytes::new(),
        }
    }

    /// Returns the number of bytes.
    pub fn len(&self) -> usize
        ensures { result ≡ length self.now }
    {
        self.rest.as_slice().len() + self.piece.len()
    }

    /// Appends a piece, which is shared; what is left of the piece before is copied. Returns
    /// `Memory` if an allocation fails; nothing changes then.
    pub fn append(&mut self, piece: Bytes) -> Result<(), Fault>
        ensures bytes { OnOk result (self.new ≡ self.old ++ piece) }
        ensures memory { IsOkUnless result Fault.Memory }
        ensures unchanged { OnErr result (self.new ≡ self.old) }
    {
        if piece.len() < LONG_BYTES {
            return self.extend(piece.as_slice());
        }
        join(&mut self.rest, &mut self.piece)?;
        self.piece = piece;
        Ok(())
    }

    /// Appends a copy of a piece. Returns `Memory` if an allocation fails; nothing is appended
    /// then.
    #[inline(always)]
    pub fn extend(&mut self, piece: &[u8]) -> Result<(), Fault>
        ensures bytes { OnOk result (self.new ≡ self.old ++ piece.now) }
        ensures memory { IsOkUnless result Fault.Memory }
        ensures unchanged { OnErr result (self.new ≡ self.old) }
    {
        join(&mut self.rest, &mut self.piece)?;
        self.rest.extend(piece)
    }

    /// Pulls once, and appends the bytes that came, at most `most`; where memory for all of them is
    /// refused, as many as there is room for. Returns `Memory` if there is room for none; nothing is
    /// pulled then.
    #[inline(always)]
    pub fn pull<I: Input>(&mut self, input: &mut I, most: usize) -> Result<Pull, Fault>
        requires { 0 < most }
        ensures pulls { IfOk result
            (PullsBehind (I.tells input.old) (I.tells input.new) most self.old self.new) }
        ensures memory { IsOkUnless result Fault.Memory }
        ensures unchanged { OnErr result ((self.new ≡ self.old) × (input.new ≡ input.old)) }
    {
        join(&mut self.rest, &mut self.piece)?;
        self.rest.pull(input, most)
    }

    /// Removes `count` bytes from the front.
    #[inline(always)]
    pub fn advance(&mut self, count: usize)
        requires { count ≤ length self.old }
        ensures { self.new ≡ drop count self.old }
    {
        let held = self.rest.as_slice().len();
        if count < held {
            self.rest.advance(count);
            return;
        }
        self.rest.clear();
        advance_piece(&mut self.piece, count - held);
    }

    /// Removes all bytes.
    pub fn clear(&mut self)
        ensures { self.new ≡ [] }
    {
        self.rest.clear();
        self.piece = Bytes::new();
    }

    /// Searches for the end of the first line, which isn't in the first `searched` bytes.
    #[inline(always)]
    pub fn find(&self, searched: usize) -> Sought
        requires { IsSearched searched self.now }
        ensures { IsSought self.now result }
    {
        if searched == self.len() {
            return Sought::Open;
        }
        find_line(self.rest.as_slice(), self.piece.as_slice(), searched)
    }

    /// Returns what the first line asks for, which has this length. Returns `Memory` if an
    /// allocation fails.
    #[inline(always)]
    pub fn ask(&mut self, alloc: Global, speaker: Speaker, line: usize) -> Result<Asked, Fault>
        requires { IsLineAt self.old line }
        ensures asked { IfOk result (λ asked. asked ≡ lines_spoken speaker (take line self.old)) }
        ensures lawful { IfOk result HasLawfulBlock }
        ensures memory { IsOkUnless result Fault.Memory }
        ensures same { self.new ≡ self.old }
    {
        gather(&mut self.rest, &mut self.piece, line + 1)?;
        let front = front(self.rest.as_slice(), self.piece.as_slice(), line + 1);
        speaker.ask(alloc, &front[..line])
    }

    /// Removes a line and its block from the front, if the block has arrived whole with the two
    /// bytes after it. Returns the block, and whether those two are a line end. A long block in one
    /// piece shares it; any other is copied once. Returns `Memory` if an allocation fails; nothing
    /// is removed then.
    #[inline(always)]
    pub fn take_block(
        &mut self,
        alloc: Global,
        line: usize,
        size: usize,
    ) -> Result<Option<(Data, bool)>, Fault>
        requires line_end { line < length self.old }
        requires small { size ≤ DATA_BYTES }
        ensures taken { IfOk result (λ taken. IsTaken self.old line size taken self.new) }
        ensures memory { IsOkUnless result Fault.Memory }
        ensures unchanged { OnErr result (self.new ≡ self.old) }
    {
        let held = self.len();
        let start = line + 1;
        if held - start < size + 2 {
            return Ok(None);
        }
        let end = start + (size + 2);
        let block = block_between(alloc, self.rest.as_slice(), &self.piece, start, end)?;
        self.advance(end);
        Ok(Some(block))
    }

    /// Removes a line and all that stands behind it, which is less than its block and the two bytes
    /// after it, and returns the block as one that is awaited. Returns `Memory` if an allocation
    /// fails; nothing is removed then.
    pub fn begin_block(
        &mut self,
        alloc: Global,
        line: usize,
        header: Header,
    ) -> Result<Box<Awaited>, Fault>
        requires line { IsLineAt self.old line }
        requires small { header.length ≤ DATA_BYTES }
        ensures line { IfOk result
            (λ awaited. awaited.value.line.text ≡ take line self.old) }
        ensures header { IfOk result (λ awaited. awaited.value.header ≡ header) }
        ensures body { IfOk result
            (λ awaited. awaited.value.body.items ≡ drop (line + 1) self.old) }
        ensures none { OnOk result (self.new ≡ []) }
        ensures memory { IsOkUnless result Fault.Memory }
        ensures unchanged { OnErr result (self.new ≡ self.old) }
    {
        gather(&mut self.rest, &mut self.piece, line + 1)?;
        let (rest, piece) = (self.rest.as_slice(), self.piece.as_slice());
        let read = ReadLine::of(&front(rest, piece, line + 1)[..line]);
        let mut body = Vec::with_capacity(alloc, header.length as usize + 2)?;
        let start = (line + 1).min(rest.len());
        body.extend_from_slice(&rest[start..])?;
        body.extend_from_slice(&piece[line + 1 - start..])?;
        let awaited = Awaited {
            line: read,
            header,
            body,
        };
        let awaited = Box::new(alloc, awaited)?;
        self.clear();
        Ok(awaited)
    }

    /// Moves bytes from the front to those of an awaited block, and returns the block once it is
    /// whole, with whether the two bytes after it are a line end. Returns `Memory` if an allocation
    /// fails; nothing is removed then.
    pub fn finish_block(&mut self, awaited: &mut Awaited) -> Result<Option<(Data, bool)>, Fault>
        requires small { awaited.old.header.length ≤ DATA_BYTES }
        requires few { length awaited.old.body.items ≤ awaited.old.header.length + 2 }
        ensures finished { IfOk result (λ taken.
            IsFinished awaited.old.header.length (awaited.old.body.items ++ self.old) taken
            (awaited.new.body.items ++ self.new)) }
        ensures none { IfOk result
            (λ taken. IfSome taken (λ _. awaited.new.body.items ≡ [])) }
        ensures few { length awaited.new.body.items ≤ awaited.new.header.length + 2 }
        ensures same { (awaited.new.line ≡ awaited.old.line)
            × (awaited.new.header ≡ awaited.old.header) }
        ensures memory { IsOkUnless result Fault.Memory }
        ensures unchanged { OnErr result
            (awaited.new.body.items ++ self.new ≡ awaited.old.body.items ++ self.old) }
    {
        let size = awaited.header.length as usize;
        self.move_to(&mut awaited.body, size + 2)?;
        if awaited.body.len() < size + 2 {
            return Ok(None);
        }
        Ok(Some(whole_block(&mut awaited.body, size)?))
    }

    /// Moves bytes from the front to the end of a block's, until these are `most`. Returns `Memory`
    /// if an allocation fails.
    fn move_to(&mut self, body: &mut Vec<u8>, most: usize) -> Result<(), Fault>
        requires { vec_len body.old ≤ most }
        ensures same { body.new.items ++ self.new ≡ body.old.items ++ self.old }
        ensures within { vec_len body.new ≤ most }
        ensures all { OnOk result ((vec_len body.new ≡ most) ⊎ (self.new ≡ [])) }
        ensures memory { IsOkUnless result Fault.Memory }
    {
        let rest = self.rest.as_slice();
        let count = rest.len().min(most - body.len());
        body.extend_from_slice(&rest[..count])?;
        self.rest.advance(count);
        let count = self.piece.len().min(most - body.len());
        body.extend_from_slice(&self.piece.as_slice()[..count])?;
        advance_piece(&mut self.piece, count);
        Ok(())
    }
}
