//! A queue of bytes: they are added at the end and taken from the front.
ghost use Rattle.std.specs.Prelude.{◌≡◌, ℕ, ◌+◌, ◌<◌, ◌≤◌, List, [], ◌++◌, drop, length, take, vec_len, IfOk, IsOkUnless, OnOk, OnErr};
ghost use Rattle.mc_read.specs.Pulling.{PullsBehind};

use mc_model::Fault;
use mc_stream::{Input, Pull};
use std::alloc::Global;
use std::marker::Model;

/// How many bytes of memory an empty buffer keeps at most.
const SPARE_BYTES: usize = 65_536;

/// How many bytes a pull takes at most.
pub const PULL_BYTES: usize = 16_384;

/// What spare bytes are before any were written there.
static ZEROES: [u8; PULL_BYTES] = [0; PULL_BYTES];

/// A queue of bytes in one vector, between those that were taken and those that are spare: bytes
/// of before, which are written over. The vector isn't shortened, since it would drop byte by byte.
///
/// What is left is moved to the front only while it is no longer than what was taken, so moving
/// costs no more than the bytes that were taken.
#[derive(Debug, Drop)]
pub struct Buffer {
    bytes: Vec<u8>,
    taken: usize,
    end: usize,
}

impl Model for Buffer {
    ghost use Rattle.std.specs.Prelude.{ℕ, ◌≤◌, List, drop, take, vec_len};

    ghost Value = { List ℕ };

    ghost view = { λ buffer. drop buffer.taken (take buffer.end buffer.bytes.items) };

    ghost invariant = { λ buffer. (buffer.taken ≤ buffer.end) × (buffer.end ≤ vec_len buffer.bytes) };
}

/// Copies the bytes from `start` on, as many as `count`, to the front.
fn copy_to_front(bytes: &mut [u8], start: usize, count: usize)
    requires apart { count ≤ start }
    requires inside { start + count ≤ length bytes.old }
    ensures front { take count bytes.new ≡ take count (drop start bytes.old) }
    ensures len { length bytes.new ≡ length bytes.old }
{
    let (front, behind) = bytes.split_at_mut(start);
    front[..count].copy_from_slice(&behind[..count]);
}

/// Writes a piece over the bytes from `start` on.
fn write_over(bytes: &mut [u8], start: usize, piece: &[u8])
    requires { start + length piece.now ≤ length bytes.old }
    ensures written { take (start + length piece.now) bytes.new
        ≡ take start bytes.old ++ piece.now }
    ensures len { length bytes.new ≡ length bytes.old }
{
    let (_, behind) = bytes.split_at_mut(start);
    behind[..piece.len()].copy_from_slice(piece);
}

/// Makes room for `most` bytes behind the first `end`, or for fewer where memory for all of them is
/// refused. Returns for how many there is room. Returns `Memory` if there is room for none; nothing
/// changes then.
#[inline(always)]
fn make_room(bytes: &mut Vec<u8>, end: usize, most: usize) -> Result<usize, Fault>
    requires end { end ≤ vec_len bytes.old }
    requires some { 0 < most }
    requires few { most ≤ PULL_BYTES }
    ensures some { IfOk result (λ count. 0 < count) }
    ensures few { IfOk result (λ count. count ≤ most) }
    ensures room { IfOk result (λ count. end + count ≤ vec_len bytes.new) }
    ensures front { take end bytes.new.items ≡ take end bytes.old.items }
    ensures memory { IsOkUnless result Fault.Memory }
    ensures full { OnErr result (end ≡ vec_len bytes.old) }
    ensures unchanged { OnErr result (bytes.new.items ≡ bytes.old.items) }
{
    let spare = bytes.len() - end;
    if most <= spare {
        return Ok(most);
    }
    match bytes.extend_from_slice(&ZEROES[..most - spare]) {
        Ok(()) => Ok(most),
        Err(_) if spare > 0 => Ok(spare),
        Err(_) => Err(Fault::Memory),
    }
}

/// Pulls into the bytes from `start` on, at most `most` of them. Returns how many came, too.
#[inline(always)]
fn pull_over<I: Input>(bytes: &mut [u8], start: usize, most: usize, input: &mut I) -> (Pull, usize)
    requires some { 0 < most }
    requires room { start + most ≤ length bytes.old }
    ensures pulls { PullsBehind (I.tells input.old) (I.tells input.new) most (take start bytes.old)
        (take (start + result.1) bytes.new) result.0 }
    ensures few { result.1 ≤ most }
    ensures len { length bytes.new ≡ length bytes.old }
{
    let (_, behind) = bytes.split_at_mut(start);
    match input.pull(&mut behind[..most]) {
        Pull::Bytes(count) => (Pull::Bytes(count), count),
        Pull::Empty => (Pull::Empty, 0),
        Pull::Ended => (Pull::Ended, 0),
        Pull::Failed => (Pull::Failed, 0),
    }
}

impl Buffer {
    /// Returns an empty buffer. Allocates nothing.
    pub fn new(alloc: Global) -> Buffer
        ensures { result ≡ [] }
    {
        Buffer {
            bytes: Vec::new(alloc),
            taken: 0,
            end: 0,
        }
    }

    /// Returns the bytes in the queue.
    pub fn as_slice(&self) -> &[u8]
        ensures { result.now ≡ self.now }
    {
        &self.bytes[self.taken..self.end]
    }

    /// Moves the bytes to the front, if they are no more than those that were taken.
    fn settle(&mut self)
        ensures { self.new ≡ self.old }
    {
        let left = self.end - self.taken;
        if left <= self.taken {
            copy_to_front(&mut self.bytes, self.taken, left);
            self.taken = 0;
            self.end = left;
        }
    }

    /// Appends bytes. Returns `Memory` if an allocation fails; the queue is unchanged then.
    pub fn extend(&mut self, piece: &[u8]) -> Result<(), Fault>
        ensures bytes { OnOk result (self.new ≡ self.old ++ piece.now) }
        ensures memory { IsOkUnless result Fault.Memory }
        ensures unchanged { OnErr result (self.new ≡ self.old) }
    {
        self.settle();
        if piece.len() > self.bytes.len() - self.end {
            self.bytes.truncate(self.end);
            self.bytes.extend_from_slice(piece)?;
            self.end = self.bytes.len();
            return Ok(());
        }
        write_over(&mut self.bytes, self.end, piece);
        self.end += piece.len();
        Ok(())
    }

    /// Pulls once, and appends the bytes that came: at most `most`, and no more than `PULL_BYTES`;
    /// where memory for all of them is refused, as many as there is room for. Returns `Memory` if
    /// there is room for none; nothing is pulled then.
    pub fn pull<I: Input>(&mut self, input: &mut I, most: usize) -> Result<Pull, Fault>
        requires { 0 < most }
        ensures pulls { IfOk result
            (PullsBehind (I.tells input.old) (I.tells input.new) most self.old self.new) }
        ensures memory { IsOkUnless result Fault.Memory }
        ensures unchanged { OnErr result ((self.new ≡ self.old) × (input.new ≡ input.old)) }
    {
        self.settle();
        let room = make_room(&mut self.bytes, self.end, most.min(PULL_BYTES))?;
        let (pull, count) = pull_over(&mut self.bytes, self.end, room, input);
        self.end += count;
        Ok(pull)
    }

    /// Removes `count` bytes from the front.
    pub fn advance(&mut self, count: usize)
        requires { count ≤ length self.old }
        ensures { self.new ≡ drop count self.old }
    {
        self.taken += count;
        if self.taken == self.end {
            self.clear();
        }
    }

    /// Removes all bytes. Gives the memory back if there is more of it than an empty buffer keeps.
    pub fn clear(&mut self)
        ensures { self.new ≡ [] }
    {
        self.taken = 0;
        self.end = 0;
        if self.bytes.capacity() > SPARE_BYTES {
            self.bytes = Vec::new(*self.bytes.allocator());
        }
    }
}
