//! Inputs and outputs over std's readers and writers, such as the standard streams and sockets.
//!
//! What they report is on a tape, which takes no memory: `pull_of` and `push_of` say what an answer
//! of `read`, `write` and `flush` means, and that is put on the tape. That these answers are passed
//! on, and that a write is flushed, is in the bodies of `pull`, `push` and `push_at_once`; the
//! clauses `rest` and `written` tie their bytes to a stream that reports its own.
ghost use Rattle.std.specs.IoError.{error_kind};
ghost use Rattle.std.specs.Io.{WritesAtMost};
ghost use Rattle.std.specs.Io.KnownBytes.{Keeps, WriteAppends};
ghost use Rattle.std.specs.Prelude.{◌≡◌, ◌∷◌, ◌++◌, ◌<◌, ◌≤◌, [], length};
ghost use Rattle.mc_stream.specs.Pushing.{IsPush};
ghost use Rattle.mc_stream.specs.declared.stream.Push.TheVariants as Push;
ghost use Rattle.mc_stream.specs.Standard.{WritesTaken, asks_again, pull_of, push_of, read_of, reader_of, writer_of, written_of};
ghost use Rattle.mc_stream.specs.Stream.{GivesAtMost, TakesAtMost, pull_event, push_event};

use crate::stream::{Input, Output, Pull, Push};
use crate::tape::Tape;
use std::io;
use std::io::{ErrorKind, Read, Write};

/// Returns whether the call did nothing and may be made again.
fn asks_again(error: &io::Error) -> bool
    ensures { result ≡ asks_again (error_kind error.now) }
{
    matches!(error.kind(), ErrorKind::Interrupted | ErrorKind::WouldBlock)
}

/// Returns what a pull answers if a read into a buffer with room answered this.
fn pull_of(given: &io::Result<usize>) -> Pull
    ensures { result ≡ pull_of given.now }
{
    match given {
        Ok(0) => Pull::Ended,
        Ok(count) => Pull::Bytes(*count),
        Err(error) => {
            if asks_again(error) {
                Pull::Empty
            } else {
                Pull::Failed
            }
        }
    }
}

/// Returns what a push answers if a write answered `written` and the flush after it `flushed`. Only
/// a write that took bytes is flushed.
fn push_of(written: &io::Result<usize>, flushed: &io::Result<()>) -> Push
    ensures { result ≡ push_of written.now flushed.now }
{
    match (written, flushed) {
        (Ok(0), _) => Push::Failed,
        (Ok(count), Ok(())) => Push::Taken(*count),
        // Not `Full`, even if the flush was interrupted: the bytes would be pushed again.
        (Ok(_), Err(_)) => Push::Failed,
        (Err(error), _) => {
            if asks_again(error) {
                Push::Full
            } else {
                Push::Failed
            }
        }
    }
}

/// Flushes a writer once a write has taken bytes.
fn flush_after<W: Write>(written: &io::Result<usize>, writer: &mut W) -> io::Result<()>
    ensures { Keeps (W.contents writer.old) (W.contents writer.new) }
{
    match written {
        Ok(0) | Err(_) => Ok(()),
        Ok(_) => writer.flush(),
    }
}

/// An input over a reader. It knows what is left if the reader does.
#[derive(Drop)]
pub struct ReadInput<R> {
    reader: R,
    tape: Tape,
}

impl<R: Read> ReadInput<R> {
    /// Returns the input over this reader.
    pub fn new(reader: R) -> ReadInput<R>
        ensures reader { reader_of result ≡ reader }
        ensures tells { read_of R.remaining result
            ≡ record { events = []; left = R.remaining reader } }
    {
        ReadInput::resume(reader, Tape::new())
    }

    /// Returns the input over this reader, whose pulls go on the tape that an earlier input left.
    pub fn resume(reader: R, tape: Tape) -> ReadInput<R>
        ensures reader { reader_of result ≡ reader }
        ensures tells { read_of R.remaining result
            ≡ record { events = tape.events; left = R.remaining reader } }
    {
        ReadInput { reader, tape }
    }

    /// Returns the tape, for an input that goes on where this one ends.
    pub fn into_tape(self) -> Tape
    where
        R: Drop,
        ensures { result.events ≡ (read_of R.remaining self).events }
    {
        self.tape
    }
}

/// Puts what a pull did on the tape.
fn note_pull(pull: Pull, buffer: &[u8], tape: &mut Tape)
    requires { GivesAtMost (length buffer.now) pull }
    ensures { tape.new.events ≡ pull_event pull buffer.now ∷ tape.old.events }
{
    match pull {
        Pull::Bytes(count) => tape.moves(&buffer[..count]),
        Pull::Empty => tape.waits(),
        Pull::Ended => tape.ends(),
        Pull::Failed => tape.fails(),
    }
}

impl<R: Read> Input for ReadInput<R> {
    ghost tells = { read_of R.remaining };

    fn pull(&mut self, buffer: &mut [u8]) -> Pull {
        let given = self.reader.read(buffer);
        let pull = pull_of(&given);
        note_pull(pull, buffer, &mut self.tape);
        pull
    }
}

/// An output over a writer. What a push takes is flushed in the same push.
#[derive(Drop)]
pub struct WriteOutput<W> {
    writer: W,
    tape: Tape,
}

impl<W> WriteOutput<W> {
    /// Returns the output over this writer.
    pub fn new(writer: W) -> WriteOutput<W>
        ensures writer { writer_of result ≡ writer }
        ensures tells { written_of result ≡ record { events = [] } }
    {
        WriteOutput::resume(writer, Tape::new())
    }

    /// Returns the output over this writer, whose pushes go on the tape that an earlier output
    /// left.
    pub fn resume(writer: W, tape: Tape) -> WriteOutput<W>
        ensures writer { writer_of result ≡ writer }
        ensures tells { written_of result ≡ record { events = tape.events } }
    {
        WriteOutput { writer, tape }
    }

    /// Returns the tape, for an output that goes on where this one ends.
    pub fn into_tape(self) -> Tape
    where
        W: Drop,
        ensures { result.events ≡ (written_of self).events }
    {
        self.tape
    }
}

/// A writer that can write three slices by one call.
pub trait WriteParts: Write {
    /// Writes bytes from the front of three slices, as if each stood behind the one before. Returns
    /// how many it wrote.
    fn write_parts(&mut self, first: &[u8], second: &[u8], third: &[u8]) -> io::Result<usize>
        ensures bound { WritesAtMost result (first.now ++ (second.now ++ third.now)) }
        ensures bytes { WriteAppends (Self.contents self.old) (Self.contents self.new) result
            (first.now ++ (second.now ++ third.now)) };
}

impl<W: WriteParts> WriteOutput<W> {
    /// Pushes three slices by one write, as `Output::push_parts` has it.
    pub fn push_at_once(&mut self, first: &[u8], second: &[u8], third: &[u8]) -> Push
        requires { 0 < length first.now }
        ensures count { TakesAtMost (length (first.now ++ (second.now ++ third.now))) result }
        ensures push { IsPush result (first.now ++ (second.now ++ third.now)) (written_of self.old)
            (written_of self.new) }

        // If the writer reports its bytes.
        ensures written { WritesTaken (W.contents (writer_of self.old))
            (W.contents (writer_of self.new)) result
            (first.now ++ (second.now ++ third.now)) }
    {
        let taken = self.writer.write_parts(first, second, third);
        let flushed = flush_after(&taken, &mut self.writer);
        let push = push_of(&taken, &flushed);
        match push {
            Push::Taken(count) => note_parts(count, first, second, third, &mut self.tape),
            Push::Full => self.tape.waits(),
            Push::Failed => self.tape.fails(),
        }
        push
    }
}

/// Puts the first `count` bytes of two slices on the tape: what stands in each is a move of its
/// own.
fn note_both(count: usize, first: &[u8], second: &[u8], tape: &mut Tape)
    requires { count ≤ length (first.now ++ second.now) }
    ensures { IsPush (Push.Taken count) (first.now ++ second.now)
        (record { events = tape.old.events }) (record { events = tape.new.events }) }
{
    if count <= first.len() {
        tape.moves(&first[..count]);
    } else {
        tape.moves(first);
        tape.moves(&second[..count - first.len()]);
    }
}

/// Puts the first `count` bytes of three slices on the tape, as `note_both` does those of two.
fn note_parts(count: usize, first: &[u8], second: &[u8], third: &[u8], tape: &mut Tape)
    requires { count ≤ length (first.now ++ (second.now ++ third.now)) }
    ensures { IsPush (Push.Taken count) (first.now ++ (second.now ++ third.now))
        (record { events = tape.old.events }) (record { events = tape.new.events }) }
{
    if count <= first.len() {
        tape.moves(&first[..count]);
    } else {
        tape.moves(first);
        note_both(count - first.len(), second, third, tape);
    }
}

/// Puts what a push did on the tape.
fn note_push(push: Push, bytes: &[u8], tape: &mut Tape)
    requires { TakesAtMost (length bytes.now) push }
    ensures { tape.new.events ≡ push_event push bytes.now ∷ tape.old.events }
{
    match push {
        Push::Taken(count) => tape.moves(&bytes[..count]),
        Push::Full => tape.waits(),
        Push::Failed => tape.fails(),
    }
}

impl<W: Write> Output for WriteOutput<W> {
    ghost tells = { written_of };

    fn push(&mut self, bytes: &[u8]) -> Push
        // As for every output.
        requires { 0 < length bytes.now }
        ensures count { TakesAtMost (length bytes.now) result }
        ensures event { (written_of self.new).events
            ≡ push_event result bytes.now ∷ (written_of self.old).events }

        // If the writer reports its bytes.
        ensures written { WritesTaken (W.contents (writer_of self.old))
            (W.contents (writer_of self.new)) result bytes.now }
    {
        let written = self.writer.write(bytes);
        let flushed = flush_after(&written, &mut self.writer);
        let push = push_of(&written, &flushed);
        note_push(push, bytes, &mut self.tape);
        push
    }
}
