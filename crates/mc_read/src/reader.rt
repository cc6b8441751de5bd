//! The reader: what has arrived of the stream and isn't read yet.
ghost use Rattle.std.specs.Bool.{MatchBool, OnTrue};
ghost use Rattle.std.specs.Prelude.{◌≡◌, ◌≢◌, ℕ, ◌+◌, ◌-◌, ◌<◌, ◌≤◌, if◌then◌else◌, List, [], ◌++◌, length, take, drop, IfOk, IfSome, IsOk, IsOkUnless, OnOk, OnErr};
ghost use Rattle.mc_model.specs.declared.request.Request.{Request};
ghost use Rattle.mc_read.specs.declared.speaker.Speaker.TheVariants as speakers;
ghost use Rattle.mc_read.specs.Administering.{lines_spoken};
ghost use Rattle.mc_read.specs.Line.{HasLawfulBlock};
ghost use Rattle.mc_read.specs.Pulling.{IsFedByPull};
ghost use Rattle.mc_read.specs.Reading.{ends_stream, Ended, IsFed, Kept, Swallowing, raised};
ghost use Rattle.mc_read.specs.State.{EndsInRefusal, Feeds, IsAllSearched, IsNextAnswer, IsLineAt, IsSearched, IsStateOf, ahead_in, held_in, line_reach, searched_in, state_past, to_search};
ghost use Rattle.mc_read.specs.Text.{IsTooLongText, IsUnended, Lines, stored_if};

use crate::awaited::Awaited;
use crate::line::{Asked, BLOCK_LENGTH, Header, LINE_BYTES, refused};
use crate::source::Source;
use crate::speaker::Speaker;
use bytes::Bytes;
use mc_model::{Data, Fault, Request, WireNo};
use mc_stream::{Input, Pull};
use std::alloc::Global;
use std::marker::Model;
use std::mem;

/// How far the reader is with the request at the front of its bytes.
#[derive(Debug, Drop)]
enum State {
    /// Its line is awaited; there is no line feed in the first `searched` bytes.
    AwaitsLine {
        searched: usize,
    },
    /// Its line was read, and its block is awaited.
    AwaitsBlock(Box<Awaited>),
    /// Its block is refused; `left` bytes of it and of the two after it are still to come.
    SwallowsBlock {
        refusal: WireNo,
        quiet: bool,
        left: u64,
    },
    /// Nothing more is read.
    Ended,
}

/// What a search for a line found.
pub(crate) enum Sought {
    /// A line of this length.
    Found(usize),
    /// More bytes than a line may have, without a line feed.
    TooLong,
    /// No line feed yet.
    Open,
}

/// Returns whether nothing is read after the request.
pub fn ends_stream(request: &Request) -> bool
    ensures { result ≡ ends_stream request.now }
{
    matches!(request, Request::Quit | Request::TooLong)
}

/// Returns the request of a block that has arrived whole, with the two bytes after it.
#[inline(always)]
fn stored(header: Header, block: Data, ends_well: bool) -> Request
    ensures { result ≡ stored_if ends_well header block }
{
    if !ends_well {
        return refused(WireNo::BAD_BLOCK, header.quiet);
    }
    Request::Logged {
        command: header.storage.command(header.key, header.flags, block),
        quiet: header.quiet,
    }
}

/// Removes a line from the front, with what has arrived of its refused block and of the two bytes
/// after it. Returns how many of these are still to come.
fn swallow(buffer: &mut Source, line: usize, size: u64) -> u64
    requires line_end { line < length buffer.old }
    requires readable { size ≤ BLOCK_LENGTH }
    ensures left { result ≡ line + 1 + (size + 2) - length buffer.old }
    ensures bytes { buffer.new ≡ drop (line + 1 + (size + 2)) buffer.old }
{
    let held = buffer.len();
    let start = line + 1;
    let swallowed = (size + 2).min((held - start) as u64);
    buffer.advance(start + swallowed as usize);
    size + 2 - swallowed
}

/// Removes a request of `count` bytes from the front, and returns the state in which the reader
/// goes on. At the end of the stream nothing is kept.
fn move_on(buffer: &mut Source, count: usize, request: &Request) -> State
    requires { count ≤ length buffer.old }
    ensures state { result ≡ state_past request.now }
    ensures bytes { buffer.new ≡ (if ends_stream request.now then [] else drop count buffer.old) }
{
    if ends_stream(request) {
        buffer.clear();
        State::Ended
    } else {
        buffer.advance(count);
        State::AwaitsLine { searched: 0 }
    }
}

/// Reads a request at the front of the bytes, given the length of its line and what this asks for.
/// Returns it, if it is whole, and the state in which the reader goes on. Returns `Memory` if an
/// allocation fails; nothing is removed then.
fn read_asked(
    alloc: Global,
    speaker: Speaker,
    buffer: &mut Source,
    line: usize,
    asked: Asked,
) -> Result<(Option<Request>, State), Fault>
    requires line { IsLineAt buffer.old line }
    requires asked { asked ≡ lines_spoken speaker (take line buffer.old) }
    requires lawful { HasLawfulBlock asked }
    ensures answer { IfOk result
        (λ step. IsNextAnswer (lines_spoken speaker) (Kept buffer.old) step.0
        (held_in step.1 buffer.new)) }
    ensures state { IfOk result (λ step. IsStateOf (lines_spoken speaker) step.1 buffer.new) }
    ensures end { IfOk result (λ step. IfSome step.0 (λ request. step.1 ≡ state_past request)) }
    ensures ahead { IfOk result
        (λ step. line + 1 + ahead_in step.1 buffer.new ≤ length buffer.old) }
    ensures all { IfOk result
        (λ step. IsAllSearched step.0 (held_in step.1 buffer.new) (searched_in step.1)) }
    ensures refused { (request : Request) (left : ℕ) →
        EndsInRefusal (lines_spoken speaker) buffer.old request left →
        IfOk result (λ step. held_in step.1 buffer.new ≡ Swallowing request left []) }
    ensures memory { IsOkUnless result Fault.Memory }
    ensures unchanged { OnErr result (buffer.new ≡ buffer.old) }
{
    match asked {
        Asked::LineOnly(request) => {
            let state = move_on(buffer, line + 1, &request);
            Ok((Some(request), state))
        }
        Asked::RefusedBlock {
            length,
            refusal,
            quiet,
        } => {
            let left = swallow(buffer, line, length);
            if left > 0 {
                let state = State::SwallowsBlock {
                    refusal,
                    quiet,
                    left,
                };
                return Ok((None, state));
            }
            Ok((
                Some(refused(refusal, quiet)),
                State::AwaitsLine { searched: 0 },
            ))
        }
        Asked::StoredBlock(header) => {
            let size = header.length as usize;
            match buffer.take_block(alloc, line, size)? {
                Some((block, ends_well)) => {
                    let request = stored(header, block, ends_well);
                    Ok((Some(request), State::AwaitsLine { searched: 0 }))
                }
                None => {
                    let awaited = buffer.begin_block(alloc, line, header)?;
                    Ok((None, State::AwaitsBlock(awaited)))
                }
            }
        }
    }
}

/// Reads a request at the front of the bytes whose line has this length. Returns it, if it is
/// whole, and the state in which the reader goes on. Returns `Memory` if an allocation fails;
/// nothing is removed then.
fn read_line(
    alloc: Global,
    speaker: Speaker,
    buffer: &mut Source,
    line: usize,
) -> Result<(Option<Request>, State), Fault>
    requires { IsLineAt buffer.old line }
    ensures answer { IfOk result
        (λ step. IsNextAnswer (lines_spoken speaker) (Kept buffer.old) step.0
        (held_in step.1 buffer.new)) }
    ensures state { IfOk result (λ step. IsStateOf (lines_spoken speaker) step.1 buffer.new) }
    ensures end { IfOk result (λ step. IfSome step.0 (λ request. step.1 ≡ state_past request)) }
    ensures ahead { IfOk result
        (λ step. line + 1 + ahead_in step.1 buffer.new ≤ length buffer.old) }
    ensures all { IfOk result
        (λ step. IsAllSearched step.0 (held_in step.1 buffer.new) (searched_in step.1)) }
    ensures refused { (request : Request) (left : ℕ) →
        EndsInRefusal (lines_spoken speaker) buffer.old request left →
        IfOk result (λ step. held_in step.1 buffer.new ≡ Swallowing request left []) }
    ensures memory { IsOkUnless result Fault.Memory }
    ensures unchanged { OnErr result (buffer.new ≡ buffer.old) }
{
    let asked = buffer.ask(alloc, speaker, line)?;
    read_asked(alloc, speaker, buffer, line, asked)
}

/// Reads a request at the front of the bytes, the first `searched` of which hold no line feed.
/// Returns it, if it is whole, the state in which the reader goes on, and in how many bytes a line
/// end was searched. Returns `Memory` if an allocation fails; nothing is removed then.
fn next_line(
    alloc: Global,
    speaker: Speaker,
    buffer: &mut Source,
    searched: usize,
) -> Result<(Option<Request>, State, usize), Fault>
    requires { IsSearched searched buffer.old }
    ensures answer { IfOk result
        (λ step. IsNextAnswer (lines_spoken speaker) (Kept buffer.old) step.0
        (held_in step.1 buffer.new)) }
    ensures state { IfOk result (λ step. IsStateOf (lines_spoken speaker) step.1 buffer.new) }
    ensures end { IfOk result (λ step. IfSome step.0 (λ request. step.1 ≡ state_past request)) }
    ensures refused { (request : Request) (left : ℕ) →
        EndsInRefusal (lines_spoken speaker) buffer.old request left →
        IfOk result (λ step. held_in step.1 buffer.new ≡ Swallowing request left []) }
    ensures unended { IsUnended buffer.old →
        result ≡ Ok (None, State.AwaitsLine (length buffer.old), length buffer.old - searched)
        × (buffer.new ≡ buffer.old) }
    ensures too_long { (text more : List ℕ) (request : Request) → buffer.old ≡ text ++ more →
        IsTooLongText text request →
        result ≡ Ok (Some request, State.Ended, LINE_BYTES + 1 - searched) }
    ensures scanned { IfOk result
        (λ step. searched + step.2 + ahead_in step.1 buffer.new ≤ length buffer.old) }
    ensures all { IfOk result
        (λ step. IsAllSearched step.0 (held_in step.1 buffer.new) (searched_in step.1)) }
    ensures once { IfOk result (λ step. step.2 ≡ line_reach buffer.old - searched) }
    ensures memory { IsOkUnless result Fault.Memory }
    ensures unchanged { OnErr result (buffer.new ≡ buffer.old) }
{
    match buffer.find(searched) {
        Sought::Found(line) => {
            let (request, state) = read_line(alloc, speaker, buffer, line)?;
            Ok((request, state, line + 1 - searched))
        }
        Sought::TooLong => {
            buffer.clear();
            Ok((
                Some(Request::TooLong),
                State::Ended,
                LINE_BYTES + 1 - searched,
            ))
        }
        Sought::Open => {
            let held = buffer.len();
            Ok((None, State::AwaitsLine { searched: held }, held - searched))
        }
    }
}

/// Takes the next piece of the stream, of which what is kept may be shared. Returns `Memory` if an
/// allocation fails; nothing changes then.
fn take_piece(state: &mut State, buffer: &mut Source, piece: Bytes) -> Result<(), Fault>
    ensures readings { OnOk result ((lines : Lines) → IsStateOf lines state.old buffer.old →
        IsFed lines (held_in state.old buffer.old) piece (held_in state.new buffer.new)) }
    ensures state { (lines : Lines) → IsStateOf lines state.old buffer.old →
        IsStateOf lines state.new buffer.new }
    ensures ahead { OnOk result
        (ahead_in state.new buffer.new ≤ ahead_in state.old buffer.old + length piece) }
    ensures searched { searched_in state.new ≡ searched_in state.old }
    ensures memory { IsOkUnless result Fault.Memory }
    ensures unchanged { OnErr result ((state.new ≡ state.old) × (buffer.new ≡ buffer.old)) }
    ensures swallowed { (request : Request) (left : ℕ) →
        held_in state.old buffer.old ≡ Swallowing request left [] → length piece ≤ left →
        IsOk result
        × (held_in state.new buffer.new ≡ Swallowing request (left - length piece) []) }
    ensures ended { held_in state.old buffer.old ≡ Ended → IsOk result
        × (held_in state.new buffer.new ≡ Ended) }
{
    match state {
        State::AwaitsLine { .. } => buffer.append(piece),
        State::AwaitsBlock(_) => buffer.append(piece),
        State::SwallowsBlock { left, .. } => {
            let count = piece.len() as u64;
            if count <= *left {
                *left -= count;
                return Ok(());
            }
            let mut piece = piece;
            piece.advance(*left as usize);
            buffer.append(piece)?;
            *left = 0;
            Ok(())
        }
        State::Ended => Ok(()),
    }
}

/// Takes the next piece of the stream, of which what is kept is copied. Returns `Memory` if an
/// allocation fails; nothing changes then.
#[inline(always)]
fn take_slice(state: &mut State, buffer: &mut Source, piece: &[u8]) -> Result<(), Fault>
    ensures readings { OnOk result ((lines : Lines) → IsStateOf lines state.old buffer.old →
        IsFed lines (held_in state.old buffer.old) piece.now (held_in state.new buffer.new)) }
    ensures state { (lines : Lines) → IsStateOf lines state.old buffer.old →
        IsStateOf lines state.new buffer.new }
    ensures ahead { OnOk result
        (ahead_in state.new buffer.new ≤ ahead_in state.old buffer.old + length piece.now) }
    ensures searched { searched_in state.new ≡ searched_in state.old }
    ensures memory { IsOkUnless result Fault.Memory }
    ensures unchanged { OnErr result ((state.new ≡ state.old) × (buffer.new ≡ buffer.old)) }
    ensures swallowed { (request : Request) (left : ℕ) →
        held_in state.old buffer.old ≡ Swallowing request left [] → length piece.now ≤ left →
        IsOk result
        × (held_in state.new buffer.new ≡ Swallowing request (left - length piece.now) []) }
    ensures ended { held_in state.old buffer.old ≡ Ended → IsOk result
        × (held_in state.new buffer.new ≡ Ended) }
{
    match state {
        State::AwaitsLine { .. } => buffer.extend(piece),
        State::AwaitsBlock(_) => buffer.extend(piece),
        State::SwallowsBlock { left, .. } => {
            let length = piece.len() as u64;
            if length <= *left {
                *left -= length;
                return Ok(());
            }
            buffer.extend(&piece[*left as usize..])?;
            *left = 0;
            Ok(())
        }
        State::Ended => Ok(()),
    }
}

/// Drops those of the bytes that aren't to be read: what has come of a refused block, and all after
/// the end.
fn drop_unread(state: &mut State, buffer: &mut Source)
    ensures feeds { (lines : Lines) (bytes piece : List ℕ) → IsStateOf lines state.old bytes →
        buffer.old ≡ bytes ++ piece → Feeds lines state.old bytes piece state.new buffer.new }
    ensures searched { searched_in state.new ≡ searched_in state.old }
{
    match state {
        State::AwaitsLine { .. } => {}
        State::AwaitsBlock(_) => {}
        State::SwallowsBlock { left, .. } => {
            let count = (*left).min(buffer.len() as u64);
            buffer.advance(count as usize);
            *left -= count;
        }
        State::Ended => buffer.clear(),
    }
}

/// Reads requests from a stream that comes in pieces of any size.
///
/// What is kept once `next` has returned `None` is bounded: of a line no more than it may have, of
/// a refused block nothing, and of a block that is to be stored no more than has arrived. Memory
/// for all of a block that is awaited is asked for once its line is read.
#[derive(Debug, Drop)]
pub struct Reader {
    alloc: Global,
    speaker: Speaker,
    buffer: Source,
    state: State,
    /// How many bytes were fed, at most 2^64 - 1.
    fed: u64,
    /// In how many of them a line end was searched, at most 2^64 - 1.
    scanned: u64,
}

impl Model for Reader {
    ghost use Rattle.mc_read.specs.Administering.{lines_spoken};
    ghost use Rattle.mc_read.specs.Reading.{ReaderView};
    ghost use Rattle.mc_read.specs.State.{IsReader, held_in, searched_in};

    ghost Value = { ReaderView };

    ghost view = { λ reader. record { speaker = reader.speaker; held = held_in reader.state reader.buffer; fed = reader.fed; scanned = reader.scanned; searched = searched_in reader.state } };

    ghost invariant = { λ reader. IsReader (lines_spoken reader.speaker) reader.state reader.buffer reader.fed reader.scanned };
}

impl Reader {
    /// Returns a reader at the beginning of a tenant's stream. Allocates nothing.
    pub fn new(alloc: Global) -> Reader
        ensures speaker { result.speaker ≡ speakers.Tenant }
        ensures held { result.held ≡ Kept [] }
        ensures none { (result.fed ≡ 0) × (result.scanned ≡ 0) × (result.searched ≡ 0) }
    {
        Reader::of(alloc, Speaker::Tenant)
    }

    /// Returns a reader at the beginning of an administrator's stream. Allocates nothing.
    pub fn admin(alloc: Global) -> Reader
        ensures speaker { result.speaker ≡ speakers.Admin }
        ensures held { result.held ≡ Kept [] }
        ensures none { (result.fed ≡ 0) × (result.scanned ≡ 0) × (result.searched ≡ 0) }
    {
        Reader::of(alloc, Speaker::Admin)
    }

    /// Returns a reader at the beginning of this speaker's stream.
    fn of(alloc: Global, speaker: Speaker) -> Reader
        ensures speaker { result.speaker ≡ speaker }
        ensures held { result.held ≡ Kept [] }
        ensures none { (result.fed ≡ 0) × (result.scanned ≡ 0) × (result.searched ≡ 0) }
    {
        Reader {
            alloc,
            speaker,
            buffer: Source::new(alloc),
            state: State::AwaitsLine { searched: 0 },
            fed: 0,
            scanned: 0,
        }
    }

    /// Returns how many bytes were fed, at most 2^64 - 1.
    pub fn fed(&self) -> u64
        ensures { result ≡ self.now.fed }
    {
        self.fed
    }

    /// Returns in how many bytes a line end was searched, at most 2^64 - 1: in each byte of a line
    /// once, and in none of a block.
    pub fn scanned(&self) -> u64
        ensures count { result ≡ self.now.scanned }
        ensures within { self.now.scanned ≤ self.now.fed }
    {
        self.scanned
    }

    /// Returns whether nothing more is read.
    pub fn has_ended(&self) -> bool
        ensures { MatchBool result (self.now.held ≡ Ended) (self.now.held ≢ Ended) }
    {
        match &self.state {
            State::AwaitsLine { .. } => false,
            State::AwaitsBlock(_) => false,
            State::SwallowsBlock { .. } => false,
            State::Ended => true,
        }
    }

    /// Takes the next piece of the stream; after the end it is dropped. Returns `Memory` if an
    /// allocation fails; the piece isn't taken then.
    pub fn feed(&mut self, piece: &[u8]) -> Result<(), Fault>
        ensures readings { OnOk result
            (IsFed (lines_spoken self.old.speaker) self.old.held piece.now self.new.held) }
        ensures speaker { self.new.speaker ≡ self.old.speaker }
        ensures memory { IsOkUnless result Fault.Memory }
        ensures unchanged { OnErr result (self.new.held ≡ self.old.held) }

        // Within a refused block, and after the end, it needs no memory.
        ensures swallowed { (request : Request) (left : ℕ) →
            self.old.held ≡ Swallowing request left [] → length piece.now ≤ left →
            IsOk result × (self.new.held ≡ Swallowing request (left - length piece.now) []) }
        ensures ended { self.old.held ≡ Ended → IsOk result × (self.new.held ≡ Ended) }

        // The piece is counted, and nothing is searched.
        ensures fed { OnOk result (self.new.fed ≡ raised self.old.fed (length piece.now)) }
        ensures scanned { self.new.scanned ≡ self.old.scanned }
        ensures searched { self.new.searched ≡ self.old.searched }
        ensures same { OnErr result (self.new ≡ self.old) }
    {
        let fed = self.fed.saturating_add(piece.len() as u64);
        take_slice(&mut self.state, &mut self.buffer, piece)?;
        self.fed = fed;
        Ok(())
    }

    /// Takes the next piece of the stream, as `feed`. A long block that lies in it shares its
    /// memory. Returns `Memory` if an allocation fails; the piece isn't taken then.
    pub fn feed_bytes(&mut self, piece: Bytes) -> Result<(), Fault>
        ensures readings { OnOk result
            (IsFed (lines_spoken self.old.speaker) self.old.held piece self.new.held) }
        ensures speaker { self.new.speaker ≡ self.old.speaker }
        ensures memory { IsOkUnless result Fault.Memory }
        ensures unchanged { OnErr result (self.new.held ≡ self.old.held) }

        // Within a refused block, and after the end, it needs no memory.
        ensures swallowed { (request : Request) (left : ℕ) →
            self.old.held ≡ Swallowing request left [] → length piece ≤ left →
            IsOk result × (self.new.held ≡ Swallowing request (left - length piece) []) }
        ensures ended { self.old.held ≡ Ended → IsOk result × (self.new.held ≡ Ended) }

        // The piece is counted, and nothing is searched.
        ensures fed { OnOk result (self.new.fed ≡ raised self.old.fed (length piece)) }
        ensures scanned { self.new.scanned ≡ self.old.scanned }
        ensures searched { self.new.searched ≡ self.old.searched }
        ensures same { OnErr result (self.new ≡ self.old) }
    {
        let fed = self.fed.saturating_add(piece.len() as u64);
        take_piece(&mut self.state, &mut self.buffer, piece)?;
        self.fed = fed;
        Ok(())
    }

    /// Pulls once, at most `most` bytes, and takes those that came, as `feed`. They come straight
    /// into the reader's memory; where memory for all of them is refused, as many are pulled as
    /// there is room for. Returns `Memory` if there is room for none; nothing is pulled then.
    pub fn pull<I: Input>(&mut self, input: &mut I, most: usize) -> Result<Pull, Fault>
        requires { 0 < most }
        ensures pulls { IfOk result
            (IsFedByPull (I.tells input.old) (I.tells input.new) most self.old self.new) }
        ensures speaker { self.new.speaker ≡ self.old.speaker }
        ensures scanned { self.new.scanned ≡ self.old.scanned }
        ensures searched { self.new.searched ≡ self.old.searched }
        ensures memory { IsOkUnless result Fault.Memory }
        ensures unchanged { OnErr result ((self.new ≡ self.old) × (input.new ≡ input.old)) }
    {
        let pull = self.buffer.pull(input, most)?;
        if let Pull::Bytes(count) = pull {
            drop_unread(&mut self.state, &mut self.buffer);
            self.fed = self.fed.saturating_add(count as u64);
        }
        Ok(pull)
    }

    /// Returns the next request, or `None` if no whole request is held. Returns `Memory` if an
    /// allocation fails; nothing changes then.
    pub fn next(&mut self) -> Result<Option<Request>, Fault>
        // Whatever follows, what was held reads as the request and then as what is held now, which
        // is less. Without a request it reads as before, and there was no request in it.
        ensures answer { IfOk result
            (λ next. IsNextAnswer (lines_spoken self.old.speaker) self.old.held next
            self.new.held) }
        ensures speaker { self.new.speaker ≡ self.old.speaker }
        ensures end { IfOk result
            (λ next. IfSome next
            (λ request. OnTrue (ends_stream request) (self.new.held ≡ Ended))) }
        ensures ended { self.old.held ≡ Ended → result ≡ Ok None × (self.new.held ≡ Ended) }

        // Of a refused block only the length is kept; until all of it has arrived, and then for its
        // request, no memory is needed.
        ensures refused { (bytes : List ℕ) (request : Request) (left : ℕ) →
            self.old.held ≡ Kept bytes →
            EndsInRefusal (lines_spoken self.old.speaker) bytes request left →
            OnOk result (self.new.held ≡ Swallowing request left []) }
        ensures swallowing { (request : Request) (left : ℕ) →
            self.old.held ≡ Swallowing request left [] → 0 < left → result ≡ Ok None
            × (self.new.held ≡ self.old.held) }
        ensures swallowed { (request : Request) (bytes : List ℕ) →
            self.old.held ≡ Swallowing request 0 bytes → result ≡ Ok (Some request)
            × (self.new.held ≡ Kept bytes) }

        // Nor is any needed if no line has ended yet, or if the line is too long.
        ensures unended { (bytes : List ℕ) → self.old.held ≡ Kept bytes → IsUnended bytes →
            result ≡ Ok None × (self.new.held ≡ self.old.held) }
        ensures too_long { (text more : List ℕ) (request : Request) →
            self.old.held ≡ Kept (text ++ more) → IsTooLongText text request →
            result ≡ Ok (Some request) × (self.new.held ≡ Ended) }
        ensures memory { IsOkUnless result Fault.Memory }
        ensures unchanged { OnErr result (self.new.held ≡ self.old.held) }

        // A line end is searched in each byte of a line once, and in none of a block.
        ensures once { OnOk result (self.new.scanned
            ≡ raised self.old.scanned (to_search self.old.held self.old.searched)) }
        ensures all { IfOk result (λ next. IsAllSearched next self.new.held self.new.searched) }
        ensures fed { self.new.fed ≡ self.old.fed }
        ensures same { OnErr result (self.new ≡ self.old) }
    {
        match &mut self.state {
            State::AwaitsLine { searched } => {
                let (request, state, count) = next_line(
                    self.alloc,
                    self.speaker,
                    &mut self.buffer,
                    *searched,
                )?;
                self.state = state;
                self.scanned = self.scanned.saturating_add(count as u64);
                Ok(request)
            }
            State::AwaitsBlock(awaited) => {
                let taken = self.buffer.finish_block(awaited)?;
                let Some((block, ends_well)) = taken else {
                    return Ok(None);
                };
                match mem::replace(&mut self.state, State::AwaitsLine { searched: 0 }) {
                    State::AwaitsBlock(awaited) => {
                        let Awaited { header, .. } = Box::into_inner(awaited);
                        Ok(Some(stored(header, block, ends_well)))
                    }
                    _ => unreachable!(),
                }
            }
            State::SwallowsBlock { left, .. } if *left > 0 => Ok(None),
            State::SwallowsBlock { refusal, quiet, .. } => {
                let request = refused(*refusal, *quiet);
                self.state = State::AwaitsLine { searched: 0 };
                Ok(Some(request))
            }
            State::Ended => Ok(None),
        }
    }
}
