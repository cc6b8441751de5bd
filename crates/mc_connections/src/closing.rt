//! Streams that close: nothing more is sent on them, but their peers may still have to receive what
//! was.
ghost use Rattle.std.specs.Prelude.{◌≡◌, ◌⊎◌, ◌+◌, ◌<◌, ◌≤◌, IfNone, IfSome, None, vec_len};
ghost use Rattle.mc_connections.specs.declared.closing.TheConstants.{DROPPED_BYTES, MOST_CLOSING};

use mc_conn::PULL_BYTES;
use mio::net::TcpStream;
use mio::{Events, Interest, Registry, Token};
use std::alloc::{AllocError, Global};
use std::io::{ErrorKind, Read};
use std::net::Shutdown;

/// How many streams of an event loop close at the same time, at most.
pub(crate) const MOST_CLOSING: usize = 64;

/// How many bytes are read and dropped of a stream that closes, at most.
pub(crate) const DROPPED_BYTES: usize = 65_536;

/// The first token of streams that close, above every key of a connection. The waker's token is the
/// next after theirs.
const FIRST_TOKEN: usize = usize::MAX - MOST_CLOSING;

/// Returns the place of the stream with this token, if it is a token of streams that close.
pub(crate) fn place_of(token: Token) -> Option<usize>
    ensures place { IfSome result (λ place. token.0 ≡ FIRST_TOKEN + place) }
    ensures within { IfSome result (λ place. place < MOST_CLOSING) }
    ensures key { token.0 < FIRST_TOKEN → result ≡ None }
    ensures none { IfNone result
        (token.0 < FIRST_TOKEN ⊎ FIRST_TOKEN + MOST_CLOSING ≤ token.0) }
{
    match token.0.checked_sub(FIRST_TOKEN) {
        Some(place) if place < MOST_CLOSING => Some(place),
        _ => None,
    }
}

/// A stream whose sending side is shut down.
#[derive(Drop)]
struct ClosingStream {
    stream: TcpStream,
    // How many more bytes are dropped.
    left: usize,
    // Whether the poll reports it under its own token.
    is_registered: bool,
    ghost bound: { left ≤ DROPPED_BYTES },
}

impl ClosingStream {
    /// Drops the bytes that have come. Returns whether the stream is to be closed: the peer has
    /// ended or reset it, or as many bytes as may be were dropped.
    fn drop_bytes(&mut self, buffer: &mut [u8; PULL_BYTES]) -> bool
        ensures { self.new.left ≤ self.old.left }
    {
        for _ in 0..DROPPED_BYTES {
            let most = self.left.min(PULL_BYTES);
            if most == 0 {
                return true;
            }
            match self.stream.read(&mut buffer[..most]) {
                Ok(0) => return true,
                Ok(count) => self.left -= count,
                Err(error) => return error.kind() != ErrorKind::WouldBlock,
            }
        }
        true
    }
}

/// Registers the stream of a place under this token, if there is one that isn't registered yet. If
/// it can't be it is closed.
fn register(slot: &mut Option<ClosingStream>, registry: &Registry, token: Token) {
    let Some(closing) = slot else {
        return;
    };
    if closing.is_registered {
        return;
    }
    closing.is_registered = true;
    let registered = registry.reregister(&mut closing.stream, token, Interest::READABLE);
    if registered.is_err() {
        *slot = None;
    }
}

/// Drops the bytes that have come on the stream of a place, if there is one, and closes it if it
/// has ended.
fn serve(slot: &mut Option<ClosingStream>, buffer: &mut [u8; PULL_BYTES]) {
    let has_ended = match slot {
        Some(closing) => closing.drop_bytes(buffer),
        None => false,
    };
    if has_ended {
        *slot = None;
    }
}

/// The streams of an event loop that close.
///
/// The system resets a stream that is closed while bytes from its peer are unread, and drops what
/// the peer hasn't received yet. So its sending side is shut down first, and what comes is read and
/// dropped until the peer ends it, `DROPPED_BYTES` at most.
#[derive(Drop)]
pub struct Closing {
    streams: Vec<Option<ClosingStream>>,
    // The place of the next stream if none is free.
    next: usize,
    // Whether a stream isn't registered yet.
    has_new: bool,
    ghost many: { vec_len streams ≡ MOST_CLOSING },
    ghost inside: { next < MOST_CLOSING },
}

impl Closing {
    /// Returns an empty set of streams, with room for `MOST_CLOSING`.
    ///
    /// Returns an error if memory runs out.
    pub(crate) fn new(alloc: Global) -> Result<Closing, AllocError> {
        let mut streams = Vec::new(alloc);
        for _ in 0..MOST_CLOSING {
            streams.push(None)?;
        }
        Ok(Closing {
            streams,
            next: 0,
            has_new: false,
        })
    }

    /// Returns whether no stream is closing.
    pub fn is_empty(&self) -> bool {
        self.streams.iter().all(|stream| stream.is_none())
    }

    /// Shuts down a stream's sending side, and keeps it until its peer ends it, unless that has
    /// ended already. If `MOST_CLOSING` are kept already, one of them is closed.
    pub(crate) fn keep(&mut self, stream: TcpStream, buffer: &mut [u8; PULL_BYTES]) {
        let mut closing = ClosingStream {
            stream,
            left: DROPPED_BYTES,
            is_registered: false,
        };
        if closing.drop_bytes(buffer) {
            return;
        }
        if closing.stream.shutdown(Shutdown::Write).is_err() {
            return;
        }
        let free = self.streams.iter().position(|stream| stream.is_none());
        if let Some(slot) = self.streams.get_mut(free.unwrap_or(self.next)) {
            *slot = Some(closing);
        }
        if free.is_none() {
            self.next = (self.next + 1) % MOST_CLOSING;
        }
        self.has_new = true;
    }

    /// Registers the streams that were kept since the last call, each under the token of its place.
    /// One that can't be registered is closed.
    pub fn register_new(&mut self, registry: &Registry) {
        if !self.has_new {
            return;
        }
        self.has_new = false;
        for place in 0..MOST_CLOSING {
            if let Some(slot) = self.streams.get_mut(place) {
                register(slot, registry, Token(FIRST_TOKEN + place));
            }
        }
    }

    /// Drops what has come on the streams for which there is an event, and closes those that have
    /// ended.
    pub fn serve_events(&mut self, events: &Events, buffer: &mut [u8; PULL_BYTES]) {
        for event in events {
            if let Some(place) = place_of(event.token()) {
                self.serve(place, buffer);
            }
        }
    }

    /// Drops the bytes that have come on the stream at a place, if there is one, and closes it if
    /// it has ended.
    pub(crate) fn serve(&mut self, place: usize, buffer: &mut [u8; PULL_BYTES]) {
        if let Some(slot) = self.streams.get_mut(place) {
            serve(slot, buffer);
        }
    }
}
