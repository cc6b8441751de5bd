//! One connection of a client that scrapes.
ghost use Rattle.std.specs.Prelude.{◌≡◌, ◌↔◌, ◌<◌, IsTrue, Some};
ghost use Rattle.mc_scraping.specs.Yielding.{holder_of, pending};

use crate::yielding::Holder;
use http_server::{Config, Connection, Service};
use http1::Limits;
use mio::net::TcpStream;
use std::alloc::Global;
use std::hash::RandomState;
use std::io;
use std::io::ErrorKind;
use std::time::Instant;

/// How many bytes the head of a request may have.
const MOST_HEAD: usize = 8_192;

/// How many bytes a read is given room for at least.
const READ_SIZE: usize = 1_024;

/// How many reads and writes a connection gets in a round at most, so that the others get theirs
/// soon.
const STEPS: u32 = 16;

/// What a read or a write has come to.
enum Step {
    /// The stream gave or took something.
    Moved,
    /// The stream took the end of an answer.
    Sent,
    /// The stream has nothing, or takes nothing.
    Waits,
}

/// A stream, what is held of its requests and answers, and when it began.
#[derive(Drop)]
pub(crate) struct Visit {
    stream: TcpStream,
    connection: Connection,
    pub(crate) begun: Instant,
    /// When it last took a part of an answer, or else when it began.
    used: Instant,
    /// It is to be served again, even if no event comes.
    pub(crate) has_more: bool,
}

/// Returns the limits of a connection: a request has no body, and the next one is read once its
/// answer is sent.
fn limits() -> Config {
    Config {
        limits: Limits {
            max_head_len: MOST_HEAD,
            max_extensions_len: READ_SIZE,
            max_trailers_len: READ_SIZE,
        },
        max_body_len: 0,
        max_pending: 0,
        read_size: READ_SIZE,
    }
}

impl Visit {
    /// Returns the connection of a stream, of which nothing was read yet. Allocates nothing.
    pub(crate) fn new(
        alloc: Global,
        keys: RandomState,
        stream: TcpStream,
        begun: Instant,
    ) -> Visit {
        Visit {
            stream,
            connection: Connection::new(alloc, keys, limits()),
            begun,
            used: begun,
            has_more: false,
        }
    }

    /// Returns whether an answer is being sent.
    fn is_answered(&self) -> bool
        ensures { IsTrue result ↔ (0 < pending self.now) }
    {
        self.connection.wants_write()
    }

    /// Returns what is said of it as the holder of a place at this time.
    pub(crate) fn holder(&self, now: Instant) -> Holder
        ensures { result ≡ holder_of now (Some self.now) }
    {
        let idle = now.duration_since(self.used).as_nanos();
        if now.duration_since(self.begun).is_zero() {
            Holder::New
        } else if self.is_answered() {
            Holder::Answered(idle)
        } else {
            Holder::Idle(idle)
        }
    }

    /// Writes once if something is pending, and reads once otherwise.
    ///
    /// Returns the stream's error, and `ConnectionAborted` if nothing more is to be done.
    fn step<S: Service>(&mut self, service: &mut S, now: Instant) -> io::Result<Step> {
        self.connection.advance(service);
        if self.connection.is_done() {
            return Err(ErrorKind::ConnectionAborted.into());
        }
        let is_answered = self.is_answered();
        let moved = if is_answered {
            self.connection.write_to(&mut self.stream)
        } else {
            self.connection.read_from(&mut self.stream)
        };
        match moved {
            Ok(_) if is_answered => {
                self.used = now;
                Ok(if self.is_answered() {
                    Step::Moved
                } else {
                    Step::Sent
                })
            }
            Ok(_) => Ok(Step::Moved),
            Err(error) if error.kind() == ErrorKind::WouldBlock => Ok(Step::Waits),
            Err(error) => Err(error),
        }
    }

    /// Serves the connection until its stream has nothing and takes nothing more, an answer is
    /// sent, or it has had `STEPS`. Returns whether it stays: not once it is done or has failed.
    pub(crate) fn serve<S: Service>(&mut self, service: &mut S, now: Instant) -> bool {
        self.has_more = false;
        for _ in 0..STEPS {
            match self.step(service, now) {
                Ok(Step::Moved) => {}
                // One answer a round, so that the others get theirs soon.
                Ok(Step::Sent) => break,
                Ok(Step::Waits) => return true,
                Err(_) => return false,
            }
        }
        self.has_more = true;
        true
    }
}
