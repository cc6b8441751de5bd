//! A connection of an event loop.
ghost use Rattle.std.specs.Prelude.{◌≡◌};
ghost use Rattle.mc_connections.specs.Moving.{byte_count};

use crate::pace::Pace;
use mc_conn::Conn;
use mc_stream::Tape;
use mio::net::TcpStream;

/// A stream, and what is held of its requests and replies.
#[derive(Drop)]
pub struct Connection {
    pub(crate) stream: TcpStream,
    pub(crate) conn: Conn,
    /// What the reads of the stream did; for contracts only.
    pub(crate) received: Tape,
    /// What its writes did; for contracts only.
    pub(crate) sent: Tape,
    /// How many bytes came so far, and how many were sent.
    pub(crate) bytes_received: u64,
    pub(crate) bytes_sent: u64,
    /// How long its requests are, by which its reads are as long.
    pub(crate) pace: Pace,
    /// It was served, so that it isn't one whose client has left before its first turn.
    pub(crate) is_served: bool,
    ghost counts_received: { bytes_received ≡ byte_count received.events },
    ghost counts_sent: { bytes_sent ≡ byte_count sent.events },
}
