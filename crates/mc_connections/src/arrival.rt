//! Streams that have come.
ghost use Rattle.std.specs.Prelude.{◌≡◌};

use mc_conn::Role;
use mio::net::TcpStream;

/// A stream, and the role of its client.
///
/// The two stay together: outside of this crate nobody can take a stream out of an arrival or
/// change its role, so whoever hands arrivals on hands each stream on with its role.
#[derive(Drop)]
pub struct Arrival<S> {
    pub(crate) role: Role,
    pub(crate) stream: S,
}

impl<S> Arrival<S> {
    /// Returns the arrival of this stream, whose client has this role.
    pub fn new(role: Role, stream: S) -> Arrival<S>
        ensures { (result.role ≡ role) × (result.stream ≡ stream) }
    {
        Arrival { role, stream }
    }

    /// Returns the role.
    pub fn role(&self) -> &Role
        ensures { result.now ≡ self.now.role }
    {
        &self.role
    }

    /// Returns the stream.
    pub fn stream(&self) -> &S
        ensures { result.now ≡ self.now.stream }
    {
        &self.stream
    }
}

/// What has become of an arrival that was to be admitted.
#[derive(Drop)]
pub enum Admission {
    /// It is the connection under this key.
    Admitted(usize),
    /// There is no place for it; here it is again.
    NoPlace(Arrival<TcpStream>),
    /// The log has no such role; the stream is closed.
    UnknownRole,
    /// The stream can't be registered; it is closed.
    Unregistered,
}
