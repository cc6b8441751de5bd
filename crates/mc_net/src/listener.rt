//! Listeners, each with the role of those who connect there.
ghost use Rattle.std.specs.Prelude.{◌≡◌, ⊤, IfOk};
ghost use Rattle.mc_net.specs.Handing.{IsArrivalOf};

use libc::net::{SO_KEEPALIVE, SOL_SOCKET, setsockopt};
use mc_conn::Role;
use mc_connections::Arrival;
use mio::net::{TcpListener, TcpStream};
use std::io;
use std::io::ErrorKind;
use std::net::{Net, SocketAddr, SocketAddrV4};
use std::os::fd::{AsRawFd, RawFd};

/// Accepts streams.
pub trait Listen {
    /// What is accepted.
    type Stream;

    /// The stream is one that this listener accepted.
    ghost accepted_by: { Self → Self.Stream → Type 0 };

    /// Accepts a stream.
    ///
    /// Returns an error of the kind `WouldBlock` if none is waiting.
    fn accept_stream(&self) -> io::Result<Self::Stream>
        ensures { IfOk result (λ stream. accepted_by self.now stream) };
}

/// Has the system ask now and then whether the peers of quiet streams are still there, so that a
/// host that has vanished doesn't hold its place for good. Streams have this from their listener.
fn keep_alive(socket: &TcpListener) {
    let mut on = [0u8; 16];
    on[..4].copy_from_slice(&1i32.to_ne_bytes());
    let descriptor = socket.as_raw_fd();
    // If it is refused, such streams stay until the server ends.
    let _ = unsafe { setsockopt(descriptor, SOL_SOCKET, SO_KEEPALIVE, &on, 4) };
}

/// A socket, and the address at which it was bound.
///
/// Only `bind` makes one, and neither part can be changed: so whoever hands listeners on hands each
/// address on with the socket that is bound there.
#[derive(Drop)]
pub struct BoundListener {
    address: SocketAddrV4,
    socket: TcpListener,
}

impl BoundListener {
    /// Binds a socket at this address. Port 0 asks for any port that is free.
    ///
    /// Returns the system's error if it can't be bound there.
    pub fn bind<R: Net>(rt: &R, address: SocketAddrV4) -> io::Result<BoundListener>
        ensures { IfOk result (λ listener. listener.address ≡ address) }
    {
        let socket = TcpListener::bind(rt, SocketAddr::V4(address))?;
        keep_alive(&socket);
        Ok(BoundListener { address, socket })
    }

    /// Returns the port at which the socket listens: that of its address, unless that is 0.
    ///
    /// Returns the system's error if it can't be found out.
    pub fn port(&self) -> io::Result<u16> {
        Ok(self.socket.local_addr()?.port())
    }

    /// Returns the socket alone.
    pub fn into_socket(self) -> TcpListener
        ensures { result ≡ self.socket }
    {
        self.socket
    }
}

impl AsRawFd for BoundListener {
    fn as_raw_fd(&self) -> RawFd {
        self.socket.as_raw_fd()
    }
}

impl Listen for BoundListener {
    type Stream = TcpStream;

    // Nothing is proved about the system's streams.
    ghost accepted_by = { λ _ _. ⊤ };

    fn accept_stream(&self) -> io::Result<TcpStream> {
        let (stream, _) = self.socket.accept()?;
        // Without it replies may wait for acknowledgements; if it is refused, they do.
        let _ = stream.set_nodelay(true);
        Ok(stream)
    }
}

/// A listener, and the role of those who connect there: a tenant, or an administrator.
///
/// The two stay together, and its streams come from `accept` alone, each with this role.
#[derive(Drop)]
pub struct RoleListener<L> {
    role: Role,
    socket: L,
}

impl<L> RoleListener<L> {
    /// Returns the listener of those who have this role.
    pub fn new(role: Role, socket: L) -> RoleListener<L>
        ensures { (result.role ≡ role) × (result.socket ≡ socket) }
    {
        RoleListener { role, socket }
    }

    /// Returns the role.
    pub fn role(&self) -> &Role
        ensures { result.now ≡ self.now.role }
    {
        &self.role
    }
}

impl<L: AsRawFd> AsRawFd for RoleListener<L> {
    fn as_raw_fd(&self) -> RawFd {
        self.socket.as_raw_fd()
    }
}

impl<L: Listen> RoleListener<L> {
    /// Accepts a stream of the listener's role.
    ///
    /// Returns the listener's errors, and one of the kind `OutOfMemory` if the role can't be shared
    /// once more.
    pub fn accept(&self) -> io::Result<Arrival<L::Stream>>
        ensures { IfOk result (IsArrivalOf L.accepted_by self.now) }
    {
        let Ok(role) = self.role.share() else {
            return Err(io::Error::from(ErrorKind::OutOfMemory));
        };
        let stream = self.socket.accept_stream()?;
        Ok(Arrival::new(role, stream))
    }
}
