//! Clients over sockets that act one after another.
use crate::signals::Signals;
use std::alloc::Global;
use std::io;
use std::io::{ErrorKind, Read, Write};
use std::net::{Net, SocketAddr, TcpListener, TcpStream};
use std::time::Duration;

/// How long a client waits for bytes before the test gives up on them, in seconds.
const SECONDS: u64 = 20;

/// How long a client waits until it is sure that nothing more is taken or comes, in milliseconds.
const SURE_MILLIS: u64 = 100;

/// What a client does. Clients are numbered as they connect.
#[derive(Clone, Copy)]
pub(crate) enum Act<'a> {
    /// One more client connects at the listener of this number.
    Connect(usize),
    /// The client of this number sends this.
    Send(usize, &'a [u8]),
    /// The client sends this again and again, and reads nothing, until nothing more is taken.
    Flood(usize, &'a [u8]),
    /// The client reads this.
    Read(usize, &'a [u8]),
    /// The client reads this, and then the end.
    Finish(usize, &'a [u8]),
    /// Nothing comes to the client for a while.
    Silence(usize),
    /// The client leaves. If it hasn't read all that came, its connection is reset.
    Leave(usize),
    /// All wait until a worker is held.
    AwaitHeld,
    /// The worker, which must have been held until now, is let go.
    Free,
}

/// The clients so far, without those that have left.
#[derive(Drop)]
struct Crowd<'a> {
    alloc: Global,
    signals: &'a Signals,
    addresses: &'a [SocketAddr],
    clients: Vec<Option<TcpStream>>,
}

fn fail_unless(holds: bool) -> io::Result<()> {
    if holds {
        Ok(())
    } else {
        Err(io::Error::from(ErrorKind::InvalidData))
    }
}

/// Sends this again and again, until nothing more is taken.
fn flood(client: &mut TcpStream, bytes: &[u8]) -> io::Result<()> {
    client.set_write_timeout(Some(Duration::from_millis(SURE_MILLIS)))?;
    for _ in 0..u32::MAX {
        match client.write(bytes) {
            Ok(_) => {}
            Err(error) if error.kind() == ErrorKind::WouldBlock => return Ok(()),
            Err(error) => return Err(error),
        }
    }
    fail_unless(false)
}

/// Waits for a while, and fails if anything comes, the end too.
fn hear_nothing(client: &mut TcpStream) -> io::Result<()> {
    client.set_read_timeout(Some(Duration::from_millis(SURE_MILLIS)))?;
    let mut byte = [0u8; 1];
    let is_silent = match client.read(&mut byte) {
        Ok(_) => false,
        Err(error) => error.kind() == ErrorKind::WouldBlock,
    };
    client.set_read_timeout(Some(Duration::from_secs(SECONDS)))?;
    fail_unless(is_silent)
}

impl Crowd<'_> {
    fn connect<R: Net<Listener = TcpListener, Stream = TcpStream>>(
        &mut self,
        rt: &R,
        listener: usize,
    ) -> io::Result<()> {
        let Some(address) = self.addresses.get(listener) else {
            return fail_unless(false);
        };
        let client = TcpStream::connect(rt, *address)?;
        client.set_read_timeout(Some(Duration::from_secs(SECONDS)))?;
        self.clients.push(Some(client))?;
        Ok(())
    }

    /// Returns the client of this number, if it is there.
    fn client(&mut self, number: usize) -> io::Result<&mut TcpStream> {
        match self.clients.get_mut(number) {
            Some(Some(client)) => Ok(client),
            _ => Err(io::Error::from(ErrorKind::NotConnected)),
        }
    }

    /// Reads as many bytes as these, and fails unless they are these.
    fn read(&mut self, number: usize, want: &[u8]) -> io::Result<()> {
        let mut bytes = vec![in self.alloc; 0u8; want.len()]?;
        self.client(number)?.read_exact(&mut bytes)?;
        fail_unless(bytes.as_slice() == want)
    }

    /// Reads to the end, and fails unless the bytes are these.
    fn finish(&mut self, number: usize, want: &[u8]) -> io::Result<()> {
        let mut bytes = Vec::new(self.alloc);
        self.client(number)?.read_to_end(&mut bytes)?;
        fail_unless(bytes.as_slice() == want)
    }

    fn leave(&mut self, number: usize) -> io::Result<()> {
        self.client(number)?;
        if let Some(client) = self.clients.get_mut(number) {
            *client = None;
        }
        Ok(())
    }

    fn act<R: Net<Listener = TcpListener, Stream = TcpStream>>(
        &mut self,
        rt: &R,
        act: Act,
    ) -> io::Result<()> {
        match act {
            Act::Connect(listener) => self.connect(rt, listener),
            Act::Send(number, bytes) => self.client(number)?.write_all(bytes),
            Act::Flood(number, bytes) => flood(self.client(number)?, bytes),
            Act::Read(number, want) => self.read(number, want),
            Act::Finish(number, want) => self.finish(number, want),
            Act::Silence(number) => hear_nothing(self.client(number)?),
            Act::Leave(number) => self.leave(number),
            Act::AwaitHeld => fail_unless(self.signals.holds()),
            Act::Free => fail_unless(self.signals.free()),
        }
    }
}

/// Does these acts at the listeners with these addresses. Returns which failed first, if any did.
///
/// After a failure clients only connect, so that as many come as are to be served.
pub(crate) fn first_failure<R: Net<Listener = TcpListener, Stream = TcpStream>>(
    rt: &R,
    alloc: Global,
    signals: &Signals,
    addresses: &[SocketAddr],
    acts: &[Act],
) -> Option<usize> {
    let mut crowd = Crowd {
        alloc,
        signals,
        addresses,
        clients: Vec::new(alloc),
    };
    let mut failed = None;
    for (number, act) in acts.iter().enumerate() {
        if failed.is_some() && !matches!(act, Act::Connect(_)) {
            continue;
        }
        if crowd.act(rt, *act).is_err() && failed.is_none() {
            failed = Some(number);
        }
    }
    failed
}
