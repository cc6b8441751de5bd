//! What wfmc prints about its listeners and at its end.
ghost use Rattle.std.specs.Prelude.{◌≡◌, ◌++◌, IfOk, MatchResult, codes, string_bytes};
ghost use Rattle.mc_programs.specs.Waiting.{FailsToPush, PushesAll};
ghost use Rattle.mc_server.specs.NetworkTexts.{cannot_listen_line, done_line, listening_line, ready_text, told_address};
ghost use Rattle.mc_stream.specs.Pushing.{PushesOrFails};

use itoa::Buffer;
use mc_model::Fault;
use mc_programs::push_all;
use mc_stream::Output;
use std::alloc::{AllocError, Global};
use std::net::SocketAddrV4;
use std::sync::Wait;

/// The program's name, the prefix of its messages.
pub(crate) const NAME: &[u8] = b"wfmc";

/// The name of the administrators' listener.
pub(crate) const ADMIN: &str = "admin";

/// The name of the listener for metrics.
pub(crate) const METRICS: &str = "metrics";

/// The name of a listener, of a tenant, administrators or metrics, and the address on which it
/// listens.
#[derive(Clone, Copy, Debug)]
pub(crate) struct Listening<'a> {
    pub name: &'a str,
    pub address: SocketAddrV4,
}

/// Returns the address to print for a listener that was bound to `address` and got the port
/// `given`, which is used if the address has port 0.
pub(crate) fn told_address(address: SocketAddrV4, given: u16) -> SocketAddrV4
    ensures { result ≡ told_address address given }
{
    if address.port() == 0 {
        SocketAddrV4::new(*address.ip(), given)
    } else {
        address
    }
}

/// Returns the line for a listener.
///
/// Returns an error if memory runs out.
fn listening_line(alloc: Global, name: &str, address: SocketAddrV4) -> Result<String, AllocError>
    ensures { IfOk result (λ line. string_bytes line ≡ listening_line name.now address) }
{
    format!(in alloc; "listening {name} {address}\n")
}

/// Returns the lines for all listeners, followed by the line `ready`.
///
/// Returns an error if memory runs out.
pub(crate) fn ready_text(alloc: Global, listening: &[Listening]) -> Result<String, AllocError>
    ensures { IfOk result (λ text. string_bytes text ≡ ready_text listening.now) }
{
    let mut text = String::new(alloc);
    for one in listening {
        let line = listening_line(alloc, one.name, one.address)?;
        text.push_str(&line)?;
    }
    text.push_str("ready\n")?;
    Ok(text)
}

/// Pushes a line of two parts. Needs no memory.
///
/// Returns `Output` if the output fails.
fn push_line<R: Wait, O: Output>(
    rt: &R,
    front: &[u8],
    back: &[u8],
    output: &mut O,
) -> Result<(), Fault>
    ensures outcome { let line = front.now ++ (back.now ++ codes "\n") in
        MatchResult result (λ _. PushesAll line (O.tells output.old) (O.tells output.new))
        (FailsToPush line (O.tells output.old) (O.tells output.new)) }
{
    push_all(rt, front, output)?;
    push_all(rt, back, output)?;
    push_all(rt, b"\n", output)
}

/// Prints how many places of all logs were used. Needs no memory.
///
/// Returns `Output` if the output fails.
pub(crate) fn tell_done<R: Wait, O: Output>(
    rt: &R,
    places: u64,
    output: &mut O,
) -> Result<(), Fault>
    ensures outcome { MatchResult result
        (λ _. PushesAll (done_line places) (O.tells output.old) (O.tells output.new))
        (FailsToPush (done_line places) (O.tells output.old) (O.tells output.new)) }
{
    let mut buffer = Buffer::new();
    push_line(rt, b"done ", buffer.format(places).as_bytes(), output)
}

/// Reports that a listener's address can't be listened on. A failure of `errors` is ignored. Needs
/// no memory.
pub(crate) fn tell_cannot_listen<R: Wait, E: Output>(rt: &R, name: &str, errors: &mut E)
    ensures { PushesOrFails (cannot_listen_line name.now) (E.tells errors.old)
        (E.tells errors.new) }
{
    let _ = push_line(rt, b"wfmc: cannot listen ", name.as_bytes(), errors);
}
