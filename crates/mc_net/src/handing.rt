//! Streams are handed to the workers round-robin.
ghost use Rattle.std.specs.Prelude.{◌≡◌, ◌<◌, length, IfOk, OnErr, OnOk};
ghost use Rattle.mc_connections.specs.declared.arrival.Arrival.{Arrival};
ghost use Rattle.mc_net.specs.Handing.{IsHanded, IsPassed, count_after};

use crate::halt::Halt;
use crate::listener::{Listen, RoleListener};
use mc_connections::Arrival;
use std::io::ErrorKind;
use std::sync::Wait;

/// Receives arrivals for a worker.
pub trait Receive<S> {
    /// The arrival is one that this place has received.
    ghost received: { Self → Arrival S → Type 0 };

    /// Receives an arrival.
    fn receive<R: Wait>(&self, rt: &R, arrival: Arrival<S>) -> Result<(), Halt>
        ensures { OnOk result (received self.now arrival) };
}

/// Hands an arrival to the place that is next after `done` streams, round-robin, and to no other.
///
/// Returns the errors of `Receive::receive`.
pub fn hand_over<R: Wait, S, P: Receive<S>>(
    rt: &R,
    places: &[P],
    done: u64,
    arrival: Arrival<S>,
) -> Result<(), Halt>
    requires { 0 < length places.now }
    ensures { OnOk result (IsHanded P.received places.now done arrival) }
{
    let turn = (done % places.len() as u64) as usize;
    places[turn].receive(rt, arrival)
}

/// The outcome of an attempt to accept a stream.
#[derive(Clone, Copy, Debug, PartialEq, Eq)]
pub enum Accepted {
    /// A stream was handed over.
    One,
    /// No stream is waiting.
    None,
    /// The listener failed.
    Failed,
}

/// Accepts a stream, and hands it over. `done` is how many streams were handed over before; it
/// counts one that is handed over now, and no attempt at which none is waiting or the listener
/// fails.
///
/// Returns the errors of `hand_over`.
pub fn accept_one<R: Wait, L: Listen, P: Receive<L::Stream>>(
    rt: &R,
    listener: &RoleListener<L>,
    places: &[P],
    done: &mut u64,
) -> Result<Accepted, Halt>
    requires { 0 < length places.now }
    ensures passed { IfOk result
        (λ accepted. accepted ≡ Accepted.One →
        IsPassed L.accepted_by P.received listener.now places.now done.old) }
    ensures counted { IfOk result (λ accepted. done.new ≡ count_after accepted done.old) }
    ensures uncounted { OnErr result (done.new ≡ done.old) }
{
    match listener.accept() {
        Ok(arrival) => {
            hand_over(rt, places, *done, arrival)?;
            *done = done.wrapping_add(1);
            Ok(Accepted::One)
        }
        Err(error) => {
            if error.kind() == ErrorKind::WouldBlock {
                Ok(Accepted::None)
            } else {
                Ok(Accepted::Failed)
            }
        }
    }
}
