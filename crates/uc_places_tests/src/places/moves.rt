//! Seats in any phase, moved one step at a time.
ghost use Rattle.std.specs.Prelude.{◌≡◌, IfSome};
ghost use Rattle.uc_places.specs.Calls.{IsSeatOf};
ghost use Rattle.uc_places.specs.Seats.{desk_of};
ghost use Rattle.uc_places_tests.specs.Held.{IsHeldAt, held_desk};

use uc_places::{Idle, Looked, Pending, Places, Seat};

/// A seat, whatever the phase of its worker.
#[derive(Drop)]
pub enum Held {
    Idle(Idle),
    Pending(Pending),
    Looked(Looked),
}

/// What a seat is to do.
#[derive(Clone, Copy)]
pub enum Move {
    Announces,
    Reads,
    Looks,
    Proposes,
}

fn held_seat(seat: Seat) -> Held
    ensures { held_desk result ≡ desk_of seat }
{
    match seat {
        Seat::Idle(idle) => Held::Idle(idle),
        Seat::Pending(pending) => Held::Pending(pending),
    }
}

fn move_idle(places: &Places, mut idle: Idle, step: Move) -> Option<Held>
    requires { IsSeatOf places.now idle.desk }
    ensures { IfSome result (λ next. IsHeldAt places.now next) }
{
    if idle.is_full() {
        return None;
    }
    match step {
        Move::Announces => Some(Held::Pending(idle.announce(places))),
        Move::Reads => {
            idle.read(places);
            Some(Held::Idle(idle))
        }
        _ => None,
    }
}

fn move_pending(places: &Places, pending: Pending, step: Move) -> Option<Held>
    requires { IsSeatOf places.now pending.desk }
    ensures { IfSome result (λ next. IsHeldAt places.now next) }
{
    if pending.is_full() {
        return None;
    }
    match step {
        Move::Reads => Some(held_seat(pending.read(places).0)),
        Move::Looks if pending.is_marked() => Some(Held::Looked(pending.look(places))),
        _ => None,
    }
}

/// Returns the seat after its step, or `None` if it can't take that step.
pub fn moved(places: &Places, seat: Held, step: Move) -> Option<Held>
    requires { IsHeldAt places.now seat }
    ensures { IfSome result (λ next. IsHeldAt places.now next) }
{
    match seat {
        Held::Idle(idle) => move_idle(places, idle, step),
        Held::Pending(pending) => move_pending(places, pending, step),
        Held::Looked(looked) => match step {
            Move::Proposes => Some(held_seat(looked.propose(places).0)),
            _ => None,
        },
    }
}
