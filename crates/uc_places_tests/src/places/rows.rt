//! Golden runs of two workers on eight places, on one thread.
ghost use Rattle.uc_places_tests.specs.Held.{IsHeldAt, held_desk};
ghost use Rattle.std.specs.Prelude.{◌≡◌, ℕ, slice_get, Some, IfSome, IfOk};
ghost use Rattle.uc_places.specs.Calls.{IsSeatOf};
ghost use Rattle.uc_places.specs.Seats.{desk_of};

use crate::places::moves::{Held, Move, moved};
use mc_model::{Fault, Ticket};
use std::alloc::Global;
use std::test::Fail;
use uc_places::{Idle, Places, Seat, close, open};

/// Returns both seats after these steps of worker 0 and worker 1.
fn run(places: &Places, first: Held, second: Held, steps: &[(usize, Move)]) -> Option<(Held, Held)>
    requires { IsHeldAt places.now first × IsHeldAt places.now second }
    ensures { IfSome result (λ seats. IsHeldAt places.now seats.0 × IsHeldAt places.now seats.1) }
{
    let mut seats = (first, second);
    for (worker, step) in steps {
        let (first, second) = seats;
        seats = if *worker == 0 {
            (moved(places, first, *step)?, second)
        } else {
            (first, moved(places, second, *step)?)
        };
    }
    Some(seats)
}

/// Returns the seats of worker 0 and worker 1.
fn both_seats(places: &Places, mut seats: Vec<Idle>) -> Option<(Held, Held)>
    requires { (worker : ℕ) (seat : _) → slice_get seats.items worker ≡ Some seat →
        IsSeatOf places.now seat.desk }
    ensures { IfSome result (λ pair. IsHeldAt places.now pair.0 × IsHeldAt places.now pair.1) }
{
    let second = seats.pop()?;
    let first = seats.pop()?;
    Some((Held::Idle(first), Held::Idle(second)))
}

/// Returns the seat alone, if the words can be closed with it.
fn alone(alloc: Global, seat: Held) -> Result<Vec<Seat>, Fault>
    ensures { IfOk result
        (λ seats. (first : _) → slice_get seats.items 0 ≡ Some first →
        desk_of first ≡ held_desk seat) }
{
    let mut seats = Vec::new(alloc);
    let first = match seat {
        Held::Idle(idle) => Seat::Idle(idle),
        Held::Pending(pending) => Seat::Pending(pending),
        Held::Looked(_) => return Ok(seats),
    };
    match seats.push(first) {
        Ok(()) => Ok(seats),
        Err(_) => Err(Fault::Memory),
    }
}

/// Returns the log after these steps. It begins with what worker 0 has learned.
fn log_after(alloc: Global, steps: &[(usize, Move)]) -> Result<Vec<Ticket>, Fail> {
    let (places, seats) = open(alloc, 2, 8)?;
    let Some((first, second)) = both_seats(&places, seats) else {
        return Err(Fail::from("no seats"));
    };
    let Some((first, _)) = run(&places, first, second, steps) else {
        return Err(Fail::from("a step isn't possible"));
    };
    let seats = alone(alloc, first)?;
    Ok(close(alloc, places, seats)?)
}

/// Returns the tickets as pairs of a worker and a number.
fn pairs(alloc: Global, log: &[Ticket]) -> Result<Vec<(u8, u64)>, Fault> {
    let mut pairs = Vec::new(alloc);
    for ticket in log {
        pairs.push((ticket.worker.number(), ticket.number))?;
    }
    Ok(pairs)
}

#[test]
fn a_stopped_workers_command_is_helped(rt: HostRuntime) -> Result<(), Fail> {
    let steps = [
        (0, Move::Announces),
        (1, Move::Announces),
        (1, Move::Reads),
        (1, Move::Looks),
        (1, Move::Proposes),
        (1, Move::Looks),
        (1, Move::Proposes),
    ];
    let log = log_after(rt.alloc(), &steps)?;
    let pairs = pairs(rt.alloc(), &log)?;
    assert_eq!(rt; pairs.as_slice(), [(0, 0), (1, 0)].as_slice());
    Ok(())
}

#[test]
fn helping_changes_what_is_proposed(rt: HostRuntime) -> Result<(), Fail> {
    let steps = [
        (1, Move::Announces),
        (1, Move::Reads),
        (1, Move::Looks),
        (0, Move::Announces),
        (0, Move::Reads),
        (1, Move::Proposes),
        (1, Move::Announces),
        (1, Move::Reads),
        (1, Move::Looks),
        (1, Move::Proposes),
        (1, Move::Announces),
        (1, Move::Reads),
        (1, Move::Looks),
        (1, Move::Proposes),
        (1, Move::Looks),
        (1, Move::Proposes),
        (0, Move::Looks),
        (0, Move::Proposes),
        (0, Move::Looks),
        (0, Move::Proposes),
        (0, Move::Looks),
        (0, Move::Proposes),
    ];
    let log = log_after(rt.alloc(), &steps)?;
    let pairs = pairs(rt.alloc(), &log)?;
    assert_eq!(rt;
        pairs.as_slice(),
        [(1, 0), (1, 1), (0, 0), (1, 2)].as_slice()
    );
    Ok(())
}
