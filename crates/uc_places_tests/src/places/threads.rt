//! Threads that announce commands and go on until each is decided.
ghost use Rattle.uc_places.specs.Calls.{IsSeatOf};
ghost use Rattle.uc_places.specs.Seats.{desk_of};

use mc_model::Ticket;
use std::test::Fail;
use std::thread::map_vec;
use uc_places::{Idle, Places, Seat, close_all, open};

/// How many workers there are, and how many commands each announces.
const WORKERS: u8 = 4;

const COMMANDS: u64 = 200;

/// Announces a command and goes on until it is decided, if there is room.
fn submit(places: &Places, idle: Idle) -> Seat
    requires { IsSeatOf places.now idle.desk }
    ensures { IsSeatOf places.now (desk_of result) }
{
    if idle.is_full() {
        return Seat::Idle(idle);
    }
    let mut pending = idle.announce(places);
    for _ in 0..4_000u32 {
        if pending.is_full() {
            break;
        }
        let seat = if pending.is_marked() {
            pending.look(places).propose(places).0
        } else {
            pending.read(places).0
        };
        match seat {
            Seat::Idle(idle) => return Seat::Idle(idle),
            Seat::Pending(next) => pending = next,
        }
    }
    Seat::Pending(pending)
}

/// Announces all commands, one after another, each once the one before is decided.
fn submit_all(places: &Places, mut idle: Idle) -> Seat
    requires { IsSeatOf places.now idle.desk }
    ensures { IsSeatOf places.now (desk_of result) }
{
    for _ in 0..COMMANDS {
        match submit(places, idle) {
            Seat::Idle(next) => idle = next,
            Seat::Pending(pending) => return Seat::Pending(pending),
        }
    }
    Seat::Idle(idle)
}

/// Returns whether each ticket of number k has k tickets of its worker before it.
fn is_legal(log: &[Ticket]) -> bool {
    let mut counts = [0u64; 16];
    for ticket in log {
        let worker = usize::from(ticket.worker.number());
        if counts[worker] != ticket.number {
            return false;
        }
        counts[worker] = counts[worker].saturating_add(1);
    }
    true
}

#[test]
fn four_threads_decide_all_their_commands(rt: HostRuntime) -> Result<(), Fail> {
    for _ in 0..20u32 {
        let (places, seats) = open(rt.alloc(), WORKERS, 1_024)?;
        let shared = &places;
        let seats = map_vec(
            &rt,
            seats,
            &|idle: Idle| -> Seat
                requires { IsSeatOf shared.now idle.desk }
                ensures { IsSeatOf shared.entry.now (desk_of result) }
            { submit_all(shared, idle) },
        )?;
        let log = close_all(rt.alloc(), places, seats)?;
        assert_eq!(rt; log.len(), 800);
        assert!(rt; is_legal(&log));
    }
    Ok(())
}
