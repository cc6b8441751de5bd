//! Opening and closing the shared words.
ghost use Rattle.std.specs.Prelude.{◌≡◌, ◌<◌, ◌≤◌, ◌+◌, ◌^◌, ◌∷◌, ℕ, List, [], length, slice_get, Some, IfOk, IfSome, IsOkUnless};
ghost use Rattle.core.specs.Mem.Slots.{IsFull, slots_items, slots_len};
ghost use Rattle.mc_model.specs.declared.fault.Fault.TheVariants as faults;
ghost use Rattle.mc_model.specs.declared.id.Ticket as ticket;
ghost use Rattle.mc_model.specs.declared.id.TheConstants.{WORKERS};
ghost use Rattle.mc_model.specs.declared.settings.TheConstants.{MAX_PLACES};
ghost use Rattle.mc_model.specs.declared.shown.ShownState as state;
ghost use Rattle.lists.specs.Lists.{BeginsWith};
ghost use Rattle.mc_model.specs.Lawful.{IsReached};
ghost use Rattle.mc_model.specs.Legal.{IsLegal};
ghost use Rattle.uc_places.specs.Calls.{IsSeatOf, known, state_of};
ghost use Rattle.uc_places.specs.Desk.{AreTickets, IsBlank, Spells};
ghost use Rattle.uc_places.specs.End.{AreSeatsOf, IsEnd, IsEndOfAll, IsHostOf, IsPartOf, parts_in, parts_of};
ghost use Rattle.uc_places.specs.Run.{AreAmong, AreOneRun, all_parts, part_of};
ghost use Rattle.uc_places.specs.Seats.{desk_of};
ghost use Rattle.uc_places.specs.Told.{new_seat};
ghost use Rattle.uc_places.specs.declared.view.Kind.TheVariants as kinds;

use crate::desk::{Desk, Numbers, Places};
use crate::rule::{Dealing, Joining, PlacesTable, TableSeat};
use crate::seats::{Idle, Seat};
use crate::words::ticket_in;
use atomic_table::Closed;
use mc_model::{Fault, LogSize, Phase, Ticket, WorkerId};
use std::alloc::Global;

/// Returns the words as they are before the first event.
fn blank(alloc: Global, workers: u8, places: u64) -> Result<Vec<u64>, Fault>
    requires { (workers ≤ WORKERS) × (places ≤ MAX_PLACES) }
    ensures blank { IfOk result (λ words. IsBlank words.items workers places) }
    ensures memory { IsOkUnless result faults.Memory }
{
    let mut words = vec![in alloc; 0; 1 + usize::from(workers) + places as usize]?;
    words[0] = u64::from(workers);
    Ok(words)
}

/// Opens the shared words of a log of this many workers and places, and the workers' seats, by the
/// workers' numbers.
///
/// Returns `Memory` if memory runs out.
pub fn open(alloc: Global, workers: u8, places: u64) -> Result<(Places, Vec<Idle>), Fault>
    requires workers { (0 < workers) × (workers ≤ WORKERS) }
    requires places { (0 < places) × (places ≤ MAX_PLACES) }
    ensures count { IfOk result (λ opened. length opened.1.items ≡ workers) }
    ensures seats { IfOk result
        (λ opened. (worker : ℕ) (seat : _) → slice_get opened.1.items worker ≡ Some seat →
        IsSeatOf opened.0 seat.desk
        × (known seat.desk ≡ new_seat (record { workers = workers; places = places }) worker)) }
    ensures memory { IsOkUnless result faults.Memory }
{
    let words = blank(alloc, workers, places)?;
    let size = LogSize {
        workers: u64::from(workers),
        places,
    };
    let (table, mut spare) = PlacesTable::of_words(alloc, words.as_slice(), &size)?;
    let mut seats = Vec::new(alloc);
    for number in 0..workers {
        let seat = table.shared.split_seat::<Dealing>(&mut spare);
        let numbers = Numbers {
            workers: usize::from(workers),
            places: places as usize,
            worker: WorkerId::new(number).unwrap(),
            learned: 0,
            announced: 0,
            proposals: 0,
            mark: None,
            phase: Phase::Idle,
            proposal: 0,
            counts: [0; 16],
        };
        seats.push(Idle {
            desk: Desk { seat, numbers },
        })?;
    }
    let shared = Places {
        table,
        workers: usize::from(workers),
        places: places as usize,
    };
    Ok((shared, seats))
}

/// Returns the tickets of the decided places, in order.
fn decided(
    alloc: Global,
    closed: &Closed<(), Global>,
    first: usize,
    places: usize,
) -> Result<Vec<Ticket>, Fault>
    requires wide { (first + places ≤ slots_len closed.now.words) × IsFull closed.now.words
        × (first + places < 2 ^ 32) }
    requires tickets { AreTickets (slots_items closed.now.words) first places }
    ensures spelled { IfOk result (λ log. (tickets : List ticket.Ticket) →
        Spells (slots_items closed.now.words) first places tickets → log.items ≡ tickets) }
    ensures memory { IsOkUnless result faults.Memory }
{
    let mut log = Vec::new(alloc);
    for place in 0..places {
        let found = closed.word(first + place);
        if found == 0 {
            break;
        }
        log.push(ticket_in(found))?;
    }
    Ok(log)
}

/// Closes the words with one seat that is still open, and returns the log.
fn close_with(alloc: Global, places: Places, seat: TableSeat) -> Result<Vec<Ticket>, Fault>
    requires place { seat.table_id ≡ places.table.shared.table_id }
    requires seated { seat.me.0.kind ≡ kinds.Seated }
    ensures log { IfOk result
        (λ tickets. (log : state.ShownState) × IsReached places.table.shared.key log
        × (tickets.items ≡ log.decided) × IsPartOf places.table.shared.key log seat.me.0
        × AreOneRun places.table.shared.key (all_parts seat.me.0) log) }
    ensures memory { IsOkUnless result faults.Memory }
{
    let Places {
        table,
        workers,
        places,
    } = places;
    let closed = table.close_with(seat);
    let log = decided(alloc, &closed, 1 + workers, places);
    closed.free();
    log
}

/// Closes the words without an open seat, and returns the log.
fn close_bare(alloc: Global, places: Places) -> Result<Vec<Ticket>, Fault>
    ensures log { IfOk result
        (λ tickets. (log : state.ShownState) × IsReached places.table.shared.key log
        × (tickets.items ≡ log.decided) × AreOneRun places.table.shared.key [] log) }
    ensures memory { IsOkUnless result faults.Memory }
{
    let Places {
        table,
        workers,
        places,
    } = places;
    let closed = table.close();
    let log = decided(alloc, &closed, 1 + workers, places);
    closed.free();
    log
}

/// Returns the first of the seats.
fn first_of(seats: Vec<Seat>) -> Option<Seat>
    ensures { result ≡ slice_get seats.items 0 }
{
    seats.into_iter().next()
}

/// Closes the words, and returns the log, which is a legal list of tickets.
///
/// The log begins with what the first of these seats has learned. Returns `Memory` if memory runs
/// out.
pub fn close(alloc: Global, places: Places, seats: Vec<Seat>) -> Result<Vec<Ticket>, Fault>
    requires { (seat : _) → slice_get seats.items 0 ≡ Some seat → IsSeatOf places (desk_of seat) }
    ensures legal { IfOk result (λ tickets. IsLegal tickets.items) }
    ensures begins { IfOk result (λ tickets. (seat : _) → slice_get seats.items 0 ≡ Some seat →
        BeginsWith tickets.items (state_of (desk_of seat)).learned) }
    // It is the log of a reachable state, to which only other workers' events lead from the first
    // seat's last state.
    ensures end { IfOk result
        (λ tickets. IsEnd places.table.shared.key tickets.items (slice_get seats.items 0)) }
    ensures memory { IsOkUnless result faults.Memory }
{
    match first_of(seats) {
        Some(seat) => {
            let Desk { seat, numbers: _ } = seat.into_desk();
            close_with(alloc, places, seat)
        }
        None => close_bare(alloc, places),
    }
}

/// Joins a worker's seat into the one into which others' were joined, if there is one.
fn join(places: &Places, host: Option<TableSeat>, desk: Desk) -> TableSeat
    requires place { IsSeatOf places.now desk }
    requires host { IfSome host (λ seat. IsHostOf places.now seat) }
    ensures host { IsHostOf places.now result }
    ensures parts { AreAmong (part_of (known desk) ∷ parts_in host) (all_parts result.me.0) }
{
    let Desk { seat, numbers: _ } = desk;
    let Some(mut host) = host else {
        return seat;
    };
    places.table.shared.join_seat::<Joining>(&mut host, seat);
    host
}

/// Joins all these seats into one.
fn joined(places: &Places, seats: Vec<Seat>) -> Option<TableSeat>
    requires { AreSeatsOf places.now seats.items }
    ensures host { IfSome result (λ seat. IsHostOf places.now seat) }
    ensures parts { AreAmong (parts_of seats.items) (parts_in result) }
{
    let mut host = None;
    for seat in seats {
        host = Some(join(places, host, seat.into_desk()));
    }
    host
}

/// Closes the words with all these seats, and returns the log, which is a legal list of tickets.
///
/// One run of the log, from its opening to its end, has all calls of these seats, in the order in
/// which each seat made them, and nothing else of their workers. Returns `Memory` if memory runs
/// out.
pub fn close_all(alloc: Global, places: Places, seats: Vec<Seat>) -> Result<Vec<Ticket>, Fault>
    requires { AreSeatsOf places seats.items }
    ensures legal { IfOk result (λ tickets. IsLegal tickets.items) }
    ensures run { IfOk result
        (λ tickets. IsEndOfAll places.table.shared.key tickets.items seats.items) }
    ensures memory { IsOkUnless result faults.Memory }
{
    match joined(&places, seats) {
        Some(seat) => close_with(alloc, places, seat),
        None => close_bare(alloc, places),
    }
}
