//! What follows from the contracts of a seat's calls. A law is the contract of a function with an
//! empty body.
ghost use Rattle.std.specs.Prelude.{◌≡◌, ℕ, ◌<◌, List, Some, slice_get};
ghost use Rattle.lists.specs.Lists.{BeginsWith};
ghost use Rattle.mc_model.specs.declared.id.Ticket.{Ticket};
ghost use Rattle.mc_model.specs.declared.shown.LogSize.{LogSize};
ghost use Rattle.uc_places.specs.Calls.{last_of, state_of, worker_of};
ghost use Rattle.uc_places.specs.End.{IsEnd};
ghost use Rattle.uc_places.specs.OneRun.{CallsLieOnOneRun, EachEventIsACall, NothingButCalls, OthersLeaveIt, RunsBetween};
ghost use Rattle.uc_places.specs.Seats.{desk_of};
ghost use Rattle.uc_places.specs.declared.seats.Seat.{Seat};

/// The calls of a seat, in order, are its worker's own events of one run of the log, whatever other
/// workers do in between.
pub fn calls_lie_on_one_run()
    // Events lead from the opening to the state after the last call; the worker's own among them
    // are exactly the calls.
    ensures run { CallsLieOnOneRun }
    // Between two calls the worker's state stays the same, and no decided place changes.
    ensures between { OthersLeaveIt }
{}

/// The calls of all workers' seats that are on one run are all its events.
pub fn all_calls_are_the_run()
    // Each event of the run is a call of one of the seats, if these are all workers'.
    ensures seats { EachEventIsACall }
    // It is of a kind that calls are, whoever's the seats are: nobody stops.
    ensures calls { NothingButCalls }
{}

/// If a worker has taken no event between two moments of a run, each moment between them has
/// exactly the calls that it had made, and shows the worker as it was.
pub fn a_worker_stays_between_two_moments()
    ensures { RunsBetween }
{}

/// The log that `close` gives goes on from where its first seat was.
pub fn the_end_goes_on_from_a_seat()
    // It begins with all that was decided after that seat's last event.
    ensures begins { (size : LogSize) (tickets : List Ticket) (seat : Seat) →
        IsEnd size tickets (Some seat) → BeginsWith tickets (last_of (desk_of seat)).decided }
    // Of that seat's worker it has no other commands than those that the seat has announced.
    ensures own { (size : LogSize) (tickets : List Ticket) (seat : Seat) (place : ℕ)
        (ticket : Ticket) → IsEnd size tickets (Some seat) →
        slice_get tickets place ≡ Some ticket → ticket.worker ≡ worker_of (desk_of seat) →
        ticket.number < (state_of (desk_of seat)).announced }
{}
