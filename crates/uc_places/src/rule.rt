//! The table of words with its invariant, and what an operation on a word shows.
ghost use Rattle.uc_places.specs.Rule.{IsKept};
ghost use Rattle.uc_places.specs.Told.{AnnounceTells, LookTells, MeetTells, ProposeTells, ReadTells, WitnessTells, fewer, first_of, joined_with, last_joined, parted, spare_from, spent};

use crate::view::View;
use atomic_table::{Join, Play, Seat, Split, Table, TableRule};
use mc_model::LogSize;
use std::alloc::Global;

/// The invariant: the words and the seats show a state that one run of the log leads to, in which
/// each worker's events are its seat's calls.
pub struct LogRule;

impl TableRule<(), View, LogSize> for LogRule {
    ghost holds = { λ size table. IsKept size table };

    ghost first = { λ size. spare_from size 0 };
}

/// The words, under that invariant.
pub type PlacesTable = Table<(), View, LogSize, LogRule, Global>;

/// A seat of the table.
pub type TableSeat = Seat<(), View>;

/// Adds one to the worker's own word.
pub(crate) struct Announcing;

impl Play<(), View> for Announcing {
    ghost then = { AnnounceTells };
}

/// Loads the word of the next place.
pub(crate) struct Reading;

impl Play<(), View> for Reading {
    ghost then = { ReadTells };
}

/// Loads the word of the worker whose turn it is.
pub(crate) struct Looking;

impl Play<(), View> for Looking {
    ghost then = { LookTells };
}

/// Exchanges the word of the next place, if it is empty.
pub(crate) struct Proposing;

impl Play<(), View> for Proposing {
    ghost then = { ProposeTells };
}

/// Shows that all calls of the workers whose seat it is are one run.
pub(crate) struct Meeting;

impl Play<(), View> for Meeting {
    ghost then = { MeetTells };
}

/// Keeps the run of the log up to now.
pub(crate) struct Witnessing;

impl Play<(), View> for Witnessing {
    ghost then = { WitnessTells };
}

/// Splits the seat of its first worker off the spare seat.
pub(crate) struct Dealing;

impl Split<View> for Dealing {
    ghost left = { fewer };

    ghost right = { first_of };
}

/// Leaves a seat that knows nothing, and gives the seat that it was.
pub(crate) struct Leaving;

impl Split<View> for Leaving {
    ghost left = { λ view. spent };

    ghost right = { λ view. view };
}

/// Joins a worker's seat into another's.
pub(crate) struct Joining;

impl Join<View> for Joining {
    ghost both = { joined_with };

    ghost spent = { spent };
}

/// Splits off the seat that was joined into a seat last, and shares with it what the other has
/// learned.
pub(crate) struct Parting;

impl Split<View> for Parting {
    ghost left = { parted };

    ghost right = { last_joined };
}
