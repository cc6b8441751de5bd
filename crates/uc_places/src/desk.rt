//! The shared words, and each seat's own numbers.
ghost use Rattle.std.specs.Prelude.{◌≡◌, ◌+◌, ◌<◌, ◌^◌, [], length, slice_index};
ghost use Rattle.mc_model.specs.declared.id.TheConstants.{WORKERS};
ghost use Rattle.uc_places.specs.Desk.{Mirrors, learned_one, marked_here, owns, ticket_for};
ghost use Rattle.uc_places.specs.Reached.{LastIsReached};
ghost use Rattle.uc_places.specs.Rule.{IsSmall};
ghost use Rattle.uc_places.specs.SeatLaw.{SeatLaw};

use crate::rule::{PlacesTable, TableSeat};
use mc_model::{Phase, Ticket, WorkerId};

/// The words that the threads of a log share.
#[derive(Drop)]
pub struct Places {
    pub(crate) table: PlacesTable,
    pub(crate) workers: usize,
    pub(crate) places: usize,
    ghost sized: { (table.shared.key.workers ≡ workers) × (table.shared.key.places ≡ places) × (table.shared.table_id.words ≡ 1 + workers + places) },
    ghost small: { IsSmall table.shared.key },
    ghost no_slot: { table.shared.table_id.slots ≡ 0 },
}

/// What a seat knows, as numbers.
#[derive(Clone, Copy, Drop)]
pub struct Numbers {
    pub(crate) workers: usize,
    pub(crate) places: usize,
    pub(crate) worker: WorkerId,
    /// How many places the worker has learned.
    pub(crate) learned: usize,
    /// How many commands the worker has announced.
    pub(crate) announced: u64,
    pub(crate) proposals: u64,
    pub(crate) mark: Option<u64>,
    pub(crate) phase: Phase,
    /// The word of the ticket that the worker proposes next, once it has looked.
    pub(crate) proposal: u64,
    /// How many tickets of each worker it has learned, by the workers' numbers.
    pub(crate) counts: [u64; 16],
}

/// A worker's seat at the shared words, with its numbers.
///
/// The phase of its worker is known at run time only; the types in `seats` give it at compile time.
#[derive(Drop)]
pub struct Desk {
    pub(crate) seat: TableSeat,
    pub(crate) numbers: Numbers,
    ghost words: { seat.table_id.words ≡ 1 + seat.me.0.size.workers + seat.me.0.size.places },
    ghost mirrors: { Mirrors seat.me.0 numbers },
    ghost law: { SeatLaw seat.me.0.size seat.me.0.worker seat.me.0.state },
    ghost reached: { LastIsReached seat.me.0 },
    ghost alone: { seat.me.0.joined ≡ [] },
    ghost holds_no_slot: { seat.me.1 ≡ [] },
}

impl Numbers {
    /// Returns the index of the worker's own word.
    pub(crate) fn own_word(&self) -> usize
        ensures { result ≡ 1 + self.now.worker }
    {
        1 + usize::from(self.worker.number())
    }

    /// Returns the index of the next place's word.
    pub(crate) fn next_word(&self) -> usize
        requires { (self.now.workers < 2 ^ 20) × (self.now.learned < 2 ^ 30) }
        ensures { result ≡ 1 + self.now.workers + self.now.learned }
    {
        1 + self.workers + self.learned
    }

    /// Learns one more ticket. The worker becomes idle if the ticket is its own, and otherwise
    /// takes the given phase.
    pub(crate) fn learn(&mut self, ticket: &Ticket, phase: Phase)
        requires counts { (length self.old.counts ≡ 16)
            × (slice_index self.old.counts ticket.now.worker < 2 ^ 32) }
        requires small { (self.old.learned < 2 ^ 32) × (ticket.now.number < 2 ^ 32) }
        ensures { self.new ≡ learned_one self.old ticket.now phase }
    {
        self.phase = if self.is_own(ticket) {
            Phase::Idle
        } else {
            phase
        };
        self.learned += 1;
        self.counts[usize::from(ticket.worker.number())] += 1;
    }

    /// Returns the ticket to propose if the worker whose turn it is has announced `found` commands:
    /// the first of those that isn't learned, or else this worker's own.
    pub(crate) fn proposed(&self, turn: usize, found: u64) -> Ticket
        requires { (turn < WORKERS) × (length self.now.counts ≡ 16) × (0 < self.now.announced) }
        ensures { result ≡ ticket_for self.now turn found }
    {
        let learned = self.counts[turn];
        if learned < found {
            Ticket {
                worker: WorkerId::new(turn as u8).unwrap(),
                number: learned,
            }
        } else {
            Ticket {
                worker: self.worker,
                number: self.announced - 1,
            }
        }
    }

    /// Makes the next place the mark of a pending worker that has none.
    pub(crate) fn mark_here(&mut self)
        ensures { self.new ≡ marked_here self.old }
    {
        if self.phase == Phase::Pending && self.mark.is_none() {
            self.mark = Some(self.learned as u64);
        }
    }

    /// Returns whether this is the ticket of the command that the worker announced last.
    fn is_own(&self, ticket: &Ticket) -> bool
        requires { ticket.now.number < 2 ^ 32 }
        ensures { result ≡ owns self.now ticket.now }
    {
        ticket.worker == self.worker && ticket.number + 1 == self.announced
    }
}
