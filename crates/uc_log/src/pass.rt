//! A worker's pass to the log.
ghost use Rattle.std.specs.Prelude.{◌≡◌, ◌≤◌, ℕ, Some, length, slice_get, vec_capacity};
ghost use Rattle.mc_model.specs.Legal.{ticket_of};
ghost use Rattle.uc_cells.specs.Sighting.{Sighting};
ghost use Rattle.uc_places.specs.Calls.{desk_size, state_of, worker_of};

use mc_model::Ticket;
use uc_cells::Sealed;
use uc_places::Desk;

/// A worker's seat at the log's words, the tickets that it has learned there, and what it put into
/// the cells of the tickets that it announced.
#[derive(Drop)]
pub struct Pass {
    pub(crate) desk: Desk,
    /// By their places. Has room for all places from its opening on.
    pub(crate) learned: Vec<Ticket>,
    /// By the numbers of their tickets. Has room for all of them from its opening on.
    pub(crate) sealed: Vec<Sealed>,
    ghost learned_is: { learned.items ≡ (state_of desk).learned },
    ghost count: { length sealed.items ≡ (state_of desk).announced },
    ghost tickets: { (number : ℕ) (seen : Sighting) → slice_get sealed.items number ≡ Some seen → seen.ticket ≡ ticket_of (worker_of desk) number },
    ghost room: { ((desk_size desk).places ≤ vec_capacity learned) × ((desk_size desk).places ≤ vec_capacity sealed) },
}
