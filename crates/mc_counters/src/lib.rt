//! What is counted of a tenant's requests: commands by kind, items that retrievals found and keys
//! that they didn't, and refusals by kind. Begin with `Tally`; `specs/Tallied.antt` says what each
//! number counts. `board` has the words by which a server shows its numbers, and `resident_in`
//! finds how much memory it has.
#![tactic(auto)]

pub use answered_requests::AnsweredRequests;
pub use board::{
    Board, LogBoard, LogPublisher, LogShown, Publisher, TenantShown, WorkerShown, new_board,
    new_log_board,
};
pub use kinds::{Asked, COMMAND_KINDS, CommandKind, REFUSAL_KINDS};
pub use past_requests::PastRequests;
pub use resident::resident_in;
pub use tally::Tally;

pub mod answered_requests;
pub mod board;
pub mod kinds;
pub mod laws;
pub mod past_requests;
pub mod resident;
pub mod tally;
