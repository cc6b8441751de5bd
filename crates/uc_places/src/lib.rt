//! The words that the threads of a log share, under an invariant: at every moment the words and the
//! seats show one reachable state of the log. Each `announce`, `read`, `look` and `propose` of a
//! seat is one event of that log, by one operation on one word. Begin with `open`;
//! `specs/Rule.antt` states the invariant, and `specs/Calls.antt` what each call does.
#![tactic(auto)]

pub mod asking;
pub mod desk;
pub mod events;
pub mod laws;
pub mod rule;
pub mod seats;
pub mod steps;
pub mod telling;
pub mod view;
pub mod whole;
pub mod witnessing;
pub mod words;

pub use desk::{Desk, Places};
pub use seats::{Idle, Looked, Pending, Seat};
pub use telling::tell;
pub use whole::{close, close_all, open};
pub use words::{ticket_in, word_of};
