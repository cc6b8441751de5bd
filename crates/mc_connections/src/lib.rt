//! The connections of an event loop, from the first byte of each to its last: arrivals are admitted
//! and served, and the streams of those that have ended are kept for a while, so that their peers
//! may still receive what was sent to them. Connections outlive the workers that serve them, one
//! after another, each on the next log.
//!
//! `specs/Serving.antt` says what becomes of a connection that is served, `specs/Working.antt` what
//! a worker leaves of its connections, `specs/Life.antt` what a connection was sent from its first
//! byte to its last, and `specs/Asking.antt` for whom commands are announced.
#![tactic(auto)]

pub use arrival::{Admission, Arrival};
pub use connection::Connection;
pub use connections::{Connections, is_admin};
pub use past_connections::PastConnections;
pub use places::MOST_CONNECTIONS;
pub use ready_queue::{ReadyQueue, WAKER};
pub use tallies::Tallies;

pub mod arrival;
pub mod closing;
mod connecting;
pub mod connection;
pub mod connections;
pub mod laws;
mod pace;
pub mod past_connections;
pub mod places;
pub mod ready_queue;
mod socket;
pub mod tallies;
mod waiting;
