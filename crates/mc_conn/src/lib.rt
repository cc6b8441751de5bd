//! The connection engine: the bytes of one connection are read as requests, a worker of a shared
//! log submits these, and their replies are sent, turn by turn. Begin with `Conn::new`;
//! `specs/Owed.antt` says which bytes a connection is owed for its requests, `specs/Turn.antt` what
//! a turn does, and `specs/Ending.antt` how it ends.
#![tactic(auto)]

pub use conn::{Conn, PULL_BYTES, QUEUE_BYTES, Role, State, TURN_REQUESTS};
pub use mc_stream::{Input, Output, Pull, Push};
pub use pumping::{pump, pump_until};

pub mod conn;
pub mod laws;
mod pulling;
mod pumping;
mod queue;
mod responding;
mod run;
mod sending;
mod taking;
mod turning;
