//! The network: an acceptor takes the streams of the tenants' and the administrators' listeners and
//! hands them to the workers round-robin; each worker serves the connections of an event loop in a
//! thread of its own, until they end or its log is full; and then the workers come back, while the
//! connections stay with the front for the workers of the next log. Begin with `Front`, or for one
//! log alone with `serve`.
//!
//! `specs/Handing.antt` says which stream goes where, `specs/Running.antt` what the loops leave,
//! `specs/Returning.antt` what comes back of one log, and `specs/Beginning.antt` what is left of
//! the state with which serving begins. `mc_connections` says what becomes of connections.
#![tactic(auto)]

pub use beginning::Begin;
pub use ended::Ended;
pub use front::{Front, FrontSettings};
pub use halt::Halt;
pub use handing::{Accepted, Receive, accept_one, hand_over};
pub use listener::{BoundListener, Listen, RoleListener};
pub use serving::{into_workers, serve};
pub use worker_thread::Returned;

mod accepting;
pub mod beginning;
pub mod ended;
mod event_loop;
pub mod front;
pub mod halt;
pub mod handing;
pub mod laws;
pub mod listener;
mod mailbox;
mod offers;
mod publishing;
mod running;
mod serving;
pub mod worker_thread;
