//! The shared log as a state machine: every worker's steps as events, taken one at a time. It is
//! Herlihy's universal construction (Wait-Free Synchronization, TOPLAS 1991) with memcached's
//! commands. The theorem of this project is stated here, in `laws` and `two_worlds`.
#![tactic(auto)]

pub use event::{Event, RunFault};
pub use machine::{Core, Progress};
pub use theorem::{events_lead_one_way, laws, runs_do_what_is_asked, shown_states, two_worlds};

pub mod event;
pub mod machine;
mod running;
mod steps;
pub mod theorem;
mod worker;
