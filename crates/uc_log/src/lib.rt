//! The shared log of a server's workers: cells for the contents of commands, and places for their
//! order, joined. A worker's command is in its cell before it is announced, so every worker that
//! learns a ticket finds its entry, and all find the same one. Begin with `Log::open`;
//! `specs/Passes.antt` says what a pass is to its log.
#![tactic(auto)]

pub use log::Log;
pub use pass::Pass;

mod asking;
pub mod log;
mod opening;
pub mod pass;
mod steps;
