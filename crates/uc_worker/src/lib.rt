//! A worker of a shared log: it submits commands, helps the others round-robin, replays what was
//! decided on its own tables, and meets others. No call waits for another worker, whatever that one
//! does or leaves undone. Begin with `Worker::open`; `specs/Going.antt` says what a call does to a
//! worker.
#![tactic(auto)]

pub use gate::{Gate, Open, Step};
pub use mc_items::Hashing;
pub use turning_over::{Base, Next, catch_up_all, turn_over, turn_over_alone};
pub use worker::{Answer, Worker};

pub mod all_workers;
mod announcing;
mod asking;
mod catching_up;
mod deciding;
pub mod gate;
pub mod laws;
mod meeting;
mod opening;
mod replaying;
mod settling;
mod sizes;
mod submitting;
pub mod turning_over;
pub mod worker;
