//! Tests of the cells and the shared words of a log, through what their crates make public: threads
//! that see what others put, and that help each other. They wait for no worker, so a gate proves
//! them early.
#![tactic(auto)]

#[cfg(test)]
mod cells;
pub mod places;
#[cfg(test)]
mod texts;
