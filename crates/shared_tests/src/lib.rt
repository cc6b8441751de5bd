//! What crates of tests share: values made of plain data, replies as a client reads them, rows of
//! texts, and what runs over memory get and leave.
#![tactic(auto)]

pub mod runs;
pub mod values;
