//! What follows from the definitions of `mc_model`, in the protocol's words. A law is the contract
//! of a function with an empty body: it is proved, and nothing runs. A definition that contradicts
//! the protocol is rejected here.
#![tactic(auto)]

pub mod lines;
pub mod logs;
pub mod places;
pub mod tables;
pub mod texts;
pub mod values;
