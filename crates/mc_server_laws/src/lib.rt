//! What follows from the definitions above the tables: of connections, workers, counters, the core
//! and the server's words, for tenants and numbers of any size. Nothing stands on this crate, so a
//! law can be added without proving the others anew.
#![tactic(auto)]

pub mod connections;
pub mod counters;
pub mod machine;
pub mod server;
pub mod workers;
