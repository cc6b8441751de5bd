//! All tenants' tables as one worker keeps them: the log's history, with each entry replayed on its
//! own tenant's table. Begin with `Replica::replay`; `specs/Replica.antt` says what it does.
#![tactic(auto)]

pub use replica::Replica;

pub mod laws;
pub mod replica;
