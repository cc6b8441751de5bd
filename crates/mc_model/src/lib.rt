//! What all layers share: the values of the protocol, and what commands mean on a tenant's table.
//!
//! The types hold only valid values. The definitions in `specs/` say what a command does to a table
//! and what its reply is, and what the log of all tenants does to their tables. What follows from
//! them is stated in `mc_laws`.
#![tactic(auto)]

pub use command::{Command, Verb};
pub use fault::Fault;
pub use fragments::Fragments;
pub use id::{TenantId, Ticket, WorkerId};
pub use item::{Data, Item};
pub use key::Key;
pub use key_block::{KeyBlock, KeyTexts};
pub use key_list::KeyList;
pub use name::{Name, Names};
pub use number::read_number;
pub use reply::{Reply, Value, ValueList, WireNo};
pub use request::{Entry, Request};
pub use settings::{Limits, Settings};
pub use shown::{LogSize, Phase, ShownState, WorkerState};
pub use sink::Sink;

pub mod command;
mod compare;
pub mod digits;
pub mod fault;
pub mod fragments;
pub mod id;
pub mod item;
pub mod key;
pub mod key_block;
pub mod key_list;
pub mod name;
pub mod number;
pub mod reply;
pub mod request;
pub mod settings;
pub mod shown;
pub mod sink;
mod unread;
