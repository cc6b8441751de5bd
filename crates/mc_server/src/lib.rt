//! The server for several tenants: `run_wfmc` reads the words, binds the listeners, opens the log,
//! serves and reports, as `specs/Network.antt` says. What its program needs besides is re-exported.
#![tactic(auto)]

pub use mc_programs::{WriteOutput, fail, random_hashing, refuse_words, words_after_name};
pub use network::run_wfmc;

mod announcement;
mod checking;
mod complaint;
mod crew;
pub mod generations;
pub mod laws;
mod listeners;
mod network;
mod network_texts;
mod network_words;
mod opened;
mod scraping;
mod tenant_word;
mod wanted;
