//! A listener for scrapes with a poll of its own: `Scraper` answers HTTP by what the workers of a
//! server show. It is lent no worker, table or mailbox, so a request over HTTP has nothing by which
//! it could change an answer to a client. What it holds of each connection is bounded: a request's
//! head, one answer, and a time after which it is closed. Nor can strangers keep its places, since
//! who is idle gives them up, or a processor, since it rests after each round.
#![tactic(auto)]

pub use boards::Boards;
pub use scraper::{Scraper, Stop, new_scraper};

mod answering;
pub mod boards;
pub mod laws;
mod memory;
mod resting;
pub mod scraper;
mod visit;
mod yielding;
