//! The command reader of memcached's text protocol: bytes in pieces of any size become requests.
//!
//! `specs/Text.antt` says what the text of a request is, `specs/Reading.antt` what a byte list
//! reads as, and `laws` that each byte list has exactly one reading. A `Reader` returns the
//! requests of that reading, however the stream is cut.
#![tactic(auto)]

pub use buffer::PULL_BYTES;
pub use reader::{Reader, ends_stream};
pub use speaker::Speaker;

mod awaited;
mod block;
mod buffer;
pub mod laws;
mod line;
mod reader;
mod source;
mod speaker;
mod storage;
mod without_block;
mod words;
