//! Commands as a client writes them.
use mc_model::{Command, Fault, Request};
use mc_read::Reader;
use std::alloc::Global;

/// Returns the command that a client writes as this text.
pub(crate) fn command_of(alloc: Global, text: &str) -> Result<Command, Fault> {
    let mut reader = Reader::new(alloc);
    reader.feed(text.as_bytes())?;
    match reader.next()? {
        Some(Request::Logged { command, .. }) => Ok(command),
        _ => Err(Fault::BadEvent),
    }
}
