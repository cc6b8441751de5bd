//! Commands as a client writes them, and replies as a client reads them.
use mc_model::{Command, Fault, Limits, Reply, Request, Settings};
use mc_read::Reader;
use mc_write::write_reply;
use std::alloc::Global;

/// Enough for all that most tests store.
pub(crate) const QUOTAS: Limits = Limits {
    items: 100,
    bytes: 100_000,
};

fn request_of(alloc: Global, text: &str) -> Result<Option<Request>, Fault> {
    let mut reader = Reader::new(alloc);
    reader.feed(text.as_bytes())?;
    reader.next()
}

/// Returns the command that a client writes as this text.
pub(crate) fn command_of(alloc: Global, text: &str) -> Result<Command, Fault> {
    match request_of(alloc, text)? {
        Some(Request::Logged { command, .. }) => Ok(command),
        _ => Err(Fault::BadEvent),
    }
}

/// Returns whether a client reads this text for the reply.
pub(crate) fn reads_as(alloc: Global, reply: &Reply<'_>, want: &str) -> Result<bool, Fault> {
    let mut text = Vec::new(alloc);
    write_reply(reply, &mut text)?;
    Ok(text.as_slice() == want.as_bytes())
}

/// Returns settings of this many workers and places, and of tenants with these quotas.
pub(crate) fn settings_of(
    alloc: Global,
    workers: u64,
    places: u64,
    quotas: &[Limits],
) -> Result<Settings, Fault> {
    let quotas = Vec::from_slice(alloc, quotas)?;
    Settings::check(workers, places, quotas)
}
