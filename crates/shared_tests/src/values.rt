//! Values made of plain data, and replies as a client reads them.
use mc_model::{Command, Data, Fault, Fragments, Key, Limits, Reply, Request, Value};
use mc_read::Reader;
use mc_write::write_reply;
use std::alloc::Global;

pub fn key_of(alloc: Global, name: &str) -> Result<Key, Fault> {
    Key::new(alloc, name.as_bytes())?.ok_or(Fault::BadEvent)
}

pub fn block_of(alloc: Global, text: &[u8]) -> Result<Data, Fault> {
    Data::new(Vec::from_slice(alloc, text)?).ok_or(Fault::BadEvent)
}

/// A value by its key, its flags, its data and its unique.
pub type Shown = (&'static str, u32, &'static str, Option<u64>);

pub fn value_of(alloc: Global, shown: Shown) -> Result<Value<'static>, Fault> {
    let (name, flags, text, unique) = shown;
    let key = key_of(alloc, name)?;
    let block = Fragments::from_data(alloc, block_of(alloc, text.as_bytes())?)?;
    Ok(Value {
        key,
        flags,
        block,
        unique,
    })
}

/// Returns the command that a client writes as this text.
pub fn command_of(alloc: Global, text: &[u8]) -> Result<Command, Fault> {
    match request_of(alloc, text)? {
        Some(Request::Logged { command, .. }) => Ok(command),
        _ => Err(Fault::BadEvent),
    }
}

fn request_of(alloc: Global, text: &[u8]) -> Result<Option<Request>, Fault> {
    let mut reader = Reader::new(alloc);
    reader.feed(text)?;
    reader.next()
}

/// Returns the command that sets these quotas.
pub fn limit_of(items: u64, bytes: u64) -> Command {
    Command::Limit {
        limits: Limits { items, bytes },
    }
}

/// Returns a copy of the command, or `BadEvent` if it isn't equal to it.
pub fn copy_of(command: &Command) -> Result<Command, Fault> {
    let copy = command.try_clone()?;
    if copy == *command {
        Ok(copy)
    } else {
        Err(Fault::BadEvent)
    }
}

/// Returns a copy of the command that a client writes as this text, which is equal to it.
pub fn copied(alloc: Global, text: &str) -> Result<Command, Fault> {
    let command = command_of(alloc, text.as_bytes())?;
    let copy = copy_of(&command);
    // A local enum that its block drops is proved variant by variant, on each way out.
    drop(command);
    copy
}

/// Returns what a client reads for the reply.
pub fn text_of(alloc: Global, reply: Reply<'_>) -> Result<Vec<u8>, Fault> {
    let mut text = Vec::new(alloc);
    let written = write_reply(&reply, &mut text);
    drop(reply);
    written?;
    Ok(text)
}

/// Returns whether a client reads this text for the reply.
pub fn reads_as(alloc: Global, reply: Reply<'_>, want: &[u8]) -> Result<bool, Fault> {
    let text = text_of(alloc, reply)?;
    Ok(text.as_slice() == want)
}

/// Returns the command that stores one letter under a number.
pub fn numbered_set(alloc: Global, number: u64) -> Result<Command, Fault> {
    let text = format!(in alloc; "set {number} 0 0 1\r\nx\r\n")?;
    command_of(alloc, text.as_bytes())
}

/// Returns the command that asks for `count` numbers, with their uniques.
pub fn numbered_get(alloc: Global, count: u64) -> Result<Command, Fault> {
    let mut text = String::from_str(alloc, "gets")?;
    for number in 0..count {
        write!(text, " {number}")?;
    }
    text.push_str("\r\n")?;
    command_of(alloc, text.as_bytes())
}

/// Returns what a client reads for `count` numbers that were stored in order.
pub fn numbered_values(alloc: Global, count: u64) -> Result<String, Fault> {
    let mut text = String::new(alloc);
    for number in 0..count {
        let unique = number + 1;
        write!(text, "VALUE {number} 0 1 {unique}\r\nx\r\n")?;
    }
    text.push_str("END\r\n")?;
    Ok(text)
}
