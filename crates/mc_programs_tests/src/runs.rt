//! What tests of whole streams share: joined bytes, long streams, and the steps by which they are
//! pulled and pushed.
use itoa::Buffer;
use mc_programs::{InputStep, OutputStep};
use std::alloc::{AllocError, Global};
use std::process::Abort;

/// Stops the test unless this holds.
pub fn demand(rt: &impl Abort, holds: bool, what: &str, at: usize) {
    assert!(rt; holds, "{what}, at {at}");
}

/// Returns the pieces, one after another.
pub fn joined(alloc: Global, pieces: &[&[u8]]) -> Result<Vec<u8>, AllocError> {
    let mut bytes = Vec::new(alloc);
    for piece in pieces {
        bytes.extend_from_slice(piece)?;
    }
    Ok(bytes)
}

/// Returns steps that pull `count` single bytes, with an empty pull before each.
pub fn single_pulls(alloc: Global, count: usize) -> Result<Vec<InputStep>, AllocError> {
    [InputStep::Empty, InputStep::Give(1)].repeat(alloc, count)
}

/// Returns steps that push `count` single bytes, with a full push before each.
pub fn single_pushes(alloc: Global, count: usize) -> Result<Vec<OutputStep>, AllocError> {
    [OutputStep::Full, OutputStep::Take(1)].repeat(alloc, count)
}

/// Appends a text in which `#` stands for a number and `@` for a key.
fn push_filled(texts: &mut String, text: &str, number: usize, key: &str) -> Result<(), AllocError> {
    let alloc = *texts.allocator();
    let mut buffer = Buffer::new();
    let text = text.replace(alloc, '#', buffer.format(number))?;
    texts.push_str(&text.replace(alloc, '@', key)?)
}

/// Returns the text once for each number from 1,000 to 1,999, for which `#` stands.
fn for_each_number(alloc: Global, text: &str) -> Result<String, AllocError> {
    let mut texts = String::new(alloc);
    for number in 1_000..2_000 {
        push_filled(&mut texts, text, number, "")?;
    }
    Ok(texts)
}

/// Returns the text once for each length of a key; `#` stands for the length, and `@` for a key of
/// that length.
pub fn for_each_key(alloc: Global, text: &str) -> Result<String, AllocError> {
    let mut texts = String::new(alloc);
    for length in 1..=250 {
        push_filled(&mut texts, text, length, &"k".repeat(alloc, length)?)?;
    }
    Ok(texts)
}

/// Returns lines that set 1,000 keys, and get them all in one line.
pub fn thousand_keys(alloc: Global) -> Result<Vec<u8>, AllocError> {
    let sets = for_each_number(alloc, "set k# 0 0 4\r\n#\r\n")?;
    let keys = for_each_number(alloc, " k#")?;
    joined(alloc, &[sets.as_bytes(), b"get", keys.as_bytes(), b"\r\n"])
}

/// Returns what `thousand_keys` is owed.
pub fn thousand_values(alloc: Global) -> Result<Vec<u8>, AllocError> {
    let stored = for_each_number(alloc, "STORED\r\n")?;
    let values = for_each_number(alloc, "VALUE k# 0 4\r\n#\r\n")?;
    joined(alloc, &[stored.as_bytes(), values.as_bytes(), b"END\r\n"])
}
