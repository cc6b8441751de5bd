//! The text that a client reads for each reply, appended to a queue of bytes, and the names of
//! faults. Begin with `write_reply`; `specs/Text.antt` defines the bytes.
#![tactic(auto)]

pub mod laws;

ghost use Rattle.std.specs.Io.{StartsWith};
ghost use Rattle.std.specs.Prelude.{◌≡◌, ◌+◌, ◌≤◌, ◌++◌, codes, decimal, flat_map, length, vec_capacity, vec_len, OnErr, OnOk, IsOk, IsOkUnless};
ghost use Rattle.mc_model.specs.declared.reply.Reply.TheVariants.{Refused};
ghost use Rattle.mc_write.specs.Faults.{fault_text};
ghost use Rattle.mc_write.specs.Text.{text, value_line, value_text};

use itoa::Buffer;
use mc_model::{Fault, Fragments, Reply, Value, WireNo};
use std::alloc::AllocError;

/// Appends a reply's text. Returns `Memory` if an allocation fails; the vector's bytes are
/// unchanged then.
pub fn write_reply(reply: &Reply<'_>, out: &mut Vec<u8>) -> Result<(), Fault>
    ensures text { OnOk result (out.new.items ≡ out.old.items ++ text reply.now) }
    ensures kept { OnErr result (out.new.items ≡ out.old.items) }
    ensures memory { IsOkUnless result Fault.Memory }

    // It succeeds if the vector has capacity for the text.
    ensures room { vec_len out.old + length (text reply.now) ≤ vec_capacity out.old → IsOk result }
{
    let start = out.len();
    let written = append_reply(reply, out);
    if written.is_err() {
        out.truncate(start);
    }
    Ok(written?)
}

/// Appends the text of an item. The vector's bytes are unchanged if an allocation fails.
pub fn write_value(value: &Value<'_>, out: &mut Vec<u8>) -> Result<(), AllocError>
    ensures text { OnOk result (out.new.items ≡ out.old.items ++ value_text value.now) }
    ensures kept { OnErr result (out.new.items ≡ out.old.items) }
{
    let len = out.len();
    let appended = append_value(value, out);
    if appended.is_err() {
        out.truncate(len);
    }
    appended
}

/// Appends the line of an item, for a caller that has its data elsewhere. The vector's bytes are
/// unchanged if an allocation fails.
pub fn write_line(value: &Value<'_>, out: &mut Vec<u8>) -> Result<(), AllocError>
    ensures text { OnOk result
        (out.new.items ≡ out.old.items ++ (value_line value.now ++ codes "\r\n")) }
    ensures kept { OnErr result (out.new.items ≡ out.old.items) }
{
    let len = out.len();
    let appended = append_line_and_end(value, out);
    if appended.is_err() {
        out.truncate(len);
    }
    appended
}

/// Returns the text of a refusal, without allocating, for a caller that is out of memory.
pub fn refusal_text(refusal: WireNo) -> &'static [u8]
    ensures { result.now ≡ text (Refused refusal) }
{
    match refusal {
        WireNo::E1 => b"ERROR\r\n",
        WireNo::E2 => b"CLIENT_ERROR bad command line format\r\n",
        WireNo::E3 => b"CLIENT_ERROR bad data chunk\r\n",
        WireNo::E4 => b"CLIENT_ERROR expiry is not supported\r\n",
        WireNo::E5 => b"CLIENT_ERROR line too long\r\n",
        WireNo::E6 => b"SERVER_ERROR object too large for cache\r\n",
        WireNo::E7 => b"SERVER_ERROR out of memory storing object\r\n",
        WireNo::E8 => b"CLIENT_ERROR cannot increment or decrement non-numeric value\r\n",
        WireNo::E9 => b"CLIENT_ERROR invalid numeric delta argument\r\n",
        WireNo::E10 => b"SERVER_ERROR log full\r\n",
        WireNo::E11 => b"SERVER_ERROR out of memory\r\n",
    }
}

/// Appends a reply's text, which may be written in part if an allocation fails.
fn append_reply(reply: &Reply<'_>, out: &mut Vec<u8>) -> Result<(), AllocError>
    ensures text { OnOk result (out.new.items ≡ out.old.items ++ text reply.now) }
    ensures begun { StartsWith out.new.items out.old.items }
    ensures room { vec_len out.old + length (text reply.now) ≤ vec_capacity out.old → IsOk result }
    ensures capacity { vec_capacity out.old ≤ vec_capacity out.new }
{
    match reply {
        Reply::Stored => out.extend_from_slice(b"STORED\r\n"),
        Reply::NotStored => out.extend_from_slice(b"NOT_STORED\r\n"),
        Reply::Exists => out.extend_from_slice(b"EXISTS\r\n"),
        Reply::NotFound => out.extend_from_slice(b"NOT_FOUND\r\n"),
        Reply::Deleted => out.extend_from_slice(b"DELETED\r\n"),
        Reply::Ok => out.extend_from_slice(b"OK\r\n"),
        Reply::Number(number) => {
            append_digits(*number, out)?;
            out.extend_from_slice(b"\r\n")
        }
        Reply::Values(values) => {
            append_values(values.as_slice(), out)?;
            out.extend_from_slice(b"END\r\n")
        }
        Reply::Version => out.extend_from_slice(b"VERSION 1.0.0\r\n"),
        Reply::Refused(refusal) => out.extend_from_slice(refusal_text(*refusal)),
    }
}

fn append_values(values: &[Value<'_>], out: &mut Vec<u8>) -> Result<(), AllocError>
    ensures text { OnOk result (out.new.items ≡ out.old.items ++ flat_map value_text values.now) }
    ensures begun { StartsWith out.new.items out.old.items }
    ensures room { vec_len out.old + length
        (flat_map value_text values.now) ≤ vec_capacity out.old → IsOk result }
    ensures capacity { vec_capacity out.old ≤ vec_capacity out.new }
{
    for value in values {
        append_value(value, out)?;
    }
    Ok(())
}

/// Appends an item.
fn append_value(value: &Value<'_>, out: &mut Vec<u8>) -> Result<(), AllocError>
    ensures text { OnOk result (out.new.items ≡ out.old.items ++ value_text value.now) }
    ensures begun { StartsWith out.new.items out.old.items }
    ensures room { vec_len out.old + length (value_text value.now) ≤ vec_capacity out.old →
        IsOk result }
    ensures capacity { vec_capacity out.old ≤ vec_capacity out.new }
{
    append_line(value, out)?;
    append_block(&value.block, out)
}

/// Appends the line of an item, with its end.
fn append_line_and_end(value: &Value<'_>, out: &mut Vec<u8>) -> Result<(), AllocError>
    ensures text { OnOk result
        (out.new.items ≡ out.old.items ++ (value_line value.now ++ codes "\r\n")) }
    ensures begun { StartsWith out.new.items out.old.items }
{
    append_line(value, out)?;
    append_line_end(out)
}

/// Appends the line of an item, without its end.
fn append_line(value: &Value<'_>, out: &mut Vec<u8>) -> Result<(), AllocError>
    ensures text { OnOk result (out.new.items ≡ out.old.items ++ value_line value.now) }
    ensures begun { StartsWith out.new.items out.old.items }
    ensures room { vec_len out.old + length (value_line value.now) ≤ vec_capacity out.old →
        IsOk result }
    ensures capacity { vec_capacity out.old ≤ vec_capacity out.new }
{
    out.extend_from_slice(b"VALUE ")?;
    out.extend_from_slice(value.key.as_bytes())?;
    append_number(u64::from(value.flags), out)?;
    append_number(value.block.len() as u64, out)?;
    if let Some(unique) = value.unique {
        append_number(unique, out)?;
    }
    Ok(())
}

/// Appends the end of an item's line, and its data.
fn append_block(block: &Fragments<'_>, out: &mut Vec<u8>) -> Result<(), AllocError>
    ensures text { OnOk result
        (out.new.items ≡ out.old.items ++ (codes "\r\n" ++ block.now ++ codes "\r\n")) }
    ensures begun { StartsWith out.new.items out.old.items }
    ensures room { vec_len out.old + length
        (codes "\r\n" ++ block.now ++ codes "\r\n") ≤ vec_capacity out.old → IsOk result }
    ensures capacity { vec_capacity out.old ≤ vec_capacity out.new }
{
    append_line_end(out)?;
    block.write(out)?;
    append_line_end(out)
}

/// Appends a carriage return and a line feed, one by one: two pushes cost less than a copy of two
/// bytes.
fn append_line_end(out: &mut Vec<u8>) -> Result<(), AllocError>
    ensures text { OnOk result (out.new.items ≡ out.old.items ++ codes "\r\n") }
    ensures begun { StartsWith out.new.items out.old.items }
    ensures room { vec_len out.old + 2 ≤ vec_capacity out.old → IsOk result }
    ensures capacity { vec_capacity out.old ≤ vec_capacity out.new }
{
    out.push(b'\r')?;
    out.push(b'\n')?;
    Ok(())
}

/// Appends a space and the number in decimal digits.
fn append_number(number: u64, out: &mut Vec<u8>) -> Result<(), AllocError>
    ensures text { OnOk result (out.new.items ≡ out.old.items ++ (codes " " ++ decimal number)) }
    ensures begun { StartsWith out.new.items out.old.items }
    ensures room { vec_len out.old + length (codes " " ++ decimal number) ≤ vec_capacity out.old →
        IsOk result }
    ensures capacity { vec_capacity out.old ≤ vec_capacity out.new }
{
    out.push(b' ')?;
    append_digits(number, out)
}

/// Appends the number in decimal digits. A single digit, as most flags are, is pushed directly.
fn append_digits(number: u64, out: &mut Vec<u8>) -> Result<(), AllocError>
    ensures text { OnOk result (out.new.items ≡ out.old.items ++ decimal number) }
    ensures begun { StartsWith out.new.items out.old.items }
    ensures room { vec_len out.old + length (decimal number) ≤ vec_capacity out.old → IsOk result }
    ensures capacity { vec_capacity out.old ≤ vec_capacity out.new }
{
    if number < 10 {
        out.push(b'0' + number as u8)?;
        return Ok(());
    }
    let mut digits = Buffer::new();
    out.extend_from_slice(digits.format(number).as_bytes())
}

/// Returns the name by which programs report the fault.
pub fn fault_text(fault: Fault) -> &'static [u8]
    ensures { result.now ≡ fault_text fault }
{
    match fault {
        Fault::Memory => b"out of memory",
        Fault::LogFull => b"log full",
        Fault::Taken => b"cell taken",
        Fault::Input => b"input failed",
        Fault::Output => b"output failed",
        Fault::BadEvent => b"event not enabled",
        Fault::BadSettings => b"bad settings",
    }
}
