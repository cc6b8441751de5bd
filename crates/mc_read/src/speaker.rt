//! Whose lines a reader reads, and what an administrator's line asks for.
ghost use Rattle.std.specs.Prelude.{◌≡◌, IfOk, IsOkUnless};
ghost use Rattle.mc_read.specs.Administering.{asked_by_admin, asked_of_admin, asked_of_limit, asked_of_setting, lines_spoken};
ghost use Rattle.mc_read.specs.Line.{HasLawfulBlock};

use crate::line::{Asked, ask, malformed, no_command};
use crate::without_block::ask_name;
use crate::words::{Words, is_noreply, is_word};
use mc_model::{Fault, Limits, Name, Reply, Request};
use std::alloc::Global;

/// Who speaks on a connection.
#[derive(Clone, Copy, Debug, PartialEq, Eq)]
pub enum Speaker {
    /// A tenant's client, with memcached's commands.
    Tenant,
    /// An administrator, who sets the tenants' quotas.
    Admin,
}

impl Speaker {
    /// Returns what a line of this speaker asks for; the line comes without its line feed. Returns
    /// `Memory` if an allocation fails.
    pub(crate) fn ask(self, alloc: Global, line: &[u8]) -> Result<Asked, Fault>
        ensures asked { IfOk result (λ asked. asked ≡ lines_spoken self line.now) }
        ensures lawful { IfOk result HasLawfulBlock }
        ensures memory { IsOkUnless result Fault.Memory }
    {
        match self {
            Speaker::Tenant => ask(alloc, line),
            Speaker::Admin => ask_by_admin(alloc, line),
        }
    }
}

/// Returns what an administrator's line asks for. Returns `Memory` if an allocation fails.
fn ask_by_admin(alloc: Global, line: &[u8]) -> Result<Asked, Fault>
    ensures asked { IfOk result (λ asked. asked ≡ asked_by_admin line.now) }
    ensures lawful { IfOk result HasLawfulBlock }
    ensures memory { IsOkUnless result Fault.Memory }
{
    ask_admin(alloc, Words::of(line))
}

/// Returns what an administrator's line with these words asks for.
fn ask_admin(alloc: Global, words: Words<'_>) -> Result<Asked, Fault>
    ensures asked { IfOk result (λ asked. asked ≡ asked_of_admin words.entry) }
    ensures lawful { IfOk result HasLawfulBlock }
    ensures memory { IsOkUnless result Fault.Memory }
{
    let mut arguments = words;
    let Some(name) = arguments.next() else {
        return Ok(no_command());
    };
    if is_word(name, b"limit") {
        ask_limit(alloc, arguments)
    } else if is_word(name, b"version") {
        Ok(ask_name(
            Request::Local {
                reply: Reply::Version,
                quiet: false,
            },
            arguments,
        ))
    } else if is_word(name, b"quit") {
        Ok(ask_name(Request::Quit, arguments))
    } else {
        Ok(no_command())
    }
}

/// Returns what a line of `limit` asks for, given the words after its name.
fn ask_limit(alloc: Global, arguments: Words<'_>) -> Result<Asked, Fault>
    ensures asked { IfOk result (λ asked. asked ≡ asked_of_limit arguments.entry) }
    ensures lawful { IfOk result HasLawfulBlock }
    ensures memory { IsOkUnless result Fault.Memory }
{
    let mut arguments = arguments;
    let Some(name) = arguments.next() else {
        return Ok(no_command());
    };
    let Some(items) = arguments.next() else {
        return Ok(no_command());
    };
    let Some(bytes) = arguments.next() else {
        return Ok(no_command());
    };
    let Some(last) = arguments.next() else {
        return limit(alloc, true, name, items, bytes, false);
    };
    if arguments.next().is_some() {
        return Ok(no_command());
    }
    limit(alloc, is_noreply(last), name, items, bytes, true)
}

/// Returns the setting of a tenant's quotas, if the word after these is valid.
fn limit(
    alloc: Global,
    is_lawful: bool,
    name: &[u8],
    items: &[u8],
    bytes: &[u8],
    quiet: bool,
) -> Result<Asked, Fault>
    ensures asked { IfOk result
        (λ asked. asked ≡ asked_of_setting is_lawful name.now items.now bytes.now quiet) }
    ensures lawful { IfOk result HasLawfulBlock }
    ensures memory { IsOkUnless result Fault.Memory }
{
    if !is_lawful {
        return Ok(malformed());
    }
    let Some(limits) = Limits::read(items, bytes) else {
        return Ok(malformed());
    };
    match Name::new(alloc, name)? {
        Some(name) => Ok(Asked::LineOnly(Request::Limit {
            name,
            limits,
            quiet,
        })),
        None => Ok(malformed()),
    }
}
