//! A tenant's word on wfmc's command line.
ghost use Rattle.std.specs.Option.{IsSomeAnd};
ghost use Rattle.std.specs.Prelude.{◌≡◌, ℕ, List, Some, IfSome};
ghost use Rattle.mc_server.specs.TenantWord.{Lacks, Says, TenantAsked, asked_of, tenant_text};
ghost use Rattle.mc_programs.specs.Words.{u64_of};

use mc_model::{Limits, Name};
use std::net::SocketAddrV4;

/// A tenant as its word describes it: its name, the address on which it listens, and its quotas,
/// which may be out of their bounds.
#[derive(Clone, Copy, Debug)]
pub(crate) struct Tenant<'a> {
    pub name: &'a str,
    pub address: SocketAddrV4,
    pub limits: Limits,
}

/// The parts of a tenant's word.
#[derive(Clone, Copy)]
pub(crate) struct Parts<'a> {
    pub name: &'a str,
    pub address: &'a str,
    pub items: &'a str,
    pub bytes: &'a str,
}

/// Returns the number of 64 bits that a text spells. The text may begin with a plus.
pub(crate) fn read_number(text: &str) -> Option<u64>
    ensures { result ≡ u64_of text.now }
{
    text.parse::<u64>().ok()
}

/// Cuts a word at its first `=`, and what follows at its first two commas. Returns `None` if one of
/// these is missing.
pub(crate) fn cut(word: &str) -> Option<Parts<'_>>
    ensures whole { IfSome result
        (λ parts. word.now
        ≡ tenant_text parts.name.now parts.address.now parts.items.now parts.bytes.now) }
    ensures first { IfSome result
        (λ parts. Lacks 61 parts.name.now × Lacks 44 parts.address.now × Lacks 44 parts.items.now) }
    ensures only { (name address items bytes : List ℕ) → Lacks 61 name → Lacks 44 address →
        Lacks 44 items → word.now ≡ tenant_text name address items bytes
        → IsSomeAnd result
        (λ parts. (parts.name.now ≡ name) × (parts.address.now ≡ address)
        × (parts.items.now ≡ items) × (parts.bytes.now ≡ bytes)) }
{
    let (name, rest) = word.split_once('=')?;
    let (address, rest) = rest.split_once(',')?;
    let (items, bytes) = rest.split_once(',')?;
    Some(Parts {
        name,
        address,
        items,
        bytes,
    })
}

/// Returns the tenant that a word describes, or `None` if the word isn't of a tenant's form.
pub(crate) fn read_tenant(word: &str) -> Option<Tenant<'_>>
    ensures says { IfSome result (λ tenant. Says word.now (asked_of tenant)) }
    ensures only { (asked : TenantAsked) → Says word.now asked →
        IsSomeAnd result (λ tenant. asked_of tenant ≡ asked) }
{
    let parts = cut(word)?;
    if !Name::is_lawful(parts.name.as_bytes()) {
        return None;
    }
    let address = parts.address.parse::<SocketAddrV4>().ok()?;
    let items = read_number(parts.items)?;
    let bytes = read_number(parts.bytes)?;
    Some(Tenant {
        name: parts.name,
        address,
        limits: Limits { items, bytes },
    })
}
