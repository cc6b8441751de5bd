//! What the threads of a test ask for: commands of all kinds on a few keys, for three tenants.
ghost use Rattle.std.specs.Prelude.{◌≡◌};

use crate::clients::Client;
use crate::texts::QUOTAS;
use mc_model::{Fault, Limits, Reply};
use std::alloc::Global;
use uc_worker::{Answer, Gate};

/// The last tenant's quotas refuse many commands.
pub(crate) const TENANTS: [Limits; 3] = [QUOTAS, QUOTAS, Limits { items: 2, bytes: 8 }];

/// An empty text asks for a cas with the unique that the worker was shown last.
const TEXTS: [&str; 24] = [
    "set a 1 0 1\r\nx\r\n",
    "gets a\r\n",
    "",
    "set n 2 0 1\r\n8\r\n",
    "incr n 3\r\n",
    "add a 3 0 2\r\nab\r\n",
    "gets a\r\n",
    "",
    "append a 4 0 1\r\ny\r\n",
    "get a b n\r\n",
    "delete a\r\n",
    "decr n 5\r\n",
    "replace b 5 0 1\r\nz\r\n",
    "gets n a\r\n",
    "",
    "prepend b 6 0 1\r\nw\r\n",
    "set b 7 0 0\r\n\r\n",
    "incr a 1\r\n",
    "flush_all\r\n",
    "gets b a\r\n",
    "",
    "set a 8 0 3\r\n123\r\n",
    "incr n 18446744073709551615\r\n",
    "delete b\r\n",
];

/// A command that was submitted, and its answer.
#[derive(Drop)]
pub(crate) struct Asked<'a> {
    pub(crate) tenant: u8,
    pub(crate) text: String,
    pub(crate) answer: Answer<'a>,
}

/// Returns a number that looks random, and is the same in each run.
fn mixed(worker: u8, number: u64) -> u64 {
    let seed = number.wrapping_mul(16).wrapping_add(u64::from(worker));
    seed.wrapping_add(1).wrapping_mul(0x9E37_79B9_7F4A_7C15) >> 40
}

/// Returns the tenant and the text of the worker's command of this number.
fn chosen(worker: u8, number: u64) -> (u8, &'static str) {
    let mixed = mixed(worker, number);
    let tenant = (mixed / 24 % 3) as u8;
    (tenant, TEXTS[(mixed % 24) as usize])
}

fn text_of(alloc: Global, text: &str, unique: u64) -> Result<String, Fault> {
    Ok(if text.is_empty() {
        format!(in alloc; "cas a 9 0 1 {unique}\r\nc\r\n")?
    } else {
        format!(in alloc; "{text}")?
    })
}

fn ask_next<'a, G: Gate>(
    alloc: Global,
    client: &mut Client<'a>,
    number: u64,
    unique: u64,
    gate: &mut G,
) -> Result<Asked<'a>, Fault>
    ensures { client.new.log ≡ client.old.log }
{
    let (tenant, text) = chosen(client.number(), number);
    let text = text_of(alloc, text, unique)?;
    let answer = client.ask(alloc, tenant, text.as_str(), gate)?;
    Ok(Asked {
        tenant,
        text,
        answer,
    })
}

/// Returns the unique that the reply shows first, if it shows one.
fn shown_unique(reply: &Reply<'_>) -> Option<u64> {
    match reply {
        Reply::Values(values) => values.as_slice().first()?.unique,
        _ => None,
    }
}

/// Submits this many commands, one after another.
pub(crate) fn ask_all<'a, G: Gate>(
    alloc: Global,
    client: &mut Client<'a>,
    count: u64,
    gate: &mut G,
) -> Result<Vec<Asked<'a>>, Fault>
    ensures { client.new.log ≡ client.old.log }
{
    let mut all = Vec::new(alloc);
    let mut unique = 0;
    for number in 0..count {
        let asked = ask_next(alloc, client, number, unique, gate)?;
        unique = shown_unique(&asked.answer.reply).unwrap_or(unique);
        all.push(asked)?;
    }
    Ok(all)
}
