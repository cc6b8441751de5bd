//! A log's answers, recomputed from its history by code that isn't the worker's: with one plain
//! table for each tenant, place by place.

use crate::asking::Asked;
use crate::clients::Client;
use crate::meeting::Ended;
use crate::texts::command_of;
use mc_items::tables::owned_tables;
use mc_items::{CellItems, Hashing, Item, Items, Table, View};
use mc_model::{Command, Entry, Fault, Key, Limits, Reply, TenantId, Ticket};
use mc_write::write_reply;
use std::alloc::Global;
use uc_cells::Seen;

fn applied<'a>(items: &mut Items, command: &'a Command) -> Result<Reply<'a>, Fault> {
    if items.last_unique() == u64::MAX {
        return Err(Fault::BadEvent);
    }
    items.apply(command)
}

/// Returns the reply to the entry on its tenant's table.
fn reply_to<'a>(tables: &mut [Items], entry: &'a Entry) -> Result<Reply<'a>, Fault> {
    match tables.get_mut(usize::from(entry.tenant.number())) {
        Some(items) => applied(items, &entry.command),
        None => Err(Fault::BadEvent),
    }
}

/// Returns whether a client reads the same of both replies, which may borrow from different logs.
fn reads_alike(alloc: Global, one: &Reply<'_>, other: &Reply<'_>) -> Result<bool, Fault> {
    let mut first = Vec::new(alloc);
    let mut second = Vec::new(alloc);
    write_reply(one, &mut first)?;
    write_reply(other, &mut second)?;
    Ok(first.as_slice() == second.as_slice())
}

/// Returns whether the entry is what was asked for, and this is the answer to it.
fn is_answer_to(
    alloc: Global,
    asked: &Asked<'_>,
    entry: &Entry,
    place: usize,
    reply: &Reply<'_>,
) -> Result<bool, Fault> {
    let command = command_of(alloc, asked.text.as_str())?;
    let is_command = entry.command == command;
    drop(command);
    let is_reply = reads_alike(alloc, &asked.answer.reply, reply)?;
    Ok(
        is_command
            && entry.tenant.number() == asked.tenant
            && asked.answer.place == place
            && is_reply,
    )
}

/// Returns what the ticket's worker asked for under its number.
fn asked_under<'e, 'a>(ended: &'e [Ended<'a>], ticket: Ticket) -> Option<&'e Asked<'a>> {
    let Ticket { worker, number } = ticket;
    let asked = ended
        .get(usize::from(worker.number()))?
        .asked
        .as_ref()
        .ok()?;
    asked.get(number as usize)
}

/// Returns whether what was seen at the place was asked for, and the tables answer it as it was
/// answered then.
fn is_right_at(
    alloc: Global,
    tables: &mut [Items],
    ended: &[Ended<'_>],
    place: usize,
    seen: &Seen<'_>,
) -> Result<bool, Fault> {
    let Some(entry) = seen.entry() else {
        return Ok(false);
    };
    let Some(asked) = asked_under(ended, seen.ticket()) else {
        return Ok(false);
    };
    let reply = reply_to(tables, entry)?;
    let is_answer = is_answer_to(alloc, asked, entry, place, &reply);
    drop(reply);
    is_answer
}

/// Returns the tables after the history, if they answer each of its places as it was answered.
fn tables_after(
    alloc: Global,
    quotas: &[Limits],
    ended: &[Ended<'_>],
    history: &[Seen<'_>],
) -> Result<Vec<Items>, Fault> {
    let mut tables = owned_tables(alloc, quotas, Hashing::Fixed)?;
    for (place, seen) in history.iter().enumerate() {
        if !is_right_at(alloc, &mut tables, ended, place, seen)? {
            return Err(Fault::BadEvent);
        }
    }
    Ok(tables)
}

/// Returns whether what is seen is this item.
pub(crate) fn is_seen(alloc: Global, view: &View<'_, '_>, item: &Item) -> Result<bool, Fault> {
    let mut block = Vec::new(alloc);
    view.write(&mut block)?;
    Ok(
        view.flags() == item.flags
            && view.unique() == item.unique
            && block.as_slice() == item.block.as_bytes(),
    )
}

/// Returns whether both hold the same under the key.
pub(crate) fn is_held_alike(
    alloc: Global,
    one: &CellItems<'_>,
    other: &Items,
    key: &Key,
) -> Result<bool, Fault> {
    match (one.get(key), other.get(key)) {
        (Some(view), Some(item)) => is_seen(alloc, &view, item),
        (view, item) => Ok(view.is_none() && item.is_none()),
    }
}

/// Returns whether both hold the same under the key of this name.
fn holds_alike(
    alloc: Global,
    one: &CellItems<'_>,
    other: &Items,
    name: &str,
) -> Result<bool, Fault> {
    match Key::new(alloc, name.as_bytes())? {
        Some(key) => is_held_alike(alloc, one, other, &key),
        None => Ok(false),
    }
}

/// The keys that the tests use.
const NAMES: &[&str] = &["a", "b", "n"];

/// Returns whether both tables are alike in these keys.
fn are_alike(alloc: Global, one: &CellItems<'_>, other: &Items) -> Result<bool, Fault> {
    for name in NAMES {
        if !holds_alike(alloc, one, other, name)? {
            return Ok(false);
        }
    }
    Ok(
        one.last_unique() == other.last_unique()
            && one.used() == other.used()
            && one.count() == other.count(),
    )
}

/// Returns whether the client's table of this tenant is like this one.
fn has_table(
    alloc: Global,
    client: &Client<'_>,
    tenant: TenantId,
    items: &Items,
) -> Result<bool, Fault> {
    match client.table(tenant) {
        Some(table) => are_alike(alloc, table, items),
        None => Ok(false),
    }
}

/// Returns the tenant of this number, if there can be one.
fn tenant_of(number: usize) -> Option<TenantId> {
    TenantId::new(u8::try_from(number).ok()?)
}

/// Returns whether the client's tables are like these, tenant by tenant.
fn has_tables(alloc: Global, client: &Client<'_>, tables: &[Items]) -> Result<bool, Fault> {
    for (number, items) in tables.iter().enumerate() {
        let Some(tenant) = tenant_of(number) else {
            return Ok(false);
        };
        if !has_table(alloc, client, tenant, items)? {
            return Ok(false);
        }
    }
    Ok(true)
}

/// Returns whether each reply, and each of these tables at the end, is what plain tables give from
/// the history alone.
pub(crate) fn is_recomputed(
    alloc: Global,
    quotas: &[Limits],
    ended: &[Ended<'_>],
) -> Result<bool, Fault> {
    let Some(first) = ended.first() else {
        return Ok(false);
    };
    let tables = tables_after(alloc, quotas, ended, first.client.history())?;
    has_tables(alloc, &first.client, &tables)
}
