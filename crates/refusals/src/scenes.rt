//! What the workers do, and what is printed of it. Only the calls that are tried are answered in
//! print; whatever else runs out of memory ends the run.
ghost use Rattle.std.specs.Prelude.{◌≡◌, ℕ, Some, length, slice_get, IsTrue};
ghost use Rattle.mc_model.specs.Replay.{HaveRoom};
ghost use Rattle.uc_log.specs.Passes.{IsUnusedPass};
ghost use Rattle.uc_worker.specs.Worker.{HasReplayedAll, tables_of};

use crate::clients::{Client, both_clients, command_of, last_pass, opened};
use mc_model::{Fault, Reply};
use mc_write::write_reply;
use std::alloc::Global;
use std::str;
use uc_cells::Seen;
use uc_log::{Log, Pass};
use uc_worker::{Answer, Base, Next, Worker, turn_over_alone};

/// Room for the text of each reply, so that printing one needs no memory.
const TEXT: usize = 256;

fn print_reply<R: Print>(rt: &R, reply: &Reply<'_>, text: &mut Vec<u8>) -> Result<(), Fault> {
    text.clear();
    write_reply(reply, text)?;
    let _ = println!(rt; "{}", str::from_utf8(text).unwrap_or("no text"));
    Ok(())
}

fn print_answer<R: Print>(
    rt: &R,
    answer: Result<Answer<'_>, Fault>,
    text: &mut Vec<u8>,
) -> Result<(), Fault> {
    match answer {
        Ok(answer) => {
            let _ = println!(rt; "place {}", answer.place);
            print_reply(rt, &answer.reply, text)
        }
        Err(fault) => {
            let _ = println!(rt; "fault {fault}");
            Ok(())
        }
    }
}

/// Submits what a client writes as this text, and prints the answer, and what is unsettled then.
fn ask<R: Print>(
    rt: &R,
    alloc: Global,
    client: &mut Client<'_>,
    line: &str,
    text: &mut Vec<u8>,
) -> Result<(), Fault>
    ensures { client.new.log ≡ client.old.log }
{
    let command = command_of(alloc, line)?;
    let answer = client.submit(command);
    print_answer(rt, answer, text)?;
    let _ = match client.worker.unsettled() {
        Some(ticket) => println!(rt; "unsettled {} {}", ticket.worker.number(), ticket.number),
        None => println!(rt; "settled"),
    };
    Ok(())
}

/// Asks each of these.
fn ask_all<R: Print>(
    rt: &R,
    alloc: Global,
    client: &mut Client<'_>,
    lines: &[&str],
) -> Result<(), Fault>
    ensures { client.new.log ≡ client.old.log }
{
    let mut text = Vec::with_capacity(alloc, TEXT)?;
    for line in lines {
        ask(rt, alloc, client, line, &mut text)?;
    }
    Ok(())
}

/// One worker submits a set, and then a get of its key.
pub(crate) fn submits<R: Print>(rt: &R, alloc: Global) -> Result<(), Fault> {
    let (log, passes) = opened(alloc, 1, 8)?;
    let Some(pass) = last_pass(&log, passes) else {
        return Err(Fault::BadEvent);
    };
    let mut client = Client::open(alloc, &log, pass)?;
    ask_all(
        rt,
        alloc,
        &mut client,
        &["set a 0 0 1\r\nx\r\n", "gets a\r\n"],
    )
}

fn print_history<R: Print>(rt: &R, history: &[Seen<'_>]) {
    for seen in history {
        let ticket = seen.ticket();
        let _ = println!(rt; "{} {}", ticket.worker.number(), ticket.number);
    }
}

fn print_met<R: Print>(rt: &R, first: &Client<'_>, second: &Client<'_>, met: Result<(), Fault>) {
    let _ = match met {
        Ok(()) => println!(rt; "met"),
        Err(fault) => println!(rt; "fault {fault}"),
    };
    print_history(rt, first.worker.history());
    let _ = println!(rt; "and");
    print_history(rt, second.worker.history());
}

/// The first submits two sets, then the second three, and then they meet twice.
fn meet_twice<'a, R: Print>(
    rt: &R,
    alloc: Global,
    first: &mut Client<'a>,
    second: &mut Client<'a>,
) -> Result<(), Fault>
    requires { first.old.log.now ≡ second.old.log.now }
{
    ask_all(
        rt,
        alloc,
        first,
        &["set a 0 0 1\r\nx\r\n", "set b 0 0 1\r\nx\r\n"],
    )?;
    let lines = [
        "set a 0 0 1\r\ny\r\n",
        "append b 0 0 1\r\ny\r\n",
        "set c 0 0 1\r\ny\r\n",
    ];
    ask_all(rt, alloc, second, &lines)?;
    let met = first.meet(second);
    print_met(rt, first, second, met);
    let met = first.meet(second);
    print_met(rt, first, second, met);
    Ok(())
}

/// Two workers meet, of whom the second has replayed more.
pub(crate) fn meets<R: Print>(rt: &R, alloc: Global) -> Result<(), Fault> {
    let (log, passes) = opened(alloc, 2, 8)?;
    let (mut first, mut second) = both_clients(alloc, &log, passes)?;
    meet_twice(rt, alloc, &mut first, &mut second)
}

/// A log that nothing was done on, and the tables that it begins with.
#[derive(Drop)]
struct Following {
    next: Next,
    ghost passes: { (number : ℕ) (pass : _) → slice_get next.passes.items number ≡ Some pass → IsUnusedPass next.log pass },
    ghost tenants: { length next.base.tables.items ≡ length next.log.settings.tenants },
    ghost room: { HaveRoom next.base.tables.items next.log.settings.places },
}

/// Returns whether the worker has replayed its log, and has room for this many places.
fn is_ready(worker: &Worker<'_>, places: u64) -> bool
    ensures done { IsTrue result → HasReplayedAll worker.now }
    ensures room { IsTrue result → HaveRoom (tables_of worker.now) places }
{
    worker.is_done() && worker.has_room(places)
}

/// Turns the log of its only worker over. Returns `LogFull` if the worker hasn't replayed all of
/// it.
fn followed(alloc: Global, client: &Client<'_>) -> Result<Following, Fault> {
    let settings = client.log.settings();
    if settings.workers() != 1 || !is_ready(&client.worker, settings.places()) {
        return Err(Fault::LogFull);
    }
    let next = turn_over_alone(alloc, &client.worker, settings)?;
    Ok(Following { next })
}

/// Asks for both items on the log that follows.
fn ask_over<R: Print>(
    rt: &R,
    alloc: Global,
    log: &Log,
    passes: Vec<Pass>,
    base: &Base,
) -> Result<(), Fault>
    requires passes { (number : ℕ) (pass : _) → slice_get passes.items number ≡ Some pass →
        IsUnusedPass log.now pass }
    requires tenants { length base.now.tables.items ≡ length log.now.settings.tenants }
    requires room { HaveRoom base.now.tables.items log.now.settings.places }
{
    let Some(pass) = last_pass(log, passes) else {
        return Err(Fault::BadEvent);
    };
    let mut client = Client::open_over(alloc, log, pass, base)?;
    ask_all(
        rt,
        alloc,
        &mut client,
        &["append a 0 0 1\r\nz\r\n", "gets a b\r\n"],
    )
}

fn go_on<R: Print>(rt: &R, alloc: Global, following: Following) -> Result<(), Fault> {
    let Following { next } = following;
    let Next { log, passes, base } = next;
    ask_over(rt, alloc, &log, passes, &base)
}

/// Turns the log over; if that is refused, prints the fault and tries it once more.
fn followed_at_last<R: Print>(
    rt: &R,
    alloc: Global,
    client: &Client<'_>,
) -> Result<Following, Fault> {
    match followed(alloc, client) {
        Ok(following) => Ok(following),
        Err(fault) => {
            let _ = println!(rt; "fault {fault}");
            followed(alloc, client)
        }
    }
}

/// Has the client fill its log of two places, and go on over its table.
fn fill_and_go_on<R: Print>(rt: &R, alloc: Global, client: &mut Client<'_>) -> Result<(), Fault> {
    let lines = ["set a 5 0 1\r\nx\r\n", "set b 6 0 1\r\ny\r\n"];
    ask_all(rt, alloc, client, &lines)?;
    let following = followed_at_last(rt, alloc, client)?;
    go_on(rt, alloc, following)
}

/// One worker fills a log, which another follows.
pub(crate) fn turns_over<R: Print>(rt: &R, alloc: Global) -> Result<(), Fault> {
    let (log, passes) = opened(alloc, 1, 2)?;
    let Some(pass) = last_pass(&log, passes) else {
        return Err(Fault::BadEvent);
    };
    let mut client = Client::open(alloc, &log, pass)?;
    fill_and_go_on(rt, alloc, &mut client)
}
