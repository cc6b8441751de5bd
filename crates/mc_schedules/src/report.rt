//! The report that is printed of a run.
ghost use Rattle.std.specs.Prelude.{◌≡◌, ◌++◌, ◌<◌, [], codes, decimal, flat_map, IfOk, IsOkUnless, OnOk};
ghost use Rattle.std.specs.Option.{option_map_or};
ghost use Rattle.mc_schedules.specs.Report.{ending_text, escaped, hexadecimal, log_text, phase_text, reply_line, ticket_text, worker_line, workers_text};
ghost use Rattle.uc_core.specs.Showing.{progress_by};

use crate::running::Outcome;
use mc_model::{Fault, Phase, Reply, Ticket, WorkerId};
use mc_write::{fault_text, write_reply};
use std::alloc::{AllocError, Global};
use uc_core::{Core, Progress};

impl Outcome {
    ghost use Rattle.mc_schedules.specs.Report.{report};

    /// Returns the report of the run: its replies, unless `quiet`, the fault that ended it, the
    /// log, and the workers. Returns `Memory` if an allocation fails.
    pub fn report(&self, alloc: Global, quiet: bool) -> Result<Vec<u8>, Fault>
        ensures text { IfOk result
            (λ text. text.items
            ≡ report quiet self.now.core self.now.replies.items self.now.fault) }
        ensures memory { IsOkUnless result Fault.Memory }
    {
        let mut out = Vec::new(alloc);
        if !quiet {
            append_replies(alloc, &self.replies, &mut out)?;
        }
        append_ending(alloc, self.fault, &mut out)?;
        append_log(alloc, self.core.decided(), &mut out)?;
        append_workers(alloc, &self.core, &mut out)?;
        Ok(out)
    }
}

/// Appends a line for each reply.
fn append_replies(
    alloc: Global,
    replies: &[(WorkerId, u64, Reply<'static>)],
    out: &mut Vec<u8>,
) -> Result<(), Fault>
    ensures text { OnOk result (out.new.items ≡ out.old.items ++ flat_map reply_line replies.now) }
    ensures memory { IsOkUnless result Fault.Memory }
{
    let mut text = Vec::new(alloc);
    for (worker, place, reply) in replies {
        text.clear();
        write_reply(reply, &mut text)?;
        append_reply(alloc, *worker, *place, &text, out)?;
    }
    Ok(())
}

/// Appends the line of a reply with this text.
fn append_reply(
    alloc: Global,
    worker: WorkerId,
    place: u64,
    text: &[u8],
    out: &mut Vec<u8>,
) -> Result<(), AllocError>
    ensures text { OnOk result
        (out.new.items ≡ out.old.items ++ (codes "reply " ++ decimal worker ++ codes " " ++ decimal place ++ codes " " ++ flat_map escaped text.now ++ codes "\n")) }
{
    let name = format!(in alloc; "reply {} {place} ", worker.number())?;
    out.extend_from_slice(name.as_bytes())?;
    append_all_escaped(text, out)?;
    out.extend_from_slice(b"\n")
}

/// Appends bytes as they are printed.
fn append_all_escaped(bytes: &[u8], out: &mut Vec<u8>) -> Result<(), AllocError>
    ensures text { OnOk result (out.new.items ≡ out.old.items ++ flat_map escaped bytes.now) }
{
    for byte in bytes {
        append_escaped(*byte, out)?;
    }
    Ok(())
}

/// Appends a byte as it is printed.
fn append_escaped(byte: u8, out: &mut Vec<u8>) -> Result<(), AllocError>
    ensures text { OnOk result (out.new.items ≡ out.old.items ++ escaped byte) }
{
    match byte {
        b'\r' => out.extend_from_slice(b"\\r"),
        b'\n' => out.extend_from_slice(b"\\n"),
        b'\\' => out.extend_from_slice(b"\\\\"),
        b' '..=b'~' => out.extend_from_slice(&[byte]),
        _ => {
            let digits = [hexadecimal(byte / 16), hexadecimal(byte % 16)];
            out.extend_from_slice(b"\\x")?;
            out.extend_from_slice(&digits)
        }
    }
}

/// Returns a hexadecimal digit.
fn hexadecimal(digit: u8) -> u8
    requires { digit < 16 }
    ensures { result ≡ hexadecimal digit }
{
    if digit < 10 {
        b'0' + digit
    } else {
        b'a' + (digit - 10)
    }
}

/// Appends the line of the fault that ended the run, if any.
fn append_ending(
    alloc: Global,
    fault: Option<(u64, Fault)>,
    out: &mut Vec<u8>,
) -> Result<(), AllocError>
    ensures text { OnOk result (out.new.items ≡ out.old.items ++ ending_text fault) }
{
    if let Some((line, fault)) = fault {
        let name = format!(in alloc; "fault {line} ")?;
        out.extend_from_slice(name.as_bytes())?;
        out.extend_from_slice(fault_text(fault))?;
        out.extend_from_slice(b"\n")?;
    }
    Ok(())
}

/// Appends the line of the log.
fn append_log(alloc: Global, decided: &[Ticket], out: &mut Vec<u8>) -> Result<(), AllocError>
    ensures text { OnOk result (out.new.items ≡ out.old.items ++ log_text decided.now) }
{
    out.extend_from_slice(b"log")?;
    append_tickets(alloc, decided, out)?;
    out.extend_from_slice(b"\n")
}

/// Appends tickets, each after a space.
fn append_tickets(alloc: Global, tickets: &[Ticket], out: &mut Vec<u8>) -> Result<(), AllocError>
    ensures text { OnOk result (out.new.items ≡ out.old.items ++ flat_map ticket_text tickets.now) }
{
    for ticket in tickets {
        append_ticket(alloc, *ticket, out)?;
    }
    Ok(())
}

/// Appends a ticket after a space.
fn append_ticket(alloc: Global, ticket: Ticket, out: &mut Vec<u8>) -> Result<(), AllocError>
    ensures text { OnOk result (out.new.items ≡ out.old.items ++ ticket_text ticket) }
{
    let text = format!(in alloc; " ({},{})", ticket.worker.number(), ticket.number)?;
    out.extend_from_slice(text.as_bytes())
}

/// Appends a line for each worker, in the order of their numbers.
#[tactic(auto, using(crate::proofs::Workers::one_more, crate::proofs::Workers::no_more))]
fn append_workers(alloc: Global, core: &Core, out: &mut Vec<u8>) -> Result<(), AllocError>
    ensures text { OnOk result (out.new.items ≡ out.old.items ++ workers_text core.now) }
{
    for number in 0..core.workers() as u8 {
        let worker = WorkerId::new(number).unwrap();
        append_worker(alloc, core, worker, out)?;
    }
    Ok(())
}

/// Appends the line of a worker, if the core has it.
fn append_worker(
    alloc: Global,
    core: &Core,
    worker: WorkerId,
    out: &mut Vec<u8>,
) -> Result<(), AllocError>
    ensures text { OnOk result
        (out.new.items ≡ out.old.items ++ option_map_or (worker_line worker) (progress_by core.now worker) []) }
{
    match core.progress(worker) {
        Some(progress) => append_progress(alloc, worker.number(), &progress, out),
        None => Ok(()),
    }
}

/// Appends the progress of the worker with this number.
fn append_progress(
    alloc: Global,
    number: u8,
    progress: &Progress,
    out: &mut Vec<u8>,
) -> Result<(), AllocError>
    ensures text { OnOk result (out.new.items ≡ out.old.items ++ worker_line number progress.now) }
{
    let line = format!(in alloc;
        "worker {number} {} learned {} replayed {} proposals {}\n",
        phase_text(progress.phase),
        progress.learned,
        progress.replayed,
        progress.proposals,
    )?;
    out.extend_from_slice(line.as_bytes())
}

/// Returns a worker's phase in a word.
fn phase_text(phase: Phase) -> &'static str
    ensures { result.now ≡ phase_text phase }
{
    match phase {
        Phase::Idle => "idle",
        Phase::Pending => "pending",
        Phase::Looked => "looked",
        Phase::Stopped => "stopped",
    }
}
