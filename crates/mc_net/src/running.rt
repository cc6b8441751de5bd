//! The loops of the acceptor and of the workers, each in a thread of its own.
ghost use Rattle.std.specs.List.{AllZip};
ghost use Rattle.std.specs.Prelude.{◌≡◌, All, IfOk, MatchResult};
ghost use Rattle.mc_net.specs.Beginning.{HaltsServing};
ghost use Rattle.mc_net.specs.Running.{EndsWith, FitTogether, HasRun, HaveRun, event_loops_of, workers_of};
ghost use Rattle.uc_worker.specs.AllWorkers.{AreOfLog, AreOnOneRun};
ghost use Rattle.uc_worker.specs.Going.{CatchesUp};

use crate::accepting::Acceptor;
use crate::beginning::Begin;
use crate::ended::Ended;
use crate::event_loop::EventLoop;
use crate::halt::Halt;
use crate::mailbox::Mailboxes;
use crate::worker_thread::WorkerThread;
use mc_model::Fault;
use std::alloc::Global;
use std::sync::Wait;
use std::thread;
use std::thread::{Threads, join_mut};
use uc_log::Log;
use uc_worker::all_workers::find_run_of_all;
use uc_worker::{Gate, Worker};

/// Returns these workers, each with the gate and the event loop of its index.
///
/// Returns `Memory` if memory runs out.
pub(crate) fn threads_of<'a, G: Gate + Drop>(
    alloc: Global,
    log: &'a Log,
    workers: Vec<Worker<'a>>,
    gates: Vec<G>,
    event_loops: Vec<EventLoop>,
) -> Result<Vec<WorkerThread<'a, G>>, Halt>
    requires { FitTogether log.now workers.items gates.items event_loops.items }
    ensures workers { IfOk result (λ threads. workers_of threads.items ≡ workers.entry.items) }
    ensures event_loops { IfOk result
        (λ threads. event_loops_of threads.items ≡ event_loops.items) }
{
    let mut worker_threads = Vec::with_capacity(alloc, workers.len())?;
    let mut gates = gates.into_iter();
    let mut event_loops = event_loops.into_iter();
    for worker in workers {
        let Some(gate) = gates.next() else {
            unreachable!();
        };
        let Some(event_loop) = event_loops.next() else {
            unreachable!();
        };
        worker_threads.push(WorkerThread {
            worker,
            gate,
            event_loop,
            outcome: Ok(Ended::Done),
        })?;
    }
    Ok(worker_threads)
}

impl<G: Gate> WorkerThread<'_, G> {
    /// Runs the event loop with the mailbox of this number. If it fails, all other loops are
    /// signalled to end.
    fn run<R: Wait>(&mut self, rt: &R, until_done: bool, mailboxes: &Mailboxes, number: usize)
        ensures { HasRun until_done self.old self.new }
    {
        let WorkerThread {
            worker,
            gate,
            event_loop,
            outcome,
        } = self;
        *outcome = event_loop.run(rt, until_done, worker, gate, mailboxes, number);
        if outcome.is_err() {
            mailboxes.halt(rt);
        }
    }
}

/// Runs each worker in a thread of its own, or one after another if no thread can be made.
fn run_workers<'a, R: Threads + Wait + Sync, G: Gate + Send>(
    rt: &R,
    until_done: bool,
    mailboxes: &Mailboxes,
    worker_threads: &mut [WorkerThread<'a, G>],
)
    ensures { HaveRun until_done worker_threads.old worker_threads.new }
{
    let threads = worker_threads.len().max(1);
    thread::for_each_mut(
        rt,
        worker_threads,
        threads,
        &|number: usize, worker_thread: &mut WorkerThread<'_, G>|
            ensures { HasRun until_done worker_thread.entry.now worker_thread.exit.now }
        { worker_thread.run(rt, until_done, mailboxes, number) },
    );
}

/// Runs all loops until each has ended: the workers' next to the acceptor's.
///
/// If no thread can be made the acceptor runs first, and fails since no worker's loop begins.
/// Returns the acceptor's errors.
pub(crate) fn run_all<'a, R: Threads + Wait + Sync, G: Gate + Send, B: Begin<O>, O>(
    rt: &R,
    until_done: bool,
    mailboxes: &Mailboxes,
    acceptor: &mut Acceptor,
    worker_threads: &mut [WorkerThread<'a, G>],
    begin: &B,
    state: &mut O,
) -> Result<(), Fault>
    ensures listeners { acceptor.new.listeners ≡ acceptor.old.listeners }
    ensures workers { HaveRun until_done worker_threads.old worker_threads.new }
    ensures outcome { MatchResult result (λ _. B.done begin.now state.old state.new)
        (HaltsServing (B.done begin.now) (B.stopped begin.now) state.old state.new) }
{
    let (_, outcome) = join_mut(
        rt,
        &mut || run_workers(rt, until_done, mailboxes, worker_threads),
        &mut || acceptor.run(rt, mailboxes, begin, state),
    );
    outcome
}

/// Returns the error of the first loop that failed by itself, if one did.
pub(crate) fn first_failure<G>(worker_threads: &[WorkerThread<'_, G>]) -> Result<(), Halt> {
    for worker_thread in worker_threads {
        match worker_thread.outcome {
            Err(Halt::Elsewhere) | Ok(_) => {}
            Err(halt) => return Err(halt),
        }
    }
    Ok(())
}

/// Returns the workers of these threads and their event loops, in order, and how serving ended: as
/// `Done` if all loops did.
///
/// Returns the error of the first loop that ended early, and `Memory` if memory runs out.
pub(crate) fn parted<'a, G: Drop>(
    alloc: Global,
    worker_threads: Vec<WorkerThread<'a, G>>,
) -> Result<(Vec<Worker<'a>>, Vec<EventLoop>, Ended), Halt>
    ensures workers { IfOk result
        (λ parts. parts.0.items ≡ workers_of worker_threads.entry.items) }
    ensures event_loops { IfOk result
        (λ parts. parts.1.items ≡ event_loops_of worker_threads.entry.items) }
    ensures ended { IfOk result (λ parts. All (EndsWith parts.2) worker_threads.entry.items) }
{
    let mut workers = Vec::with_capacity(alloc, worker_threads.len())?;
    let mut event_loops = Vec::with_capacity(alloc, worker_threads.len())?;
    let mut ended = Ended::Done;
    for worker_thread in worker_threads {
        let WorkerThread {
            worker,
            gate: _,
            event_loop,
            outcome,
        } = worker_thread;
        ended = ended.or_full(outcome?);
        workers.push(worker)?;
        event_loops.push(event_loop)?;
    }
    Ok((workers, event_loops, ended))
}

/// Returns these workers of the log, in order, once they have found one run of it that has all that
/// they have done.
pub(crate) fn on_one_run<'a>(log: &Log, workers: Vec<Worker<'a>>) -> Vec<Worker<'a>>
    requires { AreOfLog log.now workers.items }
    ensures later { AllZip CatchesUp workers.entry.items result.items }
    ensures run { AreOnOneRun result.items }
{
    let mut workers = workers;
    find_run_of_all(log, &mut workers);
    workers
}
