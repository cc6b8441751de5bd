//! The acceptor and the workers, each in a thread of its own.
ghost use Rattle.std.specs.List.{AllZip};
ghost use Rattle.std.specs.Prelude.{◌≡◌, ◌<◌, All, IfErr, IfOk, length, map, vec_len};
ghost use Rattle.uc_worker.specs.AllWorkers.{AreOnOneRun};
ghost use Rattle.uc_worker.specs.Going.{Continues};
ghost use Rattle.mc_conn.specs.Owed.{IsAmong};
ghost use Rattle.mc_net.specs.Beginning.{HaltsServing};
ghost use Rattle.mc_net.specs.Returning.{HasAnswered, HasBeenAsked, HasServed, returned_worker};

use crate::beginning::Begin;
use crate::front::{Front, FrontSettings};
use crate::listener::BoundListener;
use crate::worker_thread::Returned;
use mc_conn::Role;
use mc_model::Fault;
use std::alloc::{AllocError, Global};
use std::net::Net;
use std::sync::Wait;
use std::thread::Threads;
use uc_log::Log;
use uc_worker::{Gate, Worker};

/// Returns the workers of those that came back, in order.
///
/// Returns an error if memory runs out.
pub fn into_workers<'a>(
    alloc: Global,
    back: Vec<Returned<'a>>,
) -> Result<Vec<Worker<'a>>, AllocError>
    ensures { IfOk result (λ workers. workers.items ≡ map returned_worker back.entry.items) }
{
    let mut workers = Vec::with_capacity(alloc, back.len())?;
    for Returned { worker, ended: _ } in back {
        workers.push(worker)?;
    }
    Ok(workers)
}

/// Serves these listeners with these workers of the log, each in a thread of its own if one can be
/// made.
///
/// A stream is a connection of its listener's role, a tenant or an administrator, and streams go to
/// the workers round-robin. With `connections` above 0, serving ends once this many streams of
/// tenants were accepted and every connection has ended: the workers are returned in their order,
/// each with the connections that it has served. With 0 it doesn't end. A fault of a connection
/// ends that one alone.
///
/// When every worker's loop has begun and before anything is accepted, `begin` is called, once,
/// with the state. Returns `Memory` if a loop doesn't begin within about ten seconds, for example
/// because the system refuses its thread, or if memory runs out outside a connection and the
/// queues. Returns `Input` if a poll or its waker can't be made or fails, or a listener can't be
/// registered, and the fault of `begin` if that returns one. All loops have ended then.
///
/// Which streams are accepted, which worker gets each and when serving ends are in no clause: these
/// say what workers and connections have come to where it ends without a fault.
pub fn serve<'a, R: Threads + Wait + Net + Sync, G: Gate + Send + Drop, B: Begin<O>, O>(
    rt: &R,
    alloc: Global,
    log: &'a Log,
    workers: Vec<Worker<'a>>,
    listeners: Vec<(Role, BoundListener)>,
    connections: u64,
    gates: Vec<G>,
    begin: &B,
    state: &mut O,
) -> Result<Vec<Returned<'a>>, Fault>
    requires some { (0 < vec_len workers) × (0 < vec_len listeners) }
    requires logs { All (λ worker. worker.log.now ≡ log.now) workers.items }
    requires roles { All
        (λ listener. IsAmong listener.0 (length log.now.settings.tenants)) listeners.items }
    requires gates { vec_len gates ≡ vec_len workers }
    // Each worker that comes back is the same one, later on.
    ensures back { IfOk result
        (λ back. AllZip Continues workers.entry.items (map returned_worker back.items)) }
    // It admitted arrivals and served connections until none was left.
    ensures served { IfOk result (λ back. AllZip HasServed workers.entry.items back.items) }
    // Each connection that it admitted has ended. The connection was sent what it is owed or, after
    // a fault, a prefix of that and of the fault's words, and was answered by commands that it has
    // asked for.
    ensures answered { IfOk result
        (λ back. AllZip HasAnswered workers.entry.items back.items) }
    // Each command that it announced is one request of one of these, in order, and none twice.
    ensures asked { IfOk result (λ back. AllZip HasBeenAsked workers.entry.items back.items) }
    // All workers are still of the log, so that they can meet.
    ensures logs { IfOk result
        (λ back. All (λ worker. worker.log.now ≡ log.entry.now) (map returned_worker back.items)) }
    // One run of the log, from its opening, has all their calls, each worker's in order, and no
    // other events of theirs.
    ensures run { IfOk result (λ back. AreOnOneRun (map returned_worker back.items)) }
    // It began with the state.
    ensures begun { IfOk result (λ _. B.done begin.now state.old state.new) }
    // The network failed before it began with the state, or afterwards; or a fault stopped that.
    ensures faults { IfErr result
        (HaltsServing (B.done begin.now) (B.stopped begin.now) state.old state.new) }
{
    // The laws from which the clauses on what was answered and asked follow.
    mc_connections::laws::work_adds_up();
    mc_connections::laws::commands_answer_who_asked();
    mc_connections::laws::commands_are_asked_for_over_logs();
    // No tenant has a reserve, the only log is closed at its last place, and nobody looks on.
    let settings = FrontSettings {
        workers: workers.len(),
        tenants: log.settings().tenants().len(),
        reserve: 0,
        log_bytes: u64::MAX,
        connections,
    };
    let mut front = Front::new(rt, alloc, settings, listeners, Vec::new(alloc))?;
    let (workers, _) = front.serve_generation(rt, alloc, log, workers, gates, true, begin, state)?;
    Ok(front.into_returned(alloc, workers)?)
}
