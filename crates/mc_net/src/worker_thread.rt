//! Workers with their event loops.
ghost use Rattle.std.specs.Prelude.{◌≡◌, length};
ghost use Rattle.uc_worker.specs.Worker.{tenants_of};

use crate::ended::Ended;
use crate::event_loop::EventLoop;
use crate::halt::Halt;
use mc_connections::PastConnections;
use uc_worker::Worker;

/// A worker with its gate and its event loop, and how the loop ended.
#[derive(Drop)]
pub(crate) struct WorkerThread<'a, G> {
    pub(crate) worker: Worker<'a>,
    pub(crate) gate: G,
    pub(crate) event_loop: EventLoop,
    pub(crate) outcome: Result<Ended, Halt>,
    ghost tenants: { event_loop.ready.connections.tenants ≡ length (tenants_of worker) },
}

/// A worker that has come back from its loop, with the connections that it has served.
#[derive(Drop)]
pub struct Returned<'a> {
    pub worker: Worker<'a>,
    /// These connections, all of which have ended; for contracts only.
    pub ended: PastConnections,
}
