//! Opening a worker.
ghost use Rattle.std.specs.Prelude.{◌≡◌, [], length, IfOk, IsOkUnless};
ghost use Rattle.mc_model.specs.declared.fault.Fault.TheVariants as faults;
ghost use Rattle.mc_model.specs.declared.shown.Phase.TheVariants as phase;
ghost use Rattle.mc_model.specs.Replay.{HaveRoom, empty_tables};
ghost use Rattle.uc_log.specs.Passes.{IsOf, learned, seat, state};
ghost use Rattle.uc_worker.specs.Worker.{history_of, openings_of, seat_of};

use crate::turning_over::Base;
use crate::worker::Worker;
use mc_items::Hashing;
use mc_model::Fault;
use mc_replica::Replica;
use std::alloc::Global;
use uc_log::{Log, Pass};

impl<'a> Worker<'a> {
    /// Opens the worker with this pass of the log, with an empty table for each tenant of the log's
    /// settings, which hashes keys so. Each table that is opened over one of these later hashes
    /// them so too.
    ///
    /// Returns `Memory` if memory runs out.
    pub fn open(
        alloc: Global,
        hashing: Hashing,
        log: &'a Log,
        pass: Pass,
    ) -> Result<Worker<'a>, Fault>
        requires of { IsOf log.now pass }
        requires idle { (state pass).phase ≡ phase.Idle }
        requires new { learned pass ≡ [] }
        ensures log { IfOk result (λ worker. worker.log.now ≡ log.now) }
        ensures seat { IfOk result (λ worker. seat_of worker ≡ seat pass) }
        ensures history { IfOk result (λ worker. history_of worker ≡ []) }
        ensures openings { IfOk result
            (λ worker. openings_of worker ≡ empty_tables log.now.settings.tenants) }
        ensures memory { IsOkUnless result faults.Memory }
    {
        let settings = log.settings();
        let places = settings.places();
        let replica = Replica::open(alloc, hashing, pass.worker(), settings.tenants(), places)?;
        Ok(Worker {
            log,
            alloc,
            pass,
            replica,
        })
    }

    /// Opens the worker with this pass of the log, over the tables of this base: its own tables
    /// borrow their items from them, and the log's settings only say how many tenants there are.
    ///
    /// Returns `Memory` if memory runs out.
    pub fn open_over(
        alloc: Global,
        log: &'a Log,
        pass: Pass,
        base: &'a Base,
    ) -> Result<Worker<'a>, Fault>
        requires of { IsOf log.now pass }
        requires idle { (state pass).phase ≡ phase.Idle }
        requires new { learned pass ≡ [] }
        requires tenants { length base.now.tables.items ≡ length log.now.settings.tenants }
        requires room { HaveRoom base.now.tables.items log.now.settings.places }
        ensures log { IfOk result (λ worker. worker.log.now ≡ log.now) }
        ensures seat { IfOk result (λ worker. seat_of worker ≡ seat pass) }
        ensures history { IfOk result (λ worker. history_of worker ≡ []) }
        ensures openings { IfOk result (λ worker. openings_of worker ≡ base.now.tables.items) }
        ensures memory { IsOkUnless result faults.Memory }
    {
        let places = log.settings().places();
        let replica = Replica::open_over(alloc, pass.worker(), base.tables(), places)?;
        Ok(Worker {
            log,
            alloc,
            pass,
            replica,
        })
    }
}
