//! The core: its state, its opening, and what it shows.
ghost use Rattle.std.specs.Global.{Vec};
ghost use Rattle.std.specs.Option.{option_and_then, option_copied};
ghost use Rattle.std.specs.Prelude.{◌≡◌, ◌≤◌, length, slice_get, IfOk, IsOkUnless};
ghost use Rattle.mc_model.specs.declared.id.TheConstants.{WORKERS};
ghost use Rattle.mc_model.specs.declared.request.Entry.{Entry};
ghost use Rattle.uc_core.specs.Core.{entry_under, new_core};
ghost use Rattle.uc_core.specs.Kept.{AreEmpty, AreFresh};
ghost use Rattle.uc_core.specs.Run.{IsReachedCore};

use crate::worker::Worker;
use mc_items::Items;
use mc_model::{Entry, Fault, Limits, Phase, Settings, TenantId, Ticket, WorkerId};
use std::alloc::Global;
use std::marker::Model;

/// A worker's observable state: its phase and progress.
#[derive(Clone, Copy, Debug, PartialEq, Eq)]
pub struct Progress {
    pub phase: Phase,
    /// The number of commands that it has announced.
    pub announced: u64,
    /// The number of places that it has learned.
    pub learned: u64,
    /// The number of places that it has replayed.
    pub replayed: u64,
    /// The first place that it found empty since it announced its latest command.
    pub mark: Option<u64>,
    /// The ticket that it looked up for its next place.
    pub look: Option<Ticket>,
    /// The number of proposals it has made for its latest command.
    pub proposals: u64,
}

/// A log of all tenants' commands that several workers share, with the workers' steps taken one at
/// a time.
#[derive(Debug, Drop)]
pub struct Core {
    pub(crate) places: u64,
    /// The quotas that each tenant's tables are opened with.
    pub(crate) openings: Vec<Limits>,
    /// The tickets of the decided places. Has capacity for all places from the opening on.
    pub(crate) decided: Vec<Ticket>,
    /// What each worker has announced, in order.
    pub(crate) entries: Vec<Vec<Entry>>,
    pub(crate) workers: Vec<Worker>,
}

impl Model for Core {
    ghost use Rattle.uc_core.specs.Core.{CoreState, coded_core};

    ghost Value = { CoreState };

    ghost coded = { coded_core };

    ghost use Rattle.uc_core.specs.Fields.{IsCore, core_of};

    ghost view = { core_of };

    ghost invariant = { IsCore };
}

impl Core {
    ghost use Rattle.uc_core.specs.Showing.{progress_by, table_by};

    /// Returns the core before any event, with these settings. Capacity for all places is reserved
    /// here, once. Returns `Memory` if an allocation fails.
    pub fn new(alloc: Global, settings: &Settings) -> Result<Core, Fault>
        ensures state { IfOk result (λ core. core ≡ new_core settings.now) }
        ensures memory { IsOkUnless result Fault.Memory }
    {
        let decided = Vec::with_capacity(alloc, settings.places() as usize)?;
        let openings = Vec::from_slice(alloc, settings.tenants())?;
        let count = settings.workers() as usize;
        let entries = no_entries(alloc, count)?;
        let workers = new_workers(alloc, count, settings.tenants())?;
        Ok(Core {
            places: settings.places(),
            openings,
            decided,
            entries,
            workers,
        })
    }

    /// Returns the number of workers.
    pub fn workers(&self) -> usize
        ensures count { result ≡ length self.now.shown.workers }
        ensures few { result ≤ WORKERS }
    {
        self.workers.len()
    }

    /// Returns the number of places in the log.
    pub fn places(&self) -> u64
        ensures places { result ≡ self.now.places }

        // Some run has led to each core.
        ensures reached { IsReachedCore self.now }
    {
        let Core { places, .. } = self;
        *places
    }

    /// Returns the quotas that each tenant's tables were opened with, indexed by tenant number.
    pub fn openings(&self) -> &[Limits]
        ensures { result.now ≡ self.now.openings }
    {
        self.openings.as_slice()
    }

    /// Returns the tickets of the decided places, in log order.
    pub fn decided(&self) -> &[Ticket]
        ensures { result.now ≡ self.now.shown.decided }
    {
        self.decided.as_slice()
    }

    /// Returns the entry that was announced under a ticket, if any.
    pub fn entry(&self, ticket: Ticket) -> Option<&Entry>
        ensures { option_copied result ≡ entry_under self.now ticket }
    {
        announced_under(&self.entries, ticket)
    }

    /// Returns the worker's progress, if there is a worker with this number.
    pub fn progress(&self, worker: WorkerId) -> Option<Progress>
        ensures { result ≡ progress_by self.now worker }
    {
        let worker = self.workers.get(usize::from(worker.number()))?;
        Some(Progress {
            phase: worker.phase,
            announced: worker.announced,
            learned: worker.learned as u64,
            replayed: worker.replayed as u64,
            mark: worker.mark,
            look: worker.look,
            proposals: worker.proposals,
        })
    }

    /// Returns the tenant's table as the worker has replayed it, if there are such a worker and
    /// tenant.
    pub fn table(&self, worker: WorkerId, tenant: TenantId) -> Option<&Items>
        ensures { option_copied result ≡ table_by self.now worker tenant }
    {
        let worker = self.workers.get(usize::from(worker.number()))?;
        worker.tables.get(usize::from(tenant.number()))
    }
}

/// Returns the entry that was announced under the ticket, among what each worker announced.
pub(crate) fn announced_under(entries: &[Vec<Entry>], ticket: Ticket) -> Option<&Entry>
    ensures { option_copied result
        ≡ option_and_then (λ (announced : Vec Entry). slice_get announced.items ticket.number)
        (slice_get entries.now ticket.worker) }
{
    let announced = entries.get(usize::from(ticket.worker.number()))?;
    announced.get(ticket.number as usize)
}

/// Returns `count` workers before any event. Returns `Memory` if an allocation fails.
fn new_workers(alloc: Global, count: usize, openings: &[Limits]) -> Result<Vec<Worker>, Fault>
    ensures fresh { IfOk result (λ workers. AreFresh count openings.now workers.items) }
    ensures count { IfOk result (λ workers. length workers.items ≡ count) }
    ensures memory { IsOkUnless result Fault.Memory }
{
    let mut workers = Vec::with_capacity(alloc, count)?;
    for _ in 0..count {
        workers.push(Worker::new(alloc, count, openings)?)?;
    }
    Ok(workers)
}

/// Returns `count` empty lists of entries. Returns `Memory` if an allocation fails.
fn no_entries(alloc: Global, count: usize) -> Result<Vec<Vec<Entry>>, Fault>
    ensures none { IfOk result (λ entries. AreEmpty entries.items) }
    ensures count { IfOk result (λ entries. length entries.items ≡ count) }
    ensures memory { IsOkUnless result Fault.Memory }
{
    let mut entries = Vec::with_capacity(alloc, count)?;
    for _ in 0..count {
        entries.push(Vec::new(alloc))?;
    }
    Ok(entries)
}
