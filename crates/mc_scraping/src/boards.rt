//! What a server shows, as it is read for a scrape.
ghost use Rattle.std.specs.Prelude.{IsOkUnless};

use crate::memory::resident_bytes;
use mc_counters::{Board, LogBoard};
use mc_metrics::{ServerShown, Shown, Snapshot, snapshot_of};
use mc_model::{Fault, Name, TenantId};
use std::alloc::{AllocError, Global};
use std::fs::Files;

/// The boards of a server, with its tenants' names in the tenants' order.
#[derive(Drop)]
pub struct Boards {
    pub names: Vec<Name>,
    /// How many places each log has.
    pub places: u64,
    pub logs: LogBoard,
    /// By the workers' numbers.
    pub workers: Vec<Board>,
}

/// Returns what a worker shows, of itself and of this many tenants.
///
/// Returns an error if memory runs out.
fn shown_at(alloc: Global, board: &Board, tenants: usize) -> Result<Shown, AllocError> {
    let mut shown = Vec::with_capacity(alloc, tenants)?;
    let mut tallies = Vec::with_capacity(alloc, tenants)?;
    for number in 0..tenants {
        let Some(tenant) = u8::try_from(number).ok().and_then(TenantId::new) else {
            break;
        };
        shown.push(board.tenant(tenant))?;
        tallies.push(board.tally(tenant))?;
    }
    Ok(Shown {
        worker: board.worker(),
        tenants: shown,
        tallies,
    })
}

impl Boards {
    /// Returns the numbers that are shown now.
    ///
    /// Returns `Memory` if memory runs out.
    pub fn snapshot<R: Files>(&self, rt: &R, alloc: Global) -> Result<Snapshot, Fault>
        ensures { IsOkUnless result Fault.Memory }
    {
        let tenants = self.names.len();
        let mut workers = Vec::with_capacity(alloc, self.workers.len())?;
        for board in &self.workers {
            workers.push(shown_at(alloc, board, tenants)?)?;
        }
        let shown = ServerShown {
            places: self.places,
            logs: self.logs.logs(),
            workers,
            resident_bytes: resident_bytes(rt),
        };
        snapshot_of(alloc, &self.names, &shown)
    }
}
