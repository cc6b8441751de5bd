//! What the lines so far say, and whether another line may follow them.
ghost use Rattle.std.specs.Prelude.{◌≡◌, List, [], Some, OnOk, IsOkUnless};
ghost use Rattle.mc_schedules.specs.Draft.{IsDraftOf, AddsLine};
ghost use Rattle.mc_schedules.specs.Place.{Statement, cores, is_in_place, items, tenants};
ghost use Rattle.mc_schedules.specs.Schedule.{listed, read_as};

use crate::line::Said;
use crate::schedule::{Item, Reading, Schedule};
use mc_model::id::TENANTS;
use mc_model::{Fault, Limits};
use std::alloc::Global;

/// What the lines so far say.
#[derive(Debug, Drop)]
pub struct Draft {
    /// The number of workers and places, once the core line has been read.
    core: Option<(u64, u64)>,
    tenants: Vec<Limits>,
    items: Vec<Item>,
}

impl Draft {
    /// Returns the draft before the first line. Allocates nothing.
    pub fn new(alloc: Global) -> Draft
        ensures { IsDraftOf result [] }
    {
        Draft {
            core: None,
            tenants: Vec::new(alloc),
            items: Vec::new(alloc),
        }
    }

    /// Returns whether a line that says this may follow.
    pub fn has_place_for(&self, said: &Said) -> bool
        ensures { (before : List Statement) → IsDraftOf self.now before →
            result ≡ is_in_place before (Some said.now) }
    {
        match said {
            Said::Nothing => true,
            Said::Core(_, _) => self.core.is_none(),
            Said::Tenant(_) => {
                self.core.is_some()
                    && self.items.is_empty()
                    && self.tenants.len() < usize::from(TENANTS)
            }
            Said::ToDo(_) => !self.tenants.is_empty(),
        }
    }

    /// Adds what the next line says, which must be in its place. Returns `Memory` if an allocation
    /// fails.
    pub fn add(&mut self, line: u64, said: Said) -> Result<(), Fault>
        ensures draft { OnOk result (AddsLine self.old (line, Some said) self.new) }
        ensures memory { IsOkUnless result Fault.Memory }
    {
        match said {
            Said::Nothing => {}
            Said::Core(workers, places) => self.core = Some((workers, places)),
            Said::Tenant(limits) => self.tenants.push(limits)?,
            Said::ToDo(action) => self.items.push(Item { line, action })?,
        }
        Ok(())
    }

    /// Returns what all lines read as.
    pub fn finish(self) -> Reading
        ensures { (before : List Statement) → IsDraftOf self before →
            read_as result ≡ listed (cores before) (tenants before) (items before) }
    {
        let Self {
            core,
            tenants,
            items,
        } = self;
        match core {
            Some((workers, places)) if !tenants.is_empty() => Reading::Schedule(Schedule {
                workers,
                places,
                tenants,
                items,
            }),
            _ => Reading::Bad(0),
        }
    }
}
