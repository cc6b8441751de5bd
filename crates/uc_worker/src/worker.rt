//! A worker.
ghost use Rattle.std.specs.Prelude.{◌≡◌, ◌≤◌, length};
ghost use Rattle.uc_log.specs.Passes.{IsOf, learned, own_sightings, seat, state, worker};
ghost use Rattle.uc_worker.specs.Histories.{Follows, KnowsItsOwn, LacksAtMostOne};
ghost use Rattle.uc_worker.specs.Steps.{Rests};

use mc_model::Reply;
use mc_replica::Replica;
use std::alloc::Global;
use uc_log::{Log, Pass};

/// A worker of a log: its pass, and its replica of the tables, in which it has replayed some of the
/// places that it has learned.
#[derive(Drop)]
pub struct Worker<'a> {
    pub(crate) log: &'a Log,
    pub(crate) alloc: Global,
    pub(crate) pass: Pass,
    pub(crate) replica: Replica<'a>,
    ghost of: { IsOf log.now pass },
    ghost whose: { replica.worker ≡ worker pass },
    ghost opened: { (replica.places ≡ log.now.settings.places) × (length replica.openings ≡ length log.now.settings.tenants) },
    ghost short: { length replica.history ≤ length (learned pass) },
    ghost follows: { Follows log.now replica.history (learned pass) },
    ghost lacks: { LacksAtMostOne (seat pass) replica.history },
    ghost own: { KnowsItsOwn (length log.now.settings.tenants) (worker pass) (own_sightings pass) replica.history },
    ghost rests: { Rests (state pass).phase },
}

/// The answer to a command.
#[derive(Debug, PartialEq, Eq, Drop)]
pub struct Answer<'a> {
    /// The place of the log where the command stands.
    pub place: usize,
    pub reply: Reply<'a>,
    /// How many proposals were made for it: at most one more than there are workers.
    pub proposals: u64,
}
