//! How a worker has answered the requests of each tenant.
ghost use Rattle.mc_connections.specs.Tallying.{CountsNothing, HasNoNewTally, IsTallyAt, tally_place};
ghost use Rattle.std.specs.Prelude.{◌≡◌, ◌-◌, ◌<◌, ◌+◌, ◌^◌, All, IfOk, MatchOption, length, map, min};

use mc_counters::Tally;
use std::alloc::{AllocError, Global};

/// The tally of a tenant, or of administrators.
#[derive(Clone, Copy)]
pub(crate) struct OneTally {
    pub tally: Tally,
    /// Whether a connection was served since the tally was last taken.
    pub is_new: bool,
}

/// A tally for each tenant, by the tenants' numbers, and one of administrators after them.
#[derive(Drop)]
pub struct Tallies {
    pub(crate) all: Vec<OneTally>,
    ghost some: { 0 < length all.items },
}

impl Tallies {
    /// Returns the tallies of no request, for this many tenants.
    ///
    /// Returns an error if memory runs out.
    pub(crate) fn new(alloc: Global, tenants: usize) -> Result<Tallies, AllocError>
        ensures count { IfOk result
            (λ tallies. length tallies.all.items ≡ min (tenants + 1) (2 ^ 64 - 1)) }
        ensures fresh { IfOk result (λ tallies. All CountsNothing tallies.all.items) }
    {
        let none = OneTally {
            tally: Tally::new(),
            is_new: false,
        };
        let all = vec![in alloc; none; tenants.saturating_add(1)]?;
        Ok(Tallies { all })
    }

    /// Returns where the tally of a tenant is, or of administrators if there is none.
    pub(crate) fn place_of(&self, tenant: Option<usize>) -> usize
        ensures place { result ≡ tally_place (length self.now.all.items - 1) tenant }
        ensures within { result < length self.now.all.items }
    {
        let last = self.all.len() - 1;
        match tenant {
            Some(number) => number.min(last),
            None => last,
        }
    }

    /// Returns the tally of a tenant, if a connection of that tenant was served since this was last
    /// asked for.
    pub fn take_new(&mut self, tenant: usize) -> Option<Tally>
        ensures taken { MatchOption result (HasNoNewTally tenant self.old.all.items)
            (λ tally. IsTallyAt tenant self.old.all.items tally) }
        ensures old { HasNoNewTally tenant self.new.all.items }
        ensures kept { map (λ one. one.tally) self.new.all.items
            ≡ map (λ one. one.tally) self.old.all.items }
    {
        let one = self.all.get_mut(tenant)?;
        if !one.is_new {
            return None;
        }
        one.is_new = false;
        Some(one.tally)
    }
}
