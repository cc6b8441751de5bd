//! Which connections wait to be served, and whose turn it is.
ghost use Rattle.std.specs.Prelude.{◌≡◌, ◌+◌, ◌-◌, ◌^◌, ◌↔◌, IfOk, IsTrue, MatchOption, None, OnOk, Some, false, length, min, replicate, unwrap_or};
ghost use Rattle.fair_queue.specs.Turns.{IsFair, IsIdle};
ghost use Rattle.mc_connections.specs.Waiting.{ComesToWait, EndsRound, IsNoted, IsRoundOver, TakesTurn, WaitsInLine, cost_of, short_at, short_with};
ghost use Rattle.mc_connections.specs.declared.connections.TheConstants.{MOST_OF_ALL};
ghost use Rattle.mc_connections.specs.declared.waiting.TheConstants.{QUANTUM};

use crate::connections::MOST_OF_ALL;
use fair_queue::FairQueue;
use std::alloc::{AllocError, Global};
use std::mem;

/// What a tenant's connections may spend in their turn, in bytes that their streams give and take;
/// serving one of them, and each of its requests, counts as some.
const QUANTUM: u64 = 20_480;

/// How much is spent in a round at least before it ends with a turn, while anybody waits.
const ROUND: u64 = 10_240;

/// As how many bytes it counts to serve a connection: what the system's calls cost.
const BYTES_OF_A_SERVE: u64 = 4_096;

/// As how many bytes a request counts that gets a reply, quiet or not.
const BYTES_OF_A_REQUEST: u64 = 1_024;

/// A connection that is to be served.
#[derive(Clone, Copy)]
pub(crate) struct Next {
    pub key: usize,
    /// Whether a read that fills less than its buffer is the last one.
    pub stops_short: bool,
}

/// The keys of the connections that wait to be served: each tenant's in its turn, and
/// administrators' in one of their own, however many of them there are.
#[derive(Drop)]
pub(crate) struct Waiting {
    queue: FairQueue,
    // By key: whether the connection waits, and if so its `stops_short`.
    waits: Vec<Option<bool>>,
    // What serving the last connection has cost.
    spent: u64,
    // What those served since `begin_round` have cost.
    spent_in_round: u64,
}

impl Waiting {
    /// Returns a queue in which nobody waits, for this many tenants.
    ///
    /// Returns an error if memory runs out.
    pub(crate) fn new(alloc: Global, tenants: usize) -> Result<Waiting, AllocError>
        ensures flows { IfOk result
            (λ waiting. length waiting.queue.flows ≡ min (tenants + 1) (2 ^ 64 - 1)) }
        ensures idle { IfOk result (λ waiting. IsIdle waiting.queue) }
        ensures fair { IfOk result (λ waiting. IsFair waiting.queue) }
        ensures quantum { IfOk result (λ waiting. waiting.queue.quantum ≡ QUANTUM) }
        ensures none { IfOk result
            (λ waiting. waiting.waits.items ≡ replicate MOST_OF_ALL None) }
    {
        let flows = tenants.saturating_add(1);
        Ok(Waiting {
            queue: FairQueue::new(alloc, flows, QUANTUM, MOST_OF_ALL)?,
            waits: vec![in alloc; None; MOST_OF_ALL]?,
            spent: 0,
            spent_in_round: 0,
        })
    }

    /// Returns whether no connection waits.
    pub(crate) fn is_empty(&self) -> bool
        ensures { IsTrue result ↔ IsIdle self.now.queue }
    {
        self.queue.is_empty()
    }

    /// Lets the connection under a key wait, behind those of its tenant, or of the administrators,
    /// that wait already; one that does stays where it is.
    ///
    /// Returns an error if memory runs out.
    pub(crate) fn push(&mut self, tenant: Option<usize>, next: Next) -> Result<(), AllocError>
        ensures waits { OnOk result (ComesToWait tenant next.key self.old self.new) }
        ensures noted { IsNoted next.key
            (Some (short_with (short_at self.old next.key) next.stops_short)) self.old self.new }
        ensures spent { self.new.spent ≡ self.old.spent }
        ensures round { self.new.spent_in_round ≡ self.old.spent_in_round }
    {
        let Some(waits) = self.waits.get_mut(next.key) else {
            return Ok(());
        };
        if let Some(stops_short) = waits {
            *stops_short = *stops_short && next.stops_short;
            return Ok(());
        }
        *waits = Some(next.stops_short);
        let last = self.queue.flows() - 1;
        self.queue.push(tenant.unwrap_or(last).min(last), next.key)
    }

    /// Begins a round, of which nothing is spent yet.
    pub(crate) fn begin_round(&mut self)
        ensures { self.new ≡ record self.old { spent_in_round = 0 } }
    {
        self.spent_in_round = 0;
    }

    /// Notes that the connection under a key doesn't wait any more. Returns its `stops_short`.
    fn take_out(&mut self, key: usize) -> bool
        ensures waits { ¬ (WaitsInLine self.new key) }
        ensures noted { IsNoted key None self.old self.new }
        ensures short { result ≡ unwrap_or (short_at self.old key) false }
        ensures queue { self.new.queue ≡ self.old.queue }
        ensures spent { self.new.spent ≡ self.old.spent }
        ensures round { self.new.spent_in_round ≡ self.old.spent_in_round }
    {
        match self.waits.get_mut(key) {
            Some(waits) => waits.take().unwrap_or(false),
            None => false,
        }
    }

    /// Returns whether the round is over: `ROUND` is spent in it, and the turn of the one that was
    /// served last ends.
    fn is_round_over(&self) -> bool
        ensures { IsTrue result ↔ IsRoundOver self.now }
    {
        self.spent_in_round >= ROUND && self.queue.turn_ends(self.spent)
    }

    /// Takes out the connection that is to be served next, or `None` if nobody waits or the round
    /// is over.
    pub(crate) fn pop(&mut self) -> Option<Next>
        ensures takes { MatchOption result (EndsRound self.old self.new)
            (λ next. ¬ (IsRoundOver self.old) × TakesTurn next.key self.old self.new) }
        ensures noted { MatchOption result (self.new.waits.items ≡ self.old.waits.items)
            (λ next. IsNoted next.key None self.old self.new
            × (next.stops_short ≡ unwrap_or (short_at self.old next.key) false)) }
        ensures round { self.new.spent_in_round ≡ self.old.spent_in_round }
    {
        if self.is_round_over() {
            return None;
        }
        let spent = mem::replace(&mut self.spent, 0);
        match self.queue.next(spent) {
            Some(ready) => Some(Next {
                key: ready.key,
                stops_short: self.take_out(ready.key),
            }),
            None => None,
        }
    }

    /// Notes what the connection that was taken out last has cost: this many requests that got a
    /// reply, and bytes that its stream gave and took.
    pub(crate) fn charge(&mut self, requests: u64, bytes: u64)
        ensures queue { self.new.queue ≡ self.old.queue }
        ensures waits { self.new.waits.items ≡ self.old.waits.items }
        ensures spent { self.new.spent ≡ cost_of requests bytes }
        ensures round { self.new.spent_in_round
            ≡ min (self.old.spent_in_round + self.new.spent) (2 ^ 64 - 1) }
    {
        self.spent = BYTES_OF_A_SERVE
            .saturating_add(requests.saturating_mul(BYTES_OF_A_REQUEST))
            .saturating_add(bytes);
        self.spent_in_round = self.spent_in_round.saturating_add(self.spent);
    }
}
