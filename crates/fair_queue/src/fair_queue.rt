//! A queue of keys in flows, each of which is served in its turn.
ghost use Rattle.std.specs.Prelude.{◌≡◌, ◌<◌, ◌↔◌, ℕ, [], IfOk, IsTrue, MatchOption, OnErr, OnOk, length};
ghost use Rattle.fair_queue.specs.Turns.{Charges, ComesAfter, GivesFirst, IsFair, IsFirstReady, IsIdle, IsNextTurn, IsPushed, QueueState, TurnGoesOn, flow_at};

use crate::flow::Flow;
use std::alloc::{AllocError, Global};
use std::marker::Model;

/// Keys that are ready, each in a flow, and whose turn it is.
#[derive(Drop)]
pub struct FairQueue {
    quantum: u64,
    turn: usize,
    flows: Vec<Flow>,
}

impl Model for FairQueue {
    ghost use Rattle.fair_queue.specs.Turns.{IsFair, QueueState};

    ghost Value = { QueueState };

    ghost view = { λ queue. record { quantum = queue.quantum; turn = queue.turn; flows = queue.flows.items } };

    ghost invariant = { λ queue. IsFair (record { quantum = queue.quantum; turn = queue.turn; flows = queue.flows.items }) };
}

/// A key that is to be served, and its flow.
#[derive(Clone, Copy, Debug, PartialEq, Eq)]
pub struct Ready {
    pub flow: usize,
    pub key: usize,
}

/// Returns the flow that has its turn after this one, of so many.
fn next_turn(count: usize, turn: usize) -> usize
    requires { turn < count }
    ensures { IsNextTurn count turn result }
{
    if turn + 1 < count { turn + 1 } else { 0 }
}

/// Returns the flow that has its turn after that many others, from this one on.
fn flow_after(count: usize, turn: usize, others: usize) -> usize
    requires turn { turn < count }
    requires others { others < count }
    ensures { ComesAfter count turn others result }
{
    let left = count - turn;
    if others < left {
        turn + others
    } else {
        others - left
    }
}

impl FairQueue {
    /// Returns a queue of this many flows, in which nothing waits, with room for `keys` keys in
    /// each. A flow may spend a quantum in a turn.
    ///
    /// Returns an error if memory runs out.
    pub fn new(
        alloc: Global,
        flows: usize,
        quantum: u64,
        keys: usize,
    ) -> Result<FairQueue, AllocError>
        requires some { 0 < flows }
        requires quantum { 0 < quantum }
        ensures count { IfOk result (λ queue. length queue.flows ≡ flows) }
        ensures quantum { IfOk result (λ queue. queue.quantum ≡ quantum) }
        ensures idle { IfOk result IsIdle }
        ensures fair { IfOk result IsFair }
    {
        let mut all = Vec::with_capacity(alloc, flows)?;
        for _ in 0..flows {
            all.push(Flow::new(alloc, quantum, keys)?)?;
        }
        Ok(FairQueue {
            quantum,
            turn: 0,
            flows: all,
        })
    }

    /// Returns how many flows there are: at least one.
    pub fn flows(&self) -> usize
        ensures count { result ≡ length self.now.flows }
        ensures some { 0 < result }
    {
        self.flows.len()
    }

    /// Returns whether nothing waits in any flow.
    pub fn is_empty(&self) -> bool
        ensures { IsTrue result ↔ IsIdle self.now }
    {
        self.first_ready().is_none()
    }

    /// Returns whether the turn of the flow that has it ends: nothing more waits there, or its
    /// quantum is used up once `spent` is charged to it, what serving the last key has cost.
    pub fn turn_ends(&self, spent: u64) -> bool
        ensures { IsTrue result ↔ ¬ (TurnGoesOn spent (flow_at self.now self.now.turn)) }
    {
        !self.flows[self.turn].goes_on(spent)
    }

    /// Puts a key behind those that wait in its flow.
    ///
    /// Returns an error if memory runs out.
    pub fn push(&mut self, flow: usize, key: usize) -> Result<(), AllocError>
        requires { flow < length self.old.flows }
        ensures pushed { OnOk result (IsPushed flow key self.old self.new) }
        ensures unchanged { OnErr result (self.new ≡ self.old) }
        ensures fair { IsFair self.new }
    {
        self.flows[flow].push(key)
    }

    /// Charges to the flow that has its turn what was spent in it.
    fn charge(&mut self, spent: u64)
        ensures charges { Charges spent self.old self.new }
        ensures fair { IsFair self.new }
    {
        let flow = &mut self.flows[self.turn];
        if flow.goes_on(spent) {
            flow.charge(spent);
        } else {
            flow.renew(self.quantum, spent);
            self.turn = next_turn(self.flows.len(), self.turn);
        }
    }

    /// Returns the next flow in which something waits, from the one that has its turn on.
    fn first_ready(&self) -> Option<usize>
        ensures { MatchOption result (IsIdle self.now) (IsFirstReady self.now) }
    {
        let count = self.flows.len();
        for others in 0..count {
            let flow = flow_after(count, self.turn, others);
            if !self.flows[flow].is_empty() {
                return Some(flow);
            }
        }
        None
    }

    /// Takes the first key of the next flow in which something waits; the flow has its turn then.
    fn give(&mut self, flow: usize) -> Ready
        requires { IsFirstReady self.old flow }
        ensures given { (result.flow ≡ flow) × GivesFirst flow result.key self.old self.new }
        ensures fair { IsFair self.new }
    {
        self.turn = flow;
        match self.flows[flow].pop() {
            Some(key) => Ready { flow, key },
            None => unreachable!(),
        }
    }

    /// Returns the key that is to be served next. `spent` is what serving the one before has cost.
    pub fn next(&mut self, spent: u64) -> Option<Ready>
        ensures given { (between : QueueState) × Charges spent self.old between
            × MatchOption result (IsIdle between × (self.new ≡ between))
            (λ ready. GivesFirst ready.flow ready.key between self.new) }
        ensures fair { IsFair self.new }
    {
        self.charge(spent);
        match self.first_ready() {
            Some(flow) => Some(self.give(flow)),
            None => None,
        }
    }
}
