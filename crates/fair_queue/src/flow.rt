//! What waits in a flow.
ghost use Rattle.std.specs.Prelude.{◌≡◌, ◌-◌, ◌<◌, ◌∷◌, ◌++◌, [], ◌↔◌, IfOk, IsTrue, MatchOption, OnErr, OnOk, length, List, ℕ};
ghost use Rattle.fair_queue.specs.Turns.{TurnGoesOn, renewed};

use std::alloc::{AllocError, Global};
use std::collections::VecDeque;
use std::marker::Model;

/// The keys that are ready in a flow, first come first, and what is left of the flow's quantum.
#[derive(Drop)]
pub(crate) struct Flow {
    ready: VecDeque<usize>,
    credit: u64,
}

impl Model for Flow {
    ghost use Rattle.fair_queue.specs.Turns.{FlowState};

    ghost Value = { FlowState };

    ghost view = { λ flow. record { ready = flow.ready.items; credit = flow.credit } };
}

impl Flow {
    /// Returns a flow in which nothing waits, with a whole quantum, and with room for this many
    /// keys.
    ///
    /// Returns an error if memory runs out.
    pub(crate) fn new(alloc: Global, quantum: u64, keys: usize) -> Result<Flow, AllocError>
        ensures ready { IfOk result (λ flow. flow.ready ≡ []) }
        ensures credit { IfOk result (λ flow. flow.credit ≡ quantum) }
    {
        Ok(Flow {
            ready: VecDeque::with_capacity(alloc, keys)?,
            credit: quantum,
        })
    }

    /// Returns whether nothing waits in the flow.
    pub(crate) fn is_empty(&self) -> bool
        ensures { IsTrue result ↔ self.now.ready ≡ [] }
    {
        self.ready.is_empty()
    }

    /// Returns whether the flow's turn goes on once this was spent.
    pub(crate) fn goes_on(&self, spent: u64) -> bool
        ensures { IsTrue result ↔ TurnGoesOn spent self.now }
    {
        !self.ready.is_empty() && spent < self.credit
    }

    /// Appends a key.
    ///
    /// Returns an error if memory runs out.
    pub(crate) fn push(&mut self, key: usize) -> Result<(), AllocError>
        ensures pushed { OnOk result
            (self.new ≡ record self.old { ready = self.old.ready ++ (key ∷ []) }) }
        ensures unchanged { OnErr result (self.new ≡ self.old) }
    {
        Ok(self.ready.push_back(key)?)
    }

    /// Takes the first key out.
    pub(crate) fn pop(&mut self) -> Option<usize>
        ensures { MatchOption result
            ((self.old.ready ≡ []) × (self.new ≡ self.old))
            (λ key. (self.old.ready ≡ key ∷ self.new.ready) × (self.new.credit ≡ self.old.credit)) }
    {
        self.ready.pop_front()
    }

    /// Takes this much off what is left of the quantum.
    pub(crate) fn charge(&mut self, spent: u64)
        requires { spent < self.old.credit }
        ensures { self.new ≡ record self.old { credit = self.old.credit - spent } }
    {
        self.credit -= spent;
    }

    /// Gives the flow its quantum for its next turn, without what was spent beyond the last one. At
    /// least 1 is left of it.
    pub(crate) fn renew(&mut self, quantum: u64, spent: u64)
        requires { 0 < quantum }
        ensures { self.new ≡ record self.old { credit = renewed quantum self.old.credit spent } }
    {
        let beyond = spent.saturating_sub(self.credit);
        self.credit = quantum - beyond.min(quantum - 1);
    }
}
