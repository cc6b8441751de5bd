//! The requests of a connection that were answered: how many, and for contracts which.
ghost use Rattle.mc_counters.specs.Tallied.{capped};
ghost use Rattle.std.specs.Prelude.{◌≡◌, [], ◌∷◌, ◌++◌, length};

use crate::kinds::Asked;
use crate::past_requests::PastRequests;
use mc_model::Reply;
use std::marker::Model;

/// The requests of a connection that were answered, in order. At run time it is only their number,
/// which stops at `u64::MAX`.
#[derive(Drop)]
pub struct AnsweredRequests {
    past: PastRequests,
    count: u64,
}

impl Model for AnsweredRequests {
    ghost use Rattle.mc_counters.specs.Tallied.{CountedRequest, capped};
    ghost use Rattle.std.specs.Prelude.{◌≡◌, List, length};

    ghost Value = { List CountedRequest };

    ghost view = { λ answered. answered.past.requests };

    ghost invariant = { λ answered. answered.count ≡ capped (length answered.past.requests) };
}

impl AnsweredRequests {
    /// Returns an empty list: none was answered yet.
    pub fn new() -> AnsweredRequests
        ensures { result ≡ [] }
    {
        AnsweredRequests {
            past: PastRequests::new(),
            count: 0,
        }
    }

    /// Adds a request as the latest: what its command asked for, if it had one, and its reply.
    pub fn add(&mut self, asked: &Option<Asked>, reply: &Reply<'_>)
        ensures { self.new ≡ self.old ++ record { asked = asked.now; reply = reply.now } ∷ [] }
    {
        self.past = self.past.and(asked, reply);
        self.count = self.count.saturating_add(1);
    }

    /// Returns how many there are.
    pub fn count(&self) -> u64
        ensures { result ≡ capped (length self.now) }
    {
        self.count
    }
}
