//! The requests of a connection that were answered, for contracts only.
ghost use Rattle.mc_counters.specs.Tallied.{CountedRequest};
ghost use Rattle.std.specs.Borrow.{ftrue};
ghost use Rattle.std.specs.Prelude.{◌≡◌, List, [], ◌∷◌, ◌++◌};

use crate::kinds::Asked;
use mc_model::Reply;
use std::marker::Model;

/// Every request of a connection that was answered, in order. It takes no memory, and its methods
/// do nothing at run time.
#[derive(Drop)]
pub struct PastRequests {
    pub ghost requests: { List CountedRequest },
}

impl Model for PastRequests {
    ghost also_owns = { λ _. ftrue };
}

impl PastRequests {
    /// Returns an empty list: none was answered yet.
    pub fn new() -> PastRequests
        ensures { result ≡ record { requests = [] } }
    {
        PastRequests {}
    }

    /// Returns the list with this request as the latest: what its command asked for, if it had one,
    /// and its reply.
    pub fn and(&self, _asked: &Option<Asked>, _reply: &Reply<'_>) -> PastRequests
        ensures { result ≡ record {
          requests = self.now.requests
              ++ record { asked = _asked.now; reply = _reply.now } ∷ [];
        } }
    {
        PastRequests {}
    }
}

unsafe impl Send for PastRequests {}
