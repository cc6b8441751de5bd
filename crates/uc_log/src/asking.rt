//! What a pass reports about its worker.
ghost use Rattle.std.specs.Prelude.{◌≡◌};
ghost use Rattle.mc_model.specs.declared.shown.Phase.TheVariants as phase;
ghost use Rattle.uc_log.specs.Passes.{learned, seat, size, state, worker};
ghost use Rattle.uc_places.specs.Calls.{HasLearned, HasProposed, TellsFull, TellsMarked, TellsPhase};

use crate::pass::Pass;
use mc_model::{Ticket, WorkerId};

impl Pass {
    /// Returns the worker whose pass this is.
    pub fn worker(&self) -> WorkerId
        ensures { result ≡ worker self.now }
    {
        self.desk.worker()
    }

    /// Returns how many places the worker has learned.
    pub fn learned(&self) -> usize
        ensures { HasLearned (seat self.now) result }
    {
        self.desk.learned()
    }

    /// Returns the tickets that the worker has learned, by their places.
    pub fn tickets(&self) -> &[Ticket]
        ensures { result.now ≡ learned self.now }
    {
        self.learned.as_slice()
    }

    /// Returns how many commands the worker has announced.
    pub fn announced(&self) -> u64
        ensures { result ≡ (state self.now).announced }
    {
        self.desk.announced()
    }

    /// Returns the number of places of the log.
    pub fn places(&self) -> usize
        ensures { result ≡ (size self.now).places }
    {
        self.desk.places()
    }

    /// Returns whether the worker has learned all places.
    ///
    /// If it hasn't, it can announce when it is idle, read when it is idle or pending, and look
    /// when it is pending and marked.
    pub fn is_full(&self) -> bool
        ensures { TellsFull (seat self.now) result }
    {
        self.desk.is_full()
    }

    /// Returns how many proposals the worker has made for the command that it announced last: at
    /// most one more than there are workers.
    pub fn proposals(&self) -> u64
        ensures { HasProposed (seat self.now) result }
    {
        self.desk.proposals()
    }

    /// Returns whether the worker found a place empty while the command that it announced last was
    /// pending.
    pub fn is_marked(&self) -> bool
        ensures { TellsMarked (seat self.now) result }
    {
        self.desk.is_marked()
    }

    /// Returns whether the worker has no pending command.
    pub fn is_idle(&self) -> bool
        ensures { TellsPhase phase.Idle (seat self.now) result }
    {
        self.desk.is_idle()
    }

    /// Returns whether the worker has a pending command, and hasn't looked for whom to help at its
    /// next place.
    pub fn is_pending(&self) -> bool
        ensures { TellsPhase phase.Pending (seat self.now) result }
    {
        self.desk.is_pending()
    }

    /// Returns whether the worker has looked for whom to help at its next place.
    pub fn is_looked(&self) -> bool
        ensures { TellsPhase phase.Looked (seat self.now) result }
    {
        self.desk.is_looked()
    }
}
