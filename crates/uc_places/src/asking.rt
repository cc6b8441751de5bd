//! What a seat reports about its worker.
ghost use Rattle.std.specs.Prelude.{◌≡◌, ◌<◌, ◌≤◌, true, false, length};
ghost use Rattle.mc_model.specs.declared.settings.TheConstants.{MAX_PLACES};
ghost use Rattle.mc_model.specs.declared.shown.Phase.TheVariants as phase;
ghost use Rattle.uc_places.specs.Calls.{HasLearned, HasProposed, TellsFull, TellsMarked, TellsPhase, known, desk_size, state_of, worker_of};
ghost use Rattle.uc_places.specs.Seats.{desk_of, is_idle_seat};

use crate::desk::Desk;
use crate::seats::{Idle, Looked, Pending, Seat};
use mc_model::{Phase, WorkerId};

impl Desk {
    /// Returns the worker whose seat this is.
    pub fn worker(&self) -> WorkerId
        ensures value { result ≡ worker_of self.now }
        ensures inside { result < (desk_size self.now).workers }
    {
        self.numbers.worker
    }

    /// Returns how many commands the worker has announced.
    pub fn announced(&self) -> u64
        ensures { result ≡ (state_of self.now).announced }
    {
        self.numbers.announced
    }

    /// Returns how many places the worker has learned.
    pub fn learned(&self) -> usize
        ensures { HasLearned (known self.now) result }
    {
        self.numbers.learned
    }

    /// Returns the number of places of the log.
    pub fn places(&self) -> usize
        ensures value { result ≡ (desk_size self.now).places }
        ensures small { result ≤ MAX_PLACES }
    {
        self.numbers.places
    }

    /// Returns whether the worker has learned all places.
    ///
    /// If it hasn't, it can announce when it is idle, read when it is idle or pending, and look
    /// when it is pending and marked.
    pub fn is_full(&self) -> bool
        ensures { TellsFull (known self.now) result }
    {
        self.numbers.learned >= self.numbers.places
    }

    /// Returns how many proposals the worker has made for the command that it announced last: at
    /// most one more than there are workers.
    pub fn proposals(&self) -> u64
        ensures { HasProposed (known self.now) result }
    {
        self.numbers.proposals
    }

    /// Returns the first place that the worker found empty while the command that it announced last
    /// was pending, or `None` if it found none.
    pub fn mark(&self) -> Option<u64>
        ensures { result ≡ (state_of self.now).mark }
    {
        self.numbers.mark
    }

    /// Returns whether the worker found a place empty while the command that it announced last was
    /// pending.
    pub fn is_marked(&self) -> bool
        ensures { TellsMarked (known self.now) result }
    {
        self.numbers.mark.is_some()
    }

    /// Returns the worker's phase. A worker with a seat hasn't stopped.
    pub fn phase(&self) -> Phase
        ensures value { result ≡ (state_of self.now).phase }
    {
        self.numbers.phase
    }

    /// Returns whether the worker has no pending command.
    pub fn is_idle(&self) -> bool
        ensures { TellsPhase phase.Idle (known self.now) result }
    {
        self.numbers.phase == Phase::Idle
    }

    /// Returns whether the worker has a pending command, and hasn't looked for whom to help at its
    /// next place.
    pub fn is_pending(&self) -> bool
        ensures { TellsPhase phase.Pending (known self.now) result }
    {
        self.numbers.phase == Phase::Pending
    }

    /// Returns whether the worker has looked for whom to help at its next place.
    pub fn is_looked(&self) -> bool
        ensures { TellsPhase phase.Looked (known self.now) result }
    {
        self.numbers.phase == Phase::Looked
    }
}

impl Idle {
    /// Returns the seat's desk, whose calls have preconditions in place of types.
    pub fn into_desk(self) -> Desk
        ensures desk { result ≡ self.desk }
        ensures idle { (state_of result).phase ≡ phase.Idle }
    {
        let Idle { desk } = self;
        desk
    }

    /// Returns how many places the worker has learned.
    pub fn learned(&self) -> usize
        ensures { result ≡ length (state_of self.now.desk).learned }
    {
        self.desk.learned()
    }

    /// Returns whether the worker has learned all places. If it hasn't, it can announce and read.
    pub fn is_full(&self) -> bool
        ensures { TellsFull (known self.now.desk) result }
    {
        self.desk.is_full()
    }

    /// Returns the first place that the worker found empty while the command that it announced last
    /// was pending, or `None` if it found none.
    pub fn mark(&self) -> Option<u64>
        ensures { result ≡ (state_of self.now.desk).mark }
    {
        self.desk.mark()
    }

    /// Returns how many proposals the worker has made for the command that it announced last: at
    /// most one more than there are workers.
    pub fn proposals(&self) -> u64
        ensures { HasProposed (known self.now.desk) result }
    {
        self.desk.proposals()
    }
}

impl Pending {
    /// Returns how many places the worker has learned.
    pub fn learned(&self) -> usize
        ensures { result ≡ length (state_of self.now.desk).learned }
    {
        self.desk.learned()
    }

    /// Returns whether the worker has learned all places. If it hasn't, it can read, and look once
    /// it is marked.
    pub fn is_full(&self) -> bool
        ensures { TellsFull (known self.now.desk) result }
    {
        self.desk.is_full()
    }

    /// Returns the first place that the worker found empty since it announced its pending command,
    /// or `None` if it found none.
    pub fn mark(&self) -> Option<u64>
        ensures { result ≡ (state_of self.now.desk).mark }
    {
        self.desk.mark()
    }

    /// Returns whether the worker has found a place empty since it announced its pending command.
    pub fn is_marked(&self) -> bool
        ensures { TellsMarked (known self.now.desk) result }
    {
        self.desk.is_marked()
    }

    /// Returns how many proposals the worker has made for its pending command: at most one more
    /// than there are workers.
    pub fn proposals(&self) -> u64
        ensures { HasProposed (known self.now.desk) result }
    {
        self.desk.proposals()
    }
}

impl Looked {
    /// Returns how many places the worker has learned.
    pub fn learned(&self) -> usize
        ensures { result ≡ length (state_of self.now.desk).learned }
    {
        self.desk.learned()
    }

    /// Returns the first place that the worker found empty since it announced its pending command.
    pub fn mark(&self) -> Option<u64>
        ensures { result ≡ (state_of self.now.desk).mark }
    {
        self.desk.mark()
    }

    /// Returns how many proposals the worker has made for its pending command: at most one more
    /// than there are workers.
    pub fn proposals(&self) -> u64
        ensures { HasProposed (known self.now.desk) result }
    {
        self.desk.proposals()
    }
}

impl Seat {
    /// Returns the seat's desk.
    pub(crate) fn into_desk(self) -> Desk
        ensures desk { result ≡ desk_of self }
        ensures idle { is_idle_seat self ≡ true → (state_of result).phase ≡ phase.Idle }
        ensures pending { is_idle_seat self ≡ false → (state_of result).phase ≡ phase.Pending }
    {
        match self {
            Seat::Idle(Idle { desk }) | Seat::Pending(Pending { desk }) => desk,
        }
    }

    /// Returns whether the worker has no pending command.
    pub fn is_idle(&self) -> bool
        ensures { result ≡ is_idle_seat self.now }
    {
        matches!(self, Seat::Idle(_))
    }

    fn desk(&self) -> &Desk
        ensures { result.now ≡ desk_of self.now }
    {
        match self {
            Seat::Idle(idle) => &idle.desk,
            Seat::Pending(pending) => &pending.desk,
        }
    }

    /// Returns how many places the worker has learned.
    pub fn learned(&self) -> usize
        ensures { result ≡ length (state_of (desk_of self.now)).learned }
    {
        self.desk().learned()
    }

    /// Returns whether the worker has learned all places.
    pub fn is_full(&self) -> bool
        ensures { TellsFull (known (desk_of self.now)) result }
    {
        self.desk().is_full()
    }

    /// Returns the first place that the worker found empty while the command that it announced last
    /// was pending, or `None` if it found none.
    pub fn mark(&self) -> Option<u64>
        ensures { result ≡ (state_of (desk_of self.now)).mark }
    {
        self.desk().mark()
    }

    /// Returns how many proposals the worker has made for the command that it announced last: at
    /// most one more than there are workers.
    pub fn proposals(&self) -> u64
        ensures { HasProposed (known (desk_of self.now)) result }
    {
        self.desk().proposals()
    }
}
