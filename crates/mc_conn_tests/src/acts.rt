//! What a line does, and what it must show: rows of acts, one after another.
use crate::lines::Line;
use mc_conn::State;
use mc_counters::CommandKind;
use mc_model::{Fault, WireNo};
use mc_stream::{Pull, Push};

/// More turns than a test needs.
const TURNS: u32 = 100_000;

/// What a line does or shows.
#[derive(Clone, Copy)]
pub(crate) enum Act<'a> {
    /// Turns are made until one ends in this state.
    Turns(State),
    /// This many turns all end in this state.
    Stays(State, u32),
    /// A turn that leaves commands to the next log ends in this state.
    Until(State),
    /// Turns are made until one fails by this fault; none ends as `Closed`.
    Breaks(Fault),
    /// The connection is closed as after this fault.
    Close(Fault),
    /// This many turns end as `Closed`, and neither push nor replay more.
    Rests(u32),
    /// This was pushed.
    Pushed(&'a str),
    /// This was pushed last.
    PushedLast(&'a str),
    /// What was pushed is a front of this.
    PushedOf(&'a str),
    /// This many bytes were pushed.
    PushedBytes(usize),
    /// The worker has replayed this many entries.
    Replayed(usize),
    /// This many requests got a reply, quiet or not.
    Answered(u64),
    /// Retrievals found this many items, and this many keys had none.
    Found(u64, u64),
    /// This many commands of this kind were answered.
    Commands(CommandKind, u64),
    /// This many requests got this refusal.
    Refused(WireNo, u64),
    /// One more pull gives this, and one more push takes this, without the connection.
    Next(Pull, Push),
}

impl Line<'_> {
    /// Makes turns until one ends in this state. Returns whether one does.
    fn comes_to(&mut self, end: State) -> Result<bool, Fault> {
        for _ in 0..TURNS {
            if self.turn()? == end {
                return Ok(true);
            }
        }
        Ok(false)
    }

    /// Returns whether the next turns all end in this state.
    fn stays(&mut self, end: State, turns: u32) -> Result<bool, Fault> {
        for _ in 0..turns {
            if self.turn()? != end {
                return Ok(false);
            }
        }
        Ok(true)
    }

    /// Returns whether a turn that leaves commands ends in this state.
    fn leaves(&mut self, end: State) -> Result<bool, Fault> {
        Ok(self.turn_until()? == end)
    }

    /// Returns whether the turns end with this fault.
    fn breaks(&mut self, fault: Fault) -> bool {
        self.comes_to(State::Closed) == Err(fault)
    }

    /// Returns whether later turns return `Closed`, and neither push nor replay more.
    fn rests(&mut self, turns: u32) -> Result<bool, Fault> {
        let (pushed, replayed) = (self.pushed().len(), self.replayed());
        let is_closed = self.stays(State::Closed, turns)?;
        Ok(is_closed && self.pushed().len() == pushed && self.replayed() == replayed)
    }

    /// Returns whether retrievals found this many items, and this many keys had none.
    fn found(&self, hits: u64, misses: u64) -> bool {
        let tally = self.tally();
        tally.hits == hits && tally.misses == misses
    }

    /// Does this act. Returns whether the line does or shows what it says.
    pub(crate) fn act(&mut self, act: Act) -> Result<bool, Fault> {
        match act {
            Act::Turns(end) => self.comes_to(end),
            Act::Stays(end, turns) => self.stays(end, turns),
            Act::Until(end) => self.leaves(end),
            Act::Breaks(fault) => Ok(self.breaks(fault)),
            Act::Close(fault) => {
                self.close(fault);
                Ok(true)
            }
            Act::Rests(turns) => self.rests(turns),
            Act::Pushed(want) => Ok(self.pushed() == want.as_bytes()),
            Act::PushedLast(want) => Ok(self.pushed().ends_with(want.as_bytes())),
            Act::PushedOf(want) => Ok(want.as_bytes().starts_with(self.pushed())),
            Act::PushedBytes(count) => Ok(self.pushed().len() == count),
            Act::Replayed(count) => Ok(self.replayed() == count),
            Act::Answered(count) => Ok(self.answered() == count),
            Act::Found(hits, misses) => Ok(self.found(hits, misses)),
            Act::Commands(kind, count) => Ok(self.tally().of_kind(kind) == count),
            Act::Refused(refusal, count) => Ok(self.tally().of_refusal(refusal) == count),
            Act::Next(pull, push) => Ok(self.next_pull() == pull && self.next_push() == push),
        }
    }

    /// Does these acts. Returns whether the line does and shows what each says.
    pub(crate) fn play(&mut self, acts: &[Act]) -> Result<bool, Fault> {
        for act in acts {
            if !self.act(*act)? {
                return Ok(false);
            }
        }
        Ok(true)
    }
}
