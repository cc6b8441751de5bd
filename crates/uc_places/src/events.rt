//! The steps of a desk, in place: each is one operation on one word, and one event of the log.
ghost use Rattle.std.specs.Prelude.{◌≡◌, ◌≢◌, ◌⊎◌, None};
ghost use Rattle.mc_model.specs.declared.shown.Phase.TheVariants as phase;
ghost use Rattle.mc_model.specs.Lawful.{HasRoom};
ghost use Rattle.uc_places.specs.Calls.{Announces, IsSeatOf, Looks, Proposes, ReadsPlace, desk_size, state_of};

use crate::desk::{Desk, Places};
use crate::rule::{Announcing, Looking, Proposing, Reading};
use crate::words::{ticket_in, word_of};
use mc_model::{Phase, Ticket};

impl Desk {
    /// Announces the worker's next command.
    pub fn announce(&mut self, places: &Places)
        requires place { IsSeatOf places.now self.old }
        requires idle { (state_of self.old).phase ≡ phase.Idle }
        requires room { HasRoom (desk_size self.old) (state_of self.old) }
        ensures { Announces self.old self.new }
    {
        let word = self.numbers.own_word();
        let shared = &places.table.shared;
        let before = shared.fetch_add::<Announcing>(&mut self.seat, word, 1);
        self.numbers.announced = before + 1;
        self.numbers.proposals = 0;
        self.numbers.mark = None;
        self.numbers.phase = Phase::Pending;
    }

    /// Reads the next place, and learns the ticket that stands there, if there is one.
    ///
    /// Returns that ticket, or `None` if the place is empty. The worker becomes idle if the ticket
    /// is its own. An empty place becomes the mark of a pending worker that has none.
    pub fn read(&mut self, places: &Places) -> Option<Ticket>
        requires place { IsSeatOf places.now self.old }
        requires phase { ((state_of self.old).phase ≡ phase.Idle)
            ⊎ ((state_of self.old).phase ≡ phase.Pending) }
        requires room { HasRoom (desk_size self.old) (state_of self.old) }
        ensures { ReadsPlace self.old self.new result }
    {
        let word = self.numbers.next_word();
        let shared = &places.table.shared;
        let found = shared.load::<Reading>(&mut self.seat, word);
        if found == 0 {
            self.numbers.mark_here();
            return None;
        }
        let ticket = ticket_in(found);
        let phase = self.numbers.phase;
        self.numbers.learn(&ticket, phase);
        Some(ticket)
    }

    /// Looks for a command to help: the first one that isn't learned of the worker whose turn it is
    /// at the next place, if there is one.
    pub fn look(&mut self, places: &Places)
        requires place { IsSeatOf places.now self.old }
        requires pending { (state_of self.old).phase ≡ phase.Pending }
        requires room { HasRoom (desk_size self.old) (state_of self.old) }
        requires marked { (state_of self.old).mark ≢ None }
        ensures { Looks self.old self.new }
    {
        let turn = self.numbers.learned % self.numbers.workers;
        let shared = &places.table.shared;
        let found = shared.load::<Looking>(&mut self.seat, 1 + turn);
        self.numbers.proposal = word_of(&self.numbers.proposed(turn, found));
        self.numbers.phase = Phase::Looked;
    }

    /// Proposes the command that it found to help, or else its own, at the next place, by one
    /// compare-exchange.
    ///
    /// Learns and returns the ticket that stands there afterwards. The worker becomes idle if that
    /// ticket is its own.
    pub fn propose(&mut self, places: &Places) -> Ticket
        requires place { IsSeatOf places.now self.old }
        requires looked { (state_of self.old).phase ≡ phase.Looked }
        ensures { Proposes self.old self.new result }
    {
        let place = self.numbers.next_word();
        let word = self.numbers.proposal;
        let shared = &places.table.shared;
        let found = shared.compare_exchange::<Proposing>(&mut self.seat, place, 0, word);
        let stands = if found == 0 { word } else { found };
        let ticket = ticket_in(stands);
        self.numbers.learn(&ticket, Phase::Pending);
        self.numbers.proposals += 1;
        ticket
    }
}
