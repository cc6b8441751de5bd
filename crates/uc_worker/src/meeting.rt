//! Two workers meet, and have the same history afterwards.
ghost use Rattle.std.specs.Prelude.{◌≡◌, ◌⊎◌, ◌≤◌, length, IsOk, IsOkUnless, OnOk};
ghost use Rattle.mc_model.specs.declared.fault.Fault.TheVariants as faults;
ghost use Rattle.lists.specs.Lists.{BeginsWith};
ghost use Rattle.uc_log.specs.Passes.{IsOf, desk, learned, seat, size, state};
ghost use Rattle.uc_places.specs.Calls.{ShareOneRun};
ghost use Rattle.uc_worker.specs.Counting.{TakesFew};
ghost use Rattle.uc_worker.specs.Steps.{Rests};
ghost use Rattle.uc_worker.specs.Waiting.{LearnsMore};
ghost use Rattle.uc_worker.specs.Going.{CatchesUp, LearnsTheSame, StandsStill};
ghost use Rattle.uc_worker.specs.Worker.{IsUpToDate, history_of, openings_of, own_desk, seat_of, tables_of};

use crate::gate::Open;
use crate::worker::Worker;
use mc_model::Fault;
use uc_log::{Log, Pass};

/// Reads the list that was shared with the pass.
fn read_told(log: &Log, pass: &mut Pass, end: usize)
    requires of { IsOf log.now pass.old }
    requires rests { Rests (state pass.old).phase }
    requires end { end ≡ length (seat pass.old).told }
    requires room { end ≤ (size pass.old).places }
    requires told { BeginsWith (seat pass.old).told (learned pass.old) }
    ensures more { LearnsMore log.now pass.old pass.new }
    ensures learned { learned pass.new ≡ (seat pass.old).told }
    ensures takes { TakesFew 0 (desk pass.old) (desk pass.new) }
{
    for _place in pass.learned()..end {
        log.read(pass);
    }
}

/// Lets the pass that has learned less learn what the other has.
fn learn_the_same(log: &Log, one: &mut Pass, other: &mut Pass)
    requires of { IsOf log.now one.old × IsOf log.now other.old }
    requires rests { Rests (state one.old).phase × Rests (state other.old).phase }
    ensures one { LearnsMore log.now one.old one.new }
    ensures other { LearnsMore log.now other.old other.new }
    ensures learned { learned one.new ≡ learned other.new }
    ensures either { (learned one.new ≡ learned one.old) ⊎ (learned one.new ≡ learned other.old) }
    ensures takes { TakesFew 0 (desk one.old) (desk one.new)
        × TakesFew 0 (desk other.old) (desk other.new) }
{
    log.tell(one, other);
    if one.learned() < other.learned() {
        read_told(log, one, other.learned());
    } else {
        read_told(log, other, one.learned());
    }
}

/// Lets the pass that has learned less learn what the other has. One run of the log then has all
/// that both have done.
fn even(log: &Log, one: &mut Pass, other: &mut Pass)
    requires of { IsOf log.now one.old × IsOf log.now other.old }
    requires rests { Rests (state one.old).phase × Rests (state other.old).phase }
    ensures one { LearnsMore log.now one.old one.new }
    ensures other { LearnsMore log.now other.old other.new }
    ensures learned { learned one.new ≡ learned other.new }
    ensures either { (learned one.new ≡ learned one.old) ⊎ (learned one.new ≡ learned other.old) }
    ensures takes { TakesFew 0 (desk one.old) (desk one.new)
        × TakesFew 0 (desk other.old) (desk other.new) }
    ensures run { ShareOneRun (desk one.new) (desk other.new) }
{
    learn_the_same(log, one, other);
    // What was read came after they met, so they meet once more.
    log.tell(one, other);
}

impl<'a> Worker<'a> {
    /// Lets both workers learn and replay what either has learned: then both have the same history,
    /// entry by entry.
    ///
    /// Returns `Memory` if memory runs out; some of it may be replayed then.
    pub fn meet(&mut self, other: &mut Worker<'a>) -> Result<(), Fault>
        requires { self.old.log.now ≡ other.old.log.now }
        ensures one { CatchesUp self.old self.new }
        ensures other { CatchesUp other.old other.new }
        ensures equal { OnOk result (history_of self.new ≡ history_of other.new) }
        ensures tables { openings_of self.old ≡ openings_of other.old →
            OnOk result (tables_of self.new ≡ tables_of other.new) }
        ensures all { OnOk result
            (IsUpToDate self.new
            × ((seat_of self.new).state.learned ≡ (seat_of other.new).state.learned)) }
        ensures learned { LearnsTheSame self.old other.old self.new other.new }
        // One run of the log, from its opening, has all calls of both workers' seats, in order, and
        // no other events of the two.
        ensures run { ShareOneRun (own_desk self.new) (own_desk other.new) }
        // Each takes at most two events for each place that it learns.
        ensures takes { TakesFew 0 (own_desk self.old) (own_desk self.new)
            × TakesFew 0 (own_desk other.old) (own_desk other.new) }
        // If both are up to date, and neither has learned more than the other, no memory is needed,
        // and nothing changes: so it is where both have replayed the whole log.
        ensures still { IsUpToDate self.old → IsUpToDate other.old →
            length (seat_of self.old).state.learned ≡ length (seat_of other.old).state.learned →
            IsOk result × StandsStill self.old self.new × StandsStill other.old other.new }
        ensures memory { IsOkUnless result faults.Memory }
    {
        even(self.log, &mut self.pass, &mut other.pass);
        let end = self.pass.learned();
        self.replay_to(end, &mut Open)?;
        other.replay_to(end, &mut Open)?;
        self.replica.agree(&mut other.replica);
        Ok(())
    }
}
