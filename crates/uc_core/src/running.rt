//! Runs of the core: events one after another, and the replies that they give.
ghost use Rattle.std.specs.Prelude.{◌≡◌, ◌<◌, ◌++◌, List, Option, length, take, drop, None, Some, slice_get, IfErr, OnOk, OnErr};
ghost use Rattle.lists.specs.Lists.{BeginsWith};
ghost use Rattle.mc_model.specs.Legal.{IsLegal};
ghost use Rattle.mc_model.specs.declared.reply.Reply.{Reply};
ghost use Rattle.uc_core.specs.Headline.{RepliesAreAnswers};
ghost use Rattle.uc_core.specs.Run.{Given, IsFaultOf, Runs, done, given_by, replayed_by};
ghost use Rattle.uc_core.specs.declared.event.Event.{Event};
ghost use Rattle.uc_core.specs.Step.{CoreStep, actor, refusal};

use crate::event::{Event, RunFault};
use crate::machine::Core;
use mc_model::{Fault, Reply, WorkerId};

impl Core {
    /// Takes the events in order. Each reply is appended to `replies`, with its worker and the
    /// place of its command in the log. Returns the fault and the index of the first event that
    /// meets one; the run ends before that event, which changes nothing. Only an announcement or a
    /// replay meets `Memory`.
    pub fn run(
        &mut self,
        events: &[Event],
        replies: &mut Vec<(WorkerId, u64, Reply<'static>)>,
    ) -> Result<(), RunFault>
        ensures ran { (given : List Given) ×
            Runs self.old (take (done events.now result) events.now) self.new given
            × (replies.new.items ≡ replies.old.items ++ given) }
        ensures fault { IfErr result
            (λ it. (event : Event) × (slice_get events.now it.at ≡ Some event)
            × IsFaultOf self.new event it.fault) }

        // What follows for every run.
        ensures log { BeginsWith self.new.shown.decided self.old.shown.decided }
        ensures legal { IsLegal self.new.shown.decided }
        ensures replies { RepliesAreAnswers self.new
            (drop (length replies.old.items) replies.new.items) }
    {
        // The invariant says that some run has led here.
        let _ = &self.places;
        for (at, event) in events.iter().enumerate() {
            if let Err(fault) = self.run_one(event, replies) {
                return Err(RunFault { at, fault });
            }
        }
        Ok(())
    }

    /// Takes one event of a run. If all its conditions are met, capacity for a reply is reserved
    /// before a replay, the only event that may give one, and an announcement's command is copied.
    /// At a fault nothing changes.
    fn run_one(
        &mut self,
        event: &Event,
        replies: &mut Vec<(WorkerId, u64, Reply<'static>)>,
    ) -> Result<(), Fault>
        ensures step { OnOk result ((reply : Option Reply) ×
            CoreStep self.old event.now self.new reply
            × (replies.new.items ≡ replies.old.items ++ given_by self.old event.now reply)) }
        ensures fault { IfErr result (λ fault. IsFaultOf self.old event.now fault) }
        ensures unchanged { OnErr result (self.new ≡ self.old) }
        ensures unanswered { OnErr result (replies.new.items ≡ replies.old.items) }
    {
        self.check(event)?;
        if matches!(event, Event::Replay(_)) {
            replies.reserve(1)?;
        }
        let place = self.replayed_by(event.actor());
        let worker = self.id_of(event);
        let reply = self.take(event.try_clone()?)?;
        if let Some(reply) = reply {
            replies.push_reserved((worker, place, reply));
        }
        Ok(())
    }

    /// Returns the number of places that a worker has replayed, or 0 if there is no such worker.
    fn replayed_by(&self, number: u8) -> u64
        ensures { result ≡ replayed_by self.now number }
    {
        match self.workers.get(usize::from(number)) {
            Some(worker) => worker.replayed as u64,
            None => 0,
        }
    }

    /// Returns the worker that takes the event, which must be enabled.
    fn id_of(&self, event: &Event) -> WorkerId
        requires { refusal self.now event.now ≡ None }
        ensures { result ≡ actor event.now }
    {
        // The invariant says how many workers there may be.
        let _ = &self.workers;
        WorkerId::new(event.actor()).unwrap()
    }
}
