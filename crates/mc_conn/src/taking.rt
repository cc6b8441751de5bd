//! Reading requests and taking them.
ghost use Rattle.std.specs.Bool.{MatchBool};
ghost use Rattle.std.specs.Prelude.{◌≡◌, ◌≢◌, ◌⊎◌, ◌↔◌, ◌<◌, ◌≤◌, [], Bool, true, false, length, None, IfOk, IsOkUnless, IsTrue, MatchResult, OnOk};
ghost use Rattle.mc_model.specs.declared.fault.Fault.TheVariants as faults;
ghost use Rattle.mc_stream.specs.Stream.{Streams};
ghost use Rattle.mc_conn.specs.Ending.{AwaitsLog};
ghost use Rattle.mc_conn.specs.Held.{HoldsNone, IsRead, most_held};
ghost use Rattle.mc_conn.specs.Parts.{AnswersWithin, BreaksFor, Does, IsHeldBehind, IsLeft, KeepsStreams, LooksForNext};
ghost use Rattle.mc_conn.specs.Owed.{FitsLog, demand_of, is_logged};
ghost use Rattle.mc_conn.specs.Tallying.{HasCounted};
ghost use Rattle.mc_conn.specs.Turn.{holding_of, queue_of, scene};
ghost use Rattle.mc_conn.specs.declared.conn.TheConstants.{QUEUE_BYTES};

use crate::conn::{Allowance, Conn, QUEUE_BYTES, Role};
use crate::responding::respond;
use mc_counters::Tally;
use mc_model::{Fault, Request};
use mc_read::ends_stream;
use uc_worker::{Gate, Worker};

/// Returns whether a request on a connection of this role is to be logged.
fn is_to_be_logged(role: &Role, request: &Request) -> bool
    ensures { result ≡ is_logged (demand_of role.now request.now) }
{
    match role {
        Role::Tenant(_) => matches!(request, Request::Logged { .. }),
        Role::Admin(names) => match request {
            Request::Limit { name, .. } => names.tenant(name).is_some(),
            _ => false,
        },
    }
}

impl Conn {
    /// Returns whether the next request is to be logged and the worker's log is closing.
    fn awaits_log(&self, worker: &Worker<'_>) -> bool
        ensures { IsTrue result ↔ AwaitsLog self.now worker.now }
    {
        match &self.waiting {
            Some(request) => is_to_be_logged(&self.role, request) && worker.is_closing(),
            None => false,
        }
    }

    /// Returns whether commands are left to the next log and the next request awaits it.
    pub(crate) fn is_left(&self, until_done: bool, worker: &Worker<'_>) -> bool
        ensures { IsTrue result ↔ IsLeft until_done self.now worker.now }
    {
        until_done && self.awaits_log(worker)
    }

    /// Reads the next request, if none is waiting.
    ///
    /// Returns `Memory` if memory runs out.
    fn look(&mut self) -> Result<(), Fault>
        ensures read { OnOk result (IsRead (holding_of self.old) [] [] (holding_of self.new)) }
        ensures found { OnOk result (HoldsNone (holding_of self.new) ⊎ (self.new.waiting ≢ None)) }
        ensures looks { LooksForNext self.old self.new }
        ensures most { OnOk result
            (most_held (holding_of self.new) ≤ most_held (holding_of self.old)) }
        ensures memory { IsOkUnless result faults.Memory }
    {
        if self.waiting.is_none() {
            self.waiting = self.reader.next()?;
        }
        Ok(())
    }

    /// Takes the waiting request. Returns whether there was one.
    fn answer_waiting<G: Gate>(
        &mut self,
        worker: &mut Worker<'_>,
        gate: &mut G,
        allowed: &mut Allowance,
        tally: &mut Tally,
    ) -> Result<bool, Fault>
        requires role { FitsLog self.old.role worker.old }
        requires some { 0 < allowed.old.requests }
        ensures outcome { MatchResult result
            (λ did. (until : Bool) (streams : Streams) → ¬ (IsLeft until self.old worker.old) →
            length (queue_of self.old) ≤ QUEUE_BYTES →
            Does until allowed.old.requests (scene self.old worker.old streams)
            (scene self.new worker.new streams) did allowed.new.requests)
            (λ fault. (until : Bool) (streams : Streams) → ¬ (IsLeft until self.old worker.old) →
            BreaksFor until (scene self.old worker.old streams) (scene self.new worker.new streams)
            fault) }
        ensures fewer { IfOk result (λ did. MatchBool did
            (most_held (holding_of self.new) < most_held (holding_of self.old))
            ((self.old.waiting ≡ None) × (self.new ≡ self.old))) }
        ensures keeps { KeepsStreams self.old self.new worker.old worker.new }
        ensures tally { HasCounted self.old.past self.new.past tally.old tally.new }
        ensures answers { AnswersWithin allowed.old.requests allowed.new.requests self.old
            self.new }
        ensures bytes { allowed.new.bytes ≡ allowed.old.bytes }
    {
        match self.waiting.take() {
            Some(request) => {
                let ends = ends_stream(&request);
                let (queue, past) = (&mut self.queue, &mut self.past);
                respond(&self.role, request, queue, worker, gate, past, tally)?;
                self.is_over |= ends;
                allowed.requests -= 1;
                Ok(true)
            }
            None => Ok(false),
        }
    }

    /// Takes a request, if a whole one is held, the turn may take one more, the queue isn't too long
    /// and, if commands are left to the next log, it isn't one that awaits it. Returns whether it
    /// did.
    fn take_one<G: Gate>(
        &mut self,
        until_done: bool,
        worker: &mut Worker<'_>,
        gate: &mut G,
        allowed: &mut Allowance,
        tally: &mut Tally,
    ) -> Result<bool, Fault>
        requires role { FitsLog self.old.role worker.old }
        ensures outcome { MatchResult result
            (λ did. (streams : Streams) →
            Does until_done allowed.old.requests (scene self.old worker.old streams)
            (scene self.new worker.new streams) did allowed.new.requests)
            (λ fault. (streams : Streams) →
            BreaksFor until_done (scene self.old worker.old streams)
            (scene self.new worker.new streams) fault) }
        ensures fewer { IfOk result
            (λ did. did ≡ true →
            most_held (holding_of self.new) < most_held (holding_of self.old)) }
        ensures held { IfOk result
            (λ did. did ≡ false →
            IsHeldBehind until_done allowed.new.requests self.new worker.new) }
        ensures keeps { KeepsStreams self.old self.new worker.old worker.new }
        ensures tally { HasCounted self.old.past self.new.past tally.old tally.new }
        ensures answers { AnswersWithin allowed.old.requests allowed.new.requests self.old
            self.new }
        ensures bytes { allowed.new.bytes ≡ allowed.old.bytes }
    {
        self.look()?;
        if allowed.requests == 0 {
            return Ok(false);
        }
        if self.queue.len() > QUEUE_BYTES {
            return Ok(false);
        }
        if self.is_left(until_done, worker) {
            return Ok(false);
        }
        self.answer_waiting(worker, gate, allowed, tally)
    }

    /// Takes whole requests while the turn may take more, the queue isn't too long and, if commands
    /// are left to the next log, none awaits it. Returns whether any was taken.
    pub(crate) fn take<G: Gate>(
        &mut self,
        until_done: bool,
        worker: &mut Worker<'_>,
        gate: &mut G,
        allowed: &mut Allowance,
        tally: &mut Tally,
    ) -> Result<bool, Fault>
        requires role { FitsLog self.old.role worker.old }
        ensures outcome { MatchResult result
            (λ did. (streams : Streams) →
            Does until_done allowed.old.requests (scene self.old worker.old streams)
            (scene self.new worker.new streams) did allowed.new.requests)
            (λ fault. (streams : Streams) →
            BreaksFor until_done (scene self.old worker.old streams)
            (scene self.new worker.new streams) fault) }
        ensures held { OnOk result
            (IsHeldBehind until_done allowed.new.requests self.new worker.new) }
        ensures keeps { KeepsStreams self.old self.new worker.old worker.new }
        ensures tally { HasCounted self.old.past self.new.past tally.old tally.new }
        ensures answers { AnswersWithin allowed.old.requests allowed.new.requests self.old
            self.new }
        ensures bytes { allowed.new.bytes ≡ allowed.old.bytes }
    {
        let mut did = false;
        while self.take_one(until_done, worker, gate, allowed, tally)? {
            did = true;
        }
        Ok(did)
    }
}
