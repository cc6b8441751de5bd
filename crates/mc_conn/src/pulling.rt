//! Pulling bytes.
ghost use Rattle.std.specs.Prelude.{◌≡◌, ◌⊎◌, ℕ, ◌+◌, ◌<◌, [], Bool, true, false, length, None, IfOk, MatchResult, OnOk};
ghost use Rattle.mc_stream.specs.Event.{waits};
ghost use Rattle.mc_stream.specs.Stream.{Outflow, both};
ghost use Rattle.uc_worker.specs.declared.worker.Worker.{Worker};
ghost use Rattle.mc_conn.specs.declared.conn.TheConstants.{QUEUE_BYTES};
ghost use Rattle.mc_conn.specs.Ending.{Pulls, PullsFew, PullsOnce};
ghost use Rattle.mc_conn.specs.Parts.{AnswersWithin, BreaksFor, Does, IsHeldBehind, IsLeft};
ghost use Rattle.mc_conn.specs.Owed.{FitsLog};
ghost use Rattle.mc_conn.specs.Tallying.{HasCounted};
ghost use Rattle.mc_conn.specs.Turn.{queue_of, scene};

use crate::conn::{Allowance, Conn, PULL_BYTES, QUEUE_BYTES};
use mc_counters::Tally;
use mc_model::Fault;
use mc_stream::{Input, Output, Pull};
use uc_worker::{Gate, Worker};

impl Conn {
    /// Pulls once, at most `most` bytes and no more than `PULL_BYTES`. Returns whether bytes came.
    ///
    /// Returns `Memory` if memory runs out; nothing is pulled then. Returns `Input` if the input
    /// fails.
    fn pull<I: Input>(&mut self, input: &mut I, most: usize) -> Result<bool, Fault>
        requires waiting { self.old.waiting ≡ None }
        requires going { self.old.has_ended ≡ false }
        ensures outcome { MatchResult result
            (λ did. (until : Bool) (left : ℕ) (worker : Worker) (output : Outflow) →
            Does until left (scene self.old worker (both (I.tells input.old) output))
            (scene self.new worker (both (I.tells input.new) output)) did left)
            (λ fault. (until : Bool) (worker : Worker) (output : Outflow) →
            BreaksFor until (scene self.old worker (both (I.tells input.old) output))
            (scene self.new worker (both (I.tells input.new) output)) fault) }
        ensures stuck { IfOk result (λ did. did ≡ false →
            (waits (I.tells input.new).events ≡ waits (I.tells input.old).events + 1)
            ⊎ (self.new.has_ended ≡ true)) }
        ensures once { PullsOnce (I.tells input.old) (I.tells input.new) }
        ensures few { PullsFew most (I.tells input.old) (I.tells input.new) }
        ensures role { self.new.role ≡ self.old.role }
        ensures past { self.new.past ≡ self.old.past }
    {
        match self.reader.pull(input, most.clamp(1, PULL_BYTES))? {
            Pull::Bytes(_) => Ok(true),
            Pull::Empty => Ok(false),
            Pull::Ended => {
                self.has_ended = true;
                Ok(false)
            }
            Pull::Failed => Err(Fault::Input),
        }
    }

    /// Pulls once and takes requests again, if no whole request is held, the queue isn't too long
    /// and the input hasn't ended. Returns whether anything was done.
    ///
    /// Queued replies are pushed first, since an input may wait for its next bytes. If a request
    /// has ended the stream and all is sent, nothing is pulled.
    pub(crate) fn pull_and_take<I: Input, O: Output, G: Gate>(
        &mut self,
        until_done: bool,
        worker: &mut Worker<'_>,
        input: &mut I,
        output: &mut O,
        gate: &mut G,
        allowed: &mut Allowance,
        tally: &mut Tally,
    ) -> Result<bool, Fault>
        requires role { FitsLog self.old.role worker.old }
        requires held { IsHeldBehind until_done allowed.old.requests self.old worker.old }
        ensures outcome { MatchResult result
            (λ did. Does until_done allowed.old.requests
            (scene self.old worker.old (both (I.tells input.old) (O.tells output.old)))
            (scene self.new worker.new (both (I.tells input.new) (O.tells output.new)))
            did allowed.new.requests)
            (BreaksFor until_done
            (scene self.old worker.old (both (I.tells input.old) (O.tells output.old)))
            (scene self.new worker.new (both (I.tells input.new) (O.tells output.new)))) }
        ensures held { OnOk result
            (IsHeldBehind until_done allowed.new.requests self.new worker.new) }
        ensures stuck { IfOk result
            (λ did. did ≡ false →
            (waits (I.tells input.new).events ≡ waits (I.tells input.old).events + 1)
            ⊎ (self.new.has_ended ≡ true) ⊎ (QUEUE_BYTES < length (queue_of self.new))
            ⊎ (self.new.is_over ≡ true) × (queue_of self.new ≡ [])
            ⊎ IsLeft until_done self.new worker.new ⊎ (allowed.new.requests ≡ 0)) }
        ensures pulls { Pulls
            (scene self.old worker.old (both (I.tells input.old) (O.tells output.old)))
            (scene self.new worker.new (both (I.tells input.new) (O.tells output.new))) }
        ensures few { PullsFew allowed.old.bytes (I.tells input.old) (I.tells input.new) }
        ensures tally { HasCounted self.old.past self.new.past tally.old tally.new }
        ensures answers { AnswersWithin allowed.old.requests allowed.new.requests self.old
            self.new }
    {
        if self.waiting.is_some() | (self.queue.len() > QUEUE_BYTES) | self.has_ended {
            return Ok(false);
        }
        let pushed = self.push(output)?;
        // Nothing is to come after a request that ended the stream.
        if self.is_over & self.queue.is_empty() {
            return Ok(pushed);
        }
        let pulled = self.pull(input, allowed.bytes)?;
        let taken = self.take(until_done, worker, gate, allowed, tally)?;
        Ok(pushed | pulled | taken)
    }
}
