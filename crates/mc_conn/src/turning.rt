//! A turn of a connection.
ghost use Rattle.std.specs.Prelude.{◌≡◌, ◌≢◌, ◌++◌, List, true, false, IfOk, Ok, MatchResult};
ghost use Rattle.mc_counters.specs.Tallied.{CountedRequest, IsTallyOf};
ghost use Rattle.mc_stream.specs.Stream.{both};
ghost use Rattle.mc_conn.specs.ConnFault.{TellsStarved};
ghost use Rattle.mc_conn.specs.Ending.{AnswersAtMost, Pulls, PullsFew, Stops, StopsUntil, Turns, TurnsUntil};
ghost use Rattle.mc_conn.specs.Parts.{BreaksFor, GoesRound, StateIs, StopsRound, TellsOf};
ghost use Rattle.mc_conn.specs.Owed.{FitsLog};
ghost use Rattle.mc_conn.specs.Tallying.{HasCounted, HasCountedTo, counted_at};
ghost use Rattle.mc_conn.specs.Turn.{queue_of, scene};
ghost use Rattle.mc_conn.specs.declared.conn.TheConstants.{TURN_REQUESTS};

use crate::conn::{Allowance, Conn, State, TURN_REQUESTS};
use crate::queue::Queue;
use mc_counters::Tally;
use mc_model::{Fault, Reply, WireNo};
use mc_stream::{Input, Output, push_while_taken};
use mc_write::refusal_text;
use uc_worker::{Gate, Worker};

/// Sends the client the refusal that memory ran out, after the queued replies, as far as the output
/// takes them at once.
fn tell_starved<O: Output>(queue: &Queue, output: &mut O)
    ensures { TellsStarved queue.now (O.tells output.old) (O.tells output.new) }
{
    if queue.push_while_taken(output) {
        push_while_taken(refusal_text(WireNo::OUT_OF_MEMORY), output);
    }
}

/// Counts the refusal that memory ran out, if that is the fault.
fn count_fault(fault: Fault, tally: &mut Tally)
    ensures { (earlier : List CountedRequest) → IsTallyOf earlier tally.old →
        IsTallyOf (earlier ++ counted_at fault) tally.new }
{
    if fault == Fault::Memory {
        tally.count(&None, &Reply::Refused(WireNo::OUT_OF_MEMORY));
    }
}

impl Conn {
    /// Returns the state after a turn; `did` is whether the turn did anything.
    fn state(&self, until_done: bool, worker: &Worker<'_>, did: bool) -> State
        ensures { StateIs until_done self.now worker.now did result }
    {
        if (self.has_ended | self.is_over) && self.waiting.is_none() && self.queue.is_empty() {
            State::Closed
        } else if self.is_left(until_done, worker) {
            State::Full
        } else if did {
            State::Busy
        } else {
            State::Idle
        }
    }

    /// Makes a turn as `turn` or `turn_until` does, but at a fault neither sends the client
    /// anything nor closes the connection.
    ///
    /// It pushes before the pull as well as at the end, since an input may wait for its next bytes.
    fn go_round<I: Input, O: Output, G: Gate>(
        &mut self,
        until_done: bool,
        worker: &mut Worker<'_>,
        input: &mut I,
        output: &mut O,
        gate: &mut G,
        most: usize,
        tally: &mut Tally,
    ) -> Result<State, Fault>
        requires role { FitsLog self.old.role worker.old }
        ensures outcome { MatchResult result
            (GoesRound until_done
            (scene self.old worker.old (both (I.tells input.old) (O.tells output.old)))
            (scene self.new worker.new (both (I.tells input.new) (O.tells output.new))))
            (BreaksFor until_done
            (scene self.old worker.old (both (I.tells input.old) (O.tells output.old)))
            (scene self.new worker.new (both (I.tells input.new) (O.tells output.new)))) }
        ensures pulls { Pulls
            (scene self.old worker.old (both (I.tells input.old) (O.tells output.old)))
            (scene self.new worker.new (both (I.tells input.new) (O.tells output.new))) }
        ensures few { PullsFew most (I.tells input.old) (I.tells input.new) }
        ensures answers { AnswersAtMost TURN_REQUESTS self.old self.new }
        ensures tally { HasCounted self.old.past self.new.past tally.old tally.new }
    {
        let mut left = Allowance {
            bytes: most,
            requests: TURN_REQUESTS,
        };
        let first = self.push(output)?;
        let taken = self.take(until_done, worker, gate, &mut left, tally)?;
        let pulled = self.pull_and_take(until_done, worker, input, output, gate, &mut left, tally)?;
        let last = self.push(output)?;
        Ok(self.state(until_done, worker, first | taken | pulled | last))
    }

    /// Closes the connection for good. If memory ran out, that is reported to the client, after the
    /// queued replies, as far as the output takes it at once. For a caller that has no log to go on
    /// with.
    pub fn close<O: Output>(&mut self, fault: Fault, output: &mut O)
        ensures closed { self.new.is_closed ≡ true }
        ensures same { (self.new.role ≡ self.old.role) × (queue_of self.new ≡ queue_of self.old) }
        ensures past { self.new.past ≡ self.old.past }
        ensures told { TellsOf fault (queue_of self.old) (O.tells output.old) (O.tells output.new) }
    {
        self.is_closed = true;
        if fault == Fault::Memory {
            tell_starved(&self.queue, output);
        }
    }

    /// Makes a turn, which may leave commands to the next log. Closes the connection at a fault.
    fn turn_or_close<I: Input, O: Output, G: Gate>(
        &mut self,
        until_done: bool,
        worker: &mut Worker<'_>,
        input: &mut I,
        output: &mut O,
        gate: &mut G,
        most: usize,
        tally: &mut Tally,
    ) -> Result<State, Fault>
        requires role { FitsLog self.old.role worker.old }
        ensures outcome { self.old.is_closed ≡ false → MatchResult result
            (GoesRound until_done
            (scene self.old worker.old (both (I.tells input.old) (O.tells output.old)))
            (scene self.new worker.new (both (I.tells input.new) (O.tells output.new))))
            (StopsRound until_done
            (scene self.old worker.old (both (I.tells input.old) (O.tells output.old)))
            (scene self.new worker.new (both (I.tells input.new) (O.tells output.new)))) }
        ensures pulls { Pulls
            (scene self.old worker.old (both (I.tells input.old) (O.tells output.old)))
            (scene self.new worker.new (both (I.tells input.new) (O.tells output.new))) }
        ensures few { PullsFew most (I.tells input.old) (I.tells input.new) }
        ensures answers { AnswersAtMost TURN_REQUESTS self.old self.new }
        ensures same { (self.new.role ≡ self.old.role) × (worker.new.log ≡ worker.old.log) }
        ensures tally { MatchResult result
            (λ _. HasCounted self.old.past self.new.past tally.old tally.new)
            (HasCountedTo self.old.past self.new.past tally.old tally.new) }
        ensures closed { self.old.is_closed ≡ true → (result ≡ Ok State.Closed)
            × (self.new ≡ self.old) × (worker.new ≡ worker.old)
            × (input.new ≡ input.old) × (output.new ≡ output.old) }
    {
        if self.is_closed {
            return Ok(State::Closed);
        }
        match self.go_round(until_done, worker, input, output, gate, most, tally) {
            Ok(state) => Ok(state),
            Err(fault) => {
                self.close(fault, output);
                count_fault(fault, tally);
                Err(fault)
            }
        }
    }

    /// Makes one turn: pushes what is queued, takes whole requests, pulls once, takes requests
    /// again, and pushes their replies.
    ///
    /// Requests are taken, and bytes pulled, while no more than `QUEUE_BYTES` are queued, and at most
    /// `TURN_REQUESTS` requests. Bytes are pulled only if no whole request is held then, at most
    /// `most` bytes, and no more than `PULL_BYTES`. The tally counts the requests that get a reply,
    /// quiet or not, and the refusal of one that memory ran out for. A full log is a reply, not an
    /// error.
    ///
    /// Each error closes the connection for good; later turns return `Closed` and do nothing.
    /// Returns `Memory` if memory runs out, which is reported to the client as far as the output
    /// takes it at once; `Taken` if a command's cell holds another value; `Input` or `Output` if
    /// the input or the output fails.
    pub fn turn<I: Input, O: Output, G: Gate>(
        &mut self,
        worker: &mut Worker<'_>,
        input: &mut I,
        output: &mut O,
        gate: &mut G,
        most: usize,
        tally: &mut Tally,
    ) -> Result<State, Fault>
        requires role { FitsLog self.old.role worker.old }
        // What was sent and is queued is what was queued and is owed; after a fault, a prefix.
        ensures outcome { self.old.is_closed ≡ false → MatchResult result
            (Turns (scene self.old worker.old (both (I.tells input.old) (O.tells output.old)))
            (scene self.new worker.new (both (I.tells input.new) (O.tells output.new))))
            (Stops (scene self.old worker.old (both (I.tells input.old) (O.tells output.old)))
            (scene self.new worker.new (both (I.tells input.new) (O.tells output.new)))) }
        // It pulls at most once, after what came before was answered unless the output is full.
        ensures pulls { Pulls
            (scene self.old worker.old (both (I.tells input.old) (O.tells output.old)))
            (scene self.new worker.new (both (I.tells input.new) (O.tells output.new))) }
        ensures few { PullsFew most (I.tells input.old) (I.tells input.new) }
        // At most `TURN_REQUESTS` requests get a reply, with a fault or without.
        ensures answers { AnswersAtMost TURN_REQUESTS self.old self.new }
        // No command is left to another log.
        ensures takes_all { IfOk result (λ state. state ≢ State.Full) }
        // It is still the same client's, on the same log.
        ensures same { (self.new.role ≡ self.old.role) × (worker.new.log ≡ worker.old.log) }
        // The tally counts the requests that got a reply too, and the refusal if memory ran out.
        ensures tally { MatchResult result
            (λ _. HasCounted self.old.past self.new.past tally.old tally.new)
            (HasCountedTo self.old.past self.new.past tally.old tally.new) }
        ensures closed { self.old.is_closed ≡ true → (result ≡ Ok State.Closed)
            × (self.new ≡ self.old) × (worker.new ≡ worker.old)
            × (input.new ≡ input.old) × (output.new ≡ output.old) }
    {
        self.turn_or_close(false, worker, input, output, gate, most, tally)
    }

    /// Makes one turn as `turn` does, but leaves commands to the next log: where the next request
    /// is to be logged and the worker's log is closing, the request isn't taken. It stays first in
    /// line, and the state is `Full`, once what is queued is pushed as far as the output takes it.
    ///
    /// Returns the errors of `turn`.
    pub fn turn_until<I: Input, O: Output, G: Gate>(
        &mut self,
        worker: &mut Worker<'_>,
        input: &mut I,
        output: &mut O,
        gate: &mut G,
        most: usize,
        tally: &mut Tally,
    ) -> Result<State, Fault>
        requires role { FitsLog self.old.role worker.old }
        // As for `turn`; and with a fault or without, none was logged once the log was closing.
        ensures outcome { self.old.is_closed ≡ false → MatchResult result
            (TurnsUntil (scene self.old worker.old (both (I.tells input.old) (O.tells output.old)))
            (scene self.new worker.new (both (I.tells input.new) (O.tells output.new))))
            (StopsUntil (scene self.old worker.old (both (I.tells input.old) (O.tells output.old)))
            (scene self.new worker.new (both (I.tells input.new) (O.tells output.new)))) }
        ensures pulls { Pulls
            (scene self.old worker.old (both (I.tells input.old) (O.tells output.old)))
            (scene self.new worker.new (both (I.tells input.new) (O.tells output.new))) }
        ensures few { PullsFew most (I.tells input.old) (I.tells input.new) }
        ensures answers { AnswersAtMost TURN_REQUESTS self.old self.new }
        ensures same { (self.new.role ≡ self.old.role) × (worker.new.log ≡ worker.old.log) }
        ensures tally { MatchResult result
            (λ _. HasCounted self.old.past self.new.past tally.old tally.new)
            (HasCountedTo self.old.past self.new.past tally.old tally.new) }
        ensures closed { self.old.is_closed ≡ true → (result ≡ Ok State.Closed)
            × (self.new ≡ self.old) × (worker.new ≡ worker.old)
            × (input.new ≡ input.old) × (output.new ≡ output.old) }
    {
        self.turn_or_close(true, worker, input, output, gate, most, tally)
    }
}
