//! Serving a connection from its beginning to its end.
ghost use Rattle.std.specs.Prelude.{◌≡◌, true, false, Ok, MatchResult};
ghost use Rattle.mc_stream.specs.Stream.{both};
ghost use Rattle.mc_conn.specs.Ending.{PullsLate, Serves, ServesUntil, Stops, StopsUntil};
ghost use Rattle.mc_conn.specs.Owed.{FitsLog};
ghost use Rattle.mc_conn.specs.Turn.{scene};

use crate::conn::{Conn, PULL_BYTES, State};
use mc_counters::Tally;
use mc_model::Fault;
use mc_stream::{Input, Output};
use std::sync::Wait;
use uc_worker::{Open, Worker};

/// Makes turns of a connection until it is closed.
///
/// An input that has nothing, and an output that takes no more, are asked again. Returns the errors
/// of `Conn::turn`.
pub fn pump<R: Wait, I: Input, O: Output>(
    rt: &R,
    conn: &mut Conn,
    worker: &mut Worker<'_>,
    input: &mut I,
    output: &mut O,
) -> Result<(), Fault>
    requires role { FitsLog conn.old.role worker.old }
    ensures outcome { conn.old.is_closed ≡ false → MatchResult result
        (λ _. Serves (scene conn.old worker.old (both (I.tells input.old) (O.tells output.old)))
        (scene conn.new worker.new (both (I.tells input.new) (O.tells output.new))))
        (Stops (scene conn.old worker.old (both (I.tells input.old) (O.tells output.old)))
        (scene conn.new worker.new (both (I.tells input.new) (O.tells output.new)))) }
    ensures late { PullsLate
        (scene conn.old worker.old (both (I.tells input.old) (O.tells output.old)))
        (scene conn.new worker.new (both (I.tells input.new) (O.tells output.new))) }
    ensures closed { conn.old.is_closed ≡ true → (result ≡ Ok tt) × (conn.new ≡ conn.old)
        × (worker.new ≡ worker.old)
        × (input.new ≡ input.old) × (output.new ≡ output.old) }
{
    if conn.is_closed {
        return Ok(());
    }
    // Nobody looks at it.
    let mut tally = Tally::new();
    for _ in rt.forever() {
        match conn.turn(worker, input, output, &mut Open, PULL_BYTES, &mut tally)? {
            State::Closed => return Ok(()),
            State::Idle => {}
            State::Busy => {}
            State::Full => unreachable!(),
        }
    }
    unreachable!()
}

/// Makes turns of a connection as `pump` does, until it is closed or its next command is left to
/// the next log (`Conn::turn_until`). Returns which: `Closed` or `Full`.
///
/// Returns the errors of `Conn::turn`.
pub fn pump_until<R: Wait, I: Input, O: Output>(
    rt: &R,
    conn: &mut Conn,
    worker: &mut Worker<'_>,
    input: &mut I,
    output: &mut O,
) -> Result<State, Fault>
    requires role { FitsLog conn.old.role worker.old }
    ensures outcome { conn.old.is_closed ≡ false → MatchResult result
        (ServesUntil (scene conn.old worker.old (both (I.tells input.old) (O.tells output.old)))
        (scene conn.new worker.new (both (I.tells input.new) (O.tells output.new))))
        (StopsUntil (scene conn.old worker.old (both (I.tells input.old) (O.tells output.old)))
        (scene conn.new worker.new (both (I.tells input.new) (O.tells output.new)))) }
    ensures late { PullsLate
        (scene conn.old worker.old (both (I.tells input.old) (O.tells output.old)))
        (scene conn.new worker.new (both (I.tells input.new) (O.tells output.new))) }
    ensures closed { conn.old.is_closed ≡ true → (result ≡ Ok State.Closed)
        × (conn.new ≡ conn.old) × (worker.new ≡ worker.old)
        × (input.new ≡ input.old) × (output.new ≡ output.old) }
{
    if conn.is_closed {
        return Ok(State::Closed);
    }
    // Nobody looks at it.
    let mut tally = Tally::new();
    for _ in rt.forever() {
        match conn.turn_until(worker, input, output, &mut Open, PULL_BYTES, &mut tally)? {
            State::Closed => return Ok(State::Closed),
            State::Full => return Ok(State::Full),
            State::Idle => {}
            State::Busy => {}
        }
    }
    unreachable!()
}
