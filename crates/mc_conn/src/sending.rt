//! Pushing what is queued.
ghost use Rattle.std.specs.Prelude.{◌≡◌, ◌⊎◌, ℕ, ◌+◌, ◌≤◌, [], Bool, length, take, drop, MatchResult, OnOk};
ghost use Rattle.mc_stream.specs.Event.{waits};
ghost use Rattle.mc_stream.specs.Pushing.{Pushes, StopsAs};
ghost use Rattle.mc_stream.specs.Stream.{Inflow, both};
ghost use Rattle.uc_worker.specs.declared.worker.Worker.{Worker};
ghost use Rattle.mc_conn.specs.Parts.{BreaksFor, Does, IsSameBesideQueue};
ghost use Rattle.mc_conn.specs.Turn.{queue_of, scene};

use crate::conn::Conn;
use crate::queue::Queue;
use mc_model::Fault;
use mc_stream::{Output, Push, Stop};

/// Pushes what is queued while the output takes it, and drops what was taken. Returns how many
/// bytes were taken, and why no more were.
fn push_queue<O: Output>(queue: &mut Queue, output: &mut O) -> (usize, Stop)
    ensures within { result.0 ≤ length queue.old }
    ensures pushed { Pushes (O.tells output.old) (O.tells output.new) (take result.0 queue.old) }
    ensures left { queue.new ≡ drop result.0 queue.old }
    ensures stop { StopsAs result.1 result.0 (length queue.old) (O.tells output.old)
        (O.tells output.new) }
{
    let all = queue.len();
    let mut sent = 0;
    while sent < all {
        let (first, second, third) = queue.front();
        match output.push_parts(first, second, third) {
            Push::Taken(count) => {
                queue.advance(count);
                sent += count;
            }
            Push::Full => return (sent, Stop::Full),
            Push::Failed => return (sent, Stop::Failed),
        }
    }
    (sent, Stop::All)
}

impl Conn {
    /// Pushes what is queued, until all is taken or the output takes no more. Returns whether any
    /// was taken.
    ///
    /// Returns `Output` if the output fails.
    pub(crate) fn push<O: Output>(&mut self, output: &mut O) -> Result<bool, Fault>
        ensures outcome { MatchResult result
            (λ did. (until : Bool) (left : ℕ) (worker : Worker) (input : Inflow) →
            Does until left (scene self.old worker (both input (O.tells output.old)))
            (scene self.new worker (both input (O.tells output.new))) did left)
            (λ fault. (until : Bool) (worker : Worker) (input : Inflow) →
            BreaksFor until (scene self.old worker (both input (O.tells output.old)))
            (scene self.new worker (both input (O.tells output.new))) fault) }
        ensures left { OnOk result
            ((queue_of self.new ≡ [])
            ⊎ (waits (O.tells output.new).events ≡ waits (O.tells output.old).events + 1)) }
        ensures within { length (queue_of self.new) ≤ length (queue_of self.old) }
        ensures same { IsSameBesideQueue self.old self.new }
    {
        let (count, stop) = push_queue(&mut self.queue, output);
        match stop {
            Stop::All => Ok(count > 0),
            Stop::Full => Ok(count > 0),
            Stop::Failed => Err(Fault::Output),
        }
    }
}
