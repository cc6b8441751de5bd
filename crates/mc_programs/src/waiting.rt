//! Pushing to an output that may be full.
ghost use Rattle.std.specs.Prelude.{MatchResult};
ghost use Rattle.mc_programs.specs.Waiting.{FailsToPush, PushesAll};

use mc_model::Fault;
use mc_stream::{Output, Push};
use std::sync::Wait;

/// Pushes all of the bytes. An output that is full is asked again.
///
/// Returns `Output` if the output fails.
pub fn push_all<R: Wait, O: Output>(rt: &R, bytes: &[u8], output: &mut O) -> Result<(), Fault>
    ensures outcome { MatchResult result
        (λ _. PushesAll bytes.now (O.tells output.old) (O.tells output.new))
        (FailsToPush bytes.now (O.tells output.old) (O.tells output.new)) }
{
    let mut sent = 0;
    for _ in rt.forever() {
        if sent == bytes.len() {
            return Ok(());
        }
        match output.push(&bytes[sent..]) {
            Push::Taken(count) => sent += count,
            Push::Full => {}
            Push::Failed => return Err(Fault::Output),
        }
    }
    unreachable!()
}
