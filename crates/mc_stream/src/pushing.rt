//! Pushing bytes to an output that may take them in pieces.
ghost use Rattle.std.specs.Bool.{OnFalse, OnTrue};
ghost use Rattle.std.specs.Prelude.{◌≤◌, length, take};
ghost use Rattle.mc_stream.specs.Event.{waits};
ghost use Rattle.mc_stream.specs.Pushing.{IsStopped, IsUnfailed, Pushes, PushesAtOnce, StopsAs};

use crate::stream::{Output, Push};

/// Why no more bytes were pushed.
#[derive(Clone, Copy, Debug, PartialEq, Eq)]
pub enum Stop {
    /// All were taken.
    All,
    /// The output took no more.
    Full,
    /// The output failed.
    Failed,
}

/// Pushes bytes until all are taken, or the output is full or fails. Returns how many were taken,
/// and why it stopped.
pub fn push_front<O: Output>(bytes: &[u8], output: &mut O) -> (usize, Stop)
    ensures within { result.0 ≤ length bytes.now }
    ensures pushed { Pushes (O.tells output.old) (O.tells output.new) (take result.0 bytes.now) }
    ensures stop { StopsAs result.1 result.0 (length bytes.now) (O.tells output.old)
        (O.tells output.new) }
{
    let mut sent = 0;
    while sent < bytes.len() {
        match output.push(&bytes[sent..]) {
            Push::Taken(count) => sent += count,
            Push::Full => return (sent, Stop::Full),
            Push::Failed => return (sent, Stop::Failed),
        }
    }
    (sent, Stop::All)
}

/// Pushes bytes until all are taken, or the output is full or fails. Returns whether all were
/// taken.
pub fn push_while_taken<O: Output>(bytes: &[u8], output: &mut O) -> bool
    ensures pushed { PushesAtOnce bytes.now (O.tells output.old) (O.tells output.new) }
    ensures all { OnTrue result (Pushes (O.tells output.old) (O.tells output.new) bytes.now) }
    ensures taken { OnTrue result (IsUnfailed (O.tells output.old) (O.tells output.new)) }
    ensures stopped { OnFalse result (IsStopped (O.tells output.old) (O.tells output.new)) }
    ensures waited { waits (O.tells output.old).events ≤ waits (O.tells output.new).events }
{
    let (_, stop) = push_front(bytes, output);
    match stop {
        Stop::All => true,
        Stop::Full => false,
        Stop::Failed => false,
    }
}
