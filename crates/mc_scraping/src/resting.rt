//! How long the loop rests between two rounds.
ghost use Rattle.std.specs.Prelude.{◌≡◌, ◌*◌, min};
ghost use Rattle.std.specs.Duration.{as_nanos};

use std::time::Duration;

/// How many times as long as a round took the loop rests after it, as far as `MOST_MILLIS` lets it:
/// so it takes an eighth of a processor at most while no round takes longer than 14 milliseconds.
const TIMES: u32 = 7;

/// How long the loop rests at most, in milliseconds.
const MOST_MILLIS: u64 = 100;

/// Returns how long the loop rests after a round that took so long.
pub(crate) fn rest_after(spent: Duration) -> Duration
    ensures { as_nanos result ≡ min (7 * as_nanos spent) 100_000_000 }
{
    spent
        .saturating_mul(TIMES)
        .min(Duration::from_millis(MOST_MILLIS))
}
