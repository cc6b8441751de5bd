//! How much memory the process has resident, by Linux's `/proc/self/status`.
use mc_counters::resident_in;
use std::fs::{File, Files};
use std::io::Read;

/// How many bytes of the file are read at most. It has less than half of them.
const MOST_BYTES: usize = 4_096;

/// Returns how many bytes of memory the process has resident, or `None` if the system doesn't say
/// so.
pub(crate) fn resident_bytes<R: Files>(rt: &R) -> Option<u64> {
    let mut file = File::open(rt, "/proc/self/status").ok()?;
    let mut lines = [0; MOST_BYTES];
    // One read gets all of such a file that there is room for.
    let count = file.read(&mut lines).ok()?;
    resident_in(&lines[..count])
}
