//! Signals between threads, with a bound on how long a thread waits for one.
use std::sync::atomic::{AtomicBool, AtomicU64, Ordering};
use std::thread;

/// How often a flag is loaded before the test gives up on its thread.
const LOOKS: u32 = 10_000_000;

/// Returns whether the flag is raised in time.
pub(crate) fn comes(flag: &AtomicBool) -> bool {
    for _ in 0..LOOKS {
        if flag.load(Ordering::SeqCst) {
            return true;
        }
        thread::yield_now();
    }
    false
}

/// Returns whether the count comes to this in time.
pub(crate) fn counts_to(count: &AtomicU64, end: u64) -> bool {
    for _ in 0..LOOKS {
        if count.load(Ordering::SeqCst) >= end {
            return true;
        }
        thread::yield_now();
    }
    false
}
