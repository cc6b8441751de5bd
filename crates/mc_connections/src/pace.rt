//! How much one serve of a connection takes of its stream.

use mc_conn::PULL_BYTES;

/// How much one serve of a connection takes.
#[derive(Clone, Copy)]
pub(crate) struct Share {
    /// How many requests a read is to bring at most, so that a turn is short where they are small;
    /// once as many were answered there is no further turn.
    pub requests: u64,
    /// How many bytes are written at most, so that a long reply doesn't hold up others.
    pub written: usize,
}

/// What a serve takes where only one tenant has connections: enough for a reply with the largest
/// item, of 1 MiB and a line.
pub(crate) const ALONE: Share = Share {
    requests: 32,
    written: 1_052_672,
};

/// What it takes where others have some too, who wait meanwhile: half as many requests, and of a
/// long reply a part.
pub(crate) const SHARED: Share = Share {
    requests: 16,
    written: 34_816,
};

/// How many bytes a read takes at most where a connection's requests are small, or not known yet.
const LEAST_READ: usize = 1_024;

/// The mean moves by one part in eight to what the last requests had.
const PART: u64 = 8;

/// How long the requests of a connection are, by those that came: what comes next is likely as
/// long.
#[derive(Clone, Copy)]
pub(crate) struct Pace {
    /// The mean of their bytes, of which the last ones count most.
    mean: u64,
    /// How many bytes came since a request was last answered.
    unanswered: u64,
}

impl Pace {
    /// Returns the pace of a connection of which nothing is known.
    pub(crate) fn new() -> Pace {
        Pace {
            mean: 0,
            unanswered: 0,
        }
    }

    /// Counts the bytes that came in one serve, and the requests that were answered; nothing where
    /// no byte came, since what comes next is likely as long as the last requests then.
    pub(crate) fn count(&mut self, bytes: u64, requests: u64) {
        if bytes == 0 {
            return;
        }
        let bytes = self.unanswered.saturating_add(bytes);
        match bytes.checked_div(requests) {
            Some(each) => {
                self.mean = (self.mean - self.mean / PART).saturating_add(each / PART);
                self.unanswered = 0;
            }
            None => self.unanswered = bytes,
        }
    }

    /// Returns how many bytes the next reads take at most, to bring this many requests.
    ///
    /// That is as many as a read may take if bytes came and nothing was answered yet, since a block
    /// may be on its way.
    pub(crate) fn most_read(&self, requests: u64) -> usize {
        if self.unanswered > 0 {
            return PULL_BYTES;
        }
        let bytes = self.mean.saturating_mul(requests) as usize;
        bytes.clamp(LEAST_READ, PULL_BYTES)
    }
}
