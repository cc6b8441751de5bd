//! Words by which a server shows its numbers to a thread that looks on.
//!
//! A worker's `Publisher` is the only one that writes its words, and a `LogPublisher` those of the
//! logs: there is no second one for them, and a board only reads. None takes a lock or makes a call
//! of the system. A look reads one word after another, so it may see some of them as they were
//! before a publication and some as they are after it. No clause says what a word holds, since
//! another thread may change it at any time.
ghost use Rattle.std.specs.Prelude.{◌^◌, ◌<◌};

use crate::kinds::{COMMANDS, REFUSALS};
use crate::tally::Tally;
use mc_model::{Limits, TenantId};
use std::alloc::{AllocError, Global};
use std::sync::Arc;
use std::sync::atomic::{AtomicU64, Ordering};

/// What a worker shows of a tenant.
#[derive(Clone, Copy, Debug, PartialEq, Eq)]
pub struct TenantShown {
    /// How many connections of the tenant the worker serves.
    pub connections: u64,
    /// How many items the tenant's table holds, and how many bytes their keys and data have.
    pub items: u64,
    pub bytes: u64,
    /// How many of each it may hold.
    pub quotas: Limits,
}

/// What a worker shows of itself.
#[derive(Clone, Copy, Debug, PartialEq, Eq)]
pub struct WorkerShown {
    /// Which log it replays, counted from 1, or 0 before the first.
    pub generation: u64,
    /// How many places of that log it has replayed.
    pub replayed: u64,
    /// How many bytes the commands there keep.
    pub bytes: u64,
    /// How many connections it serves, of tenants and administrators.
    pub connections: u64,
}

/// What a server shows of its logs.
#[derive(Clone, Copy, Debug, PartialEq, Eq)]
pub struct LogShown {
    /// Which log is served, counted from 1, or 0 before the first.
    pub generation: u64,
    /// How many times a log has followed another.
    pub turn_overs: u64,
    /// How long these took in total, in microseconds.
    pub turn_over_micros: u64,
}

/// Where a tenant's words are, after those before it: its commands by kind, and then these.
const REFUSALS_AT: usize = COMMANDS;

const HITS_AT: usize = REFUSALS_AT + REFUSALS;

const MISSES_AT: usize = HITS_AT + 1;

const CONNECTIONS_AT: usize = MISSES_AT + 1;

const ITEMS_AT: usize = CONNECTIONS_AT + 1;

const BYTES_AT: usize = ITEMS_AT + 1;

const ITEM_QUOTA_AT: usize = BYTES_AT + 1;

const BYTE_QUOTA_AT: usize = ITEM_QUOTA_AT + 1;

/// How many words a tenant has.
const TENANT_WORDS: usize = BYTE_QUOTA_AT + 1;

/// Where the words of the worker itself are.
const REPLAYED_AT: usize = 0;

const LOG_BYTES_AT: usize = REPLAYED_AT + 1;

const SERVED_AT: usize = LOG_BYTES_AT + 1;

const WORKER_GENERATION_AT: usize = SERVED_AT + 1;

/// How many words the worker itself has, before those of the tenants.
const WORKER_WORDS: usize = WORKER_GENERATION_AT + 1;

/// Where the words of the logs are.
const GENERATION_AT: usize = 0;

const TURN_OVERS_AT: usize = GENERATION_AT + 1;

const TURN_OVER_MICROS_AT: usize = TURN_OVERS_AT + 1;

/// How many words the logs have.
const LOG_WORDS: usize = TURN_OVER_MICROS_AT + 1;

/// The words of a worker, or of the logs.
#[derive(Drop)]
struct Words {
    words: Vec<AtomicU64>,
}

/// Returns where the words of a tenant begin.
fn begin_of(tenant: TenantId) -> usize
    ensures { result < 2 ^ 16 }
{
    WORKER_WORDS + usize::from(tenant.number()) * TENANT_WORDS
}

impl Words {
    /// Returns this many words, all of them 0.
    ///
    /// Returns an error if memory runs out.
    fn new(alloc: Global, count: usize) -> Result<Words, AllocError> {
        let mut words = Vec::new(alloc);
        for _ in 0..count {
            words.push(AtomicU64::new(0))?;
        }
        Ok(Words { words })
    }

    /// Sets a word, unless it holds the number already: a word that is left as it is stays in the
    /// caches of all that read it. One that isn't there is left out.
    fn set(&self, place: usize, number: u64) {
        if let Some(word) = self.words.get(place) {
            if word.load(Ordering::SeqCst) != number {
                word.store(number, Ordering::SeqCst);
            }
        }
    }

    /// Returns a word, and 0 for one that isn't there.
    fn get(&self, place: usize) -> u64 {
        match self.words.get(place) {
            Some(word) => word.load(Ordering::SeqCst),
            None => 0,
        }
    }
}

/// The words of a worker, for whoever looks on.
#[derive(Drop)]
pub struct Board {
    words: Arc<Words>,
}

/// The words of a worker, for the worker.
#[derive(Drop)]
pub struct Publisher {
    words: Arc<Words>,
    log: Arc<Words>,
}

/// The words of the logs, for whoever looks on.
#[derive(Drop)]
pub struct LogBoard {
    words: Arc<Words>,
}

/// The words of the logs, for the one who serves them.
#[derive(Drop)]
pub struct LogPublisher {
    words: Arc<Words>,
}

/// Returns the words of the logs, all of them 0, to write and to read.
///
/// Returns an error if memory runs out.
pub fn new_log_board(alloc: Global) -> Result<(LogPublisher, LogBoard), AllocError> {
    let written = Arc::new(alloc, Words::new(alloc, LOG_WORDS)?)?;
    let read = written.clone()?;
    Ok((LogPublisher { words: written }, LogBoard { words: read }))
}

/// Returns the words of a worker of these logs for this many tenants, all of them 0, to write and
/// to read.
///
/// Returns an error if memory runs out.
pub fn new_board(
    alloc: Global,
    tenants: usize,
    log: &LogBoard,
) -> Result<(Publisher, Board), AllocError> {
    let count = tenants.saturating_mul(TENANT_WORDS);
    let words = Words::new(alloc, count.saturating_add(WORKER_WORDS))?;
    let written = Arc::new(alloc, words)?;
    let read = written.clone()?;
    let publisher = Publisher {
        words: written,
        log: log.words.clone()?,
    };
    Ok((publisher, Board { words: read }))
}

impl LogPublisher {
    /// Shows that the log of this number is served, counted from 1.
    pub fn show_generation(&mut self, generation: u64) {
        self.words.set(GENERATION_AT, generation);
    }

    /// Counts that a log has followed another, which took this many microseconds.
    pub fn count_turn_over(&mut self, micros: u64) {
        let total = self.words.get(TURN_OVER_MICROS_AT);
        self.words
            .set(TURN_OVER_MICROS_AT, total.saturating_add(micros));
        let count = self.words.get(TURN_OVERS_AT);
        self.words.set(TURN_OVERS_AT, count.saturating_add(1));
    }
}

impl LogBoard {
    /// Returns what is shown of the logs.
    pub fn logs(&self) -> LogShown {
        LogShown {
            generation: self.words.get(GENERATION_AT),
            turn_overs: self.words.get(TURN_OVERS_AT),
            turn_over_micros: self.words.get(TURN_OVER_MICROS_AT),
        }
    }
}

impl Publisher {
    /// Shows the worker's numbers in the log that is served: how many places it has replayed, how
    /// many bytes their commands keep, and how many connections it serves.
    pub fn show_worker(&mut self, replayed: u64, bytes: u64, connections: u64) {
        self.words
            .set(WORKER_GENERATION_AT, self.log.get(GENERATION_AT));
        self.words.set(REPLAYED_AT, replayed);
        self.words.set(LOG_BYTES_AT, bytes);
        self.words.set(SERVED_AT, connections);
    }

    /// Shows the numbers of a tenant.
    pub fn show_tenant(&mut self, tenant: TenantId, shown: &TenantShown) {
        let begin = begin_of(tenant);
        self.words.set(begin + CONNECTIONS_AT, shown.connections);
        self.words.set(begin + ITEMS_AT, shown.items);
        self.words.set(begin + BYTES_AT, shown.bytes);
        self.words.set(begin + ITEM_QUOTA_AT, shown.quotas.items);
        self.words.set(begin + BYTE_QUOTA_AT, shown.quotas.bytes);
    }

    /// Shows how the worker has answered the requests of a tenant.
    pub fn show_tally(&mut self, tenant: TenantId, tally: &Tally) {
        let begin = begin_of(tenant);
        for (place, count) in tally.commands.iter().enumerate() {
            self.words.set(begin + place, *count);
        }
        for (place, count) in tally.refusals.iter().enumerate() {
            self.words.set(begin + REFUSALS_AT + place, *count);
        }
        self.words.set(begin + HITS_AT, tally.hits);
        self.words.set(begin + MISSES_AT, tally.misses);
    }
}

impl Board {
    /// Returns what the worker shows of itself.
    pub fn worker(&self) -> WorkerShown {
        WorkerShown {
            generation: self.words.get(WORKER_GENERATION_AT),
            replayed: self.words.get(REPLAYED_AT),
            bytes: self.words.get(LOG_BYTES_AT),
            connections: self.words.get(SERVED_AT),
        }
    }

    /// Returns what the worker shows of a tenant.
    pub fn tenant(&self, tenant: TenantId) -> TenantShown {
        let begin = begin_of(tenant);
        TenantShown {
            connections: self.words.get(begin + CONNECTIONS_AT),
            items: self.words.get(begin + ITEMS_AT),
            bytes: self.words.get(begin + BYTES_AT),
            quotas: Limits {
                items: self.words.get(begin + ITEM_QUOTA_AT),
                bytes: self.words.get(begin + BYTE_QUOTA_AT),
            },
        }
    }

    /// Returns how the worker shows that it has answered the requests of a tenant.
    pub fn tally(&self, tenant: TenantId) -> Tally {
        let begin = begin_of(tenant);
        let mut tally = Tally::new();
        for (place, count) in tally.commands.iter_mut().enumerate() {
            *count = self.words.get(begin + place);
        }
        for (place, count) in tally.refusals.iter_mut().enumerate() {
            *count = self.words.get(begin + REFUSALS_AT + place);
        }
        tally.hits = self.words.get(begin + HITS_AT);
        tally.misses = self.words.get(begin + MISSES_AT);
        tally
    }
}
