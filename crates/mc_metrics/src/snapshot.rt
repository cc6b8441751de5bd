//! The numbers that a scrape shows.
use mc_counters::Tally;
use mc_model::{Limits, Name};

/// The numbers of a tenant.
#[derive(Debug, Drop)]
pub struct TenantNumbers {
    pub name: Name,
    /// How many items the tenant holds.
    pub items: u64,
    /// How many bytes their keys and data have.
    pub bytes: u64,
    /// How many of each it may hold.
    pub quotas: Limits,
    /// How many connections the tenant has now.
    pub connections: u64,
    /// How its requests were answered since the server began.
    pub tally: Tally,
}

/// The numbers of a worker.
#[derive(Clone, Copy, Debug)]
pub struct WorkerNumbers {
    /// Which worker it is, counted from 0.
    pub number: u64,
    /// How many places of the log the worker has yet to replay, of those that are used.
    pub lag: u64,
    /// How many connections the worker serves now.
    pub connections: u64,
}

/// The numbers of the log that is served, and of those before it.
#[derive(Clone, Copy, Debug)]
pub struct LogNumbers {
    /// How many places it has, and how many of them are used.
    pub places: u64,
    pub used_places: u64,
    /// How many bytes its commands keep.
    pub bytes: u64,
    /// Which log it is, counted from 1.
    pub generation: u64,
    /// How many times a log has followed another.
    pub turn_overs: u64,
    /// How long these took in total, in microseconds.
    pub turn_over_micros: u64,
}

/// The numbers of a server at one time.
#[derive(Debug, Drop)]
pub struct Snapshot {
    pub tenants: Vec<TenantNumbers>,
    pub workers: Vec<WorkerNumbers>,
    pub log: LogNumbers,
    /// How many bytes of memory the process has resident, if the system says so.
    pub resident_bytes: Option<u64>,
}
