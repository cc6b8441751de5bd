//! The metrics, each with its name, its help and its type.
ghost use Rattle.std.specs.Prelude.{◌≡◌};
ghost use Rattle.mc_metrics.specs.Metrics.{command_label, metric_help, metric_name, refusal_label, server_value, tenant_value, metric_type, worker_value};

use crate::snapshot::{Snapshot, TenantNumbers, WorkerNumbers};
use mc_counters::CommandKind;
use mc_model::WireNo;

/// A metric of which each tenant has one sample.
#[derive(Clone, Copy, Debug, PartialEq, Eq)]
pub enum TenantMetric {
    Items,
    Bytes,
    ItemQuota,
    ByteQuota,
    Hits,
    Misses,
    Connections,
}

/// A metric of which each worker has one sample.
#[derive(Clone, Copy, Debug, PartialEq, Eq)]
pub enum WorkerMetric {
    Lag,
    Connections,
}

/// A metric of which the server has one sample.
#[derive(Clone, Copy, Debug, PartialEq, Eq)]
pub enum ServerMetric {
    Places,
    UsedPlaces,
    LogBytes,
    Generation,
    ResidentBytes,
}

/// A metric.
#[derive(Clone, Copy, Debug, PartialEq, Eq)]
pub enum Metric {
    OfTenant(TenantMetric),
    /// A sample for each tenant and kind of commands.
    Commands,
    /// A sample for each tenant and kind of refusals.
    Refusals,
    OfWorker(WorkerMetric),
    OfServer(ServerMetric),
    /// How many turn overs there were, and how long they took in total.
    TurnOvers,
    /// Which build of which version runs.
    Build,
}

/// All metrics, in the order in which they are written.
pub const METRICS: [Metric; 18] = [
    Metric::OfTenant(TenantMetric::Items),
    Metric::OfTenant(TenantMetric::Bytes),
    Metric::OfTenant(TenantMetric::ItemQuota),
    Metric::OfTenant(TenantMetric::ByteQuota),
    Metric::Commands,
    Metric::OfTenant(TenantMetric::Hits),
    Metric::OfTenant(TenantMetric::Misses),
    Metric::Refusals,
    Metric::OfTenant(TenantMetric::Connections),
    Metric::OfWorker(WorkerMetric::Lag),
    Metric::OfWorker(WorkerMetric::Connections),
    Metric::OfServer(ServerMetric::Places),
    Metric::OfServer(ServerMetric::UsedPlaces),
    Metric::OfServer(ServerMetric::LogBytes),
    Metric::OfServer(ServerMetric::Generation),
    Metric::TurnOvers,
    Metric::OfServer(ServerMetric::ResidentBytes),
    Metric::Build,
];

/// The samples of the turn overs: how long they took in total, and how many there were.
pub(crate) const TURN_OVER_SUM: &[u8] = b"wfmc_turn_over_seconds_sum";

pub(crate) const TURN_OVER_COUNT: &[u8] = b"wfmc_turn_over_seconds_count";

/// The version that the metrics show.
pub(crate) const VERSION: &[u8] = b"1.0.0";

/// The logic of the kit that the server is proved with, as `rt version` prints it.
pub(crate) const LOGIC: &[u8] = b"dac8208d650f15bf";

impl TenantMetric {
    /// Returns a tenant's number.
    pub(crate) fn value(self, tenant: &TenantNumbers) -> u64
        ensures { result ≡ tenant_value self tenant.now }
    {
        match self {
            TenantMetric::Items => tenant.items,
            TenantMetric::Bytes => tenant.bytes,
            TenantMetric::ItemQuota => tenant.quotas.items,
            TenantMetric::ByteQuota => tenant.quotas.bytes,
            TenantMetric::Hits => tenant.tally.hits,
            TenantMetric::Misses => tenant.tally.misses,
            TenantMetric::Connections => tenant.connections,
        }
    }
}

impl WorkerMetric {
    /// Returns a worker's number.
    pub(crate) fn value(self, worker: &WorkerNumbers) -> u64
        ensures { result ≡ worker_value self worker.now }
    {
        match self {
            WorkerMetric::Lag => worker.lag,
            WorkerMetric::Connections => worker.connections,
        }
    }
}

impl ServerMetric {
    /// Returns the server's number, or `None` if it isn't known.
    pub(crate) fn value(self, snapshot: &Snapshot) -> Option<u64>
        ensures { result ≡ server_value self snapshot.now }
    {
        match self {
            ServerMetric::Places => Some(snapshot.log.places),
            ServerMetric::UsedPlaces => Some(snapshot.log.used_places),
            ServerMetric::LogBytes => Some(snapshot.log.bytes),
            ServerMetric::Generation => Some(snapshot.log.generation),
            ServerMetric::ResidentBytes => snapshot.resident_bytes,
        }
    }
}

impl Metric {
    /// Returns the metric's name.
    pub(crate) fn name(self) -> &'static [u8]
        ensures { result.now ≡ metric_name self }
    {
        match self {
            Metric::OfTenant(TenantMetric::Items) => b"wfmc_tenant_items",
            Metric::OfTenant(TenantMetric::Bytes) => b"wfmc_tenant_bytes",
            Metric::OfTenant(TenantMetric::ItemQuota) => b"wfmc_tenant_quota_items",
            Metric::OfTenant(TenantMetric::ByteQuota) => b"wfmc_tenant_quota_bytes",
            Metric::OfTenant(TenantMetric::Hits) => b"wfmc_tenant_hits_total",
            Metric::OfTenant(TenantMetric::Misses) => b"wfmc_tenant_misses_total",
            Metric::OfTenant(TenantMetric::Connections) => b"wfmc_tenant_connections",
            Metric::Commands => b"wfmc_tenant_commands_total",
            Metric::Refusals => b"wfmc_tenant_refusals_total",
            Metric::OfWorker(WorkerMetric::Lag) => b"wfmc_worker_lag_places",
            Metric::OfWorker(WorkerMetric::Connections) => b"wfmc_worker_connections",
            Metric::OfServer(ServerMetric::Places) => b"wfmc_log_places",
            Metric::OfServer(ServerMetric::UsedPlaces) => b"wfmc_log_used_places",
            Metric::OfServer(ServerMetric::LogBytes) => b"wfmc_log_bytes",
            Metric::OfServer(ServerMetric::Generation) => b"wfmc_log_generation",
            Metric::OfServer(ServerMetric::ResidentBytes) => b"process_resident_memory_bytes",
            Metric::TurnOvers => b"wfmc_turn_over_seconds",
            Metric::Build => b"wfmc_build_info",
        }
    }

    /// Returns what the metric tells.
    pub(crate) fn help(self) -> &'static [u8]
        ensures { result.now ≡ metric_help self }
    {
        match self {
            Metric::OfTenant(TenantMetric::Items) => b"Items that the tenant holds.",
            Metric::OfTenant(TenantMetric::Bytes) => {
                b"Bytes of keys and data that the tenant holds."
            }
            Metric::OfTenant(TenantMetric::ItemQuota) => b"Items that the tenant may hold.",
            Metric::OfTenant(TenantMetric::ByteQuota) => {
                b"Bytes of keys and data that the tenant may hold."
            }
            Metric::OfTenant(TenantMetric::Hits) => b"Items that retrievals found.",
            Metric::OfTenant(TenantMetric::Misses) => b"Keys of retrievals that had no item.",
            Metric::OfTenant(TenantMetric::Connections) => b"Connections of the tenant.",
            Metric::Commands => b"Commands that were answered.",
            Metric::Refusals => b"Requests that were refused.",
            Metric::OfWorker(WorkerMetric::Lag) => {
                b"Used places of the log that the worker has yet to replay."
            }
            Metric::OfWorker(WorkerMetric::Connections) => b"Connections that the worker serves.",
            Metric::OfServer(ServerMetric::Places) => b"Places of the log.",
            Metric::OfServer(ServerMetric::UsedPlaces) => b"Places of the log that are used.",
            Metric::OfServer(ServerMetric::LogBytes) => b"Bytes that the commands in the log keep.",
            Metric::OfServer(ServerMetric::Generation) => {
                b"Which log is served, counted from 1."
            }
            Metric::OfServer(ServerMetric::ResidentBytes) => {
                b"Resident memory of the process in bytes."
            }
            Metric::TurnOvers => b"Time from the end of a log to the beginning of the next.",
            Metric::Build => b"The version that runs, and the logic that it is proved in.",
        }
    }

    /// Returns the metric's type.
    pub(crate) fn kind(self) -> &'static [u8]
        ensures { result.now ≡ metric_type self }
    {
        match self {
            Metric::OfTenant(TenantMetric::Hits | TenantMetric::Misses)
            | Metric::Commands
            | Metric::Refusals => b"counter",
            Metric::TurnOvers => b"summary",
            Metric::OfTenant(_) | Metric::OfWorker(_) | Metric::OfServer(_) | Metric::Build => {
                b"gauge"
            }
        }
    }
}

/// Returns the label of a kind of commands.
pub(crate) fn command_label(kind: CommandKind) -> &'static [u8]
    ensures { result.now ≡ command_label kind }
{
    match kind {
        CommandKind::Get => b"get",
        CommandKind::Gets => b"gets",
        CommandKind::Set => b"set",
        CommandKind::Add => b"add",
        CommandKind::Replace => b"replace",
        CommandKind::Append => b"append",
        CommandKind::Prepend => b"prepend",
        CommandKind::Cas => b"cas",
        CommandKind::Delete => b"delete",
        CommandKind::Incr => b"incr",
        CommandKind::Decr => b"decr",
        CommandKind::Flush => b"flush_all",
        CommandKind::Limit => b"limit",
    }
}

/// Returns the label of a kind of refusals.
pub(crate) fn refusal_label(refusal: WireNo) -> &'static [u8]
    ensures { result.now ≡ refusal_label refusal }
{
    match refusal {
        WireNo::E1 => b"unknown_command",
        WireNo::E2 => b"bad_format",
        WireNo::E3 => b"bad_block",
        WireNo::E4 => b"no_expiry",
        WireNo::E5 => b"line_too_long",
        WireNo::E6 => b"too_large",
        WireNo::E7 => b"no_room",
        WireNo::E8 => b"not_a_number",
        WireNo::E9 => b"bad_delta",
        WireNo::E10 => b"log_full",
        WireNo::E11 => b"out_of_memory",
    }
}
