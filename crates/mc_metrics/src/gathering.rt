//! The numbers of a server at one time, by what its workers show.
ghost use Rattle.std.specs.Option.{MatchOption};
ghost use Rattle.std.specs.Prelude.{◌≡◌, ◌++◌, ◌↔◌, ◌<◌, [], IfOk, IsOkUnless, IsTrue, OnOk, length};
ghost use Rattle.mc_metrics.specs.Gathering.{Gathers, GathersNone, IsFurthest, IsNoFurther, connections_shown, kept_in, log_shown, replayed_in, tally_at, tally_shown, tenant_numbers, tenant_shown, tenants_shown, workers_shown};

use crate::snapshot::{LogNumbers, Snapshot, TenantNumbers, WorkerNumbers};
use mc_counters::{LogShown, Tally, TenantShown, WorkerShown};
use mc_model::{Fault, Limits, Name};
use std::alloc::{AllocError, Global};

/// What a worker shows, of itself and of each tenant.
#[derive(Debug, Drop)]
pub struct Shown {
    pub worker: WorkerShown,
    /// By the tenants' numbers.
    pub tenants: Vec<TenantShown>,
    /// How the worker has answered the requests of each tenant, by the tenants' numbers.
    pub tallies: Vec<Tally>,
}

/// What a server shows at one time.
#[derive(Debug, Drop)]
pub struct ServerShown {
    /// How many places each log has.
    pub places: u64,
    pub logs: LogShown,
    /// By the workers' numbers.
    pub workers: Vec<Shown>,
    /// How many bytes of memory the process has resident, if the system says so.
    pub resident_bytes: Option<u64>,
}

/// What is shown of a tenant that a worker doesn't know.
pub(crate) const NOTHING: TenantShown = TenantShown {
    connections: 0,
    items: 0,
    bytes: 0,
    quotas: Limits { items: 0, bytes: 0 },
};

/// What a worker shows that has done nothing yet.
const NO_WORKER: WorkerShown = WorkerShown {
    generation: 0,
    replayed: 0,
    bytes: 0,
    connections: 0,
};

/// Returns whether a worker has come no further than another.
fn is_no_further(one: &WorkerShown, other: &WorkerShown) -> bool
    ensures { IsTrue result ↔ IsNoFurther one.now other.now }
{
    one.generation < other.generation
        || (one.generation == other.generation && one.replayed <= other.replayed)
}

/// Returns a worker that has come as far as any other, or `None` if there is none.
fn furthest(workers: &[Shown]) -> Option<&Shown>
    ensures { MatchOption result (workers.now ≡ []) (λ one. IsFurthest workers.now one.now) }
{
    match workers {
        [] => None,
        [first, rest @ ..] => match furthest(rest) {
            Some(other) => {
                if is_no_further(&other.worker, &first.worker) {
                    Some(first)
                } else {
                    Some(other)
                }
            }
            None => Some(first),
        },
    }
}

/// Returns how many places of the log of this number a worker has replayed.
fn replayed_in(generation: u64, worker: &WorkerShown) -> u64
    ensures { result ≡ replayed_in generation worker.now }
{
    if worker.generation == generation {
        worker.replayed
    } else {
        0
    }
}

/// Returns how many bytes the commands of the log of this number keep that a worker has replayed.
fn kept_in(generation: u64, worker: &WorkerShown) -> u64
    ensures { result ≡ kept_in generation worker.now }
{
    if worker.generation == generation {
        worker.bytes
    } else {
        0
    }
}

impl Shown {
    /// Returns what the worker shows of the tenant of this number.
    fn tenant(&self, number: usize) -> TenantShown
        ensures { result ≡ tenant_shown number self.now }
    {
        self.tenants.get(number).copied().unwrap_or(NOTHING)
    }

    /// Returns how the worker shows that it has answered the requests of the tenant of this number.
    fn tally(&self, number: usize) -> Tally
        ensures { result ≡ tally_at number self.now }
    {
        self.tallies.get(number).copied().unwrap_or(Tally::NONE)
    }
}

/// Returns how many connections of the tenant of this number these workers serve, `u64::MAX` at
/// most.
fn connections_of(number: usize, workers: &[Shown]) -> u64
    ensures { result ≡ connections_shown number workers.now }
{
    match workers {
        [] => 0,
        [first, rest @ ..] => {
            let others = connections_of(number, rest);
            first.tenant(number).connections.saturating_add(others)
        }
    }
}

/// Returns how these workers together have answered the requests of the tenant of this number.
fn tally_of(number: usize, workers: &[Shown]) -> Tally
    ensures { result ≡ tally_shown number workers.now }
{
    match workers {
        [] => Tally::NONE,
        [first, rest @ ..] => {
            let mut tally = first.tally(number);
            tally.add(&tally_of(number, rest));
            tally
        }
    }
}

/// Returns the numbers of a tenant: of its table as the leader shows it, and of its connections to
/// all workers and its requests.
///
/// Returns `Memory` if memory runs out.
fn numbers_of(
    alloc: Global,
    name: &Name,
    number: usize,
    leader: &Shown,
    workers: &[Shown],
) -> Result<TenantNumbers, Fault>
    ensures numbers { IfOk result
        (λ numbers. numbers ≡ tenant_numbers workers.now leader.now number name.now) }
    ensures memory { IsOkUnless result Fault.Memory }
{
    let Some(name) = Name::new(alloc, name.as_bytes())? else {
        unreachable!()
    };
    let table = leader.tenant(number);
    Ok(TenantNumbers {
        name,
        items: table.items,
        bytes: table.bytes,
        quotas: table.quotas,
        connections: connections_of(number, workers),
        tally: tally_of(number, workers),
    })
}

/// Appends the numbers of the tenants with these names, which follow those that are there.
///
/// Returns `Memory` if memory runs out.
fn write_tenants(
    alloc: Global,
    names: &[Name],
    leader: &Shown,
    workers: &[Shown],
    out: &mut Vec<TenantNumbers>,
) -> Result<(), Fault>
    ensures shown { OnOk result (out.new.items ≡ out.old.items
        ++ tenants_shown workers.now leader.now (length out.old.items) names.now) }
    ensures memory { IsOkUnless result Fault.Memory }
{
    match names {
        [] => Ok(()),
        [name, rest @ ..] => {
            let number = out.len();
            out.push(numbers_of(alloc, name, number, leader, workers)?)?;
            write_tenants(alloc, rest, leader, workers, out)
        }
    }
}

/// Appends the numbers of these workers, which follow those that are there. `used` places of the
/// log of this number are used.
///
/// Returns an error if memory runs out.
fn write_workers(
    generation: u64,
    used: u64,
    workers: &[Shown],
    out: &mut Vec<WorkerNumbers>,
) -> Result<(), AllocError>
    ensures { OnOk result (out.new.items ≡ out.old.items
        ++ workers_shown generation used (length out.old.items) workers.now) }
{
    match workers {
        [] => Ok(()),
        [first, rest @ ..] => {
            let number = out.len() as u64;
            out.push(WorkerNumbers {
                number,
                lag: used.saturating_sub(replayed_in(generation, &first.worker)),
                connections: first.worker.connections,
            })?;
            write_workers(generation, used, rest, out)
        }
    }
}

/// Returns the numbers of the log that is served, by the leader, and of those before it.
fn log_numbers(shown: &ServerShown, leader: &WorkerShown) -> LogNumbers
    ensures { result ≡ log_shown shown.now leader.now }
{
    let generation = shown.logs.generation;
    LogNumbers {
        places: shown.places,
        used_places: replayed_in(generation, leader),
        bytes: kept_in(generation, leader),
        generation,
        turn_overs: shown.logs.turn_overs,
        turn_over_micros: shown.logs.turn_over_micros,
    }
}

/// Returns the numbers of a server whose tenants have these names, in their order: of the tables as
/// the worker shows them that has come furthest, and of the requests to all workers. Without a
/// worker no tenant is shown, and no place as used.
///
/// Returns `Memory` if memory runs out.
pub fn snapshot_of(alloc: Global, names: &[Name], shown: &ServerShown) -> Result<Snapshot, Fault>
    ensures gathers { IfOk result (λ snapshot. (0 < length shown.now.workers.items) →
        Gathers names.now shown.now snapshot) }
    ensures none { IfOk result (λ snapshot. (shown.now.workers.items ≡ []) →
        GathersNone shown.now snapshot) }
    ensures memory { IsOkUnless result Fault.Memory }
{
    let mut tenants = Vec::new(alloc);
    let mut workers = Vec::new(alloc);
    let resident_bytes = shown.resident_bytes;
    let Some(leader) = furthest(&shown.workers) else {
        let log = log_numbers(shown, &NO_WORKER);
        return Ok(Snapshot {
            tenants,
            workers,
            log,
            resident_bytes,
        });
    };
    let log = log_numbers(shown, &leader.worker);
    let all = &shown.workers;
    write_tenants(alloc, names, leader, all, &mut tenants)?;
    write_workers(log.generation, log.used_places, all, &mut workers)?;
    Ok(Snapshot {
        tenants,
        workers,
        log,
        resident_bytes,
    })
}
