//! Tenants and administrators who are served over sockets on loopback.
ghost use Rattle.std.proofs.Props.{props};
ghost use Rattle.std.specs.Prelude.{◌≡◌, ℕ, ⊤, All, IfOk, Some, length, slice_get};
ghost use Rattle.mc_conn.specs.Owed.{IsAmong, IsAmong-prop};
ghost use Rattle.uc_log.specs.Passes.{IsUnusedPass};

use crate::signals::Holding;
use mc_conn::Role;
use mc_model::{Fault, Limits, Names, Settings, TenantId};
use mc_net::{Begin, BoundListener, into_workers, serve};
use std::alloc::{AllocError, Global};
use std::io;
use std::io::ErrorKind;
use std::net::{Ipv4Addr, Net, SocketAddr, SocketAddrV4};
use std::sync::Wait;
use std::thread::Threads;
use uc_cells::Seen;
use uc_log::{Log, Pass};
use uc_worker::{Hashing, Worker};

/// How many places each log has.
const PLACES: u64 = 1_024;

/// The quotas of all tenants, the listeners of each that has any, and those of administrators.
#[derive(Drop)]
pub(crate) struct House {
    pub(crate) quotas: Vec<Limits>,
    pub(crate) listeners: Vec<(Role, BoundListener)>,
    ghost known: { All (λ listener. IsAmong listener.0 (length quotas.items)) listeners.items } by { Prim.hlevel (props, IsAmong-prop) },
}

/// Returns a listener at a free port, and its address.
fn bound<R: Net>(rt: &R) -> io::Result<(BoundListener, SocketAddr)> {
    let listener = BoundListener::bind(rt, SocketAddrV4::new(Ipv4Addr::LOCALHOST, 0))?;
    let address = SocketAddr::from((Ipv4Addr::LOCALHOST, listener.port()?));
    Ok((listener, address))
}

impl House {
    /// Returns a house of tenants with these quotas and no listener.
    pub(crate) fn new(alloc: Global, quotas: &[Limits]) -> Result<House, AllocError> {
        Ok(House {
            quotas: Vec::from_slice(alloc, quotas)?,
            listeners: Vec::new(alloc),
        })
    }

    /// Listens for the tenant of this number, if there is one, at a free port, and returns its
    /// address.
    pub(crate) fn listen<R: Net>(&mut self, rt: &R, number: u8) -> io::Result<SocketAddr> {
        let tenant = match TenantId::new(number) {
            Some(tenant) if usize::from(number) < self.quotas.len() => tenant,
            _ => return Err(io::Error::from(ErrorKind::InvalidInput)),
        };
        let (listener, address) = bound(rt)?;
        self.listeners.push((Role::Tenant(tenant), listener))?;
        Ok(address)
    }

    /// Listens for administrators at a free port, to whom the tenants have these names, and returns
    /// its address.
    pub(crate) fn listen_admin<R: Net>(&mut self, rt: &R, names: Names) -> io::Result<SocketAddr> {
        if names.len() != self.quotas.len() {
            return Err(io::Error::from(ErrorKind::InvalidInput));
        }
        let (listener, address) = bound(rt)?;
        self.listeners.push((Role::Admin(names), listener))?;
        Ok(address)
    }
}

/// Opens a worker for each pass of the log.
pub(crate) fn open_workers<'a>(
    alloc: Global,
    log: &'a Log,
    passes: Vec<Pass>,
) -> Result<Vec<Worker<'a>>, Fault>
    requires { (number : ℕ) (pass : _) → slice_get passes.items number ≡ Some pass →
        IsUnusedPass log.now pass }
    ensures { IfOk result (λ workers. All (λ worker. worker.log.now ≡ log.now) workers.items) }
{
    let mut workers = Vec::new(alloc);
    for pass in passes {
        workers.push(Worker::open(alloc, Hashing::Fixed, log, pass)?)?;
    }
    Ok(workers)
}

/// Returns whether both histories are equal, place by place.
fn are_equal(ones: &[Seen<'_>], others: &[Seen<'_>]) -> bool {
    ones.len() == others.len()
        && ones.iter().zip(others).all(|(one, other)| one.ticket() == other.ticket()
            && one.entry() == other.entry())
}

/// Has a worker meet the others.
///
/// Returns `BadEvent` if one of them has another history afterwards.
fn meet_others<'a>(one: &mut Worker<'a>, others: Vec<Worker<'a>>) -> Result<(), Fault>
    requires { All (λ worker. worker.log.now ≡ one.old.log.now) others.items }
{
    for other in others {
        let mut other = other;
        one.meet(&mut other)?;
        if !are_equal(one.history(), other.history()) {
            return Err(Fault::BadEvent);
        }
    }
    Ok(())
}

/// Has the workers meet, and returns the number of each entry's tenant, in the log's order.
fn tenants_of_all<'a>(
    alloc: Global,
    log: &'a Log,
    workers: Vec<Worker<'a>>,
) -> Result<Vec<u8>, Fault>
    requires { All (λ worker. worker.log.now ≡ log.now) workers.items }
{
    let mut others = workers;
    let mut tenants = Vec::new(alloc);
    if let Some(mut last) = others.pop() {
        meet_others(&mut last, others)?;
        for seen in last.history() {
            let entry = seen.entry().ok_or(Fault::BadEvent)?;
            tenants.push(entry.tenant.number())?;
        }
    }
    Ok(tenants)
}

/// Counts how often serving began.
pub(crate) struct Counting;

impl Begin<u32> for Counting {
    ghost done = { λ _ _ _. ⊤ };

    ghost stopped = { λ _ _ _ _. ⊤ };

    fn begin<R: Wait>(&self, _rt: &R, count: &mut u32) -> Result<(), Fault> {
        *count = count.saturating_add(1);
        Ok(())
    }
}

/// Serves `connections` connections of tenants by as many workers as there are gates, and returns
/// the number of each entry's tenant, in the log's order.
///
/// Returns `BadEvent` if serving didn't begin exactly once, or if the workers' histories differ.
pub(crate) fn served<R: Threads + Wait + Net + Sync>(
    rt: &R,
    alloc: Global,
    house: House,
    connections: u64,
    gates: Vec<Holding<'_>>,
) -> Result<Vec<u8>, Fault> {
    let House { quotas, listeners } = house;
    let settings = Settings::check(gates.len() as u64, PLACES, quotas)?;
    let (log, passes) = Log::open(alloc, &settings)?;
    let workers = open_workers(alloc, &log, passes)?;
    if listeners.is_empty() || workers.is_empty() || workers.len() != gates.len() {
        return Err(Fault::BadSettings);
    }
    let mut begun = 0;
    let back = serve(
        rt,
        alloc,
        &log,
        workers,
        listeners,
        connections,
        gates,
        &Counting,
        &mut begun,
    )?;
    if begun != 1 {
        return Err(Fault::BadEvent);
    }
    tenants_of_all(alloc, &log, into_workers(alloc, back)?)
}
