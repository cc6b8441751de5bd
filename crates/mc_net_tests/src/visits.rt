//! Clients and the workers that serve them.
use crate::clients::{Act, first_failure};
use crate::house::{House, served};
use crate::signals::{Holding, Signals};
use mc_model::{Fault, Limits, Name, Names};
use std::alloc::{AllocError, Global};
use std::io;
use std::io::ErrorKind;
use std::net::{Net, SocketAddr, TcpListener, TcpStream};
use std::process::Abort;
use std::sync::Wait;
use std::test::Fail;
use std::thread::{Threads, join};

/// Enough for all that most tests store.
pub(crate) const QUOTAS: Limits = Limits {
    items: 100,
    bytes: 1_000_000,
};

/// Who is served, by how many workers, and what the clients do.
#[derive(Clone, Copy)]
pub(crate) struct Visit<'a> {
    pub(crate) quotas: &'a [Limits],
    /// Which tenant each listener belongs to; administrators have one after these, at which a
    /// tenant has a letter as its name.
    pub(crate) listeners: &'a [u8],
    pub(crate) workers: usize,
    pub(crate) acts: &'a [Act<'a>],
}

/// The outcome of a visit.
#[derive(Drop)]
pub(crate) struct Outcome {
    /// Which act failed first, if any did.
    pub(crate) failed: Option<usize>,
    /// The number of each entry's tenant, in the log's order.
    pub(crate) tenants: Result<Vec<u8>, Fault>,
}

/// Returns gates of which the first holds its worker by these signals, if there are any, and all
/// others hold nobody.
pub(crate) fn gates_of<'a>(
    alloc: Global,
    count: usize,
    signals: Option<&'a Signals>,
) -> Result<Vec<Holding<'a>>, AllocError> {
    let mut gates = Vec::new(alloc);
    for number in 0..count {
        let signals = if number == 0 { signals } else { None };
        gates.push(Holding { signals })?;
    }
    Ok(gates)
}

/// The names of the tenants.
const LETTERS: [&[u8]; 3] = [b"a", b"b", b"c"];

/// Returns the first names, as many as these.
fn names(alloc: Global, count: usize) -> Result<Names, Fault> {
    let mut names = Vec::new(alloc);
    for letter in LETTERS.iter().take(count) {
        names.push(Name::new(alloc, letter)?.ok_or(Fault::BadSettings)?)?;
    }
    Names::new(names)
}

/// Returns the house of a visit, and the address of each listener.
pub(crate) fn opened<R: Net>(
    rt: &R,
    alloc: Global,
    visit: Visit,
) -> io::Result<(House, Vec<SocketAddr>)> {
    let mut house = House::new(alloc, visit.quotas)?;
    let mut addresses = Vec::new(alloc);
    for tenant in visit.listeners {
        addresses.push(house.listen(rt, *tenant)?)?;
    }
    let Ok(names) = names(alloc, visit.quotas.len()) else {
        return Err(io::Error::from(ErrorKind::InvalidInput));
    };
    addresses.push(house.listen_admin(rt, names)?)?;
    Ok((house, addresses))
}

/// Returns how many connections of tenants a visit has.
pub(crate) fn connections_of(visit: Visit) -> u64 {
    let connections = visit
        .acts
        .iter()
        .filter(|act| matches!(act, Act::Connect(number) if *number < visit.listeners.len()))
        .count();
    connections as u64
}

/// Serves the clients while they act. The first worker is held by the signals if it is to be.
pub(crate) fn outcome_of<R>(
    rt: &R,
    alloc: Global,
    visit: Visit,
    is_held: bool,
) -> io::Result<Outcome>
where
    R: Threads + Wait + Net<Listener = TcpListener, Stream = TcpStream> + Sync,
{
    let (house, addresses) = opened(rt, alloc, visit)?;
    let signals = Signals::new();
    let gates = gates_of(alloc, visit.workers, is_held.then_some(&signals))?;
    let connections = connections_of(visit);
    let (tenants, failed) = join(
        rt,
        || served(rt, alloc, house, connections, gates),
        || first_failure(rt, alloc, &signals, &addresses, visit.acts),
    );
    Ok(Outcome { failed, tenants })
}

/// Returns how many of the entries are this tenant's.
fn count_of(tenants: &[u8], tenant: usize) -> usize {
    tenants
        .iter()
        .filter(|other| usize::from(**other) == tenant)
        .count()
}

/// Returns whether each tenant has this many entries, in the order of their numbers, and no other
/// has any.
fn have_counts(tenants: &[u8], counts: &[usize]) -> bool {
    for (tenant, count) in counts.iter().enumerate() {
        if count_of(tenants, tenant) != *count {
            return false;
        }
    }
    tenants
        .iter()
        .all(|tenant| usize::from(*tenant) < counts.len())
}

/// Asserts that no act of the visit fails, and that the log's entries are this many of each tenant,
/// in the order of their numbers.
pub(crate) fn check<R>(rt: &R, visit: Visit, is_held: bool, counts: &[usize]) -> Result<(), Fail>
where
    R: Threads
        + Wait
        + Net<Listener = TcpListener, Stream = TcpStream>
        + Sync
        + AllocGlobal
        + Abort,
{
    let Outcome { failed, tenants } = outcome_of(rt, rt.alloc(), visit, is_held)?;
    assert_eq!(rt; failed, None);
    let tenants = tenants?;
    assert!(rt; have_counts(&tenants, counts), "{tenants:?}");
    Ok(())
}
