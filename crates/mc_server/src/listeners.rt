//! The listeners of wfmc's tenants and administrators, and for metrics.
ghost use Rattle.std.specs.List.{AllZip};
ghost use Rattle.std.specs.Prelude.{◌≡◌, ◌++◌, IfOk, List, MatchResult, map};
ghost use Rattle.mc_model.specs.declared.fault.Fault.TheVariants.{Memory};
ghost use Rattle.mc_server.specs.Listeners.{AreBound, IsListeningFor, ListenerAsked, StopsListening, asked_at, listener_if};
ghost use Rattle.mc_server.specs.NetworkWords.{metrics_name, name_if};
ghost use Rattle.mc_server.specs.declared.listeners.Stop.TheVariants.{Failed};

use crate::network_texts::{Listening, METRICS, told_address};
use crate::wanted::Wanted;
use mc_conn::Role;
use mc_model::Fault;
use mc_net::BoundListener;
use std::alloc::{AllocFailed, Global};
use std::io;
use std::net::{Net, SocketAddrV4};

/// Listeners with the roles of those who connect there, and what is printed for each.
#[derive(Drop)]
pub(crate) struct Listeners<'a> {
    pub listeners: Vec<(Role, BoundListener)>,
    pub told: Vec<Listening<'a>>,
}

/// Why a run of wfmc fails.
#[derive(Clone, Copy, Debug)]
pub(crate) enum Stop<'a> {
    /// The address of the listener with this name can't be listened on.
    CannotListen(&'a str),
    Failed(Fault),
}

impl From<Fault> for Stop<'_> {
    ghost from_gives = { λ fault stop. stop ≡ Failed fault };

    fn from(fault: Fault) -> Self {
        Stop::Failed(fault)
    }
}

impl<T: Drop> From<AllocFailed<T>> for Stop<'_> {
    ghost from_gives = { λ _ stop. stop ≡ Failed Memory };

    fn from(_error: AllocFailed<T>) -> Self {
        Stop::Failed(Fault::Memory)
    }
}

/// Binds the listener with this name. Returns it, and what is printed for it.
///
/// Returns the system's error if it can't be bound or its port can't be found out.
fn bind<'a, R: Net>(
    rt: &R,
    name: &'a str,
    address: SocketAddrV4,
) -> io::Result<(BoundListener, Listening<'a>)>
    ensures at { IfOk result (λ bound. bound.0.address ≡ address) }
    ensures told { IfOk result
        (λ bound. IsListeningFor (record { name = name.now; address = address }) bound.1) }
{
    let listener = BoundListener::bind(rt, address)?;
    let given = listener.port()?;
    let told = Listening {
        name,
        address: told_address(address, given),
    };
    Ok((listener, told))
}

/// Binds these listeners, in their order.
///
/// Returns `CannotListen` for the first that can't be bound, and `Failed(Memory)` if memory runs
/// out.
pub(crate) fn bind_all<'a, R: Net>(
    rt: &R,
    alloc: Global,
    wanted: &[Wanted<'a>],
) -> Result<Listeners<'a>, Stop<'a>>
    ensures outcome { MatchResult result
        (AreBound (map asked_at wanted.now) (map (λ one. one.role) wanted.now))
        (StopsListening (map (λ one. one.name.now) wanted.now)) }
{
    let mut listeners = Vec::new(alloc);
    let mut told = Vec::new(alloc);
    for one in wanted {
        let Ok((listener, listening)) = bind(rt, one.name, one.address) else {
            return Err(Stop::CannotListen(one.name));
        };
        listeners.push((one.role.share()?, listener))?;
        told.push(listening)?;
    }
    Ok(Listeners { listeners, told })
}

/// Binds the listener for metrics, if there is to be one, and appends what is printed for it.
///
/// Returns `CannotListen` if it can't be bound, and `Failed(Memory)` if memory runs out.
pub(crate) fn bind_metrics<'a, R: Net>(
    rt: &R,
    address: Option<SocketAddrV4>,
    told: &mut Vec<Listening<'a>>,
) -> Result<Option<BoundListener>, Stop<'a>>
    ensures outcome { MatchResult result (λ _. (asked : List ListenerAsked) →
        AllZip IsListeningFor asked told.old.items →
        AllZip IsListeningFor (asked ++ listener_if metrics_name address) told.new.items)
        (StopsListening (name_if metrics_name address)) }
{
    let Some(address) = address else {
        return Ok(None);
    };
    let Ok((listener, line)) = bind(rt, METRICS, address) else {
        return Err(Stop::CannotListen(METRICS));
    };
    told.push(line)?;
    Ok(Some(listener))
}
