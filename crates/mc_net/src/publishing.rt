//! What a worker shows of itself between two rounds.
ghost use Rattle.std.specs.Prelude.{◌≡◌, length};
ghost use Rattle.uc_worker.specs.Worker.{tenants_of};

use mc_connections::{Connections, Tallies};
use mc_counters::{Publisher, TenantShown};
use mc_model::TenantId;
use uc_worker::Worker;

/// Shows what the worker has replayed, what its tables hold and how many connections it serves, if
/// there is a publisher. The commands that it has replayed keep this many bytes. Takes no lock and
/// makes no call of the system; a word is written only if its number has changed.
pub(crate) fn publish(
    publisher: &mut Option<Publisher>,
    connections: &Connections,
    worker: &Worker<'_>,
    bytes: u64,
)
    requires { connections.now.tenants ≡ length (tenants_of worker.now) }
{
    let Some(publisher) = publisher else {
        return;
    };
    let replayed = worker.history().len() as u64;
    publisher.show_worker(replayed, bytes, connections.len() as u64);
    for number in 0..connections.tenants() {
        let Some(tenant) = u8::try_from(number).ok().and_then(TenantId::new) else {
            return;
        };
        let table = worker.table(tenant);
        let shown = TenantShown {
            connections: connections.count_of(number) as u64,
            items: table.count(),
            bytes: table.used(),
            quotas: table.limits(),
        };
        publisher.show_tenant(tenant, &shown);
    }
}

/// Shows how the worker has answered the requests of the tenants whose connections were served
/// since this was last done, if there is a publisher. Takes no lock and makes no call of the
/// system.
pub(crate) fn publish_tallies(
    publisher: &mut Option<Publisher>,
    tenants: usize,
    tallies: &mut Tallies,
) {
    let Some(publisher) = publisher else {
        return;
    };
    for number in 0..tenants {
        let Some(tenant) = u8::try_from(number).ok().and_then(TenantId::new) else {
            return;
        };
        if let Some(tally) = tallies.take_new(number) {
            publisher.show_tally(tenant, &tally);
        }
    }
}
