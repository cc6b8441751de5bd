//! Four threads on one log that submit commands of three tenants.
ghost use Rattle.std.specs.Prelude.{◌≡◌, All, IfOk};

use crate::asking::{TENANTS, ask_all};
use crate::clients::{Client, clients_of, opened};
use crate::meeting::{Ended, all_meet, are_all_equal};
use crate::recomputing::is_recomputed;
use mc_model::Fault;
use std::alloc::Global;
use std::test::Fail;
use std::thread::{Threads, map_vec};
use uc_log::Log;
use uc_worker::Open;

/// How many commands each submits.
const COMMANDS: u64 = 2_000;

/// Returns the client after its commands.
fn ended<'a>(alloc: Global, client: Client<'a>) -> Ended<'a>
    ensures { result.client.log ≡ client.entry.log }
{
    let mut client = client;
    let asked = ask_all(alloc, &mut client, COMMANDS, &mut Open);
    Ended { client, asked }
}

/// Returns all clients once their threads have ended.
fn all_ended<'a, R: Threads + Sync>(
    rt: &R,
    alloc: Global,
    log: &Log,
    clients: Vec<Client<'a>>,
) -> Result<Vec<Ended<'a>>, Fault>
    requires { All (λ client. client.log.now ≡ log.now) clients.items }
    ensures { IfOk result (λ all. All (λ one. one.client.log.now ≡ log.now) all.items) }
{
    let all = map_vec(
        rt,
        clients,
        &|client: Client<'_>| -> Ended<'_>
            ensures { result.client.log ≡ client.entry.log }
        { ended(alloc, client) },
    )?;
    Ok(all)
}

#[test]
fn four_threads_three_tenants(rt: HostRuntime) -> Result<(), Fail> {
    let alloc = rt.alloc();
    let (log, passes) = opened(alloc, 4, 8_192, &TENANTS)?;
    let clients = clients_of(alloc, &log, passes)?;
    let all = all_ended(&rt, alloc, &log, clients)?;
    let all = all_meet(alloc, &log, all)?;
    assert!(rt; are_all_equal(&all, 8_000));
    assert!(rt; is_recomputed(alloc, &TENANTS, &all) == Ok(true));
    Ok(())
}
