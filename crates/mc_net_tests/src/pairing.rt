//! Streams of listeners that are test doubles, at mailboxes that the test can look into.
ghost use Rattle.std.specs.Prelude.{◌≡◌, ⊤, IfOk, OnOk};

use mc_conn::Role;
use mc_connections::Arrival;
use mc_model::{Name, Names, TenantId};
use mc_net::{Accepted, Halt, Listen, Receive, RoleListener, accept_one};
use std::alloc::Global;
use std::io;
use std::io::ErrorKind;
use std::sync::{Mutex, Wait};
use std::test::Fail;

/// A listener whose streams are its number.
#[derive(Drop)]
struct Numbered {
    number: u8,
}

impl Listen for Numbered {
    type Stream = u8;

    ghost accepted_by = { λ listener stream. stream ≡ listener.number };

    fn accept_stream(&self) -> io::Result<u8>
        ensures { IfOk result (λ stream. stream ≡ self.now.number) }
    {
        Ok(self.number)
    }
}

/// Keeps what it receives: each tenant's number, or 255 for an administrator, and its stream.
#[derive(Drop)]
struct Pigeonhole {
    kept: Mutex<Vec<(u8, u8)>>,
}

impl Receive<u8> for Pigeonhole {
    ghost received = { λ _ _. ⊤ };

    fn receive<R: Wait>(&self, rt: &R, arrival: Arrival<u8>) -> Result<(), Halt>
        ensures { OnOk result ⊤ }
    {
        let number = match arrival.role() {
            Role::Tenant(tenant) => tenant.number(),
            Role::Admin(_) => u8::MAX,
        };
        let pair = (number, *arrival.stream());
        self.kept.lock(rt).push(pair)?;
        Ok(())
    }
}

fn hole(alloc: Global) -> Pigeonhole {
    Pigeonhole {
        kept: Mutex::new(Vec::new(alloc)),
    }
}

fn holds<R: Wait>(rt: &R, hole: &Pigeonhole, pairs: &[(u8, u8)]) -> bool {
    hole.kept.lock(rt).as_slice() == pairs
}

#[test]
fn streams_go_round_with_their_tenants(rt: HostRuntime) -> Result<(), Fail> {
    let alloc = rt.alloc();
    let one = TenantId::new(3).ok_or("no tenant")?;
    let two = TenantId::new(5).ok_or("no tenant")?;
    let first = RoleListener::new(Role::Tenant(one), Numbered { number: 30 });
    let second = RoleListener::new(Role::Tenant(two), Numbered { number: 50 });
    let places = [hole(alloc), hole(alloc), hole(alloc)];
    let mut done = 0;
    for number in 0..4u64 {
        let listener = if number == 1 { &second } else { &first };
        assert_eq!(rt;
            accept_one(&rt, listener, &places, &mut done)?,
            Accepted::One
        );
        assert_eq!(rt; done, number + 1);
    }
    assert!(rt; holds(&rt, &places[0], &[(3, 30), (3, 30)]));
    assert!(rt; holds(&rt, &places[1], &[(5, 50)]));
    assert!(rt; holds(&rt, &places[2], &[(3, 30)]));
    Ok(())
}

#[test]
fn an_administrators_streams_are_an_administrators(rt: HostRuntime) -> Result<(), Fail> {
    let alloc = rt.alloc();
    let mut names = Vec::new(alloc);
    names.push(Name::new(alloc, b"shop")?.ok_or("no name")?)?;
    let listener = RoleListener::new(Role::Admin(Names::new(names)?), Numbered { number: 7 });
    let places = [hole(alloc)];
    let mut done = 0;
    for _ in 0..2u8 {
        assert_eq!(rt;
            accept_one(&rt, &listener, &places, &mut done)?,
            Accepted::One
        );
    }
    assert!(rt; holds(&rt, &places[0], &[(u8::MAX, 7), (u8::MAX, 7)]));
    Ok(())
}

/// A listener at which nothing is accepted, for this reason.
#[derive(Drop)]
struct Refusing {
    kind: ErrorKind,
}

impl Listen for Refusing {
    type Stream = u8;

    ghost accepted_by = { λ _ _. ⊤ };

    fn accept_stream(&self) -> io::Result<u8>
        ensures { IfOk result (λ _. ⊤) }
    {
        Err(io::Error::from(self.kind))
    }
}

/// Returns a tenant's listener that refuses for this reason.
fn refusing_listener(tenant: TenantId, kind: ErrorKind) -> RoleListener<Refusing> {
    RoleListener::new(Role::Tenant(tenant), Refusing { kind })
}

#[test]
fn only_streams_are_counted(rt: HostRuntime) -> Result<(), Fail> {
    let alloc = rt.alloc();
    let tenant = TenantId::new(3).ok_or("no tenant")?;
    let places = [hole(alloc), hole(alloc)];
    let mut done = 1;
    let failing = refusing_listener(tenant, ErrorKind::ConnectionAborted);
    assert_eq!(rt;
        accept_one(&rt, &failing, &places, &mut done)?,
        Accepted::Failed
    );
    let idle = refusing_listener(tenant, ErrorKind::WouldBlock);
    assert_eq!(rt; accept_one(&rt, &idle, &places, &mut done)?, Accepted::None);
    assert_eq!(rt; done, 1);
    assert!(rt; holds(&rt, &places[0], &[]) && holds(&rt, &places[1], &[]));
    let open = RoleListener::new(Role::Tenant(tenant), Numbered { number: 30 });
    assert_eq!(rt; accept_one(&rt, &open, &places, &mut done)?, Accepted::One);
    assert_eq!(rt; done, 2);
    assert!(rt; holds(&rt, &places[1], &[(3, 30)]));
    Ok(())
}
