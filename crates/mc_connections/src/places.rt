//! Places for the connections of an event loop.
ghost use Rattle.std.specs.Prelude.{◌≡◌, ◌+◌, ◌-◌, ◌*◌, ◌<◌, ◌≤◌, ◌↔◌, IfOk, IsTrue, length, replicate, sum};
ghost use Rattle.fair_places.specs.Places.{held_by};
ghost use Rattle.mc_conn.specs.Owed.{IsAmong};
ghost use Rattle.mc_connections.specs.Counting.{HasPlace, held_as, with_held_as};
ghost use Rattle.mc_connections.specs.declared.places.TheConstants.{MOST_ADMINS, MOST_CONNECTIONS};

use fair_places::FairPlaces;
use mc_conn::Role;
use std::alloc::{AllocError, Global};
use std::marker::Model;

/// How many connections of tenants a worker has at most.
pub const MOST_CONNECTIONS: usize = 1_024;

/// How many connections of administrators a worker has at most, next to those of tenants.
pub(crate) const MOST_ADMINS: usize = 16;

/// Who holds a worker's places: tenants, who share theirs, and administrators, who have their own.
#[derive(Drop)]
pub(crate) struct Places {
    tenants: FairPlaces,
    admins: usize,
}

impl Model for Places {
    ghost use Rattle.std.specs.Prelude.{◌≡◌, ◌≤◌};
    ghost use Rattle.fair_places.specs.Places.{AreKept};
    ghost use Rattle.mc_connections.specs.Holding.{WorkerPlaces};
    ghost use Rattle.mc_connections.specs.declared.places.TheConstants.{MOST_ADMINS, MOST_CONNECTIONS};

    ghost Value = { WorkerPlaces };

    ghost view = { λ places. record { tenants = places.tenants; admins = places.admins } };

    ghost invariant = { λ places. (places.tenants.most ≡ MOST_CONNECTIONS) × AreKept places.tenants × (places.admins ≤ MOST_ADMINS) };
}

impl Places {
    /// Returns places of which none is held, and `reserve` are kept for each of the tenants.
    ///
    /// Returns an error if memory runs out.
    pub(crate) fn new(alloc: Global, tenants: usize, reserve: usize) -> Result<Places, AllocError>
        requires { tenants * reserve ≤ MOST_CONNECTIONS }
        ensures tenants { IfOk result (λ places. places.tenants ≡ record {
          most = MOST_CONNECTIONS;
          reserve = reserve;
          held = replicate tenants 0;
        }) }
        ensures admins { IfOk result (λ places. places.admins ≡ 0) }
    {
        Ok(Places {
            tenants: FairPlaces::new(alloc, MOST_CONNECTIONS, tenants, reserve)?,
            admins: 0,
        })
    }

    /// Returns whether one more connection of this role has a place.
    pub(crate) fn has_place(&self, role: &Role) -> bool
        ensures { IsTrue result ↔ HasPlace role.now self.now }
    {
        match role {
            Role::Tenant(tenant) => self.tenants.may_take(usize::from(tenant.number())),
            Role::Admin(_) => self.admins < MOST_ADMINS,
        }
    }

    /// Returns how many places connections of this tenant hold.
    pub(crate) fn held_by(&self, tenant: usize) -> usize
        ensures { result ≡ held_by self.now.tenants tenant }
    {
        self.tenants.held_by(tenant)
    }

    /// Lets a connection of this role take a place.
    pub(crate) fn take(&mut self, role: &Role)
        requires known { IsAmong role.now (length self.old.tenants.held) }
        requires place { HasPlace role.now self.old }
        ensures taken { self.new ≡ with_held_as role.now (held_as role.now self.old + 1) self.old }
        ensures few { sum self.new.tenants.held + self.new.admins ≤ MOST_CONNECTIONS + MOST_ADMINS }
    {
        match role {
            Role::Tenant(tenant) => self.tenants.take(usize::from(tenant.number())),
            Role::Admin(_) => self.admins += 1,
        }
    }

    /// Lets a connection of this role give back its place.
    pub(crate) fn give_back(&mut self, role: &Role)
        requires { 0 < held_as role.now self.old }
        ensures { self.new ≡ with_held_as role.now (held_as role.now self.old - 1) self.old }
    {
        match role {
            Role::Tenant(tenant) => self.tenants.give_back(usize::from(tenant.number())),
            Role::Admin(_) => self.admins -= 1,
        }
    }

    /// Lets every connection give back its place.
    pub(crate) fn clear(&mut self)
        ensures { self.new ≡ record self.old {
          tenants = record self.old.tenants {
            held = replicate (length self.old.tenants.held) 0;
          };
          admins = 0;
        } }
    {
        self.tenants.clear();
        self.admins = 0;
    }
}
