//! The connections of an event loop.
ghost use Rattle.std.specs.Prelude.{◌≡◌, ◌==◌, ◌≤◌, ◌<◌, ◌*◌, ℕ, [], IfOk, Some, false, length, true};
ghost use Rattle.mc_connections.specs.declared.connections.TheConstants.{MOST_OF_ALL};
ghost use Rattle.mc_connections.specs.declared.places.TheConstants.{MOST_CONNECTIONS};
ghost use Rattle.mc_connections.specs.Counting.{AreCounted, HasPlace, is_admin, tenants_among};
ghost use Rattle.std.proofs.Props.{props};
ghost use Rattle.mc_conn.specs.Owed.{IsAmong, IsAmong-prop};
ghost use Rattle.slab.specs.Slab.{get, slab_len};

use crate::connection::Connection;
use crate::past_connections::PastConnections;
use crate::places::{MOST_ADMINS, MOST_CONNECTIONS, Places};
use mc_conn::Role;
use slab::Slab;
use std::alloc::{AllocError, Global};

/// How many connections a worker has at most, of tenants and administrators.
pub(crate) const MOST_OF_ALL: usize = MOST_CONNECTIONS + MOST_ADMINS;

/// Returns whether a role is an administrator's.
pub fn is_admin(role: &Role) -> bool
    ensures { result ≡ is_admin role.now }
{
    matches!(role, Role::Admin(_))
}

/// The connections of an event loop by key, each of a role that the log has.
#[derive(Drop)]
pub struct Connections {
    pub(crate) by_key: Slab<Connection>,
    /// How many tenants the log has.
    pub(crate) tenants: usize,
    /// The places that the connections hold.
    pub(crate) places: Places,
    /// The connections that have ended and were removed.
    pub ended: PastConnections,
    ghost room: { MOST_OF_ALL ≤ by_key.capacity },
    ghost holders: { length places.tenants.held ≡ tenants },
    ghost counted: { AreCounted tenants places by_key },
    ghost known: { (key : ℕ) (connection : _) → get by_key key ≡ Some connection → IsAmong connection.conn.role tenants } by { Prim.hlevel (props, IsAmong-prop) },
}

impl Connections {
    /// Returns an empty set of connections, with room for `MOST_OF_ALL`, of which `reserve` are
    /// kept for each of the tenants.
    ///
    /// Returns an error if memory runs out.
    pub(crate) fn new(
        alloc: Global,
        tenants: usize,
        reserve: usize,
    ) -> Result<Connections, AllocError>
        requires { tenants * reserve ≤ MOST_CONNECTIONS }
        ensures reserve { IfOk result
            (λ connections. connections.places.tenants.reserve ≡ reserve) }
        ensures tenants { IfOk result (λ connections. connections.tenants ≡ tenants) }
        ensures new { IfOk result
            (λ connections. ((slab_len connections.by_key == 0) ≡ true)
            × (connections.ended.connections ≡ [])) }
    {
        let mut by_key = Slab::new(alloc);
        by_key.reserve(MOST_OF_ALL)?;
        Ok(Connections {
            by_key,
            tenants,
            places: Places::new(alloc, tenants, reserve)?,
            ended: PastConnections::new(),
        })
    }

    /// Returns whether there is no connection.
    pub fn is_empty(&self) -> bool
        ensures { result ≡ (slab_len self.now.by_key == 0) }
    {
        self.by_key.is_empty()
    }

    /// Returns how many connections there are, of tenants and administrators.
    pub fn len(&self) -> usize
        ensures { result ≡ slab_len self.now.by_key }
    {
        self.by_key.len()
    }

    /// Returns how many tenants the log has.
    pub fn tenants(&self) -> usize
        ensures { result ≡ self.now.tenants }
    {
        self.tenants
    }

    /// Returns how many connections of a tenant there are.
    pub fn count_of(&self, tenant: usize) -> usize
        requires { tenant < self.now.tenants }
        ensures { result ≡ tenants_among tenant self.now.by_key }
    {
        self.places.held_by(tenant)
    }

    /// Returns whether an arrival of this role is to wait: there is no place for it, and some
    /// connections haven't been served yet, which may have ended and give back their places then.
    pub fn holds_back(&self, role: &Role) -> bool
        ensures { HasPlace role.now self.now.places → result ≡ false }
    {
        !self.places.has_place(role)
            && self
                .by_key
                .iter()
                .any(|(_, connection)| !connection.is_served)
    }

    /// Closes every connection.
    pub fn clear(&mut self)
        ensures empty { (slab_len self.new.by_key == 0) ≡ true }
        ensures tenants { self.new.tenants ≡ self.old.tenants }
        ensures reserve { self.new.places.tenants.reserve ≡ self.old.places.tenants.reserve }
    {
        self.by_key.clear();
        self.places.clear();
    }
}
