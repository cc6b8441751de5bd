//! The connections that have ended, for contracts only.
ghost use Rattle.mc_connections.specs.declared.connection.Connection.{Connection};
ghost use Rattle.std.specs.Borrow.{ftrue};
ghost use Rattle.std.specs.Prelude.{◌≡◌, List, [], ◌∷◌};

use crate::connection::Connection;
use std::marker::Model;

/// Every connection of an event loop that has ended, as it was then, the latest first. It takes no
/// memory, and its methods do nothing at run time. Only this crate writes on it.
#[derive(Drop)]
pub struct PastConnections {
    pub ghost connections: { List Connection },
}

impl Model for PastConnections {
    ghost also_owns = { λ _. ftrue };
}

impl PastConnections {
    /// Returns an empty list: none has ended yet.
    pub(crate) fn new() -> PastConnections
        ensures { result ≡ record { connections = [] } }
    {
        PastConnections {}
    }

    /// Returns the list with this connection as the latest.
    pub(crate) fn and(&self, _connection: &Connection) -> PastConnections
        ensures { result ≡ record { connections = _connection.now ∷ self.now.connections } }
    {
        PastConnections {}
    }

    /// Returns a copy.
    pub fn again(&self) -> PastConnections
        ensures { result ≡ record { connections = self.now.connections } }
    {
        PastConnections {}
    }
}

unsafe impl Send for PastConnections {}
