//! What a connection asks for, and what a log keeps of it.
use crate::{Command, Limits, Name, Reply, TenantId, Ticket};

/// A request as read from a connection. A quiet one gets no reply.
#[derive(Debug, PartialEq, Eq, Drop)]
pub enum Request {
    /// A command for the log.
    Logged {
        command: Command,
        quiet: bool,
    },
    /// A request that is answered without the log.
    Local {
        reply: Reply<'static>,
        quiet: bool,
    },
    /// The quotas of the tenant with this name are to be set.
    Limit {
        name: Name,
        limits: Limits,
        quiet: bool,
    },
    /// The client ends the connection.
    Quit,
    /// A line that is too long; nothing after it is read.
    TooLong,
}

/// A command in the log, with its ticket and the tenant on whose table it acts.
#[derive(Debug, PartialEq, Eq, Drop)]
pub struct Entry {
    pub ticket: Ticket,
    pub tenant: TenantId,
    pub command: Command,
}
