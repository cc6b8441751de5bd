//! A connection.
ghost use Rattle.std.specs.Prelude.{◌≡◌, ◌↔◌, [], false, length, IfOk, IsOkUnless, IsTrue};
ghost use Rattle.mc_counters.specs.Tallied.{capped};
ghost use Rattle.mc_model.specs.declared.fault.Fault.TheVariants as Fault;
ghost use Rattle.mc_read.specs.Reading.{Kept};
ghost use Rattle.mc_conn.specs.declared.conn.Role.TheVariants as Role;
ghost use Rattle.mc_conn.specs.Held.{nothing_held, speaker_of};
ghost use Rattle.mc_conn.specs.Owed.{IsAmong};
ghost use Rattle.mc_conn.specs.Turn.{holding_of, queue_of};

use crate::queue::Queue;
use mc_counters::AnsweredRequests;
use mc_model::{Fault, Names, Request, TenantId};
use mc_read::Reader;
use std::alloc::Global;

/// A request is taken, and bytes are pulled, only while at most this many bytes are queued.
pub const QUEUE_BYTES: usize = 1_048_576;

/// How many requests a turn takes at most, as memcached bounds them by its option `-R`: more that
/// have come whole wait for the next turn.
pub const TURN_REQUESTS: usize = 64;

/// How many bytes a pull asks for at most: as many as the reader takes.
pub const PULL_BYTES: usize = mc_read::PULL_BYTES;

/// Who sends the requests of a connection.
#[derive(Debug, Drop)]
pub enum Role {
    /// A tenant: each request is for that tenant.
    Tenant(TenantId),
    /// An administrator, to whom the tenants have these names.
    Admin(Names),
}

impl Role {
    /// Returns the same role once more. Takes no memory: `Memory` means only that the names of an
    /// administrator's tenants are shared too often to be counted.
    pub fn share(&self) -> Result<Role, Fault>
        ensures role { IfOk result (λ role. role ≡ self.now) }
        ensures memory { IsOkUnless result Fault.Memory }
    {
        match self {
            Role::Tenant(tenant) => Ok(Role::Tenant(*tenant)),
            Role::Admin(names) => Ok(Role::Admin(names.share()?)),
        }
    }

    /// Returns whether a log of this many tenants has the role.
    pub fn is_among(&self, tenants: usize) -> bool
        ensures { IsTrue result ↔ IsAmong self.now tenants }
    {
        match self {
            Role::Tenant(tenant) => usize::from(tenant.number()) < tenants,
            Role::Admin(names) => names.len() == tenants,
        }
    }

    /// Returns a reader of the lines of this role, at the beginning of a stream. Needs no memory.
    fn reader(&self, alloc: Global) -> Reader
        ensures held { result.held ≡ Kept [] }
        ensures speaker { result.speaker ≡ speaker_of self.now }
    {
        match self {
            Role::Tenant(_) => Reader::new(alloc),
            Role::Admin(_) => Reader::admin(alloc),
        }
    }
}

/// One connection: the input that isn't taken yet, and the replies that aren't sent yet.
#[derive(Drop)]
pub struct Conn {
    pub(crate) role: Role,
    pub(crate) reader: Reader,
    /// The next request, once it is read and until it is taken.
    pub(crate) waiting: Option<Request>,
    /// Reply bytes that are to be pushed.
    pub(crate) queue: Queue,
    /// Whether the input has ended.
    pub(crate) has_ended: bool,
    /// Whether a request that ends the stream was taken.
    pub(crate) is_over: bool,
    /// Whether a fault has closed the connection.
    pub(crate) is_closed: bool,
    /// The requests that got a reply.
    pub(crate) past: AnsweredRequests,
}

/// What a turn may still take.
#[derive(Drop)]
pub(crate) struct Allowance {
    /// How many bytes its pull asks for at most.
    pub bytes: usize,
    /// How many requests may still be taken.
    pub requests: usize,
}

/// How a turn ended.
#[derive(Clone, Copy, Debug, PartialEq, Eq)]
pub enum State {
    /// Nothing is left to do: nothing more is read, no whole request is held, and nothing is
    /// queued; or an earlier fault has closed the connection.
    Closed,
    /// Nothing could be done.
    Idle,
    /// Bytes came or went, or requests were taken.
    Busy,
    /// The next request is to be logged, and the worker's log is closing: the request is left to
    /// the next log. Only a turn that leaves commands ends so.
    Full,
}

impl Conn {
    /// Returns a connection of this tenant on which nothing has come yet. Needs no memory.
    pub fn new(alloc: Global, tenant: TenantId) -> Conn
        ensures role { result.role ≡ Role.Tenant tenant }
        ensures holding { holding_of result ≡ nothing_held result.role }
        ensures queue { queue_of result ≡ [] }
        ensures open { (result.has_ended ≡ false) × (result.is_over ≡ false)
            × (result.is_closed ≡ false) }
        ensures past { result.past ≡ [] }
    {
        Conn::of(alloc, Role::Tenant(tenant))
    }

    /// Returns a connection of an administrator on which nothing has come yet, to whom the tenants
    /// have these names. Needs no memory.
    pub fn admin(alloc: Global, names: Names) -> Conn
        ensures role { result.role ≡ Role.Admin names }
        ensures holding { holding_of result ≡ nothing_held result.role }
        ensures queue { queue_of result ≡ [] }
        ensures open { (result.has_ended ≡ false) × (result.is_over ≡ false)
            × (result.is_closed ≡ false) }
        ensures past { result.past ≡ [] }
    {
        Conn::of(alloc, Role::Admin(names))
    }

    /// Returns a connection of this role on which nothing has come yet. Needs no memory.
    pub fn of(alloc: Global, role: Role) -> Conn
        ensures role { result.role ≡ role }
        ensures holding { holding_of result ≡ nothing_held result.role }
        ensures queue { queue_of result ≡ [] }
        ensures open { (result.has_ended ≡ false) × (result.is_over ≡ false)
            × (result.is_closed ≡ false) }
        ensures past { result.past ≡ [] }
    {
        let reader = role.reader(alloc);
        Conn {
            role,
            reader,
            waiting: None,
            queue: Queue::new(alloc),
            has_ended: false,
            is_over: false,
            is_closed: false,
            past: AnsweredRequests::new(),
        }
    }

    /// Returns how many of the connection's requests got a reply, quiet or not.
    pub fn answered(&self) -> u64
        ensures { result ≡ capped (length self.now.past) }
    {
        self.past.count()
    }

    /// Returns the connection's role.
    pub fn role(&self) -> &Role
        ensures { result.now ≡ self.now.role }
    {
        &self.role
    }
}
