//! The numbers that identify tenants, workers and commands.
ghost use Rattle.std.specs.Option.{SomeIff};
ghost use Rattle.std.specs.Prelude.{◌≡◌, ℕ, ◌<◌};
ghost use Rattle.mc_model.specs.declared.id.TheConstants.{TENANTS, WORKERS};

use std::marker::Model;

/// The largest number of tenants.
pub const TENANTS: u8 = 64;

/// The largest number of workers.
pub const WORKERS: u8 = 16;

/// A tenant's number, below `TENANTS`.
#[derive(Clone, Copy, Debug, PartialEq, Eq, PartialOrd, Ord, Hash)]
pub struct TenantId {
    number: u8,
}

impl Model for TenantId {
    ghost Value = { ℕ };

    ghost view = { λ id. id.number };

    ghost invariant = { λ id. id.number < TENANTS };

    ghost inverse = { λ number. record { number = number } };
}

impl TenantId {
    /// Returns the tenant with this number, or `None` if it isn't below `TENANTS`.
    pub fn new(number: u8) -> Option<Self>
        ensures { SomeIff result (number < TENANTS) number }
    {
        if number < TENANTS {
            Some(TenantId { number })
        } else {
            None
        }
    }

    /// Returns the tenant's number.
    pub fn number(self) -> u8
        ensures value { result ≡ self }
        ensures small { result < TENANTS }
    {
        let TenantId { number } = self;
        number
    }
}

/// A worker's number, below `WORKERS`.
#[derive(Clone, Copy, Debug, PartialEq, Eq, PartialOrd, Ord, Hash)]
pub struct WorkerId {
    number: u8,
}

impl Model for WorkerId {
    ghost Value = { ℕ };

    ghost view = { λ id. id.number };

    ghost invariant = { λ id. id.number < WORKERS };

    ghost inverse = { λ number. record { number = number } };
}

impl WorkerId {
    /// Returns the worker with this number, or `None` if it isn't below `WORKERS`.
    pub fn new(number: u8) -> Option<Self>
        ensures { SomeIff result (number < WORKERS) number }
    {
        if number < WORKERS {
            Some(WorkerId { number })
        } else {
            None
        }
    }

    /// Returns the worker's number.
    pub fn number(self) -> u8
        ensures value { result ≡ self }
        ensures small { result < WORKERS }
    {
        let WorkerId { number } = self;
        number
    }
}

/// The name of a command: number `number`, from 0, of those that its worker announced.
#[derive(Clone, Copy, Debug, PartialEq, Eq, PartialOrd, Ord, Hash)]
pub struct Ticket {
    pub worker: WorkerId,
    pub number: u64,
}
