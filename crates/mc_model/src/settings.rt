//! The settings of a server, and the quotas of its tenants.
ghost use Rattle.std.specs.Prelude.{◌≡◌, ◌↔◌, IsTrue, IsOk, IfOk, IfSome, IsOkUnless};
ghost use Rattle.mc_model.specs.Number.{number_up_to};
ghost use Rattle.mc_model.specs.Settings.{AreLawfulLimits, Configuration, IsLawful, limits_named, positive};

use crate::id::{TENANTS, WORKERS};
use crate::{Fault, read_number};
use std::marker::Model;

/// The largest quota of items.
pub const MAX_ITEMS: u64 = 1_048_576;

/// The largest quota of bytes.
pub const MAX_BYTES: u64 = 1_073_741_824;

/// The largest number of places in a log.
pub const MAX_PLACES: u64 = 1_048_576;

/// A tenant's quotas: how many items its table may hold, and how many bytes their keys and data may
/// have in total.
#[derive(Clone, Copy, Debug, PartialEq, Eq)]
pub struct Limits {
    pub items: u64,
    pub bytes: u64,
}

/// Returns the number that a word names in decimal digits, from 1 to a limit.
fn read_quota(word: &[u8], limit: u64) -> Option<u64>
    ensures { result ≡ positive (number_up_to limit word.now) }
{
    match read_number(word, limit) {
        Some(0) => None,
        number => number,
    }
}

impl Limits {
    /// Returns the quotas that two words name in decimal digits, or `None` if one of them isn't a
    /// number from 1 to `MAX_ITEMS` or `MAX_BYTES`.
    pub fn read(items: &[u8], bytes: &[u8]) -> Option<Limits>
        ensures named { result ≡ limits_named items.now bytes.now }
        ensures lawful { IfSome result AreLawfulLimits }
    {
        let items = read_quota(items, MAX_ITEMS)?;
        let bytes = read_quota(bytes, MAX_BYTES)?;
        Some(Limits { items, bytes })
    }

    /// Returns whether both quotas are at least 1 and at most `MAX_ITEMS` and `MAX_BYTES`.
    pub fn are_lawful(&self) -> bool
        ensures { IsTrue result ↔ AreLawfulLimits self.now }
    {
        (1..=MAX_ITEMS).contains(&self.items) && (1..=MAX_BYTES).contains(&self.bytes)
    }
}

/// The number of workers and places of a server, and each tenant's quotas, all within their bounds.
#[derive(Debug, Drop)]
pub struct Settings {
    workers: u64,
    places: u64,
    tenants: Vec<Limits>,
}

impl Model for Settings {
    ghost use Rattle.mc_model.specs.Settings.{Configuration, IsLawful};

    ghost Value = { Configuration };

    ghost view = { λ s. record { workers = s.workers; places = s.places; tenants = s.tenants.items } };

    ghost invariant = { λ s. IsLawful (record { workers = s.workers; places = s.places; tenants = s.tenants.items }) };
}

impl Settings {
    /// Returns the settings with these numbers. Returns `BadSettings` if one of them is out of
    /// range. Allocates nothing.
    pub fn check(workers: u64, places: u64, tenants: Vec<Limits>) -> Result<Settings, Fault>
        ensures settings { IfOk result
            (λ settings. settings
            ≡ record { workers = workers; places = places; tenants = tenants.items }) }
        ensures lawful { IsOk result
            ↔ IsLawful (record { workers = workers; places = places; tenants = tenants.items }) }
        ensures fault { IsOkUnless result Fault.BadSettings }
    {
        let counted = (1..=u64::from(WORKERS)).contains(&workers)
            && (1..=MAX_PLACES).contains(&places)
            && (1..=usize::from(TENANTS)).contains(&tenants.len());
        if counted && tenants.iter().all(|limits| limits.are_lawful()) {
            Ok(Settings {
                workers,
                places,
                tenants,
            })
        } else {
            Err(Fault::BadSettings)
        }
    }

    /// Returns the number of workers.
    pub fn workers(&self) -> u64
        ensures value { result ≡ self.now.workers }
        ensures lawful { IsLawful self.now }
    {
        self.workers
    }

    /// Returns the number of places in a log.
    pub fn places(&self) -> u64
        ensures value { result ≡ self.now.places }
        ensures lawful { IsLawful self.now }
    {
        self.places
    }

    /// Returns the tenants' quotas, indexed by tenant number.
    pub fn tenants(&self) -> &[Limits]
        ensures value { result.now ≡ self.now.tenants }
        ensures lawful { IsLawful self.now }
    {
        self.tenants.as_slice()
    }
}
