//! The hash by which tables find their items.
ghost use Rattle.std.specs.Prelude.{IsOkUnless};
ghost use Rattle.mc_model.specs.declared.fault.Fault.TheVariants as faults;
ghost use Rattle.mc_tables.specs.Hashing.{hasher_by};

use crate::sip::SipHasher;
use mc_model::Fault;
use std::fmt::{self, Debug, Formatter};
use std::hash::BuildHasher;
use std::random::RandomSource;

/// How tables hash the keys of their items: by SipHash-1-3, whose own keys are given here.
#[derive(Clone, Copy, Debug)]
pub enum Hashing {
    /// With random keys. Clients choose the keys of items, and can't choose any that collide then.
    Random(HashKeys),
    /// With the same keys always, if whoever chooses the keys of items is the only one who waits.
    Fixed,
}

/// The two keys of a hash, which nobody outside of the program knows.
#[derive(Clone, Copy)]
pub struct HashKeys {
    first: u64,
    second: u64,
}

impl HashKeys {
    /// Draws two keys. Returns `Input` if random numbers are refused.
    pub fn draw(rt: &impl RandomSource) -> Result<HashKeys, Fault>
        ensures refused { IsOkUnless result faults.Input }
    {
        let mut bytes = [0; 16];
        if rt.fill_bytes(&mut bytes).is_err() {
            return Err(Fault::Input);
        }
        let both = u128::from_le_bytes(bytes);
        Ok(HashKeys {
            first: (both & 0xffff_ffff_ffff_ffff) as u64,
            second: (both >> 64) as u64,
        })
    }
}

/// Writes no key, so that none is printed by mistake.
impl Debug for HashKeys {
    fn fmt<W: fmt::Write>(&self, f: &mut Formatter<W>) -> fmt::Result {
        f.debug_struct("HashKeys").finish_non_exhaustive()
    }
}

impl BuildHasher for Hashing {
    type Hasher = SipHasher;

    ghost build_hasher = { hasher_by };

    #[inline(always)]
    fn build_hasher(&self) -> SipHasher {
        match self {
            Hashing::Random(keys) => SipHasher::new(keys.first, keys.second),
            Hashing::Fixed => SipHasher::new(0, 0),
        }
    }
}
