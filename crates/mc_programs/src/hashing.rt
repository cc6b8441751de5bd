//! The keys by which the tables of a program hash.
ghost use Rattle.std.specs.Prelude.{◌≡◌, IfOk, IsOkUnless};
ghost use Rattle.mc_model.specs.declared.fault.Fault.TheVariants as faults;
ghost use Rattle.mc_tables.specs.declared.hashing.HashKeys.{HashKeys};
ghost use Rattle.mc_tables.specs.declared.hashing.Hashing.TheVariants.{Random};

use mc_model::Fault;
use mc_tables::HashKeys;
use std::random::RandomSource;
use uc_worker::Hashing;

/// Draws the keys by which tables hash the keys of items, which clients choose.
///
/// Returns `Input` if random numbers are refused.
pub fn random_hashing(rt: &impl RandomSource) -> Result<Hashing, Fault>
    ensures random { IfOk result (λ hashing. (keys : HashKeys) × (hashing ≡ Random keys)) }
    ensures refused { IsOkUnless result faults.Input }
{
    let keys = HashKeys::draw(rt)?;
    Ok(Hashing::Random(keys))
}
