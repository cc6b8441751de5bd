//! Marks on places, in words of 64 bits.
ghost use Rattle.std.specs.Prelude.{◌≡◌, ℕ, ◌+◌, ◌*◌, ◌<◌, ◌≤◌, ◌||◌, false, length, nat_eq, IfOk, IsOkUnless};
ghost use Rattle.mc_tables.specs.Marks.{is_set};

use mc_model::Fault;
use std::alloc::Global;

/// How many marks a word has.
const BITS: usize = 64;

/// Returns marks for this many places, none of them set. Returns `Memory` if the allocation fails.
pub(crate) fn no_marks(alloc: Global, places: usize) -> Result<Vec<u64>, Fault>
    ensures room { IfOk result (λ marks. places ≤ 64 * length marks.items) }
    ensures none { IfOk result (λ marks. (place : ℕ) → is_set marks.items place ≡ false) }
    ensures memory { IsOkUnless result Fault.Memory }
{
    Ok(Vec::from_elem(alloc, 0u64, places / BITS + 1)?)
}

/// Returns whether a place is marked.
pub(crate) fn is_set(marks: &[u64], place: usize) -> bool
    requires { place < 64 * length marks.now }
    ensures { result ≡ is_set marks.now place }
{
    let bit = (place % BITS) as u32;
    (marks[place / BITS] >> bit) % 2 == 1
}

/// Marks a place.
pub(crate) fn set(marks: &mut Vec<u64>, place: usize)
    requires { place < 64 * length marks.old.items }
    ensures room { length marks.new.items ≡ length marks.old.items }
    ensures set { (other : ℕ) →
        is_set marks.new.items other ≡ (nat_eq other place || is_set marks.old.items other) }
{
    let bit = (place % BITS) as u32;
    let word = marks[place / BITS];
    marks[place / BITS] = word | (1u64 << bit);
}

/// Returns how many places are marked.
pub(crate) fn count_set(marks: &[u64]) -> usize {
    let mut count = 0usize;
    for word in marks {
        count = count.saturating_add(word.count_ones() as usize);
    }
    count
}
