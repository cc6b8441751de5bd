//! The order of byte strings, compared eight bytes at a time for speed.
ghost use Rattle.std.specs.Cmp.Lexicographic.{slice_cmp};
ghost use Rattle.std.specs.Ordering.{nat_cmp};
ghost use Rattle.std.specs.Prelude.{◌≡◌, ◌+◌, ◌≤◌, drop, length, take};
ghost use Rattle.std.specs.Slice.Scan.{big_endian};

use std::cmp::Ordering;

/// Compares two byte strings lexicographically, as `one.cmp(other)` does.
pub(crate) fn compare(one: &[u8], other: &[u8]) -> Ordering
    ensures { result ≡ slice_cmp nat_cmp one.now other.now }
{
    let whole = one.len().min(other.len()) / 8;
    for word in 0..whole {
        // Read as big-endian numbers, eight bytes compare as they do byte by byte.
        let left = read_eight(one, 8 * word);
        let right = read_eight(other, 8 * word);
        if left != right {
            return left.cmp(&right);
        }
    }
    one[8 * whole..].cmp(&other[8 * whole..])
}

/// Reads the eight bytes at `at` as a big-endian number.
fn read_eight(bytes: &[u8], at: usize) -> u64
    requires { at + 8 ≤ length bytes.now }
    ensures { result ≡ big_endian 0 (take 8 (drop at bytes.now)) }
{
    u64::from_be_bytes([
        bytes[at],
        bytes[at + 1],
        bytes[at + 2],
        bytes[at + 3],
        bytes[at + 4],
        bytes[at + 5],
        bytes[at + 6],
        bytes[at + 7],
    ])
}
