//! The hash of keys, by values from outside: what CPython and Rust's standard library compute.
use mc_tables::{HashKeys, Hashing};
use std::hash::{BuildHasher, Hasher};
use std::io;
use std::random::RandomSource;
use std::test::Fail;

/// The keys that CPython 3.11 takes if PYTHONHASHSEED is 42. It hashes bytes by SipHash-1-3.
const BYTES: [u8; 16] = [
    0xaf, 0x90, 0xcd, 0x68, 0xd3, 0x4f, 0x50, 0xdc, 0xc1, 0xe9, 0x99, 0xfe, 0x9f, 0xbb, 0x20, 0xb9,
];

/// A source whose numbers aren't random.
struct Known;

impl RandomSource for Known {
    fn fill_bytes(&self, buf: &mut [u8]) -> io::Result<()> {
        for place in 0..buf.len() {
            buf[place] = BYTES[place % 16];
        }
        Ok(())
    }
}

fn hash_of(hashing: Hashing, bytes: &[u8]) -> u64 {
    let mut hasher = hashing.build_hasher();
    hasher.write(bytes);
    hasher.finish()
}

#[test]
fn hashes_by_the_keys_that_were_drawn(rt: HostRuntime) -> Result<(), Fail> {
    let hashing = Hashing::Random(HashKeys::draw(&Known)?);
    assert!(rt; hash_of(hashing, b"key-of-16-bytes!") == 0xf0bf_c95b_1181_c089);
    assert!(rt; hash_of(hashing, b"0123456789abc") == 0xf71f_47a1_ce00_5ab3);
    // As long as a key may be.
    assert!(rt; hash_of(hashing, &[b'k'; 250]) == 0xde75_5e74_589b_54f9);
    Ok(())
}

// What the `DefaultHasher` of Rust 1.95 gives.
#[test]
fn hashes_a_slice_as_rust_does(rt: HostRuntime) {
    let key: &[u8] = b"key-of-16-bytes!";
    assert!(rt; hash_of(Hashing::Fixed, key) == 0xf87a_4ccc_65ea_b47e);
    assert!(rt; Hashing::Fixed.hash_one(key) == 0x4e55_b631_79bf_a4fc);
}
