//! SipHash-1-3 of keys.
ghost use Rattle.core.specs.Hash.DefaultHasher.{WritesOn, finish, read_word, round, with_keys, wrapping_add, write, write_byte, write_word};
ghost use Rattle.std.specs.Prelude.{◌≡◌, ◌+◌, ◌%◌, ◌≤◌, length};
ghost use Rattle.mc_tables.specs.Hashing.{with_tail};

use std::hash::Hasher;
use std::marker::Model;

/// SipHash-1-3 by Aumasson and Bernstein, as `DefaultHasher` of std computes it. A key feeds all
/// its bytes by one `write`, which takes them in as words of eight bytes where no part of a word is
/// awaited. Each of the other bytes is moved into a word by a shift.
#[derive(Drop)]
pub struct SipHasher {
    v0: u64,
    v1: u64,
    v2: u64,
    v3: u64,

    /// The last eight bytes, the last of them highest.
    latest: u64,

    /// How many bytes were written, modulo 2^64.
    written: u64,
}

impl Model for SipHasher {
    ghost use Rattle.std.specs.declared.hash.DefaultHasher.{DefaultHasher};
    ghost use Rattle.std.specs.Prelude.{◌-◌, ◌*◌, ◌/◌, ◌%◌, ◌^◌};

    ghost Value = { DefaultHasher };

    ghost view = { λ h. record {
      v0 = h.v0;
      v1 = h.v1;
      v2 = h.v2;
      v3 = h.v3;
      tail = h.latest / 2 ^ (64 - 8 * (h.written % 8));
      length = h.written;
    } };
}

impl SipHasher {
    /// Returns a hasher with these keys, to which nothing was written.
    #[inline(always)]
    pub fn new(key0: u64, key1: u64) -> SipHasher
        ensures { result ≡ with_keys key0 key1 }
    {
        SipHasher {
            v0: key0 ^ 0x736f_6d65_7073_6575,
            v1: key1 ^ 0x646f_7261_6e64_6f6d,
            v2: key0 ^ 0x6c79_6765_6e65_7261,
            v3: key1 ^ 0x7465_6462_7974_6573,
            latest: 0,
            written: 0,
        }
    }

    /// Mixes the four words once.
    #[inline(always)]
    fn round(&mut self)
        ensures { self.new ≡ round self.old }
    {
        self.v0 = self.v0.wrapping_add(self.v1);
        self.v1 = self.v1.rotate_left(13) ^ self.v0;
        self.v0 = self.v0.rotate_left(32);
        self.v2 = self.v2.wrapping_add(self.v3);
        self.v3 = self.v3.rotate_left(16) ^ self.v2;
        self.v0 = self.v0.wrapping_add(self.v3);
        self.v3 = self.v3.rotate_left(21) ^ self.v0;
        self.v2 = self.v2.wrapping_add(self.v1);
        self.v1 = self.v1.rotate_left(17) ^ self.v2;
        self.v2 = self.v2.rotate_left(32);
    }

    /// Takes in a word of eight bytes.
    #[inline(always)]
    fn compress(&mut self, word: u64)
        ensures { self.new ≡ write_word self.old word }
    {
        self.v3 ^= word;
        self.round();
        self.v0 ^= word;
    }

    /// Takes in a byte, and every eighth time the word of the last eight.
    #[inline(always)]
    fn write_byte(&mut self, byte: u8)
        ensures { self.new ≡ write_byte self.old byte }
    {
        let latest = self.latest >> 8 | (byte as u64) << 56;
        self.latest = latest;
        self.written = self.written.wrapping_add(1);
        if self.written % 8 == 0 {
            self.compress(latest);
        }
    }

    /// Takes in a word of eight bytes, where no part of a word is awaited.
    #[inline(always)]
    fn write_word(&mut self, word: u64)
        requires whole { self.old.length % 8 ≡ 0 }
        ensures { self.new
            ≡ with_tail (write_word self.old word) 0 (wrapping_add self.old.length 8) }
    {
        self.compress(word);
        self.latest = word;
        self.written = self.written.wrapping_add(8);
    }

    /// Takes in whole words from the front, where no part of a word is awaited, and returns where
    /// they end.
    #[inline(always)]
    fn write_words(&mut self, bytes: &[u8]) -> usize
        ensures bound { result ≤ length bytes.now }
        ensures written { WritesOn bytes.now self.old 0 self.new result }
    {
        let mut at = 0;
        // It is a word of 64 bits, of which nothing is left where no byte is awaited.
        let _latest = self.latest;
        if self.written % 8 != 0 {
            return at;
        }
        while bytes.len() - at >= 8 {
            self.write_word(read_word(bytes, at));
            at += 8;
        }
        at
    }

    /// Returns the bytes since the last whole word, the first of them lowest.
    #[inline(always)]
    fn tail(&self) -> u64
        ensures { result ≡ self.now.tail }
    {
        match self.written % 8 {
            0 => 0,
            count => self.latest >> (64 - 8 * count),
        }
    }
}

/// Returns the word of the eight bytes from a place on, the first of them lowest.
#[inline(always)]
fn read_word(bytes: &[u8], at: usize) -> u64
    requires { at + 8 ≤ length bytes.now }
    ensures { result ≡ read_word bytes.now at }
{
    let low = bytes[at] as u64
        | (bytes[at + 1] as u64) << 8
        | (bytes[at + 2] as u64) << 16
        | (bytes[at + 3] as u64) << 24;
    low | (bytes[at + 4] as u64) << 32
        | (bytes[at + 5] as u64) << 40
        | (bytes[at + 6] as u64) << 48
        | (bytes[at + 7] as u64) << 56
}

impl Hasher for SipHasher {
    ghost write = { write };

    ghost finish = { finish };

    #[inline(always)]
    fn finish(&self) -> u64 {
        let mut last = SipHasher {
            v0: self.v0,
            v1: self.v1,
            v2: self.v2,
            v3: self.v3,
            latest: self.latest,
            written: self.written,
        };
        last.compress((self.written & 0xff) << 56 | self.tail());
        last.v2 ^= 0xff;
        last.round();
        last.round();
        last.round();
        last.v0 ^ last.v1 ^ last.v2 ^ last.v3
    }

    #[inline(always)]
    fn write(&mut self, bytes: &[u8]) {
        let words = self.write_words(bytes);
        for at in words..bytes.len() {
            self.write_byte(bytes[at]);
        }
    }

    #[inline(always)]
    fn write_u8(&mut self, byte: u8) {
        self.write_byte(byte);
    }
}
