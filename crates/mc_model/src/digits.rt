//! The digits of a number, in place.
ghost use Rattle.std.specs.Prelude.{◌≡◌, ◌≤◌, [], decimal, length};

use itoa::Buffer;
use std::marker::Model;

/// At most 20 bytes, in place: the decimal digits of a number of 64 bits, or none.
#[derive(Debug, Drop)]
pub struct Digits {
    bytes: [u8; 20],
    len: u8,
}

impl Model for Digits {
    ghost use Rattle.std.specs.Prelude.{ℕ, ◌≤◌, List, take};

    ghost Value = { List ℕ };

    ghost view = { λ digits. take digits.len digits.bytes };

    ghost invariant = { λ digits. digits.len ≤ 20 };
}

impl Digits {
    /// Returns the digits of a number, without leading zeros. Allocates nothing.
    pub fn new(number: u64) -> Digits
        ensures { result ≡ decimal number }
    {
        let mut buffer = Buffer::new();
        let digits = buffer.format(number).as_bytes();
        let mut bytes = [0; 20];
        bytes[..digits.len()].copy_from_slice(digits);
        Digits {
            bytes,
            len: digits.len() as u8,
        }
    }

    /// Returns no digits. Allocates nothing.
    pub fn none() -> Digits
        ensures { result ≡ [] }
    {
        Digits {
            bytes: [0; 20],
            len: 0,
        }
    }

    /// Returns the digits as bytes.
    pub fn as_bytes(&self) -> &[u8]
        ensures value { result.now ≡ self.now }
        ensures few { length self.now ≤ 20 }
    {
        &self.bytes[..usize::from(self.len)]
    }

    /// Returns the same digits. Allocates nothing.
    pub fn copied(&self) -> Digits
        ensures { result ≡ self.now }
    {
        Digits {
            bytes: self.bytes,
            len: self.len,
        }
    }
}
