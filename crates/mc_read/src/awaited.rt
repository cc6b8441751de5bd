//! A block that is awaited.
ghost use Rattle.std.specs.Borrow.{ftrue};
ghost use Rattle.std.specs.Prelude.{◌≡◌, ℕ, List};

use crate::line::Header;
use std::marker::Model;

/// A line that was read and isn't kept in memory, without its line feed. It takes no memory, and
/// its method does nothing at run time.
#[derive(Debug, Drop)]
pub struct ReadLine {
    pub ghost text: { List ℕ },
}

impl Model for ReadLine {
    ghost also_owns = { λ _. ftrue };
}

impl ReadLine {
    /// Returns the line of these bytes.
    pub fn of(_text: &[u8]) -> ReadLine
        ensures { result ≡ record { text = _text.now } }
    {
        ReadLine {}
    }
}

unsafe impl Send for ReadLine {}

/// A block of which a part is still to come: what its line says, and the memory that it will stay
/// in, which has room for it and the two bytes after it.
#[derive(Debug, Drop)]
pub struct Awaited {
    pub line: ReadLine,
    pub header: Header,
    pub body: Vec<u8>,
}
