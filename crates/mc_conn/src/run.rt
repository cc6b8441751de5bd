//! A run of bytes that stand in a block.
ghost use Rattle.std.specs.Prelude.{◌≡◌, ◌≤◌, length, take, drop};

use mc_model::Data;
use std::marker::Model;

/// The bytes of a block, or those between a front and an end that were dropped. They aren't copied:
/// the run is one of the block's owners, so it outlives the log that the block came from.
#[derive(Drop)]
pub struct Run {
    block: Data,
    start: usize,
    end: usize,
}

impl Model for Run {
    ghost use Rattle.std.specs.Prelude.{ℕ, ◌-◌, ◌≤◌, List, drop, length, take};

    ghost Value = { List ℕ };

    ghost view = { λ run. take (run.end - run.start) (drop run.start run.block) };

    ghost invariant = { λ run. (run.start ≤ run.end) × (run.end ≤ length run.block) };
}

impl Run {
    /// Returns the run of all bytes of the block.
    pub fn new(block: Data) -> Run
        ensures { result ≡ block }
    {
        let end = block.as_bytes().len();
        Run {
            block,
            start: 0,
            end,
        }
    }

    /// Returns the bytes.
    pub fn as_slice(&self) -> &[u8]
        ensures { result.now ≡ self.now }
    {
        &self.block.as_bytes()[self.start..self.end]
    }

    /// Returns how many bytes there are.
    pub fn len(&self) -> usize
        ensures { result ≡ length self.now }
    {
        self.end - self.start
    }

    /// Drops this many bytes at the front.
    pub fn advance(&mut self, count: usize)
        requires { count ≤ length self.old }
        ensures { self.new ≡ drop count self.old }
    {
        self.start += count;
    }

    /// Drops all bytes behind this many.
    pub fn truncate(&mut self, count: usize)
        requires { count ≤ length self.old }
        ensures { self.new ≡ take count self.old }
    {
        self.end = self.start + count;
    }
}
