//! Where bytes come from and where they go: the traits `Input` and `Output`, over memory and over
//! std's readers and writers.
//!
//! By a ghost member, `tells`, each reports what every pull or push did, and an input also what is
//! left, so that a loop over any two streams can be proved once.
#![tactic(auto)]

pub use memory::{InputStep, MemoryInput, MemoryOutput, OutputStep};
pub use pushing::{Stop, push_front, push_while_taken};
pub use standard::{ReadInput, WriteOutput, WriteParts};
pub use stream::{Input, Output, Pull, Push};
pub use tape::Tape;

pub mod laws;
pub mod memory;
pub mod pushing;
pub mod standard;
pub mod stream;
pub mod tape;
