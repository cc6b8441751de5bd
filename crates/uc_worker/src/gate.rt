//! The gate that a worker passes after each step of a call that takes one: `submit`, `catch_up` and
//! `catch_up_some`.

/// A step of a worker.
#[derive(Clone, Copy, Debug, PartialEq, Eq)]
pub enum Step {
    /// It has announced a command.
    Announce,
    /// It has read a place.
    Read,
    /// It has looked for whom to help.
    Look,
    /// It has proposed at a place.
    Propose,
    /// It has replayed a place.
    Replay,
}

/// Sees each step of a worker's `submit`, `catch_up` or `catch_up_some` directly after it, and may
/// hold the worker there: others go on without it.
pub trait Gate {
    /// Is called directly after this step.
    fn at(&mut self, step: Step);
}

/// The gate that holds nobody.
#[derive(Clone, Copy, Debug, PartialEq, Eq)]
pub struct Open;

impl Gate for Open {
    fn at(&mut self, _step: Step) {}
}
