//! Typed seats: each has the calls that its worker can make in its phase, and no others.
ghost use Rattle.std.specs.Prelude.{◌≡◌};
ghost use Rattle.mc_model.specs.declared.shown.Phase.TheVariants as phase;
ghost use Rattle.uc_places.specs.Calls.{state_of};

use crate::desk::Desk;

/// The seat of a worker that has no pending command.
#[derive(Drop)]
pub struct Idle {
    pub(crate) desk: Desk,
    ghost idle: { (state_of desk).phase ≡ phase.Idle },
}

/// The seat of a worker that has announced a command, and hasn't learned its ticket at a place yet.
#[derive(Drop)]
pub struct Pending {
    pub(crate) desk: Desk,
    ghost pending: { (state_of desk).phase ≡ phase.Pending },
}

/// The seat of a pending worker that has looked for whom to help at its next place.
#[derive(Drop)]
pub struct Looked {
    pub(crate) desk: Desk,
    ghost looked: { (state_of desk).phase ≡ phase.Looked },
}

/// A seat between two steps of its worker: idle, or still pending.
#[derive(Drop)]
pub enum Seat {
    Idle(Idle),
    Pending(Pending),
}
