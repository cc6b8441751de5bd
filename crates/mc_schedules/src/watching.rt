//! Watchers of a run.
use uc_core::{Core, Event};

/// Sees each event of a run.
pub trait Watch {
    /// Called after each event of a line, with the core as it is then.
    fn see(&mut self, line: u64, event: &Event, core: &Core);
}

/// A watcher that ignores all events.
#[derive(Clone, Copy, Debug, PartialEq, Eq)]
pub struct Unwatched;

impl Watch for Unwatched {
    fn see(&mut self, _line: u64, _event: &Event, _core: &Core) {}
}
