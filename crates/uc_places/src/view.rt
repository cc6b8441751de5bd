//! What a seat of the table knows. These are ghost values: only contracts speak of them.
use mc_model::{LogSize, ShownState, Ticket, WorkerState};
use std::collections::LinkedList;

/// What a seat of the table is for.
pub enum Kind {
    /// Stands for the seats of all workers from its own on, which aren't given out yet.
    Spare,
    /// The one seat of its worker, and of the workers whose seats were joined into it.
    Seated,
    /// Knows nothing any more.
    Spent,
}

/// A call of a worker's seat, which is one event of its worker.
pub enum Call {
    Announce,
    Read,
    Look,
    Propose,
}

/// An event of the log, as a seat keeps it: whose it is, and which call, or `None` if the worker
/// stops.
pub struct Witnessed {
    /// The worker's number.
    pub worker: u64,
    pub call: Option<Call>,
}

/// What a seat knows of one worker.
pub struct Part {
    pub size: LogSize,
    /// The worker's number.
    pub worker: u64,
    pub state: WorkerState,
    /// The state of the log directly after the worker's last event.
    pub last: ShownState,
    /// All calls of the worker's seat since the opening, in order.
    pub calls: LinkedList<Call>,
}

/// What a seat of the table knows.
///
/// `last` is why a seat's calls lie on one run of the log, `calls` is why those of all seats lie on
/// the same one, `told` is why two workers' learned lists can be compared, and `witnessed` is why
/// workers that meet in pairs are all on one run.
pub struct View {
    pub size: LogSize,
    pub kind: Kind,
    /// The number of its worker.
    pub worker: u64,
    /// The state of its worker.
    pub state: WorkerState,
    /// The list that was shared with it: the log begins with this list.
    pub told: LinkedList<Ticket>,
    /// The state of the log directly after its worker's last event.
    pub last: ShownState,
    /// All calls of this seat since the opening, in order.
    pub calls: LinkedList<Call>,
    /// The workers whose seats were joined into this one.
    pub joined: LinkedList<Part>,
    /// The run of the log up to the moment when the seat witnessed it: the log's run begins with
    /// these events.
    pub witnessed: LinkedList<Witnessed>,
}
