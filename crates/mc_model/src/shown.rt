//! The observable state of the shared log: the decided places, and what each worker knows of them.
//! A phase is also a value of the code. Only contracts mention the others: a log keeps them in
//! words, and the workers in seats.
use crate::Ticket;
use std::collections::LinkedList;

/// A worker's phase.
#[derive(Clone, Copy, Debug, PartialEq, Eq)]
pub enum Phase {
    /// It has no pending command.
    Idle,
    /// It has announced a command that it hasn't yet learned at a place.
    Pending,
    /// It is pending and has looked up whom to help at its next place.
    Looked,
    /// It has stopped for good.
    Stopped,
}

/// The number of workers and places of a log.
#[derive(Clone, Copy, Debug, PartialEq, Eq)]
pub struct LogSize {
    pub workers: u64,
    pub places: u64,
}

/// A worker's observable state.
pub struct WorkerState {
    pub phase: Phase,
    /// The number of commands it has announced.
    pub announced: u64,
    /// The tickets of the places that it has learned, in log order.
    pub learned: LinkedList<Ticket>,
    /// The first place that it found empty since it announced its latest command.
    pub mark: Option<u64>,
    /// The ticket that it looked up for its next place; `None` if nobody there needs help.
    pub look: Option<Ticket>,
    /// The number of proposals it has made for its latest command.
    pub proposals: u64,
}

/// The observable state of a log and its workers.
pub struct ShownState {
    /// The tickets of the decided places, which are the first places.
    pub decided: LinkedList<Ticket>,
    pub workers: LinkedList<WorkerState>,
}
