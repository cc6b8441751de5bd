//! A gate that holds its worker, and the signals between it and the clients.
use std::sync::atomic::{AtomicBool, Ordering};
use std::thread;
use uc_worker::{Gate, Step};

/// How often a signal is loaded before the test gives up on it.
const LOOKS: u32 = 30_000_000;

/// The signals between a gate that holds its worker and the clients.
#[derive(Drop)]
pub(crate) struct Signals {
    /// The worker is held.
    held: AtomicBool,
    /// The worker may go on.
    freed: AtomicBool,
    /// The worker went on before it was let go.
    strayed: AtomicBool,
}

/// Returns whether the signal comes.
fn comes(signal: &AtomicBool) -> bool {
    for _ in 0..LOOKS {
        if signal.load(Ordering::SeqCst) {
            return true;
        }
        thread::yield_now();
    }
    false
}

impl Signals {
    pub(crate) fn new() -> Signals {
        Signals {
            held: AtomicBool::new(false),
            freed: AtomicBool::new(false),
            strayed: AtomicBool::new(false),
        }
    }

    /// Holds the calling worker, once, until it is let go.
    fn hold(&self) {
        if !self.held.swap(true, Ordering::SeqCst) && !comes(&self.freed) {
            self.strayed.store(true, Ordering::SeqCst);
        }
    }

    /// Returns whether the worker comes to be held.
    pub(crate) fn holds(&self) -> bool {
        comes(&self.held)
    }

    /// Lets the worker go on. Returns whether it was held until now.
    pub(crate) fn free(&self) -> bool {
        self.freed.store(true, Ordering::SeqCst);
        self.held.load(Ordering::SeqCst) && !self.strayed.load(Ordering::SeqCst)
    }
}

/// Holds its worker directly after its first announcement if there are signals for it, and nobody
/// otherwise.
#[derive(Drop)]
pub(crate) struct Holding<'a> {
    pub(crate) signals: Option<&'a Signals>,
}

impl Gate for Holding<'_> {
    fn at(&mut self, step: Step) {
        if let Some(signals) = self.signals
            && step == Step::Announce
        {
            signals.hold();
        }
    }
}
