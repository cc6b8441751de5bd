//! What pulls and pushes did, for clauses only.
ghost use Rattle.mc_stream.specs.Event.{Ends, Event, Fails, Moves, Waits};
ghost use Rattle.std.specs.Borrow.{ftrue};
ghost use Rattle.std.specs.Prelude.{◌≡◌, List, [], ◌∷◌};

use std::marker::Model;

/// What every pull of an input or every push of an output did, the latest first. It takes no
/// memory, and its methods do nothing at run time. Only the inputs and outputs of this crate write
/// on it.
#[derive(Drop)]
pub struct Tape {
    pub ghost events: { List Event },
}

impl Model for Tape {
    ghost also_owns = { λ _. ftrue };
}

impl Tape {
    /// Returns an empty tape: nothing was done yet.
    pub fn new() -> Tape
        ensures { result ≡ record { events = [] } }
    {
        Tape {}
    }

    /// Records that these bytes were moved.
    pub(crate) fn moves(&mut self, _bytes: &[u8])
        ensures { self.new ≡ record { events = Moves _bytes.now ∷ self.old.events } }
    {}

    /// Records that nothing could be moved.
    pub(crate) fn waits(&mut self)
        ensures { self.new ≡ record { events = Waits ∷ self.old.events } }
    {}

    /// Records that the end was found.
    pub(crate) fn ends(&mut self)
        ensures { self.new ≡ record { events = Ends ∷ self.old.events } }
    {}

    /// Records a failure.
    pub(crate) fn fails(&mut self)
        ensures { self.new ≡ record { events = Fails ∷ self.old.events } }
    {}
}

unsafe impl Send for Tape {}
