//! How serving a log has ended.
ghost use Rattle.std.specs.Prelude.{◌≡◌};

/// How serving a log has ended.
#[derive(Clone, Copy, Debug, PartialEq, Eq)]
pub enum Ended {
    /// No more streams come, and every connection has ended.
    Done,
    /// Commands are left to the next log, as this one is to be closed.
    Full,
}

impl Ended {
    /// Returns `Full` if either is, and `Done` otherwise.
    pub(crate) fn or_full(self, other: Ended) -> Ended
        ensures one { self ≡ Ended.Full → result ≡ Ended.Full }
        ensures other { other ≡ Ended.Full → result ≡ Ended.Full }
        ensures done { self ≡ Ended.Done → result ≡ other }
    {
        match self {
            Ended::Done => other,
            Ended::Full => Ended::Full,
        }
    }
}
