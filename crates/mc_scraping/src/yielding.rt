//! Which connection gives its place to a stream that finds none free.
ghost use Rattle.std.specs.Option.{MatchOption};
ghost use Rattle.std.specs.Prelude.{◌≡◌, ◌↔◌, [], IsTrue, map};
ghost use Rattle.mc_scraping.specs.Yielding.{IsFirstToYield, YieldsNoLater, holder_of};

use crate::visit::Visit;
use std::time::Instant;

/// What there is at a place.
#[derive(Clone, Copy)]
pub(crate) enum Holder {
    /// No connection.
    Nobody,
    /// A connection to which nothing is being sent, and for how many nanoseconds it was of no use:
    /// since it last took a part of an answer, or else since it began.
    Idle(u128),
    /// A connection to which an answer is being sent, and for how many nanoseconds it was of no
    /// use, counted in the same way.
    Answered(u128),
    /// A connection that began just now. It keeps its place for a round, to be served in.
    New,
}

/// Returns whether one holder gives its place no later than another.
fn yields_no_later(one: &Holder, other: &Holder) -> bool
    ensures { IsTrue result ↔ YieldsNoLater one.now other.now }
{
    match (one, other) {
        (Holder::Nobody, _) | (_, Holder::New) => true,
        (Holder::Idle(one), Holder::Idle(other)) => other <= one,
        (Holder::Idle(_), Holder::Answered(_)) => true,
        (Holder::Answered(one), Holder::Answered(other)) => other <= one,
        (_, _) => false,
    }
}

/// Returns who holds a place at this time.
fn holder_of(visit: &Option<Visit>, now: Instant) -> Holder
    ensures { result ≡ holder_of now visit.now }
{
    match visit {
        Some(visit) => visit.holder(now),
        None => Holder::Nobody,
    }
}

/// Returns the place whose holder gives it first, and that holder, or `None` if there is no place.
pub(crate) fn first_to_yield(visits: &[Option<Visit>], now: Instant) -> Option<(usize, Holder)>
    ensures { MatchOption result (visits.now ≡ [])
        (λ found. IsFirstToYield (map (holder_of now) visits.now) found.0 found.1) }
{
    match visits {
        [] => None,
        [visit, rest @ ..] => {
            let holder = holder_of(visit, now);
            match first_to_yield(rest, now) {
                Some((place, other)) if !yields_no_later(&holder, &other) => {
                    Some((place + 1, other))
                }
                _ => Some((0, holder)),
            }
        }
    }
}
