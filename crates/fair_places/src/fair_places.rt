//! Places that holders share, of which some are kept for each.
ghost use Rattle.std.specs.Prelude.{◌≡◌, ◌+◌, ◌-◌, ◌*◌, ◌<◌, ◌≤◌, ◌↔◌, IfOk, IsTrue, length, replicate};
ghost use Rattle.fair_places.specs.Places.{AreKept, MayTake, free, held_by, owed_places, with_held};

use std::alloc::{AllocError, Global};
use std::marker::Model;

/// Places, and how many of them each holder holds.
#[derive(Drop)]
pub struct FairPlaces {
    most: usize,
    reserve: usize,
    held: Vec<usize>,
    // How many places are held, or kept for a holder who doesn't hold them.
    claimed: usize,
}

impl Model for FairPlaces {
    ghost use Rattle.std.specs.Prelude.{◌≡◌, ◌+◌, sum};
    ghost use Rattle.fair_places.specs.Places.{AreKept, PlacesState, owed_places};

    ghost Value = { PlacesState };

    ghost view = { λ places. record { most = places.most; reserve = places.reserve; held = places.held.items } };

    ghost invariant = { λ places. AreKept (record { most = places.most; reserve = places.reserve; held = places.held.items })
        × (places.claimed ≡ sum places.held.items + owed_places (record { most = places.most; reserve = places.reserve; held = places.held.items })) };
}

impl FairPlaces {
    /// Returns this many places, of which none is held and `reserve` are kept for each of the
    /// holders.
    ///
    /// Returns an error if memory runs out.
    pub fn new(
        alloc: Global,
        most: usize,
        holders: usize,
        reserve: usize,
    ) -> Result<FairPlaces, AllocError>
        requires { holders * reserve ≤ most }
        ensures new { IfOk result
            (λ places. places ≡ record { most = most; reserve = reserve; held = replicate holders 0 }) }
        ensures kept { IfOk result AreKept }
    {
        Ok(FairPlaces {
            most,
            reserve,
            held: vec![in alloc; 0; holders]?,
            claimed: holders * reserve,
        })
    }

    /// Returns how many holders there are.
    pub fn holders(&self) -> usize
        ensures { result ≡ length self.now.held }
    {
        self.held.len()
    }

    /// Returns how many places a holder holds: none if it isn't among the holders.
    pub fn held_by(&self, holder: usize) -> usize
        ensures { result ≡ held_by self.now holder }
    {
        self.held.get(holder).copied().unwrap_or(0)
    }

    /// Returns whether a place is free that is owed to nobody.
    pub fn has_unclaimed(&self) -> bool
        ensures { IsTrue result ↔ owed_places self.now < free self.now }
    {
        self.claimed < self.most
    }

    /// Returns whether a holder may take one more place. One that isn't among the holders holds
    /// none.
    pub fn may_take(&self, holder: usize) -> bool
        ensures { IsTrue result ↔ MayTake holder self.now }
    {
        self.held_by(holder) < self.reserve || self.has_unclaimed()
    }

    /// Lets a holder take one more place.
    pub fn take(&mut self, holder: usize)
        requires holder { holder < length self.old.held }
        requires place { MayTake holder self.old }
        ensures taken { self.new ≡ with_held self.old holder (held_by self.old holder + 1) }
        ensures kept { AreKept self.new }
    {
        let held = self.held[holder];
        // A place of the reserve was claimed before.
        self.claimed += usize::from(held >= self.reserve);
        self.held[holder] = held + 1;
    }

    /// Lets a holder give back one of its places.
    pub fn give_back(&mut self, holder: usize)
        requires { 0 < held_by self.old holder }
        ensures given { self.new ≡ with_held self.old holder (held_by self.old holder - 1) }
        ensures kept { AreKept self.new }
    {
        let held = self.held[holder];
        // A place of the reserve is claimed still.
        self.claimed -= usize::from(held > self.reserve);
        self.held[holder] = held - 1;
    }

    /// Lets every holder give back all its places.
    pub fn clear(&mut self)
        ensures cleared { self.new
            ≡ record self.old { held = replicate (length self.old.held) 0 } }
        ensures kept { AreKept self.new }
    {
        self.held.fill(0);
        self.claimed = self.held.len() * self.reserve;
    }
}
