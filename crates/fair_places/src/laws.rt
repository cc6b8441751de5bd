//! What the rule of the reserves comes to.
ghost use Rattle.std.specs.Prelude.{◌≢◌, ℕ, ◌<◌, ◌≤◌, length};
ghost use Rattle.fair_places.specs.Places.{AreKept, MayTake, PlacesState, free, held_by, owed_places};

/// A holder that holds less than its reserve may take a place, and there is one; one that holds its
/// reserve may take one only while more places are free than are owed.
pub fn reserves_are_kept_free()
    ensures within { (state : PlacesState) (holder : ℕ) → AreKept state →
        holder < length state.held → held_by state holder < state.reserve →
        MayTake holder state × (0 < free state) }
    ensures above { (state : PlacesState) (holder : ℕ) → ¬ (held_by state holder < state.reserve) →
        MayTake holder state → owed_places state < free state }
{}

/// No place is kept for nobody: while one is free, and each other holder holds its reserve, a holder
/// may take it, however many it holds. So a holder that has no others may take all places.
pub fn a_place_that_is_kept_for_nobody_may_be_taken()
    ensures { (state : PlacesState) (holder : ℕ) → 0 < free state →
        ((other : ℕ) → other < length state.held → other ≢ holder →
        state.reserve ≤ held_by state other) →
        MayTake holder state }
{}
