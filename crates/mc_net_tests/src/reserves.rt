//! Reserves are kept, and what is above them goes to whoever comes first.
use fair_places::FairPlaces;
use std::alloc::{AllocError, Global};

/// Takes as many of ten places as a holder may, with this many kept for each of two holders; then
/// as many as the other may. Returns how many each has got.
fn taken_by_both(alloc: Global, reserve: usize) -> Result<(u32, u32), AllocError> {
    if reserve > 5 {
        return Ok((0, 0));
    }
    let mut places = FairPlaces::new(alloc, 10, 2, reserve)?;
    let first = taken(&mut places, 0);
    let second = taken(&mut places, 1);
    Ok((first, second))
}

/// Takes up to a hundred places for a holder. Returns how many it has got.
fn taken(places: &mut FairPlaces, holder: usize) -> u32 {
    let mut count = 0;
    for _ in 0..100u32 {
        if holder < places.holders() && places.may_take(holder) {
            places.take(holder);
            count = u32::saturating_add(count, 1);
        }
    }
    count
}

#[test]
fn a_reserve_is_left_to_its_holder(rt: HostRuntime) {
    assert!(rt; taken_by_both(rt.alloc(), 0) == Ok((10, 0)));
    assert!(rt; taken_by_both(rt.alloc(), 3) == Ok((7, 3)));
    assert!(rt; taken_by_both(rt.alloc(), 5) == Ok((5, 5)));
}

#[test]
fn a_place_that_is_given_back_may_be_taken(rt: HostRuntime) -> Result<(), AllocError> {
    let mut places = FairPlaces::new(rt.alloc(), 2, 2, 1)?;
    places.take(0);
    assert!(rt; !places.may_take(0));
    assert!(rt; places.may_take(1));
    places.give_back(0);
    assert!(rt; places.may_take(0));
    places.take(1);
    places.clear();
    assert!(rt; places.may_take(1));
    Ok(())
}
