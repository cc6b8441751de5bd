//! Flows are served in turn, each up to its quantum.
use fair_queue::{FairQueue, Ready};
use std::alloc::{AllocError, Global};

/// A quantum of ten, three flows, two keys in the first and one in the third, each of which costs
/// this much: returns whether they're given in this order.
fn are_given(alloc: Global, costs: &[u64], order: &[(usize, usize)]) -> Result<bool, AllocError> {
    let mut queue = FairQueue::new(alloc, 3, 10, 4)?;
    queue.push(0, 1)?;
    queue.push(0, 2)?;
    queue.push(2, 3)?;
    let mut spent = 0;
    for (cost, (flow, key)) in costs.iter().zip(order) {
        let given = Ready {
            flow: *flow,
            key: *key,
        };
        if queue.next(spent) != Some(given) {
            return Ok(false);
        }
        spent = *cost;
    }
    Ok(queue.next(spent).is_none() && queue.is_empty())
}

#[test]
fn a_turn_goes_on_while_its_quantum_lasts(rt: HostRuntime) {
    let given = are_given(rt.alloc(), &[9, 1, 1], &[(0, 1), (0, 2), (2, 3)]);
    assert!(rt; given == Ok(true));
}

#[test]
fn a_turn_ends_once_its_quantum_is_spent(rt: HostRuntime) {
    let given = are_given(rt.alloc(), &[10, 1, 1], &[(0, 1), (2, 3), (0, 2)]);
    assert!(rt; given == Ok(true));
}

/// Returns whether the turn of a flow with two keys ends where its quantum of ten is spent, or its
/// last key was given.
fn ends_where_it_is_to(alloc: Global) -> Result<bool, AllocError> {
    let mut queue = FairQueue::new(alloc, 2, 10, 4)?;
    queue.push(1, 1)?;
    queue.push(1, 2)?;
    queue.next(0);
    let is_within = !queue.turn_ends(9) && queue.turn_ends(10);
    queue.next(1);
    Ok(is_within && queue.turn_ends(1))
}

#[test]
fn a_turn_ends_where_it_is_said_to(rt: HostRuntime) {
    assert!(rt; ends_where_it_is_to(rt.alloc()) == Ok(true));
}

/// Puts three keys into a flow, and returns whether they're given in this order.
fn are_given_from_one_flow(alloc: Global, order: &[usize]) -> Result<bool, AllocError> {
    let mut queue = FairQueue::new(alloc, 2, 10, 4)?;
    queue.push(1, 3)?;
    queue.push(1, 1)?;
    queue.push(1, 2)?;
    for key in order {
        let given = Ready { flow: 1, key: *key };
        if queue.next(1) != Some(given) {
            return Ok(false);
        }
    }
    Ok(queue.is_empty())
}

#[test]
fn a_flow_gives_its_keys_in_their_order(rt: HostRuntime) {
    assert!(rt; are_given_from_one_flow(rt.alloc(), &[3, 1, 2]) == Ok(true));
}
