//! The streams that wait for a worker, those of each tenant in a queue of its own.

use mc_conn::Role;
use mc_connections::{Arrival, MOST_CONNECTIONS};
use mio::net::TcpStream;
use std::alloc::{AllocError, Global};
use std::collections::VecDeque;

/// How many streams of one tenant wait for a worker at most: four times as many as it has places
/// for, since most may be of clients that are gone.
const MOST_WAITING: usize = 4 * MOST_CONNECTIONS;

/// An arrival, and how many workers have had no place for it.
#[derive(Drop)]
pub(crate) struct Offer {
    pub(crate) arrival: Arrival<TcpStream>,
    pub(crate) refusals: usize,
}

/// Offers that wait. Tenants take turns, so that none waits behind all of another's.
#[derive(Drop)]
pub(crate) struct Offers {
    // One queue for each tenant, and the administrators' behind them.
    queues: Vec<VecDeque<Offer>>,
    // The queue that is looked at first.
    turn: usize,
}

impl Offers {
    /// Returns no offers, of this many tenants and of administrators.
    ///
    /// Returns an error if memory runs out.
    pub(crate) fn new(alloc: Global, tenants: usize) -> Result<Offers, AllocError> {
        let mut queues = Vec::new(alloc);
        for _ in 0..tenants {
            queues.push(VecDeque::new(alloc))?;
        }
        queues.push(VecDeque::new(alloc))?;
        Ok(Offers { queues, turn: 0 })
    }

    /// Returns the queue of this role.
    fn queue_of(&mut self, role: &Role) -> Option<&mut VecDeque<Offer>> {
        let admins = self.queues.len().saturating_sub(1);
        let number = match role {
            Role::Tenant(tenant) => usize::from(tenant.number()),
            Role::Admin(_) => admins,
        };
        self.queues.get_mut(number)
    }

    /// Puts an offer behind the others of its tenant. If `MOST_WAITING` wait there or the queue
    /// can't grow, the stream is closed. Returns whether it waits.
    pub(crate) fn push(&mut self, offer: Offer) -> bool {
        match self.queue_of(offer.arrival.role()) {
            Some(queue) if queue.len() < MOST_WAITING => queue.push_back(offer).is_ok(),
            _ => false,
        }
    }

    /// Takes the first offer of the next tenant of which any wait.
    pub(crate) fn pop(&mut self) -> Option<Offer> {
        let count = self.queues.len();
        for step in 0..count {
            let number = self.turn.wrapping_add(step) % count;
            let Some(queue) = self.queues.get_mut(number) else {
                return None;
            };
            if let Some(offer) = queue.pop_front() {
                self.turn = number.wrapping_add(1);
                return Some(offer);
            }
        }
        None
    }

    /// Returns whether none waits.
    pub(crate) fn is_empty(&self) -> bool {
        self.queues.iter().all(|queue| queue.is_empty())
    }
}
