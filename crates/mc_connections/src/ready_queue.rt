//! Which of an event loop's connections are served next.
ghost use Rattle.std.specs.List.{list_any};
ghost use Rattle.std.specs.Prelude.{◌≡◌, ◌+◌, ◌-◌, ◌*◌, ◌^◌, ◌≤◌, ◌↔◌, length, min, replicate, All, IfOk, IsTrue, None, OnOk, Some};
ghost use Rattle.fair_queue.specs.Turns.{IsFair};
ghost use Rattle.mc_connections.specs.InQueue.{HasLetWait, HasServedNext};
ghost use Rattle.mc_connections.specs.Round.{HaveCome, MakesRound, NoConnectionWaits, is_wake, queued_at, short_of};
ghost use Rattle.mc_connections.specs.Serving.{tenant_at};
ghost use Rattle.mc_connections.specs.Tallying.{CountsForTenant, CountsNothing};
ghost use Rattle.mc_connections.specs.Waiting.{ComesToWait, IsNoted, short_at, short_with};
ghost use Rattle.mc_connections.specs.Working.{IsNewFor, KeepsPlaces, Works, standing};
ghost use Rattle.mc_connections.specs.declared.connections.TheConstants.{MOST_OF_ALL};
ghost use Rattle.mc_connections.specs.declared.places.TheConstants.{MOST_CONNECTIONS};
ghost use Rattle.mc_connections.specs.declared.waiting.TheConstants.{QUANTUM};
ghost use Rattle.mio.specs.Events.{items};
ghost use Rattle.uc_worker.specs.Worker.{tenants_of};

use crate::closing::{Closing, place_of};
use crate::connections::{Connections, MOST_OF_ALL};
use crate::places::MOST_CONNECTIONS;
use crate::tallies::Tallies;
use crate::waiting::{Next, Waiting};
use mc_conn::{PULL_BYTES, State};
use mio::event::Event;
use mio::{Events, Token};
use std::alloc::{AllocError, Global};
use uc_worker::{Gate, Worker};

/// The token of the waker of an event loop's poll, which is no key, and is the next after those of
/// streams that close.
pub const WAKER: Token = Token(usize::MAX);

/// The connections of an event loop, and those of them that wait to be served: each tenant's in its
/// turn, and administrators' in one of their own.
#[derive(Drop)]
pub struct ReadyQueue {
    pub connections: Connections,
    /// The streams of connections that have ended.
    pub closing: Closing,
    /// How the worker has answered the requests of each tenant.
    pub tallies: Tallies,
    waiting: Waiting,
}

/// Returns whether a read that fills less than its buffer is the last one for an event. After the
/// peer has closed it isn't, since no later event reports the end.
fn stops_short(event: &Event) -> bool
    ensures { result ≡ short_of event.now }
{
    !event.is_read_closed() && !event.is_error()
}

impl ReadyQueue {
    /// Returns a queue without connections, for a log of this many tenants, for each of which
    /// `reserve` places are kept.
    ///
    /// Returns an error if memory runs out.
    pub fn new(alloc: Global, tenants: usize, reserve: usize) -> Result<ReadyQueue, AllocError>
        requires { tenants * reserve ≤ MOST_CONNECTIONS }
        ensures new { IfOk result (λ ready. IsNewFor tenants ready.connections) }
        ensures reserve { IfOk result (λ ready. KeepsPlaces reserve ready.connections) }
        ensures tallies { IfOk result (λ ready. All CountsNothing ready.tallies.all.items) }
        ensures places { IfOk result
            (λ ready. length ready.tallies.all.items ≡ min (tenants + 1) (2 ^ 64 - 1)) }
        ensures flows { IfOk result
            (λ ready. length ready.waiting.queue.flows ≡ min (tenants + 1) (2 ^ 64 - 1)) }
        ensures quantum { IfOk result (λ ready. ready.waiting.queue.quantum ≡ QUANTUM) }
        ensures idle { IfOk result NoConnectionWaits }
        ensures fair { IfOk result (λ ready. IsFair ready.waiting.queue) }
        ensures none { IfOk result
            (λ ready. ready.waiting.waits.items ≡ replicate MOST_OF_ALL None) }
    {
        let waiting = Waiting::new(alloc, tenants)?;
        let connections = Connections::new(alloc, tenants, reserve)?;
        let closing = Closing::new(alloc)?;
        let tallies = Tallies::new(alloc, tenants)?;
        Ok(ReadyQueue {
            connections,
            closing,
            tallies,
            waiting,
        })
    }

    /// Returns whether the worker may block in `poll`: no connection is to be served before an
    /// event comes.
    pub fn may_wait(&self) -> bool
        ensures { IsTrue result ↔ NoConnectionWaits self.now }
    {
        self.waiting.is_empty()
    }

    /// Lets a connection wait behind those of its tenant, or of administrators, that wait already.
    ///
    /// Returns an error if memory runs out.
    fn let_wait(&mut self, next: Next) -> Result<(), AllocError>
        ensures waits { OnOk result (ComesToWait (tenant_at self.old.connections next.key) next.key
            self.old.waiting self.new.waiting) }
        ensures noted { IsNoted next.key
            (Some (short_with (short_at self.old.waiting next.key) next.stops_short))
            self.old.waiting self.new.waiting }
        ensures spent { self.new.waiting.spent ≡ self.old.waiting.spent }
        ensures round { self.new.waiting.spent_in_round ≡ self.old.waiting.spent_in_round }
        ensures same { self.new.connections ≡ self.old.connections }
        ensures tallies { self.new.tallies ≡ self.old.tallies }
    {
        let tenant = self.connections.tenant_of(next.key);
        self.waiting.push(tenant, next)
    }

    /// Serves a connection, and lets it wait again if there is more to do.
    ///
    /// Returns an error if memory runs out.
    fn serve<G: Gate>(
        &mut self,
        until_done: bool,
        worker: &mut Worker<'_>,
        gate: &mut G,
        buffer: &mut [u8; PULL_BYTES],
        next: Next,
    ) -> Result<(), AllocError>
        requires { self.old.connections.tenants ≡ length (tenants_of worker.old) }
        ensures served { HasServedNext until_done next.key
            (standing worker.old self.old.connections) (standing worker.new self.new.connections)
            self.new.waiting }
        ensures waits { OnOk result (HasLetWait until_done next.key
            (standing worker.old self.old.connections) (standing worker.new self.new.connections)
            self.old.waiting self.new.waiting) }
        ensures tallies { CountsForTenant next.key (standing worker.old self.old.connections)
            (standing worker.new self.new.connections) self.old.tallies.all.items
            self.new.tallies.all.items }
        ensures round { self.new.waiting.spent_in_round
            ≡ min (self.old.waiting.spent_in_round + self.new.waiting.spent) (2 ^ 64 - 1) }
    {
        let Next { key, stops_short } = next;
        let closing = &mut self.closing;
        let tenant = self.connections.tenant_of(key);
        let place = self.tallies.place_of(tenant);
        let one = &mut self.tallies.all[place];
        one.is_new = true;
        let served = self.connections.serve(
            until_done,
            worker,
            gate,
            buffer,
            key,
            tenant,
            stops_short,
            closing,
            &mut one.tally,
        );
        self.waiting.charge(served.requests, served.bytes);
        match served.state {
            State::Busy | State::Full => self.let_wait(Next {
                key,
                stops_short: false,
            }),
            State::Idle | State::Closed => Ok(()),
        }
    }

    /// Lets the connections wait for which there is an event, and drops what has come on streams
    /// that close. Returns whether the worker was woken.
    ///
    /// Returns an error if memory runs out.
    fn note_events(
        &mut self,
        buffer: &mut [u8; PULL_BYTES],
        events: &Events,
    ) -> Result<bool, AllocError>
        ensures come { OnOk result (HaveCome self.old.connections self.old.waiting
            (items events.now) self.new.waiting) }
        ensures woken { IfOk result
            (λ is_woken. is_woken ≡ list_any is_wake (items events.now)) }
        ensures same { self.new.connections ≡ self.old.connections }
        ensures tallies { self.new.tallies ≡ self.old.tallies }
    {
        let mut is_woken = false;
        for event in events {
            let token = event.token();
            if token == WAKER {
                is_woken = true;
            } else if let Some(place) = place_of(token) {
                self.closing.serve(place, buffer);
            } else {
                self.let_wait(Next {
                    key: token.0,
                    stops_short: stops_short(event),
                })?;
            }
        }
        Ok(is_woken)
    }

    /// Makes a round: lets the connections wait for which there is an event, and serves
    /// connections, each tenant's in its turn, until a turn ends once half a quantum is spent,
    /// nobody waits, or as many were served as a worker has places. If `until_done` is set,
    /// commands are left to the next log once this one is closing, and whose they are wait on.
    /// Returns whether the worker was woken.
    ///
    /// Returns an error if memory runs out.
    pub fn serve_round<G: Gate>(
        &mut self,
        until_done: bool,
        worker: &mut Worker<'_>,
        gate: &mut G,
        buffer: &mut [u8; PULL_BYTES],
        events: &Events,
    ) -> Result<bool, AllocError>
        requires { self.old.connections.tenants ≡ length (tenants_of worker.old) }
        ensures works { Works until_done (standing worker.old self.old.connections)
            (standing worker.new self.new.connections) }
        ensures round { OnOk result (MakesRound until_done (items events.now)
            (queued_at worker.old self.old) (queued_at worker.new self.new)) }
        ensures woken { IfOk result
            (λ is_woken. is_woken ≡ list_any is_wake (items events.now)) }
    {
        let is_woken = self.note_events(buffer, events)?;
        self.waiting.begin_round();
        for _ in 0..MOST_OF_ALL {
            let Some(next) = self.waiting.pop() else {
                return Ok(is_woken);
            };
            self.serve(until_done, worker, gate, buffer, next)?;
        }
        Ok(is_woken)
    }
}
