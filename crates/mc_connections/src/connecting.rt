//! How a worker admits connections and serves them.
ghost use Rattle.std.specs.Prelude.{◌≡◌, ◌⊎◌, ◌*◌, ◌<◌, ◌≤◌, ℕ, true, false, length, IfOk, MatchResult, Ok, Some};
ghost use Rattle.fair_places.specs.Places.{held_by};
ghost use Rattle.mc_conn.specs.Ending.{AnswersAtMost, PullsOnce};
ghost use Rattle.mc_conn.specs.Owed.{FitsLog};
ghost use Rattle.mc_conn.specs.Tallying.{HasCounted, HasCountedTo};
ghost use Rattle.mc_conn.specs.Turn.{scene};
ghost use Rattle.mc_conn.specs.declared.conn.TheConstants.{PULL_BYTES, TURN_REQUESTS};
ghost use Rattle.mc_connections.specs.Serving.{HasAtMost, HasComeTo, IsServed, IsServedLater, IsTallied, MovesAtMost, SpendsAt, Stands, StopsOnce, TurnsOnce, answered_between, moved_between, scene_of, tenant_at};
ghost use Rattle.mc_connections.specs.Tallying.{TalliesAt};
ghost use Rattle.mc_connections.specs.Working.{ServesAt, standing};
ghost use Rattle.mc_connections.specs.declared.pace.TheConstants.{SHARED};
ghost use Rattle.mc_stream.specs.Stream.{both};
ghost use Rattle.slab.specs.Slab.{slab_len};
ghost use Rattle.uc_worker.specs.Worker.{tenants_of};

use crate::arrival::{Admission, Arrival};
use crate::closing::Closing;
use crate::connection::Connection;
use crate::connections::Connections;
use crate::pace::{ALONE, Pace, SHARED, Share};
use crate::socket::{SocketInput, SocketOutput, Spends};
use mc_conn::{Conn, PULL_BYTES, Role, State};
use mc_counters::Tally;
use mc_model::Fault;
use mc_stream::{Input, Output, Tape};
use mio::net::TcpStream;
use mio::{Interest, Registry, Token};
use std::alloc::Global;
use std::mem;
use uc_worker::{Gate, Worker};

/// How many turns a connection gets at most each time that it is served, so that the others get
/// theirs soon: a turn takes in at most `PULL_BYTES`, and at most `TURN_REQUESTS` requests.
const TURNS: u32 = 2;

/// On which terms turns are made.
#[derive(Clone, Copy)]
struct Terms {
    /// Commands are left to the next log once the worker's log is closing.
    until_done: bool,
    /// How many bytes a turn pulls at most.
    most_read: usize,
    /// Once as many requests were answered there is no further turn.
    requests: u64,
}

/// What serving a connection came to.
#[derive(Clone, Copy)]
pub(crate) struct Served {
    /// The connection's state afterwards.
    pub state: State,
    /// How many of its requests got a reply meanwhile, quiet or not.
    pub requests: u64,
    /// How many bytes its stream gave and took meanwhile.
    pub bytes: u64,
}

/// Makes a turn on these terms.
///
/// Returns the errors of `turn`.
fn turn_once<I: Input, O: Output, G: Gate>(
    terms: Terms,
    conn: &mut Conn,
    worker: &mut Worker<'_>,
    input: &mut I,
    output: &mut O,
    gate: &mut G,
    tally: &mut Tally,
) -> Result<State, Fault>
    requires { FitsLog conn.old.role worker.old }
    ensures outcome { conn.old.is_closed ≡ false → MatchResult result
        (TurnsOnce terms.until_done
        (scene conn.old worker.old (both (I.tells input.old) (O.tells output.old)))
        (scene conn.new worker.new (both (I.tells input.new) (O.tells output.new))))
        (StopsOnce terms.until_done
        (scene conn.old worker.old (both (I.tells input.old) (O.tells output.old)))
        (scene conn.new worker.new (both (I.tells input.new) (O.tells output.new)))) }
    ensures pulls { PullsOnce (I.tells input.old) (I.tells input.new) }
    ensures answers { AnswersAtMost TURN_REQUESTS conn.old conn.new }
    ensures tally { MatchResult result
        (λ _. HasCounted conn.old.past conn.new.past tally.old tally.new)
        (HasCountedTo conn.old.past conn.new.past tally.old tally.new) }
    ensures full { IfOk result (λ state. state ≡ State.Full → terms.until_done ≡ true) }
    ensures role { conn.new.role ≡ conn.old.role }
    ensures closed { conn.old.is_closed ≡ true → (result ≡ Ok State.Closed)
        × (conn.new ≡ conn.old) × (worker.new ≡ worker.old)
        × (input.new ≡ input.old) × (output.new ≡ output.old) }
{
    if terms.until_done {
        conn.turn_until(worker, input, output, gate, terms.most_read, tally)
    } else {
        conn.turn(worker, input, output, gate, terms.most_read, tally)
    }
}

/// Makes turns on these terms until nothing is left to do, `TURNS` were made, as many requests were
/// answered as the terms say, the output is spent, a command is left to the next log, or a fault has
/// ended the connection. Returns the connection's state afterwards.
fn turns<I: Input, O: Output + Spends, G: Gate>(
    terms: Terms,
    conn: &mut Conn,
    worker: &mut Worker<'_>,
    input: &mut I,
    output: &mut O,
    gate: &mut G,
    tally: &mut Tally,
) -> State
    requires { FitsLog conn.old.role worker.old }
    ensures served { IsServed terms.until_done
        (scene conn.old worker.old (both (I.tells input.old) (O.tells output.old)))
        (scene conn.new worker.new (both (I.tells input.new) (O.tells output.new))) }
    ensures stands { Stands terms.until_done
        (scene conn.old worker.old (both (I.tells input.old) (O.tells output.old)))
        (scene conn.new worker.new (both (I.tells input.new) (O.tells output.new))) result }
    ensures few { HasAtMost TURNS (I.tells input.old).events (I.tells input.new).events }
    ensures reads { MovesAtMost (TURNS * PULL_BYTES) (I.tells input.old).events
        (I.tells input.new).events }
    ensures answers { AnswersAtMost (TURNS * TURN_REQUESTS) conn.old conn.new }
    ensures role { conn.new.role ≡ conn.old.role }
    ensures tally { IsTallied
        (scene conn.old worker.old (both (I.tells input.old) (O.tells output.old)))
        (scene conn.new worker.new (both (I.tells input.new) (O.tells output.new)))
        tally.old tally.new }
{
    // The laws from which the clauses on all turns follow.
    mc_conn::laws::turns_add_up();
    mc_conn::laws::turns_until_the_next_log_add_up();
    mc_conn::laws::counts_add_up();
    let last = conn.answered().saturating_add(terms.requests);
    for _ in 0..TURNS {
        match turn_once(terms, conn, worker, input, output, gate, tally) {
            Ok(State::Busy) => {
                if conn.answered() >= last || output.is_spent() {
                    return State::Busy;
                }
            }
            Ok(state) => return state,
            Err(_) => return State::Closed,
        }
    }
    State::Busy
}

impl Connection {
    /// Makes turns over the connection's stream, which take no more than its share. The tally counts
    /// the requests.
    fn serve<G: Gate>(
        &mut self,
        until_done: bool,
        worker: &mut Worker<'_>,
        gate: &mut G,
        stops_short: bool,
        share: Share,
        tally: &mut Tally,
    ) -> Served
        requires { FitsLog self.old.conn.role worker.old }
        ensures later { IsServedLater until_done worker.old worker.new self.old self.new
            result.state }
        ensures requests { result.requests ≡ answered_between self.old self.new }
        ensures bytes { result.bytes ≡ moved_between self.old self.new }
        ensures tally { IsTallied (scene_of self.old worker.old) (scene_of self.new worker.new)
            tally.old tally.new }
    {
        let (came, went) = (self.bytes_received, self.bytes_sent);
        let Connection {
            stream,
            conn,
            received,
            sent,
            bytes_received,
            bytes_sent,
            pace,
            is_served,
        } = self;
        *is_served = true;
        let answered = conn.answered();
        let tape = mem::replace(received, Tape::new());
        let mut input = SocketInput::resume(stream, stops_short, tape, came);
        let tape = mem::replace(sent, Tape::new());
        let mut output = SocketOutput::resume(stream, tape, went, share.written);
        let terms = Terms {
            until_done,
            most_read: pace.most_read(share.requests),
            requests: share.requests,
        };
        let state = turns(terms, conn, worker, &mut input, &mut output, gate, tally);
        (*received, *bytes_received) = input.into_parts();
        (*sent, *bytes_sent) = output.into_parts();
        let given = bytes_received.saturating_sub(came);
        let requests = conn.answered().saturating_sub(answered);
        pace.count(given, requests);
        let bytes = given.saturating_add(bytes_sent.saturating_sub(went));
        Served {
            state,
            requests,
            bytes,
        }
    }
}

impl Connections {
    /// Returns the number of the tenant whose connection is under a key, or `None` if none is, or
    /// an administrator's.
    pub(crate) fn tenant_of(&self, key: usize) -> Option<usize>
        ensures { result ≡ tenant_at self.now key }
    {
        match self.by_key.get(key)?.conn.role() {
            Role::Tenant(tenant) => Some(usize::from(tenant.number())),
            Role::Admin(_) => None,
        }
    }

    /// Returns how much serving a connection of this tenant, or of an administrator if there is
    /// none, may take: less if not all that there are are that tenant's.
    fn share_of(&self, tenant: Option<usize>) -> Share
        ensures { (result ≡ SHARED) ⊎ (holder : ℕ) × (tenant ≡ Some holder)
            × (slab_len self.now.by_key ≤ held_by self.now.places.tenants holder) }
    {
        let Some(tenant) = tenant else {
            return SHARED;
        };
        if self.places.held_by(tenant) < self.by_key.len() {
            return SHARED;
        }
        ALONE
    }

    /// Admits an arrival as a connection. Its key is also the token of its events.
    ///
    /// There is no place for it if `MOST_ADMINS` of administrators are held, or if its tenant holds
    /// its reserve and what is free of `MOST_CONNECTIONS` is kept for others. Needs no memory.
    pub fn admit(
        &mut self,
        alloc: Global,
        registry: &Registry,
        arrival: Arrival<TcpStream>,
    ) -> Admission
        ensures { HasComeTo self.old self.new arrival result }
    {
        let Arrival { role, mut stream } = arrival;
        // The queue is behind a lock, so nothing is proved about what comes out of it.
        if !role.is_among(self.tenants) {
            return Admission::UnknownRole;
        }
        if !self.places.has_place(&role) {
            return Admission::NoPlace(Arrival { role, stream });
        }
        let token = Token(self.by_key.vacant_key());
        let both = Interest::READABLE | Interest::WRITABLE;
        if registry.register(&mut stream, token, both).is_err() {
            return Admission::Unregistered;
        }
        self.places.take(&role);
        let connection = Connection {
            stream,
            conn: Conn::of(alloc, role),
            received: Tape::new(),
            sent: Tape::new(),
            bytes_received: 0,
            bytes_sent: 0,
            pace: Pace::new(),
            is_served: false,
        };
        Admission::Admitted(self.by_key.insert_reserved(connection))
    }

    /// Serves the connection under a key, if there is one, which is this tenant's, or an
    /// administrator's if there is none, and counts its requests in the tally. If it has ended it is
    /// removed, and its stream closes: what has come on it goes into the buffer and is dropped.
    pub(crate) fn serve<G: Gate>(
        &mut self,
        until_done: bool,
        worker: &mut Worker<'_>,
        gate: &mut G,
        buffer: &mut [u8; PULL_BYTES],
        key: usize,
        tenant: Option<usize>,
        stops_short: bool,
        closing: &mut Closing,
        tally: &mut Tally,
    ) -> Served
        requires { self.old.tenants ≡ length (tenants_of worker.old) }
        ensures serves { ServesAt until_done key result.state (standing worker.old self.old)
            (standing worker.new self.new) }
        ensures spends { SpendsAt result.requests result.bytes key result.state self.old self.new }
        ensures tally { TalliesAt key result.state (standing worker.old self.old)
            (standing worker.new self.new) tally.old tally.new }
    {
        let share = self.share_of(tenant);
        let Some(connection) = self.by_key.get_mut(key) else {
            return Served {
                state: State::Idle,
                requests: 0,
                bytes: 0,
            };
        };
        let served = connection.serve(until_done, worker, gate, stops_short, share, tally);
        if served.state == State::Closed {
            let Some(connection) = self.by_key.try_remove(key) else {
                unreachable!();
            };
            self.places.give_back(connection.conn.role());
            self.ended = self.ended.and(&connection);
            closing.keep(connection.stream, buffer);
        }
        served
    }
}
