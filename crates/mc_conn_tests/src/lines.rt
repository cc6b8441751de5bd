//! A connection with its worker and log, and with an input and an output in memory.
ghost use Rattle.std.specs.Prelude.{◌≡◌, ℕ, Some, slice_get, IfOk};
ghost use Rattle.mc_conn.specs.Owed.{FitsLog};
ghost use Rattle.uc_log.specs.Passes.{IsUnusedPass};

use crate::acts::Act;
use crate::logs::{both_passes, opened};
use mc_conn::{Conn, PULL_BYTES, State};
use mc_counters::Tally;
use mc_model::{Fault, Limits, TenantId};
use mc_stream::{Input, InputStep, MemoryInput, MemoryOutput, Output, OutputStep, Pull, Push};
use std::alloc::{AllocError, Global};
use uc_log::{Log, Pass};
use uc_worker::{Hashing, Open, Worker};

/// Enough for all that most tests store.
pub(crate) const QUOTAS: Limits = Limits {
    items: 100,
    bytes: 2_000_000,
};

/// What a client sends, and the steps that its input and its output follow first.
#[derive(Clone, Copy)]
pub(crate) struct Client<'a> {
    pub(crate) sent: &'a str,
    pub(crate) pulls: &'a [InputStep],
    pub(crate) pushes: &'a [OutputStep],
}

impl Client<'_> {
    fn input(&self, alloc: Global) -> Result<MemoryInput, AllocError> {
        let bytes = Vec::from_slice(alloc, self.sent.as_bytes())?;
        Ok(MemoryInput::new(bytes, Vec::from_slice(alloc, self.pulls)?))
    }

    fn output(&self, alloc: Global) -> Result<MemoryOutput, AllocError> {
        let pushes = Vec::from_slice(alloc, self.pushes)?;
        Ok(MemoryOutput::new(alloc, pushes))
    }
}

/// A connection, its input and its output, and how its requests were answered.
#[derive(Drop)]
pub(crate) struct Wire {
    conn: Conn,
    input: MemoryInput,
    output: MemoryOutput,
    tally: Tally,
}

impl Wire {
    /// Returns a wire of this client, on which nothing has come yet.
    pub(crate) fn open(alloc: Global, conn: Conn, client: Client) -> Result<Wire, AllocError> {
        let input = client.input(alloc)?;
        let output = client.output(alloc)?;
        Ok(Wire {
            conn,
            input,
            output,
            tally: Tally::new(),
        })
    }

    /// Returns a wire of this tenant's client, on which nothing has come yet.
    pub(crate) fn of_tenant(alloc: Global, tenant: u8, client: Client) -> Result<Wire, Fault> {
        match TenantId::new(tenant) {
            Some(tenant) => Ok(Wire::open(alloc, Conn::new(alloc, tenant), client)?),
            None => Err(Fault::BadEvent),
        }
    }

    /// Closes the connection as after this fault.
    fn close(&mut self, fault: Fault) {
        self.conn.close(fault, &mut self.output);
    }
}

/// A wire, its worker and the log on which both work.
#[derive(Drop)]
pub(crate) struct Line<'a> {
    log: &'a Log,
    worker: Worker<'a>,
    wire: Wire,
    ghost same: { worker.log.now ≡ log.now },
}

/// Makes a turn, and promises only that the role and the worker's log stay the same.
fn turn(wire: &mut Wire, worker: &mut Worker<'_>) -> Result<State, Fault>
    requires { FitsLog wire.old.conn.role worker.old }
    ensures role { wire.new.conn.role ≡ wire.old.conn.role }
    ensures log { worker.new.log ≡ worker.old.log }
{
    let tally = &mut wire.tally;
    wire.conn.turn(
        worker,
        &mut wire.input,
        &mut wire.output,
        &mut Open,
        PULL_BYTES,
        tally,
    )
}

/// Makes a turn that leaves commands to the next log, and promises only that the role and the
/// worker's log stay the same.
fn turn_until(wire: &mut Wire, worker: &mut Worker<'_>) -> Result<State, Fault>
    requires { FitsLog wire.old.conn.role worker.old }
    ensures role { wire.new.conn.role ≡ wire.old.conn.role }
    ensures log { worker.new.log ≡ worker.old.log }
{
    let tally = &mut wire.tally;
    wire.conn.turn_until(
        worker,
        &mut wire.input,
        &mut wire.output,
        &mut Open,
        PULL_BYTES,
        tally,
    )
}

impl<'a> Line<'a> {
    pub(crate) fn of(log: &'a Log, worker: Worker<'a>, wire: Wire) -> Line<'a>
        requires { worker.log.now ≡ log.now }
    {
        Line { log, worker, wire }
    }

    /// Makes a turn, if the line's role fits the log.
    pub(crate) fn turn(&mut self) -> Result<State, Fault> {
        let tenants = self.log.settings().tenants().len();
        if !self.wire.conn.role().is_among(tenants) {
            return Err(Fault::BadEvent);
        }
        turn(&mut self.wire, &mut self.worker)
    }

    /// Makes a turn that leaves commands to the next log, if the line's role fits the log.
    pub(crate) fn turn_until(&mut self) -> Result<State, Fault> {
        let tenants = self.log.settings().tenants().len();
        if !self.wire.conn.role().is_among(tenants) {
            return Err(Fault::BadEvent);
        }
        turn_until(&mut self.wire, &mut self.worker)
    }

    /// Closes the connection as after this fault.
    pub(crate) fn close(&mut self, fault: Fault) {
        self.wire.close(fault);
    }

    /// Returns how many requests of the connection got a reply.
    pub(crate) fn answered(&self) -> u64 {
        self.wire.conn.answered()
    }

    /// Returns how the requests of the connection were answered.
    pub(crate) fn tally(&self) -> Tally {
        self.wire.tally
    }

    /// Returns what was pushed.
    pub(crate) fn pushed(&self) -> &[u8] {
        self.wire.output.as_bytes()
    }

    /// Returns how many entries the worker has replayed.
    pub(crate) fn replayed(&self) -> usize {
        self.worker.history().len()
    }

    /// Returns what one more pull gives, without the connection.
    pub(crate) fn next_pull(&mut self) -> Pull {
        self.wire.input.pull(&mut [0; 512])
    }

    /// Returns what one more push takes, without the connection.
    pub(crate) fn next_push(&mut self) -> Push {
        self.wire.output.push(b"x")
    }
}

/// Returns the worker with this pass.
pub(crate) fn worker_of<'a>(alloc: Global, log: &'a Log, pass: Pass) -> Result<Worker<'a>, Fault>
    requires { IsUnusedPass log.now pass }
    ensures { IfOk result (λ worker. worker.log.now ≡ log.now) }
{
    Worker::open(alloc, Hashing::Fixed, log, pass)
}

/// Returns worker 0. The other worker does nothing.
fn one_worker<'a>(alloc: Global, log: &'a Log, passes: Vec<Pass>) -> Result<Worker<'a>, Fault>
    requires { (number : ℕ) (pass : _) → slice_get passes.items number ≡ Some pass →
        IsUnusedPass log.now pass }
    ensures { IfOk result (λ worker. worker.log.now ≡ log.now) }
{
    match both_passes(log, passes) {
        Some((first, _idle)) => worker_of(alloc, log, first),
        None => Err(Fault::BadEvent),
    }
}

/// Returns whether the line of this wire and worker 0 does these acts.
fn play_on(
    alloc: Global,
    log: &Log,
    passes: Vec<Pass>,
    wire: Wire,
    acts: &[Act],
) -> Result<bool, Fault>
    requires { (number : ℕ) (pass : _) → slice_get passes.items number ≡ Some pass →
        IsUnusedPass log.now pass }
{
    let worker = one_worker(alloc, log, passes)?;
    let mut line = Line::of(log, worker, wire);
    line.play(acts)
}

/// Returns whether the wire does these acts, with a new log of this many places.
fn play_over(alloc: Global, places: u64, wire: Wire, acts: &[Act]) -> Result<bool, Fault> {
    let (log, passes) = opened(alloc, places, &[QUOTAS])?;
    play_on(alloc, &log, passes, wire, acts)
}

/// Returns whether the connection of this client, of the first tenant, does these acts, with a new
/// log of this many places.
pub(crate) fn play(
    alloc: Global,
    places: u64,
    client: Client,
    acts: &[Act],
) -> Result<bool, Fault> {
    let wire = Wire::of_tenant(alloc, 0, client)?;
    play_over(alloc, places, wire, acts)
}

/// Returns whether this client of the first tenant reads this, with a new log of this many places.
pub(crate) fn reads(alloc: Global, places: u64, client: Client, want: &str) -> Result<bool, Fault> {
    let acts = [Act::Turns(State::Closed), Act::Pushed(want)];
    play(alloc, places, client, &acts)
}
