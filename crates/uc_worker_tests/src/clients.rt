//! A worker together with the log that it works on, and several of them.
ghost use Rattle.std.specs.Prelude.{◌≡◌, ℕ, Some, length, slice_get, All, IfOk, IfSome};
ghost use Rattle.mc_model.specs.Replay.{HaveRoom};
ghost use Rattle.uc_log.specs.Passes.{IsUnusedPass};

use crate::texts::{command_of, reads_as, settings_of};
use mc_items::CellItems;
use mc_model::{Command, Fault, Limits, TenantId};
use std::alloc::Global;
use uc_cells::Seen;
use uc_log::{Log, Pass};
use uc_worker::{Answer, Base, Gate, Hashing, Open, Worker};

/// A worker and its log.
#[derive(Drop)]
pub(crate) struct Client<'a> {
    pub(crate) log: &'a Log,
    pub(crate) worker: Worker<'a>,
    ghost same: { worker.log.now ≡ log.now },
}

impl<'a> Client<'a> {
    /// Opens the client of the worker with this pass.
    pub(crate) fn open(alloc: Global, log: &'a Log, pass: Pass) -> Result<Client<'a>, Fault>
        requires { IsUnusedPass log.now pass }
        ensures { IfOk result (λ client. client.log.now ≡ log.now) }
    {
        let worker = Worker::open(alloc, Hashing::Fixed, log, pass)?;
        Ok(Client { log, worker })
    }

    /// Opens the client of the worker with this pass over the base.
    pub(crate) fn open_over(
        alloc: Global,
        log: &'a Log,
        pass: Pass,
        base: &'a Base,
    ) -> Result<Client<'a>, Fault>
        requires unused { IsUnusedPass log.now pass }
        requires tenants { length base.now.tables.items ≡ length log.now.settings.tenants }
        requires room { HaveRoom base.now.tables.items log.now.settings.places }
        ensures { IfOk result (λ client. client.log.now ≡ log.now) }
    {
        let worker = Worker::open_over(alloc, log, pass, base)?;
        Ok(Client { log, worker })
    }

    /// Submits through the gate, if there is such a tenant.
    pub(crate) fn submit<G: Gate>(
        &mut self,
        tenant: u8,
        command: Command,
        gate: &mut G,
    ) -> Result<Answer<'a>, Fault>
        ensures { self.new.log ≡ self.old.log }
    {
        // A local enum that its block drops is proved variant by variant, on each way out.
        let Some(tenant) = TenantId::new(tenant) else {
            drop(command);
            return Err(Fault::BadEvent);
        };
        if usize::from(tenant.number()) >= self.log.settings().tenants().len() {
            drop(command);
            return Err(Fault::BadEvent);
        }
        self.worker.submit(tenant, command, gate)
    }

    /// Submits the command that a client writes as this text.
    pub(crate) fn ask<G: Gate>(
        &mut self,
        alloc: Global,
        tenant: u8,
        text: &str,
        gate: &mut G,
    ) -> Result<Answer<'a>, Fault>
        ensures { self.new.log ≡ self.old.log }
    {
        let command = command_of(alloc, text)?;
        self.submit(tenant, command, gate)
    }

    /// Returns whether the first tenant's client that writes this text reads that one.
    pub(crate) fn says(&mut self, alloc: Global, text: &str, want: &str) -> Result<bool, Fault>
        ensures { self.new.log ≡ self.old.log }
    {
        is_said(alloc, self.ask(alloc, 0, text, &mut Open)?, want)
    }

    pub(crate) fn catch_up(&mut self) -> Result<(), Fault>
        ensures { self.new.log ≡ self.old.log }
    {
        self.worker.catch_up(&mut Open)
    }

    pub(crate) fn catch_up_some(&mut self, most: usize) -> Result<bool, Fault>
        ensures { self.new.log ≡ self.old.log }
    {
        self.worker.catch_up_some(most, &mut Open)
    }

    pub(crate) fn meet(&mut self, other: &mut Client<'a>) -> Result<(), Fault>
        requires { self.old.log.now ≡ other.old.log.now }
        ensures one { self.new.log ≡ self.old.log }
        ensures two { other.new.log ≡ other.old.log }
    {
        self.worker.meet(&mut other.worker)
    }

    /// Returns the worker's number.
    pub(crate) fn number(&self) -> u8 {
        self.worker.worker().number()
    }

    pub(crate) fn history(&self) -> &[Seen<'a>] {
        self.worker.history()
    }

    /// Returns the tenant's table, if there is such a tenant.
    pub(crate) fn table(&self, tenant: TenantId) -> Option<&CellItems<'a>> {
        if usize::from(tenant.number()) < self.log.settings().tenants().len() {
            Some(self.worker.table(tenant))
        } else {
            None
        }
    }

    pub(crate) fn is_full(&self) -> bool {
        self.worker.is_full()
    }
}

/// Returns whether the answer's reply is read as this text.
pub(crate) fn is_said(alloc: Global, answer: Answer<'_>, want: &str) -> Result<bool, Fault> {
    let said = reads_as(alloc, &answer.reply, want);
    drop(answer);
    said
}

/// Returns whether the answer has this place, and its reply is read as this text.
pub(crate) fn is_answer(
    alloc: Global,
    answer: Answer<'_>,
    place: usize,
    want: &str,
) -> Result<bool, Fault> {
    let is_there = answer.place == place;
    Ok(is_said(alloc, answer, want)? && is_there)
}

/// Returns whether both histories are equal, place by place: the tickets and the entries under
/// them.
pub(crate) fn are_equal(ones: &[Seen<'_>], others: &[Seen<'_>]) -> bool {
    for (one, other) in ones.iter().zip(others) {
        if one.ticket() != other.ticket() || one.entry() != other.entry() {
            return false;
        }
    }
    ones.len() == others.len()
}

/// Returns whether the history has these tickets: pairs of a worker and a number.
pub(crate) fn has_tickets(history: &[Seen<'_>], tickets: &[(u8, u64)]) -> bool {
    for (seen, (worker, number)) in history.iter().zip(tickets) {
        let ticket = seen.ticket();
        if ticket.worker.number() != *worker || ticket.number != *number {
            return false;
        }
    }
    history.len() == tickets.len()
}

/// Opens a log of this many workers and places, and of tenants with these quotas, and returns the
/// workers' passes too.
pub(crate) fn opened(
    alloc: Global,
    workers: u64,
    places: u64,
    quotas: &[Limits],
) -> Result<(Log, Vec<Pass>), Fault>
    ensures { IfOk result
        (λ opened. (number : ℕ) (pass : _) → slice_get opened.1.items number ≡ Some pass →
        IsUnusedPass opened.0 pass) }
{
    let settings = settings_of(alloc, workers, places, quotas)?;
    let (log, passes) = Log::open(alloc, &settings)?;
    Ok((log, passes))
}

/// Returns the passes of worker 0 and worker 1.
pub(crate) fn both_passes(log: &Log, mut passes: Vec<Pass>) -> Option<(Pass, Pass)>
    requires { (number : ℕ) (pass : _) → slice_get passes.items number ≡ Some pass →
        IsUnusedPass log.now pass }
    ensures { IfSome result (λ pair. IsUnusedPass log.now pair.0 × IsUnusedPass log.now pair.1) }
{
    let second = passes.pop()?;
    let first = passes.pop()?;
    Some((first, second))
}

/// Returns the clients of worker 0 and worker 1.
pub(crate) fn both_clients<'a>(
    alloc: Global,
    log: &'a Log,
    passes: Vec<Pass>,
) -> Result<(Client<'a>, Client<'a>), Fault>
    requires { (number : ℕ) (pass : _) → slice_get passes.items number ≡ Some pass →
        IsUnusedPass log.now pass }
    ensures one { IfOk result (λ pair. pair.0.log.now ≡ log.now) }
    ensures two { IfOk result (λ pair. pair.1.log.now ≡ log.now) }
{
    let Some((first, second)) = both_passes(log, passes) else {
        return Err(Fault::BadEvent);
    };
    let first = Client::open(alloc, log, first)?;
    let second = Client::open(alloc, log, second)?;
    Ok((first, second))
}

/// Returns the clients of all workers, by their numbers.
pub(crate) fn clients_of<'a>(
    alloc: Global,
    log: &'a Log,
    passes: Vec<Pass>,
) -> Result<Vec<Client<'a>>, Fault>
    requires { (number : ℕ) (pass : _) → slice_get passes.items number ≡ Some pass →
        IsUnusedPass log.now pass }
    ensures { IfOk result (λ clients. All (λ client. client.log.now ≡ log.now) clients.items) }
{
    let mut clients = Vec::new(alloc);
    for pass in passes {
        clients.push(Client::open(alloc, log, pass)?)?;
    }
    Ok(clients)
}
