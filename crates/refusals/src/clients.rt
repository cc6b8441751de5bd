//! A worker together with the log that it works on.
ghost use Rattle.std.specs.Prelude.{◌≡◌, ℕ, Some, length, slice_get, IfOk, IfSome};
ghost use Rattle.mc_model.specs.Replay.{HaveRoom};
ghost use Rattle.uc_log.specs.Passes.{IsUnusedPass};

use mc_model::{Command, Fault, Limits, Request, Settings, TenantId};
use mc_read::Reader;
use std::alloc::Global;
use uc_log::{Log, Pass};
use uc_worker::{Answer, Base, Hashing, Open, Worker};

const QUOTAS: Limits = Limits {
    items: 100,
    bytes: 100_000,
};

/// A worker and its log.
#[derive(Drop)]
pub(crate) struct Client<'a> {
    pub(crate) log: &'a Log,
    pub(crate) worker: Worker<'a>,
    ghost same: { worker.log.now ≡ log.now },
}

impl<'a> Client<'a> {
    /// Opens the client of the worker with this pass.
    pub(crate) fn open(alloc: Global, log: &'a Log, pass: Pass) -> Result<Client<'a>, Fault>
        requires { IsUnusedPass log.now pass }
        ensures { IfOk result (λ client. client.log.now ≡ log.now) }
    {
        let worker = Worker::open(alloc, Hashing::Fixed, log, pass)?;
        Ok(Client { log, worker })
    }

    /// Opens the client of the worker with this pass over the base.
    pub(crate) fn open_over(
        alloc: Global,
        log: &'a Log,
        pass: Pass,
        base: &'a Base,
    ) -> Result<Client<'a>, Fault>
        requires unused { IsUnusedPass log.now pass }
        requires tenants { length base.now.tables.items ≡ length log.now.settings.tenants }
        requires room { HaveRoom base.now.tables.items log.now.settings.places }
        ensures { IfOk result (λ client. client.log.now ≡ log.now) }
    {
        let worker = Worker::open_over(alloc, log, pass, base)?;
        Ok(Client { log, worker })
    }

    /// Submits for the first tenant, if there is one.
    pub(crate) fn submit(&mut self, command: Command) -> Result<Answer<'a>, Fault>
        ensures { self.new.log ≡ self.old.log }
    {
        // A local enum that its block drops is proved variant by variant, on each way out.
        let Some(tenant) = TenantId::new(0) else {
            drop(command);
            return Err(Fault::BadEvent);
        };
        if self.log.settings().tenants().is_empty() {
            drop(command);
            return Err(Fault::BadEvent);
        }
        self.worker.submit(tenant, command, &mut Open)
    }

    pub(crate) fn meet(&mut self, other: &mut Client<'a>) -> Result<(), Fault>
        requires { self.old.log.now ≡ other.old.log.now }
        ensures one { self.new.log ≡ self.old.log }
        ensures two { other.new.log ≡ other.old.log }
    {
        self.worker.meet(&mut other.worker)
    }
}

/// Returns the command that a client writes as this text.
pub(crate) fn command_of(alloc: Global, text: &str) -> Result<Command, Fault> {
    let mut reader = Reader::new(alloc);
    reader.feed(text.as_bytes())?;
    match reader.next()? {
        Some(Request::Logged { command, .. }) => Ok(command),
        _ => Err(Fault::BadEvent),
    }
}

/// Opens a log of this many workers and places, and of one tenant, and returns the workers' passes
/// too.
pub(crate) fn opened(alloc: Global, workers: u64, places: u64) -> Result<(Log, Vec<Pass>), Fault>
    ensures { IfOk result
        (λ opened. (number : ℕ) (pass : _) → slice_get opened.1.items number ≡ Some pass →
        IsUnusedPass opened.0 pass) }
{
    let quotas = Vec::from_slice(alloc, &[QUOTAS])?;
    let settings = Settings::check(workers, places, quotas)?;
    Log::open(alloc, &settings)
}

/// Returns the last of the passes.
pub(crate) fn last_pass(log: &Log, mut passes: Vec<Pass>) -> Option<Pass>
    requires { (number : ℕ) (pass : _) → slice_get passes.items number ≡ Some pass →
        IsUnusedPass log.now pass }
    ensures { IfSome result (IsUnusedPass log.now) }
{
    passes.pop()
}

/// Returns the passes of worker 0 and worker 1.
fn both_passes(log: &Log, mut passes: Vec<Pass>) -> Option<(Pass, Pass)>
    requires { (number : ℕ) (pass : _) → slice_get passes.items number ≡ Some pass →
        IsUnusedPass log.now pass }
    ensures { IfSome result (λ pair. IsUnusedPass log.now pair.0 × IsUnusedPass log.now pair.1) }
{
    let second = passes.pop()?;
    let first = passes.pop()?;
    Some((first, second))
}

/// Returns the clients of worker 0 and worker 1.
pub(crate) fn both_clients<'a>(
    alloc: Global,
    log: &'a Log,
    passes: Vec<Pass>,
) -> Result<(Client<'a>, Client<'a>), Fault>
    requires { (number : ℕ) (pass : _) → slice_get passes.items number ≡ Some pass →
        IsUnusedPass log.now pass }
    ensures one { IfOk result (λ pair. pair.0.log.now ≡ log.now) }
    ensures two { IfOk result (λ pair. pair.1.log.now ≡ log.now) }
{
    let Some((first, second)) = both_passes(log, passes) else {
        return Err(Fault::BadEvent);
    };
    let first = Client::open(alloc, log, first)?;
    let second = Client::open(alloc, log, second)?;
    Ok((first, second))
}
