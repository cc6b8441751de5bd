//! Submits: workers of a shared log, each in its own thread, submit gets and sets; or the same
//! commands are applied to plain tables, or are only made. Prints what was answered, and if timed
//! also what depends on the machine: the nanoseconds of a submit, and its steps.
ghost use Rattle.std.specs.Prelude.{◌≡◌, ℕ, Some, slice_get};
ghost use Rattle.uc_log.specs.Passes.{IsNew};

use crate::figures::{Decimal, nanoseconds_of, print_figure};
use mc_items::tables::owned_tables;
use mc_items::{Items, Table};
use mc_model::settings::{MAX_BYTES, MAX_ITEMS};
use mc_model::{Command, Fault, Limits, Reply, Request, Settings, TenantId};
use mc_read::Reader;
use std::alloc::Global;
use std::rt::Clock;
use std::thread::{Threads, map_vec};
use std::time::Duration;
use std::{io, mem};
use uc_log::{Log, Pass};
use uc_worker::{Gate, Hashing, Open, Step, Worker};

/// Into how many parts a worker's commands are divided, each timed by itself.
const PARTS: usize = 10;

/// What is done with the commands: they are only made, applied to plain tables, or submitted to a
/// log.
#[derive(Clone, Copy)]
enum Task {
    Make,
    Apply,
    Submit,
}

/// What is measured, by the words of the command line.
#[derive(Drop)]
struct Load {
    task: Task,
    timed: bool,
    /// How many workers submit, each in its own thread.
    workers: u64,
    /// How many workers of the log do nothing.
    idle: u64,
    tenants: u64,
    /// How many keys all tenants have in total. Each is set before the commands that are measured.
    keys: u64,
    /// How many places the log has.
    places: u64,
    /// How many commands all workers submit in total.
    commands: u64,
    /// How many of a hundred commands are sets. The others are gets.
    sets: u64,
}

impl Load {
    /// Returns what is measured without a word: two workers submit.
    fn new() -> Load {
        Load {
            task: Task::Submit,
            timed: false,
            workers: 2,
            idle: 0,
            tenants: 1,
            keys: 1_000,
            places: 100_000,
            commands: 10_000,
            sets: 5,
        }
    }

    /// Does what a word of the command line says. Returns `None` if it says nothing.
    fn hear(&mut self, word: &str) -> Option<()> {
        let Some((name, number)) = word.split_once('=') else {
            match word {
                "--time" => self.timed = true,
                "--make" => self.task = Task::Make,
                "--apply" => self.task = Task::Apply,
                _ => return None,
            }
            return Some(());
        };
        let field = match name {
            "--workers" => &mut self.workers,
            "--idle" => &mut self.idle,
            "--tenants" => &mut self.tenants,
            "--keys" => &mut self.keys,
            "--places" => &mut self.places,
            "--commands" => &mut self.commands,
            "--sets" => &mut self.sets,
            _ => return None,
        };
        *field = number.parse().ok()?;
        Some(())
    }

    fn settings(&self, alloc: Global) -> Result<Settings, Fault> {
        let mut quotas = Vec::new(alloc);
        for _ in 0..self.tenants {
            quotas.push(Limits {
                items: MAX_ITEMS,
                bytes: MAX_BYTES,
            })?;
        }
        let workers = self.workers.saturating_add(self.idle);
        Settings::check(workers, self.places, quotas)
    }

    /// Returns a set of the key of this number, or a get of it. The keys are dealt out to the
    /// tenants.
    fn ask(&self, alloc: Global, number: u64, is_set: bool) -> Result<Ask, Fault> {
        let tenant = u8::try_from(number % self.tenants.max(1)).map_err(|_| Fault::BadSettings)?;
        let tenant = TenantId::new(tenant).ok_or(Fault::BadSettings)?;
        let text = if is_set {
            format!(in alloc; "set key-{number} 0 0 100\r\n{number:0>100}\r\n")?
        } else {
            format!(in alloc; "get key-{number}\r\n")?
        };
        let command = command_of(alloc, text.as_str())?;
        Ok(Ask { tenant, command })
    }

    /// Returns the commands of one worker, in parts.
    fn parts(&self, alloc: Global, worker: u64) -> Result<Vec<Vec<Ask>>, Fault> {
        let each = self.commands / self.workers.max(1) / PARTS as u64;
        let mut number = worker << 32;
        let mut parts = Vec::new(alloc);
        for _ in 0..PARTS {
            let mut part = Vec::new(alloc);
            for _ in 0..each {
                number = number.wrapping_add(1);
                let chance = scrambled(number);
                let is_set = (chance >> 32) % 100 < self.sets;
                part.push(self.ask(alloc, chance % self.keys.max(1), is_set)?)?;
            }
            parts.push(part)?;
        }
        Ok(parts)
    }
}

/// Returns a number without any order for each number, the same in each run: two rounds of shifts
/// and products, as in SplitMix64.
fn scrambled(number: u64) -> u64 {
    let mixed = number.wrapping_mul(0x9E37_79B9_7F4A_7C15);
    let mixed = (mixed ^ (mixed >> 30)).wrapping_mul(0xBF58_476D_1CE4_E5B9);
    mixed ^ (mixed >> 27)
}

/// A command, and the tenant that it is for.
#[derive(Drop)]
struct Ask {
    tenant: TenantId,
    command: Command,
}

/// Returns the command that a client writes as this text.
fn command_of(alloc: Global, text: &str) -> Result<Command, Fault> {
    let mut reader = Reader::new(alloc);
    reader.feed(text.as_bytes())?;
    match reader.next()? {
        Some(Request::Logged { command, .. }) => Ok(command),
        _ => Err(Fault::BadSettings),
    }
}

/// The steps of a submit, and what they are called.
const STEPS: [(&str, Step); 5] = [
    ("announce", Step::Announce),
    ("read", Step::Read),
    ("look", Step::Look),
    ("propose", Step::Propose),
    ("replay", Step::Replay),
];

/// How many steps of each kind a worker took.
#[derive(Clone, Copy, Default)]
struct Steps {
    announce: u64,
    read: u64,
    look: u64,
    propose: u64,
    replay: u64,
}

impl Gate for Steps {
    fn at(&mut self, step: Step) {
        self.add(step, 1);
    }
}

impl Steps {
    /// Adds to the number of a kind.
    fn add(&mut self, step: Step, more: u64) {
        let count = match step {
            Step::Announce => &mut self.announce,
            Step::Read => &mut self.read,
            Step::Look => &mut self.look,
            Step::Propose => &mut self.propose,
            Step::Replay => &mut self.replay,
        };
        *count = count.saturating_add(more);
    }

    /// Returns the number of a kind.
    fn of(&self, step: Step) -> u64 {
        match step {
            Step::Announce => self.announce,
            Step::Read => self.read,
            Step::Look => self.look,
            Step::Propose => self.propose,
            Step::Replay => self.replay,
        }
    }

    /// Adds the steps of another worker.
    fn add_all(&mut self, other: &Steps) {
        for (_, step) in STEPS {
            self.add(step, other.of(step));
        }
    }
}

/// What became of a worker's commands.
#[derive(Clone, Copy, Default)]
struct Work {
    answered: u64,
    stored: u64,
    /// The most proposals that were made for one command.
    most: u64,
    steps: Steps,
    /// What the clock showed before the first part and after each, in nanoseconds.
    times: [u64; PARTS + 1],
}

/// Returns what the clock shows, in nanoseconds, or zero if it can't be read.
fn now(clock: &impl Clock) -> u64 {
    nanoseconds_of(clock.monotonic().unwrap_or(Duration::ZERO))
}

/// What answers commands.
trait Server {
    /// Returns whether the reply to a command is that it stored, and how many proposals were made
    /// for it.
    fn serve(&mut self, ask: Ask, steps: &mut Steps) -> Result<(bool, u64), Fault>;
}

/// Does nothing with a command.
impl Server for () {
    fn serve(&mut self, ask: Ask, _steps: &mut Steps) -> Result<(bool, u64), Fault> {
        mem::forget(ask);
        Ok((false, 0))
    }
}

/// Applies a command to its tenant's table, and returns whether it stored.
fn stores(tables: &mut [Items], ask: &Ask) -> Result<bool, Fault> {
    let place = usize::from(ask.tenant.number());
    match tables.get_mut(place) {
        Some(table) if table.last_unique() < u64::MAX => {
            Ok(table.apply(&ask.command)? == Reply::Stored)
        }
        Some(_) => Err(Fault::LogFull),
        None => Err(Fault::BadSettings),
    }
}

/// Tables without a log. The memory of a command is leaked, as a log keeps it.
impl Server for Vec<Items> {
    fn serve(&mut self, ask: Ask, _steps: &mut Steps) -> Result<(bool, u64), Fault> {
        let stored = stores(self, &ask);
        mem::forget(ask);
        Ok((stored?, 0))
    }
}

/// A worker and its log.
#[derive(Drop)]
struct Client<'a> {
    log: &'a Log,
    worker: Worker<'a>,
    ghost same: { worker.log.now ≡ log.now },
}

impl<'a> Server for Client<'a> {
    fn serve(&mut self, ask: Ask, steps: &mut Steps) -> Result<(bool, u64), Fault> {
        let Ask { tenant, command } = ask;
        if usize::from(tenant.number()) >= self.log.settings().tenants().len() {
            return Err(Fault::BadSettings);
        }
        let answer = self.worker.submit(tenant, command, steps)?;
        Ok((answer.reply == Reply::Stored, answer.proposals))
    }
}

/// Sets each key.
fn fill<S: Server>(alloc: Global, server: &mut S, load: &Load) -> Result<(), Fault> {
    for number in 0..load.keys {
        server.serve(load.ask(alloc, number, true)?, &mut Steps::default())?;
    }
    Ok(())
}

/// Has the commands answered, and times each part of them.
fn serve_all<R: Clock, S: Server>(
    rt: &R,
    server: &mut S,
    parts: Vec<Vec<Ask>>,
) -> Result<Work, Fault> {
    let mut work = Work::default();
    let mut times = [now(rt); PARTS + 1];
    for (time, part) in times.iter_mut().skip(1).zip(parts) {
        for ask in part {
            let (stored, proposals) = server.serve(ask, &mut work.steps)?;
            work.answered = work.answered.saturating_add(1);
            work.stored = work.stored.saturating_add(u64::from(stored));
            work.most = work.most.max(proposals);
        }
        *time = now(rt);
    }
    work.times = times;
    Ok(work)
}

/// A client with its commands.
type Job<'a> = (Client<'a>, Vec<Vec<Ask>>);

/// Returns the jobs of the last of these passes. The first client has set each key, and all have
/// caught up.
fn jobs_of<'a>(
    alloc: Global,
    log: &'a Log,
    mut passes: Vec<Pass>,
    load: &Load,
) -> Result<Vec<Job<'a>>, Fault>
    requires { (number : ℕ) (pass : _) → slice_get passes.items number ≡ Some pass →
        IsNew log.now number pass }
{
    let mut jobs = Vec::new(alloc);
    for number in 0..load.workers {
        let Some(pass) = passes.pop() else {
            break;
        };
        let worker = Worker::open(alloc, Hashing::Fixed, log, pass)?;
        let mut client = Client { log, worker };
        if number == 0 {
            fill(alloc, &mut client, load)?;
        }
        client.worker.catch_up(&mut Open)?;
        jobs.push((client, load.parts(alloc, number)?))?;
    }
    Ok(jobs)
}

/// Has the workers of a new log submit the commands. What they leave is leaked, so that freeing it
/// costs nothing.
fn submit<R: Clock + Threads + Sync>(
    rt: &R,
    alloc: Global,
    load: &Load,
) -> Result<Vec<Work>, Fault> {
    let (log, passes) = Log::open(alloc, &load.settings(alloc)?)?;
    let jobs = jobs_of(alloc, &log, passes, load)?;
    let serve = |job: Job<'_>| -> Result<Work, Fault> {
        let (mut client, parts) = job;
        let work = serve_all(rt, &mut client, parts);
        mem::forget(client);
        work
    };
    let works = map_vec(rt, jobs, &serve)?;
    mem::forget(log);
    works.into_iter().collect(alloc)?
}

/// Gives the first worker's commands to a server without a log.
fn serve_alone<R: Clock, S: Server + Drop>(
    rt: &R,
    alloc: Global,
    load: &Load,
    mut server: S,
) -> Result<Vec<Work>, Fault> {
    fill(alloc, &mut server, load)?;
    let parts = load.parts(alloc, 0)?;
    let work = serve_all(rt, &mut server, parts)?;
    mem::forget(server);
    Ok(vec![in alloc; work]?)
}

/// Does what the load says, and returns each worker's work.
fn perform<R: Clock + Threads + Sync>(
    rt: &R,
    alloc: Global,
    load: &Load,
) -> Result<Vec<Work>, Fault> {
    match load.task {
        Task::Make => serve_alone(rt, alloc, load, ()),
        Task::Apply => {
            let tables = owned_tables(alloc, load.settings(alloc)?.tenants(), Hashing::Fixed)?;
            serve_alone(rt, alloc, load, tables)
        }
        Task::Submit => submit(rt, alloc, load),
    }
}

/// Prints the nanoseconds of a submit, from the first worker's start to the last one's end, over
/// how many all of them did; and the steps of one, and the most proposals for one.
fn print_submits(rt: &impl Print, works: &[Work]) -> io::Result<()> {
    let mut answered = 0u64;
    let mut start = u64::MAX;
    let mut end = 0u64;
    let mut most = 0u64;
    let mut steps = Steps::default();
    for work in works {
        answered = answered.saturating_add(work.answered);
        start = start.min(work.times[0]);
        end = end.max(work.times[PARTS]);
        most = most.max(work.most);
        steps.add_all(&work.steps);
    }
    let each = Decimal::quotient(end.saturating_sub(start), answered);
    print_figure(rt, "a submit", each, "ns")?;
    for (name, step) in STEPS {
        let each = Decimal::quotient(steps.of(step), answered);
        print_figure(rt, format_args!("{name} of a submit"), each, "steps")?;
    }
    print_figure(rt, "most proposals for a command", most, "proposals")
}

/// Prints the nanoseconds of a submit in each part of a worker's commands.
fn print_parts(rt: &impl Print, work: &Work) -> io::Result<()> {
    let each = work.answered / PARTS as u64;
    let mut start = work.times[0];
    for (at, end) in work.times.iter().enumerate().skip(1) {
        let time = Decimal::quotient(end.saturating_sub(start), each);
        print_figure(rt, format_args!("a submit in tenth {at}"), time, "ns")?;
        start = *end;
    }
    Ok(())
}

/// Does what these words of the command line ask for, and prints the measurements.
pub(crate) fn run<R: AllocGlobal + Clock + Print + Threads + Sync>(
    rt: &R,
    words: &[String],
) -> io::Result<()> {
    let mut load = Load::new();
    for word in words {
        load.hear(word.as_str()).ok_or(io::ErrorKind::InvalidInput)?;
    }
    let works = perform(rt, rt.alloc(), &load).map_err(|_| io::ErrorKind::Other)?;
    for (worker, work) in works.iter().enumerate() {
        let name = format_args!("worker {worker}: commands answered");
        print_figure(rt, name, work.answered, "count")?;
        let name = format_args!("worker {worker}: commands stored");
        print_figure(rt, name, work.stored, "count")?;
    }
    if load.timed {
        print_submits(rt, &works)?;
        if let [work] = works.as_slice() {
            print_parts(rt, work)?;
        }
    }
    Ok(())
}
