//! The shared words: the opening of the greatest log, reads one after another, and submits by one,
//! two and four threads. Prints what was counted, and if timed also what depends on the machine:
//! times, memory, and how the threads' steps interleaved.
ghost use Rattle.std.specs.Prelude.{◌≡◌, ◌<◌, ◌≤◌, ℕ, slice_get, Some, IfSome};
ghost use Rattle.mc_model.specs.declared.id.TheConstants.{WORKERS};
ghost use Rattle.uc_places.specs.Calls.{IsSeatOf};

use crate::figures::{Decimal, nanoseconds_of, print_figure};
use mc_model::Fault;
use std::alloc::{AllocError, Global};
use std::fmt::{self, Display, Formatter, Write};
use std::fs::Files;
use std::rt::Clock;
use std::thread::{Threads, map_vec};
use std::time::{Duration, Instant};
use std::{fs, io};
use uc_places::{Idle, Pending, Places, Seat, close, open};

/// The most workers and the most places.
const MOST_WORKERS: u8 = 16;

const MOST_PLACES: u64 = 1_048_576;

/// How many places the log of a pass has, and how many commands all workers announce together.
const PLACES: u64 = 65_536;

/// A step that takes this long was interrupted.
const STOPPED_NANOSECONDS: u64 = 10_000;

const NANOSECONDS_OF_A_MILLISECOND: u64 = 1_000_000;

/// The kinds of steps.
#[derive(Clone, Copy)]
enum Kind {
    Announce,
    /// A read that finds a ticket.
    Find,
    /// A read of an empty place.
    Miss,
    Look,
    Propose,
    /// No step: the time of two readings of the clock.
    Nothing,
    /// A step of any kind in which its thread was stopped.
    Stopped,
}

/// The kinds that are steps of a submit, and what they are called.
const STEPS: [(&str, Kind); 5] = [
    ("announce", Kind::Announce),
    ("read of a decided place", Kind::Find),
    ("read of an empty place", Kind::Miss),
    ("look", Kind::Look),
    ("propose", Kind::Propose),
];

/// A number for each kind of step.
#[derive(Clone, Copy, Default)]
struct Each {
    announce: u64,
    find: u64,
    miss: u64,
    look: u64,
    propose: u64,
    nothing: u64,
    stopped: u64,
}

impl Each {
    /// Adds to the number of the kind.
    fn add(&mut self, kind: Kind, more: u64) {
        let old = match kind {
            Kind::Announce => &mut self.announce,
            Kind::Find => &mut self.find,
            Kind::Miss => &mut self.miss,
            Kind::Look => &mut self.look,
            Kind::Propose => &mut self.propose,
            Kind::Nothing => &mut self.nothing,
            Kind::Stopped => &mut self.stopped,
        };
        *old = old.saturating_add(more);
    }

    /// Returns the number of the kind.
    fn of(&self, kind: Kind) -> u64 {
        match kind {
            Kind::Announce => self.announce,
            Kind::Find => self.find,
            Kind::Miss => self.miss,
            Kind::Look => self.look,
            Kind::Propose => self.propose,
            Kind::Nothing => self.nothing,
            Kind::Stopped => self.stopped,
        }
    }

    /// Returns the sum over the steps of submits.
    fn taken(&self) -> u64 {
        let mut sum = 0u64;
        for (_, kind) in STEPS {
            sum = sum.saturating_add(self.of(kind));
        }
        sum
    }

    /// Adds the other's numbers, kind by kind.
    fn add_all(&mut self, other: &Each) {
        for (_, kind) in STEPS {
            self.add(kind, other.of(kind));
        }
        self.add(Kind::Nothing, other.nothing);
        self.add(Kind::Stopped, other.stopped);
    }
}

/// Watches a worker's steps.
trait Watch {
    /// Is called before a step.
    fn begin(&mut self);

    /// Is called after a step of this kind.
    fn end(&mut self, kind: Kind);
}

/// Counts the steps.
#[derive(Drop)]
struct Counter {
    steps: Each,
}

impl Watch for Counter {
    fn begin(&mut self) {}

    fn end(&mut self, kind: Kind) {
        self.steps.add(kind, 1);
    }
}

/// Counts the steps, and reads the clock before and after each.
#[derive(Drop)]
struct Stopwatch<'a, R: Clock> {
    clock: &'a R,
    start: Duration,
    steps: Each,
    nanoseconds: Each,
}

impl<'a, R: Clock> Watch for Stopwatch<'a, R> {
    fn begin(&mut self) {
        self.start = now(self.clock);
    }

    fn end(&mut self, kind: Kind) {
        let time = now(self.clock).saturating_sub(self.start);
        let nanoseconds = nanoseconds_of(time);
        // The system gave the processor to others, which says nothing about the step.
        let kind = if nanoseconds < STOPPED_NANOSECONDS {
            kind
        } else {
            Kind::Stopped
        };
        self.steps.add(kind, 1);
        self.nanoseconds.add(kind, nanoseconds);
    }
}

/// Returns what the clock shows, or zero if it can't be read.
fn now(clock: &impl Clock) -> Duration {
    clock.monotonic().unwrap_or(Duration::ZERO)
}

/// Announces a command and goes on until it is decided. Returns `None` if there is no room.
fn submit<W: Watch>(places: &Places, idle: Idle, watch: &mut W) -> Option<Idle>
    requires { IsSeatOf places.now idle.desk }
    ensures { IfSome result (λ next. IsSeatOf places.now next.desk) }
{
    if idle.is_full() {
        return None;
    }
    watch.begin();
    let mut pending = idle.announce(places);
    watch.end(Kind::Announce);
    for _ in 0..u64::MAX {
        if pending.is_full() {
            break;
        }
        let is_marked = pending.is_marked();
        watch.begin();
        let seat = if is_marked {
            let looked = pending.look(places);
            watch.end(Kind::Look);
            watch.begin();
            let (seat, _) = looked.propose(places);
            watch.end(Kind::Propose);
            seat
        } else {
            let (seat, found) = pending.read(places);
            watch.end(if found.is_some() {
                Kind::Find
            } else {
                Kind::Miss
            });
            seat
        };
        match seat {
            Seat::Idle(idle) => return Some(idle),
            Seat::Pending(next) => pending = next,
        }
    }
    None
}

/// Announces this many commands, each once the one before it is decided.
fn submit_all<W: Watch>(places: &Places, mut idle: Idle, commands: u64, watch: &mut W)
    requires { IsSeatOf places.now idle.desk }
{
    for _ in 0..commands {
        watch.begin();
        watch.end(Kind::Nothing);
        match submit(places, idle, watch) {
            Some(next) => idle = next,
            None => return,
        }
    }
}

/// Returns what one worker's steps were, and their nanoseconds, which are zero if the steps are
/// only counted.
fn work<R: Clock>(rt: &R, places: &Places, idle: Idle, commands: u64, timed: bool) -> (Each, Each)
    requires { IsSeatOf places.now idle.desk }
{
    let steps = Each::default();
    let nanoseconds = Each::default();
    if timed {
        let mut watch = Stopwatch {
            clock: rt,
            start: Duration::ZERO,
            steps,
            nanoseconds,
        };
        submit_all(places, idle, commands, &mut watch);
        (watch.steps, watch.nanoseconds)
    } else {
        let mut watch = Counter { steps };
        submit_all(places, idle, commands, &mut watch);
        (watch.steps, nanoseconds)
    }
}

/// What the workers of one log did.
#[derive(Clone, Copy, Default)]
struct Run {
    /// How many places were decided in the end.
    decided: usize,
    /// From before the first thread's start until after the last one's end.
    nanoseconds: u64,
    steps: Each,
    /// The time of all workers' steps of each kind, each with one reading of the clock; zero if the
    /// steps were only counted.
    step_nanoseconds: Each,
}

/// Has `workers` workers, each in its own thread, announce all commands of a new log. With `timed`
/// each step is timed.
fn run_threads<R: Threads + Clock + Sync>(
    rt: &R,
    alloc: Global,
    workers: u8,
    timed: bool,
) -> Result<Run, Fault>
    requires { (0 < workers) × (workers ≤ WORKERS) }
{
    let (places, seats) = open(alloc, workers, PLACES)?;
    let shared = &places;
    let commands = PLACES / u64::from(workers);
    let start = now(rt);
    let worked = map_vec(
        rt,
        seats,
        &|idle: Idle| -> (Each, Each)
            requires { IsSeatOf shared.now idle.desk }
        { work(rt, shared, idle, commands, timed) },
    )?;
    let time = now(rt).saturating_sub(start);
    let log = close(alloc, places, Vec::new(alloc))?;
    let mut run = Run {
        decided: log.len(),
        nanoseconds: nanoseconds_of(time),
        steps: Each::default(),
        step_nanoseconds: Each::default(),
    };
    for (steps, nanoseconds) in &worked {
        run.steps.add_all(steps);
        run.step_nanoseconds.add_all(nanoseconds);
    }
    Ok(run)
}

/// Returns the seats of worker 0 and worker 1.
fn both_seats(places: &Places, mut seats: Vec<Idle>) -> Option<(Idle, Idle)>
    requires { (worker : ℕ) (seat : _) → slice_get seats.items worker ≡ Some seat →
        IsSeatOf places.now seat.desk }
    ensures { IfSome result
        (λ pair. IsSeatOf places.now pair.0.desk × IsSeatOf places.now pair.1.desk) }
{
    let second = seats.pop()?;
    let first = seats.pop()?;
    Some((first, second))
}

/// Reads up to this many places, as long as they are decided.
fn read_idle(places: &Places, mut idle: Idle, most: u64) -> Idle
    requires { IsSeatOf places.now idle.desk }
    ensures { IsSeatOf places.now result.desk }
{
    for _ in 0..most {
        if idle.is_full() || idle.read(places).is_none() {
            break;
        }
    }
    idle
}

/// Reads up to this many times. Returns `None` if the worker's own command is found.
fn read_pending(places: &Places, mut pending: Pending, times: u64) -> Option<Pending>
    requires { IsSeatOf places.now pending.desk }
    ensures { IfSome result (λ next. IsSeatOf places.now next.desk) }
{
    for _ in 0..times {
        if pending.is_full() {
            break;
        }
        match pending.read(places).0 {
            Seat::Pending(next) => pending = next,
            Seat::Idle(_) => return None,
        }
    }
    Some(pending)
}

/// What the clock shows before and after each part of a worker's reads, and how many places the
/// worker has learned in the end.
struct Reads {
    times: [Duration; 5],
    learned: usize,
}

/// Has a worker read places that another has decided, half of them while idle and half of them
/// while pending, and then an empty place again and again.
fn read_parts<R: Clock>(rt: &R, places: &Places, first: Idle, second: Idle) -> Option<Reads>
    requires { IsSeatOf places.now first.desk × IsSeatOf places.now second.desk }
{
    let mut watch = Counter {
        steps: Each::default(),
    };
    submit_all(places, first, PLACES - 1, &mut watch);
    let before_idle = now(rt);
    let second = read_idle(places, second, PLACES / 2);
    let after_idle = now(rt);
    if second.is_full() {
        return None;
    }
    let pending = second.announce(places);
    let before_pending = now(rt);
    let pending = read_pending(places, pending, PLACES / 2 - 1)?;
    let after_pending = now(rt);
    let pending = read_pending(places, pending, PLACES)?;
    Some(Reads {
        times: [
            before_idle,
            after_idle,
            before_pending,
            after_pending,
            now(rt),
        ],
        learned: pending.learned(),
    })
}

/// Returns the line of the process's status that begins like this, in kB, or 0 if the system
/// reports none.
fn status_of<R: Files + AllocGlobal>(rt: &R, head: &str) -> io::Result<u64> {
    let status = fs::read_to_string(rt, "/proc/self/status")?;
    let line = status.lines().find(|line| line.starts_with(head));
    let number = line.and_then(|line| line.split_whitespace().nth(1));
    Ok(number.and_then(|number| number.parse().ok()).unwrap_or(0))
}

/// Prints how many bytes the log has for each place, from what the process held before and what it
/// holds now, in kB.
fn print_memory(rt: &impl Print, name: &str, before: u64, now: u64) -> io::Result<()> {
    let bytes = now.saturating_sub(before).saturating_mul(1_024);
    print_figure(rt, name, Decimal::quotient(bytes, MOST_PLACES), "bytes")
}

/// Opens the greatest log and drops it.
fn report_open(rt: &(impl AllocGlobal + Clock + Files + Print), timed: bool) -> io::Result<()> {
    let before = if timed { status_of(rt, "VmRSS:")? } else { 0 };
    let start = Instant::now(rt)?;
    let (places, seats) = open(rt.alloc(), MOST_WORKERS, MOST_PLACES).map_err(|_| AllocError)?;
    let nanoseconds = nanoseconds_of(start.elapsed(rt)?);
    print_figure(rt, "seats of the greatest log", seats.len(), "count")?;
    if timed {
        let after = status_of(rt, "VmRSS:")?;
        let most = status_of(rt, "VmHWM:")?;
        let milliseconds = Decimal::quotient(nanoseconds, NANOSECONDS_OF_A_MILLISECOND);
        print_figure(rt, "opening of the greatest log", milliseconds, "ms")?;
        print_memory(rt, "memory held for a place", before, after)?;
        print_memory(rt, "memory for a place while it opens", before, most)?;
    }
    drop(places);
    Ok(())
}

/// Prints the nanoseconds of a read, from when many of them began and ended.
fn print_read(
    rt: &impl Print,
    name: &str,
    begin: Duration,
    end: Duration,
    reads: u64,
) -> io::Result<()> {
    let nanoseconds = nanoseconds_of(end.saturating_sub(begin));
    print_figure(rt, name, Decimal::quotient(nanoseconds, reads), "ns")
}

/// Times one worker's reads of what another has decided.
fn report_reads(rt: &(impl AllocGlobal + Clock + Print), timed: bool) -> io::Result<()> {
    let (places, seats) = open(rt.alloc(), 2, PLACES).map_err(|_| AllocError)?;
    let (first, second) = both_seats(&places, seats).ok_or(AllocError)?;
    let Reads { times, learned } = read_parts(rt, &places, first, second).ok_or(AllocError)?;
    print_figure(rt, "places read", learned, "count")?;
    if timed {
        let half = PLACES / 2;
        let name = "read of a decided place by an idle worker";
        print_read(rt, name, times[0], times[1], half)?;
        let name = "read of a decided place by a pending worker";
        print_read(rt, name, times[2], times[3], half - 1)?;
        let name = "read of an empty place again and again";
        print_read(rt, name, times[3], times[4], PLACES)?;
    }
    Ok(())
}

/// How many threads there are: the head of a measurement's name.
#[derive(Clone, Copy, Drop)]
struct Head(u8);

impl Display for Head {
    fn fmt<W: Write>(&self, f: &mut Formatter<W>) -> fmt::Result {
        let count = self.0;
        match count {
            1 => write!(f, "1 thread"),
            _ => write!(f, "{count} threads"),
        }
    }
}

/// Prints what a submit and a step take, if the steps are only counted.
fn print_counted(rt: &impl Print, head: Head, run: &Run) -> io::Result<()> {
    let nanoseconds = run.nanoseconds;
    let steps = run.steps.taken();
    let each = Decimal::quotient(nanoseconds, PLACES);
    print_figure(rt, format_args!("{head}: a submit"), each, "ns")?;
    let each = Decimal::quotient(steps, PLACES);
    print_figure(rt, format_args!("{head}: steps of a submit"), each, "steps")?;
    let each = Decimal::quotient(nanoseconds.saturating_mul(u64::from(head.0)), steps);
    print_figure(rt, format_args!("{head}: a step of a thread"), each, "ns")
}

/// Prints what a step of each kind takes by itself. What two readings of the clock take with
/// nothing between them is subtracted.
fn print_watched(rt: &impl Print, head: Head, run: &Run) -> io::Result<()> {
    let clock = Decimal::quotient(run.step_nanoseconds.nothing, run.steps.nothing);
    for (name, kind) in STEPS {
        let count = run.steps.of(kind);
        if count > 0 {
            let each = Decimal::quotient(run.step_nanoseconds.of(kind), count).minus(clock);
            print_figure(rt, format_args!("{head}: {name} by itself"), each, "ns")?;
        }
    }
    let name = format_args!("{head}: two readings of the clock");
    print_figure(rt, name, clock, "ns")?;
    let name = format_args!("{head}: steps in which a thread was stopped");
    print_figure(rt, name, run.steps.stopped, "steps")
}

/// Has this many workers announce all commands of a log, first with their steps counted, then with
/// each step timed.
fn report_threads<R: AllocGlobal + Clock + Print + Threads + Sync>(
    rt: &R,
    workers: u8,
    timed: bool,
) -> io::Result<()>
    requires { (0 < workers) × (workers ≤ WORKERS) }
{
    let head = Head(workers);
    let counted = run_threads(rt, rt.alloc(), workers, false).map_err(|_| AllocError)?;
    let watched = run_threads(rt, rt.alloc(), workers, true).map_err(|_| AllocError)?;
    let name = format_args!("{head}: places decided");
    print_figure(rt, name, counted.decided, "count")?;
    let name = format_args!("{head}: places decided while steps are timed");
    print_figure(rt, name, watched.decided, "count")?;
    if timed {
        print_counted(rt, head, &counted)?;
        print_watched(rt, head, &watched)?;
    }
    Ok(())
}

/// Does all of it.
pub(crate) fn run_all<R: AllocGlobal + Clock + Files + Print + Threads + Sync>(
    rt: &R,
    timed: bool,
) -> io::Result<()> {
    report_open(rt, timed)?;
    report_reads(rt, timed)?;
    for workers in [1, 2, 4] {
        report_threads(rt, workers, timed)?;
    }
    Ok(())
}
