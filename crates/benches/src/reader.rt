//! The reader alone: fed byte by byte with streams of one request each, and in pieces with streams
//! of many requests, compared with a scan of the same bytes for line feeds. Prints the bytes of
//! each stream and how many requests (for a scan, line feeds) were counted, and if timed the
//! nanoseconds of a byte and the throughput, both of the fastest of some passes.
ghost use Rattle.std.specs.Prelude.{◌<◌};

use crate::figures::{Decimal, nanoseconds_of, print_figure};
use mc_model::Fault;
use mc_read::Reader;
use memchr::memchr_iter;
use std::alloc::{AllocError, Global};
use std::io;
use std::rt::Clock;
use std::time::{Duration, Instant};

/// How many passes over a stream are timed.
const PASSES: usize = 7;

/// How many bytes a piece of a long stream has.
const PIECE_BYTES: usize = 16_384;

/// About how many bytes a stream of many requests has.
const STREAM_BYTES: usize = 4_194_304;

/// What is done with a stream.
#[derive(Clone, Copy)]
enum Task {
    /// Fed byte by byte, a request is asked for after each byte.
    ReadBytes,
    /// Fed in pieces, requests are asked for after each until there is none.
    ReadPieces,
    /// Searched for line feeds.
    Scan,
}

impl Task {
    /// Returns what does it, and what is counted.
    fn words(self) -> (&'static str, &'static str) {
        match self {
            Task::ReadBytes | Task::ReadPieces => ("reader", "requests"),
            Task::Scan => ("scan", "line feeds"),
        }
    }
}

/// Returns how many requests the stream gives, fed in pieces of this size.
fn count_requests(alloc: Global, stream: &[u8], size: usize) -> Result<u64, Fault>
    requires { 0 < size }
{
    let mut reader = Reader::new(alloc);
    let mut count = 0u64;
    for piece in stream.chunks(size) {
        reader.feed(piece)?;
        for _ in 0..u64::MAX {
            if reader.next()?.is_none() {
                break;
            }
            count = count.saturating_add(1);
        }
    }
    Ok(count)
}

/// Returns what the task counts in the stream. Fails only if memory runs out.
fn run(alloc: Global, task: Task, stream: &[u8]) -> io::Result<u64> {
    let counted = match task {
        Task::ReadBytes => count_requests(alloc, stream, 1),
        Task::ReadPieces => count_requests(alloc, stream, PIECE_BYTES),
        Task::Scan => Ok(memchr_iter(b'\n', stream).count() as u64),
    };
    Ok(counted.map_err(|_| AllocError)?)
}

/// Returns the time of the fastest pass. A pass is taken only if it counts as much as the first, so
/// that the compiler can leave none out.
fn fastest_pass(
    rt: &(impl AllocGlobal + Clock),
    task: Task,
    stream: &[u8],
    count: u64,
) -> io::Result<Duration> {
    let mut fastest = Duration::MAX;
    for _ in 0..PASSES {
        let start = Instant::now(rt)?;
        let counted = run(rt.alloc(), task, stream)?;
        let time = start.elapsed(rt)?;
        if counted == count {
            fastest = fastest.min(time);
        }
    }
    Ok(fastest)
}

/// A stream, and what it is called.
#[derive(Clone, Copy)]
struct Stream<'a> {
    name: &'a str,
    text: &'a str,
}

/// Does the task and prints its measurements.
fn report(
    rt: &(impl AllocGlobal + Clock + Print),
    stream: Stream<'_>,
    task: Task,
    timed: bool,
) -> io::Result<()> {
    let Stream { name, text } = stream;
    let bytes = text.as_bytes();
    let (what, counted) = task.words();
    let count = run(rt.alloc(), task, bytes)?;
    print_figure(
        rt,
        format_args!("{what}, {name}: {counted}"),
        count,
        "count",
    )?;
    if timed {
        let nanoseconds = nanoseconds_of(fastest_pass(rt, task, bytes, count)?);
        let size = bytes.len() as u64;
        let each = Decimal::quotient(nanoseconds, size);
        print_figure(rt, format_args!("{what}, {name}: a byte"), each, "ns")?;
        let rate = Decimal::quotient(size.saturating_mul(1_000), nanoseconds);
        print_figure(rt, format_args!("{what}, {name}: throughput"), rate, "MB/s")?;
    }
    Ok(())
}

/// Does the tasks, one after another.
fn report_all(
    rt: &(impl AllocGlobal + Clock + Print),
    stream: Stream<'_>,
    tasks: &[Task],
    timed: bool,
) -> io::Result<()> {
    let Stream { name, text } = stream;
    print_figure(rt, format_args!("{name}: size"), text.len(), "bytes")?;
    for task in tasks {
        report(rt, stream, *task, timed)?;
    }
    Ok(())
}

/// Reads a stream of this request again and again, and scans the same bytes.
fn report_many(
    rt: &(impl AllocGlobal + Clock + Print),
    name: &str,
    request: &str,
    timed: bool,
) -> io::Result<()> {
    let text = request.repeat(rt.alloc(), STREAM_BYTES / request.len().max(1))?;
    let stream = Stream {
        name,
        text: text.as_str(),
    };
    report_all(rt, stream, &[Task::ReadPieces, Task::Scan], timed)
}

/// Reads all streams.
pub(crate) fn run_all(rt: &(impl AllocGlobal + Clock + Print), timed: bool) -> io::Result<()> {
    let alloc = rt.alloc();
    for size in [16_384, 65_536] {
        let name = format!(in alloc; "a line of {size} bytes")?;
        let line = "a".repeat(alloc, size)?;
        let text = format!(in alloc; "{line}\n")?;
        let stream = Stream {
            name: name.as_str(),
            text: text.as_str(),
        };
        report_all(rt, stream, &[Task::ReadBytes], timed)?;
    }
    for size in [262_144, 1_048_576] {
        let name = format!(in alloc; "a block of {size} bytes")?;
        let block = "z".repeat(alloc, size)?;
        let text = format!(in alloc; "set a 0 0 {size}\r\n{block}\r\n")?;
        let stream = Stream {
            name: name.as_str(),
            text: text.as_str(),
        };
        report_all(rt, stream, &[Task::ReadBytes], timed)?;
    }
    report_many(rt, "gets", "get key:00001234\r\n", timed)?;
    for size in [100, 4_096] {
        let name = format!(in alloc; "sets of {size} bytes")?;
        let block = "z".repeat(alloc, size)?;
        let request = format!(in alloc; "set key:00001234 0 0 {size}\r\n{block}\r\n")?;
        report_many(rt, name.as_str(), request.as_str(), timed)?;
    }
    Ok(())
}
