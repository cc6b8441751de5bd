//! Answers the HTTP requests of standard input on standard output with the metrics of an example,
//! as a listener for scrapes would. It is there for its output: `tests/exposition.py` knows the
//! example's numbers, and holds the output against Prometheus' text format.
#![tactic(auto)]

use http_server::{Config, Connection, serve};
use mc_counters::{Asked, COMMAND_KINDS, REFUSAL_KINDS, Tally};
use mc_metrics::{LogNumbers, Scrape, Snapshot, TenantNumbers, WorkerNumbers};
use mc_model::{Limits, Name, Reply};
use std::alloc::Global;
use std::hash::RandomState;
use std::io;
use std::process::ExitCode;

/// The names of the example's tenants.
const NAMES: [&[u8]; 20] = [
    b"shop", b"b-2_x", b"t3", b"t4", b"t5", b"t6", b"t7", b"t8", b"t9", b"t10", b"t11", b"t12",
    b"t13", b"t14", b"t15", b"t16", b"t17", b"t18", b"t19", b"t20",
];

/// How many workers the example has.
const WORKERS: u64 = 16;

/// Returns a number as far below the largest number as this one is above 0.
fn below_largest(number: u64) -> u64 {
    u64::MAX.saturating_sub(number)
}

/// Returns so many times a unit, or for every third unit a number as far below the largest.
fn times(unit: u64, count: u64) -> u64 {
    let number = unit.saturating_mul(count);
    if unit % 3 == 0 {
        below_largest(number)
    } else {
        number
    }
}

/// Returns a tally of `unit` commands of the first kind, twice as many of the second and so on, and
/// likewise of refusals, from 20 times as many of the first kind on; each as `times` has it.
fn tally_of(unit: u64) -> Tally {
    let mut tally = Tally::new();
    for (place, kind) in COMMAND_KINDS.iter().enumerate() {
        for _ in 0..place + 1 {
            let asked = Asked {
                kind: *kind,
                keys: 0,
            };
            tally.count(&Some(asked), &Reply::Ok);
        }
    }
    for (place, refusal) in REFUSAL_KINDS.iter().enumerate() {
        for _ in 0..place + 20 {
            tally.count(&None, &Reply::Refused(*refusal));
        }
    }
    for count in tally.commands.iter_mut() {
        *count = times(unit, *count);
    }
    for count in tally.refusals.iter_mut() {
        *count = times(unit, *count);
    }
    tally.hits = times(unit, 3);
    tally.misses = times(unit, 4);
    tally
}

/// Returns a tenant of this name, whose numbers are those that `times` has for its unit.
fn tenant(alloc: Global, name: &[u8], unit: u64) -> io::Result<TenantNumbers> {
    let Ok(Some(name)) = Name::new(alloc, name) else {
        return Err(io::ErrorKind::OutOfMemory.into());
    };
    Ok(TenantNumbers {
        name,
        items: times(unit, 5),
        bytes: times(unit, 600),
        quotas: Limits {
            items: times(unit, 7_000),
            bytes: times(unit, 80_000),
        },
        connections: times(unit, 9),
        tally: tally_of(unit),
    })
}

/// Returns the example: tenants of the units from 1 on, workers alike, and logs whose numbers are
/// near the largest.
fn example(alloc: Global) -> io::Result<Snapshot> {
    let mut tenants = Vec::new(alloc);
    for (place, name) in NAMES.iter().enumerate() {
        tenants.push(tenant(alloc, name, (place as u64).saturating_add(1))?)?;
    }
    let mut workers = Vec::new(alloc);
    for number in 0..WORKERS {
        let unit = number.saturating_add(1);
        workers.push(WorkerNumbers {
            number,
            lag: times(unit, 42),
            connections: times(unit, 13),
        })?;
    }
    Ok(Snapshot {
        tenants,
        workers,
        log: LogNumbers {
            places: below_largest(1_234),
            used_places: below_largest(65_536),
            bytes: below_largest(567_890),
            generation: below_largest(2),
            turn_overs: below_largest(3),
            turn_over_micros: 9_223_372_036_854_098_765,
        },
        resident_bytes: Some(u64::MAX),
    })
}

/// Answers what comes on standard input until it ends or a connection would be closed.
fn run(rt: &HostRuntime) -> io::Result<()> {
    let alloc = rt.alloc();
    let snapshot = example(alloc)?;
    let mut scrape = Scrape { alloc, snapshot };
    let keys = RandomState::new(rt)?;
    let mut connection = Connection::new(alloc, keys, Config::default());
    serve(
        &mut connection,
        &mut scrape,
        &mut rt.stdin(),
        &mut rt.stdout(),
    )
}

fn main(rt: HostRuntime) -> ExitCode {
    match run(&rt) {
        Ok(()) => ExitCode::from(0),
        Err(_) => ExitCode::from(1),
    }
}
