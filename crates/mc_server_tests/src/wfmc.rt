//! Runs of wfmc that end before it serves: its command line, and addresses at which it can't
//! listen.
use mc_programs::{Hashing, OutputStep};
use mc_server::run_wfmc;
use shared_tests::runs::{Wanted, output_of, words_of};
use std::alloc::AllocError;
use std::fs::Files;
use std::net::Net;
use std::process::Abort;
use std::random::RandomSource;
use std::sync::Wait;
use std::test::Fail;
use std::thread::Threads;
use std::time::Clock;

/// Asserts that a run with these words, whose outputs follow these steps, leaves what it must.
fn check_steps<R>(
    rt: &R,
    given: &str,
    pushes: &[OutputStep],
    tells: &[OutputStep],
    wanted: Wanted,
) -> Result<(), AllocError>
where
    R: Threads
        + Wait
        + Net
        + Clock
        + Files<File: Send, Dir: Send>
        + RandomSource
        + Sync
        + AllocGlobal
        + Abort,
{
    let words = words_of(rt.alloc(), given)?;
    let mut output = output_of(rt.alloc(), pushes)?;
    let mut errors = output_of(rt.alloc(), tells)?;
    let status = run_wfmc(
        rt,
        rt.alloc(),
        Hashing::Fixed,
        words,
        &mut output,
        &mut errors,
    );
    assert_eq!(rt; status, wanted.status, "the status at {given}");
    assert!(rt;
        output.as_bytes() == wanted.output,
        "what is printed at {given}"
    );
    assert!(rt;
        errors.as_bytes() == wanted.errors,
        "what is reported at {given}"
    );
    Ok(())
}

/// Does as `check_steps` for a run that ends with this status and prints this error.
fn check_told<R>(rt: &R, given: &str, status: u8, told: &str) -> Result<(), AllocError>
where
    R: Threads
        + Wait
        + Net
        + Clock
        + Files<File: Send, Dir: Send>
        + RandomSource
        + Sync
        + AllocGlobal
        + Abort,
{
    let wanted = Wanted {
        status,
        output: b"",
        errors: told.as_bytes(),
    };
    check_steps(rt, given, &[], &[], wanted)
}

const HELP: &str = "\
A memcached server for several tenants

Usage: wfmc [OPTIONS] <TENANT>...

Arguments:
  <TENANT>...  A tenant: NAME=ADDR,ITEMS,BYTES, as below; from 1 to 64 of them

Options:
      --workers <N>      How many threads serve, from 1 to 16 [default: 2]
      --places <N>       How many commands of all tenants a log takes, from 1 to 1048576 [default: 65536]
      --generations <N>  How many logs, one after another, up to 65536; 0 for no end [default: 1]
      --log-bytes <N>    After how many bytes of commands the next log follows, up to 1099511627776 [default: 1073741824]
      --reserve <N>      How many of its 1024 connections each thread keeps for each tenant [default: 0]
      --connections <N>  After how many connections of tenants it ends; 0 for never [default: 0]
      --check            Checks whether the words can be served, reports one that can't, and serves nothing
      --admin <ADDR>     At which IPv4 address and port administrators connect; without it there are none
      --metrics <ADDR>   At which IPv4 address and port metrics are scraped by HTTP; without it they aren't
  -h, --help             Print help
  -V, --version          Print version

Each TENANT is NAME=ADDR,ITEMS,BYTES:
  NAME   1 to 32 of a to z, 0 to 9, - and _; no name twice, with --admin none is admin, and
         with --metrics none is metrics
  ADDR   an IPv4 address and a port, as numbers, at which the tenant's clients connect;
         the port from 0 to 65535, where 0 takes a free one
  ITEMS  how many items the tenant may hold, from 1 to 1048576
  BYTES  how many bytes their keys and data may have, from 1 to 1073741824
Where a word is of another form, a number out of its range, or a name used twice: wfmc: bad settings.
With --check wfmc says which word that is, and serves nothing.

With --admin, whoever connects at ADDR may set a tenant's quotas: limit NAME ITEMS BYTES.
With --metrics, whoever connects at ADDR may read numbers of all tenants: GET /metrics, by HTTP.
Once the last log is full commands are refused until a restart; --generations 0 has no last one,
as long as there is memory.

Example, two tenants apart from each other on two ports:
  wfmc --generations 0 shop=127.0.0.1:11211,1000,1048576 blog=127.0.0.1:11212,1000,1048576
";

const SHOWN: [(&str, &str); 3] = [
    ("--help", HELP),
    ("a=b -h", HELP),
    ("--version", "wfmc 1.0.0\n"),
];

/// Asserts that a run with these words prints this text, and that it stops after five bytes if
/// pushing more fails.
fn check_shown<R>(rt: &R, given: &str, text: &[u8]) -> Result<(), AllocError>
where
    R: Threads
        + Wait
        + Net
        + Clock
        + Files<File: Send, Dir: Send>
        + RandomSource
        + Sync
        + AllocGlobal
        + Abort,
{
    let wanted = Wanted {
        status: 0,
        output: text,
        errors: b"",
    };
    check_steps(rt, given, &[], &[], wanted)?;
    let pushes = [OutputStep::Take(5), OutputStep::Fail];
    let wanted = Wanted {
        status: 1,
        output: text.get(..5).unwrap_or(text),
        errors: b"wfmc: output failed\n",
    };
    check_steps(rt, given, &pushes, &[OutputStep::Full], wanted)
}

#[test]
fn help_and_the_version_are_shown(rt: HostRuntime) -> Result<(), AllocError> {
    for row in &SHOWN {
        check_shown(&rt, row.0, row.1.as_bytes())?;
    }
    Ok(())
}

const MISTAKES: [(&str, &str); 8] = [
    (
        "--workers 2",
        "error: the following required arguments were not provided:\n  <TENANT>...\n\nUsage: wfmc --workers <N> <TENANT>...\n\nFor more information, try '--help'.\n",
    ),
    (
        "--bogus a=b",
        "error: unexpected argument '--bogus' found\n\n  tip: to pass '--bogus' as a value, use '-- --bogus'\n\nUsage: wfmc [OPTIONS] <TENANT>...\n\nFor more information, try '--help'.\n",
    ),
    (
        "--places x a=b",
        "error: invalid value 'x' for '--places <N>': invalid digit found in string\n\nFor more information, try '--help'.\n",
    ),
    (
        "--generations x a=b",
        "error: invalid value 'x' for '--generations <N>': invalid digit found in string\n\nFor more information, try '--help'.\n",
    ),
    (
        "--generations=-1 a=b",
        "error: invalid value '-1' for '--generations <N>': invalid digit found in string\n\nFor more information, try '--help'.\n",
    ),
    (
        "--log-bytes 1GiB a=b",
        "error: invalid value '1GiB' for '--log-bytes <N>': invalid digit found in string\n\nFor more information, try '--help'.\n",
    ),
    (
        "--log-bytes 4000 --log-bytes 4000 a=b",
        "error: the argument '--log-bytes <N>' cannot be used multiple times\n\nUsage: wfmc [OPTIONS] <TENANT>...\n\nFor more information, try '--help'.\n",
    ),
    (
        "--generations -1 a=b",
        "error: unexpected argument '-1' found\n\n  tip: to pass '-1' as a value, use '-- -1'\n\nUsage: wfmc [OPTIONS] <TENANT>...\n\nFor more information, try '--help'.\n",
    ),
];

#[test]
fn mistakes_are_reported_by_clap(rt: HostRuntime) -> Result<(), AllocError> {
    for row in &MISTAKES {
        check_told(&rt, row.0, 2, row.1)?;
    }
    Ok(())
}

/// Words that ask for nothing that can be served, and what `--check` says of them.
const REFUSED: [(&str, &str); 37] = [
    (
        "a=127.0.0.1:0,0,1",
        "wfmc: a=127.0.0.1:0,0,1: ITEMS is not from 1 to 1048576\n",
    ),
    (
        "a=127.0.0.1:0,1,0",
        "wfmc: a=127.0.0.1:0,1,0: BYTES is not from 1 to 1073741824\n",
    ),
    (
        "a=127.0.0.1:0,1048577,1",
        "wfmc: a=127.0.0.1:0,1048577,1: ITEMS is not from 1 to 1048576\n",
    ),
    (
        "a=127.0.0.1:0,1,1073741825",
        "wfmc: a=127.0.0.1:0,1,1073741825: BYTES is not from 1 to 1073741824\n",
    ),
    (
        "a=127.0.0.1:0,1,1 a=127.0.0.1:0,1,1",
        "wfmc: two listeners are named a\n",
    ),
    (
        "a=127.0.0.1:0,1,1 b=127.0.0.1:0,1,1 a=127.0.0.1:0,1,1",
        "wfmc: two listeners are named a\n",
    ),
    (
        "A=127.0.0.1:0,1,1",
        "wfmc: A=127.0.0.1:0,1,1: NAME is not 1 to 32 of a to z, 0 to 9, - and _\n",
    ),
    (
        "=127.0.0.1:0,1,1",
        "wfmc: =127.0.0.1:0,1,1: NAME is not 1 to 32 of a to z, 0 to 9, - and _\n",
    ),
    (
        "abcdefghijklmnopqrstuvwxyz0123456=127.0.0.1:0,1,1",
        "wfmc: abcdefghijklmnopqrstuvwxyz0123456=127.0.0.1:0,1,1: NAME is not 1 to 32 of a to z, 0 to 9, - and _\n",
    ),
    (
        "a=127.0.0.1,1,1",
        "wfmc: a=127.0.0.1,1,1: ADDR is not an IPv4 address and a port\n",
    ),
    (
        "a=127.0.0.256:0,1,1",
        "wfmc: a=127.0.0.256:0,1,1: ADDR is not an IPv4 address and a port\n",
    ),
    (
        "a=[::1]:0,1,1",
        "wfmc: a=[::1]:0,1,1: ADDR is not an IPv4 address and a port\n",
    ),
    (
        "a=localhost:0,1,1",
        "wfmc: a=localhost:0,1,1: ADDR is not an IPv4 address and a port\n",
    ),
    (
        "a=127.0.0.1:65536,1,1",
        "wfmc: a=127.0.0.1:65536,1,1: ADDR is not an IPv4 address and a port\n",
    ),
    (
        "a=127.0.0.1:0,1",
        "wfmc: a=127.0.0.1:0,1: not NAME=ADDR,ITEMS,BYTES\n",
    ),
    (
        "a=127.0.0.1:0,1,1,1",
        "wfmc: a=127.0.0.1:0,1,1,1: BYTES is not from 1 to 1073741824\n",
    ),
    (
        "a=127.0.0.1:0,1,x",
        "wfmc: a=127.0.0.1:0,1,x: BYTES is not from 1 to 1073741824\n",
    ),
    (
        "a=127.0.0.1:0,-1,1",
        "wfmc: a=127.0.0.1:0,-1,1: ITEMS is not from 1 to 1048576\n",
    ),
    (
        "a=127.0.0.1:0,18446744073709551616,1",
        "wfmc: a=127.0.0.1:0,18446744073709551616,1: ITEMS is not from 1 to 1048576\n",
    ),
    ("a", "wfmc: a: not NAME=ADDR,ITEMS,BYTES\n"),
    (
        "--workers 0 a=127.0.0.1:0,1,1",
        "wfmc: --workers 0: not from 1 to 16\n",
    ),
    (
        "--workers 17 a=127.0.0.1:0,1,1",
        "wfmc: --workers 17: not from 1 to 16\n",
    ),
    (
        "--places 0 a=127.0.0.1:0,1,1",
        "wfmc: --places 0: not from 1 to 1048576\n",
    ),
    (
        "--places 1048577 a=127.0.0.1:0,1,1",
        "wfmc: --places 1048577: not from 1 to 1048576\n",
    ),
    (
        "--generations 65537 a=127.0.0.1:0,1,1",
        "wfmc: --generations 65537: not from 0 to 65536\n",
    ),
    (
        "--generations=18446744073709551615 a=127.0.0.1:0,1,1",
        "wfmc: --generations 18446744073709551615: not from 0 to 65536\n",
    ),
    (
        "--log-bytes 0 a=127.0.0.1:0,1,1",
        "wfmc: --log-bytes 0: not from 1 to 1099511627776\n",
    ),
    (
        "--log-bytes=1099511627777 a=127.0.0.1:0,1,1",
        "wfmc: --log-bytes 1099511627777: not from 1 to 1099511627776\n",
    ),
    (
        "--generations 0 --log-bytes 0 a=127.0.0.1:0,1,1",
        "wfmc: --log-bytes 0: not from 1 to 1099511627776\n",
    ),
    // Fewer workers serve than are asked for, but no more may be asked for.
    (
        "--generations 0 --places 2 --workers 17 a=127.0.0.1:0,1,1",
        "wfmc: --workers 17: not from 1 to 16\n",
    ),
    (
        "--generations 0 --places 0 --workers 2 a=127.0.0.1:0,1,1",
        "wfmc: --places 0: not from 1 to 1048576\n",
    ),
    (
        "--generations 0 --places 2 --workers 0 a=127.0.0.1:0,1,1",
        "wfmc: --workers 0: not from 1 to 16\n",
    ),
    (
        "--admin 127.0.0.1:0 admin=127.0.0.1:0,1,1",
        "wfmc: two listeners are named admin\n",
    ),
    (
        "--admin 127.0.0.1:0 a=127.0.0.1:0,1,1 admin=127.0.0.1:0,1,1",
        "wfmc: two listeners are named admin\n",
    ),
    (
        "--admin 127.0.0.1 a=127.0.0.1:0,1,1",
        "wfmc: --admin 127.0.0.1: ADDR is not an IPv4 address and a port\n",
    ),
    (
        "--admin localhost:1 a=127.0.0.1:0,1,1",
        "wfmc: --admin localhost:1: ADDR is not an IPv4 address and a port\n",
    ),
    (
        "--admin=127.0.0.1:65536 a=127.0.0.1:0,1,1",
        "wfmc: --admin 127.0.0.1:65536: ADDR is not an IPv4 address and a port\n",
    ),
];

#[test]
fn what_cannot_be_served_is_refused(rt: HostRuntime) -> Result<(), AllocError> {
    for row in &REFUSED {
        check_told(&rt, row.0, 2, "wfmc: bad settings\n")?;
    }
    Ok(())
}

/// Asserts that a run with these words, and `--check` before them, ends with this status, and
/// prints and reports this.
fn check_checked<R>(rt: &R, given: &str, wanted: Wanted) -> Result<(), AllocError>
where
    R: Threads
        + Wait
        + Net
        + Clock
        + Files<File: Send, Dir: Send>
        + RandomSource
        + Sync
        + AllocGlobal
        + Abort,
{
    let words = format!(in rt.alloc(); "--check {given}")?;
    check_steps(rt, &words, &[], &[], wanted)
}

#[test]
fn a_check_says_which_word_cannot_be_served(rt: HostRuntime) -> Result<(), AllocError> {
    for row in &REFUSED {
        let wanted = Wanted {
            status: 2,
            output: b"",
            errors: row.1.as_bytes(),
        };
        check_checked(&rt, row.0, wanted)?;
    }
    Ok(())
}

#[test]
fn a_check_listens_nowhere(rt: HostRuntime) -> Result<(), AllocError> {
    for row in &UNREACHABLE {
        let wanted = Wanted {
            status: 0,
            output: b"wfmc: the settings can be served\n",
            errors: b"",
        };
        check_checked(&rt, row.0, wanted)?;
    }
    let words = "--check a=192.0.2.1:0,1,1";
    let pushes = [OutputStep::Take(5), OutputStep::Fail];
    let wanted = Wanted {
        status: 1,
        output: b"wfmc:",
        errors: b"wfmc: output failed\n",
    };
    check_steps(&rt, words, &pushes, &[], wanted)
}

/// Addresses for documents, which no machine has.
const UNREACHABLE: [(&str, &str); 11] = [
    (
        "--places=1 a-1=192.0.2.1:0,1,1",
        "wfmc: cannot listen a-1\n",
    ),
    (
        "a=127.0.0.1:0,1,1 b_2=192.0.2.1:0,1,1 c=192.0.2.2:0,1,1",
        "wfmc: cannot listen b_2\n",
    ),
    ("-- -a=192.0.2.1:0,+1,01", "wfmc: cannot listen -a\n"),
    (
        "--generations 0 a=192.0.2.1:0,1,1",
        "wfmc: cannot listen a\n",
    ),
    (
        "--generations=65536 a=192.0.2.1:0,1,1",
        "wfmc: cannot listen a\n",
    ),
    ("--log-bytes 1 a=192.0.2.1:0,1,1", "wfmc: cannot listen a\n"),
    (
        "--generations 2 --log-bytes=1099511627776 a=192.0.2.1:0,1,1",
        "wfmc: cannot listen a\n",
    ),
    (
        "--generations 0 --places 1 --workers 16 a=192.0.2.1:0,1,1",
        "wfmc: cannot listen a\n",
    ),
    (
        "--admin 192.0.2.1:0 a=127.0.0.1:0,1,1",
        "wfmc: cannot listen admin\n",
    ),
    (
        "--admin 192.0.2.1:0 a=192.0.2.1:0,1,1",
        "wfmc: cannot listen a\n",
    ),
    ("admin=192.0.2.1:0,1,1", "wfmc: cannot listen admin\n"),
];

#[test]
fn the_first_address_that_cannot_be_bound_is_reported(rt: HostRuntime) -> Result<(), AllocError> {
    for row in &UNREACHABLE {
        check_told(&rt, row.0, 1, row.1)?;
    }
    Ok(())
}

#[test]
fn sixty_four_tenants_are_the_most(rt: HostRuntime) -> Result<(), Fail> {
    let mut given = String::new(rt.alloc());
    for number in 0..64u8 {
        let word = format!(in rt.alloc(); "t{number}=192.0.2.1:0,1,1 ")?;
        given.push_str(&word)?;
    }
    check_told(&rt, &given, 1, "wfmc: cannot listen t0\n")?;
    given.push_str("one-more=192.0.2.1:0,1,1")?;
    check_told(&rt, &given, 2, "wfmc: bad settings\n")?;
    Ok(())
}
