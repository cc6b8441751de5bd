//! The streams in memory and over std's readers and writers, by themselves, lent, and with a reader
//! or a writer that fails.
ghost use Rattle.std.specs.Prelude.{◌<◌, length};

use mc_stream::{
    Input, InputStep, MemoryInput, MemoryOutput, Output, OutputStep, Pull, Push, ReadInput,
    WriteOutput,
};
use std::alloc::Global;
use std::io::{self, ErrorKind, Read, Write};
use std::process::Abort;
use std::test::Fail;

fn pull_from<I: Input + Drop>(mut input: I, buffer: &mut [u8]) -> Pull
    requires { 0 < length buffer.old }
{
    input.pull(buffer)
}

fn push_to<O: Output + Drop>(mut output: O, bytes: &[u8]) -> Push
    requires { 0 < length bytes.now }
{
    output.push(bytes)
}

/// Asserts what a pull of at most three bytes gives, and appends its bytes to those of the pulls
/// before.
fn assert_pull(
    rt: &impl Abort,
    input: &mut MemoryInput,
    pulled: &mut Vec<u8>,
    want: Pull,
) -> Result<(), Fail> {
    let mut buffer = [0u8; 3];
    let pull = input.pull(&mut buffer);
    assert!(rt; pull == want);
    if let Pull::Bytes(count) = pull {
        pulled.extend_from_slice(&buffer[..count])?;
    }
    Ok(())
}

/// Returns an input of seven bytes, by four steps.
fn input_by_steps(alloc: Global) -> Result<MemoryInput, Fail> {
    let steps = [
        InputStep::Give(2),
        InputStep::Fail,
        InputStep::Empty,
        InputStep::Give(0),
    ];
    let bytes = Vec::from_slice(alloc, b"abcdefg")?;
    Ok(MemoryInput::new(bytes, Vec::from_slice(alloc, &steps)?))
}

#[test]
fn gives_by_its_steps(rt: HostRuntime) -> Result<(), Fail> {
    const WANTS: [Pull; 8] = [
        Pull::Bytes(2),
        Pull::Failed,
        Pull::Empty,
        Pull::Bytes(1),
        Pull::Bytes(3),
        Pull::Bytes(1),
        Pull::Ended,
        Pull::Ended,
    ];
    let mut input = input_by_steps(rt.alloc())?;
    let mut pulled = Vec::new(rt.alloc());
    for want in WANTS {
        assert_pull(&rt, &mut input, &mut pulled, want)?;
    }
    assert!(rt; pulled.as_slice() == b"abcdefg".as_slice());
    Ok(())
}

/// Asserts what a push of these bytes takes, and that the output holds `kept` afterwards.
fn assert_push(
    rt: &impl Abort,
    output: &mut MemoryOutput,
    bytes: &str,
    want: Push,
    kept: &str,
) -> Result<(), Fail> {
    assert!(rt; !bytes.is_empty());
    let push = output.push(bytes.as_bytes());
    if push == Push::Failed && want != Push::Failed {
        return Err(Fail::from("out of memory"));
    }
    assert!(rt; push == want);
    assert!(rt; output.as_bytes() == kept.as_bytes(), "{kept}");
    Ok(())
}

/// Returns an output that holds no byte yet, and has four steps.
fn output_by_steps(alloc: Global) -> Result<MemoryOutput, Fail> {
    let steps = [
        OutputStep::Take(1),
        OutputStep::Fail,
        OutputStep::Full,
        OutputStep::Take(0),
    ];
    Ok(MemoryOutput::new(alloc, Vec::from_slice(alloc, &steps)?))
}

#[test]
fn takes_by_its_steps(rt: HostRuntime) -> Result<(), Fail> {
    const CASES: [(&str, Push, &str); 5] = [
        ("abc", Push::Taken(1), "a"),
        ("bc", Push::Failed, "a"),
        ("bc", Push::Full, "a"),
        ("bc", Push::Taken(1), "ab"),
        ("cdef", Push::Taken(4), "abcdef"),
    ];
    let mut output = output_by_steps(rt.alloc())?;
    for (bytes, want, kept) in CASES {
        assert_push(&rt, &mut output, bytes, want, kept)?;
    }
    assert!(rt; output.into_bytes().as_slice() == b"abcdef".as_slice());
    Ok(())
}

/// An output without a call for several slices takes of the first one alone.
#[test]
fn takes_the_first_of_three_parts(rt: HostRuntime) -> Result<(), Fail> {
    let mut output = MemoryOutput::new(rt.alloc(), Vec::new(rt.alloc()));
    let push = output.push_parts(b"ab", b"cd", b"ef");
    if push == Push::Failed {
        return Err(Fail::from("out of memory"));
    }
    assert!(rt; push == Push::Taken(2));
    assert!(rt; output.as_bytes() == b"ab".as_slice());
    Ok(())
}

#[test]
fn lends_its_pulls(rt: HostRuntime) -> Result<(), Fail> {
    let alloc = rt.alloc();
    let mut input = MemoryInput::new(Vec::from_slice(alloc, b"abc")?, Vec::new(alloc));
    let mut buffer = [0u8; 2];
    let first = pull_from(&mut input, &mut buffer);
    assert!(rt; first == Pull::Bytes(2) && buffer.as_slice() == b"ab".as_slice());
    let second = pull_from(&mut input, &mut buffer);
    assert!(rt; second == Pull::Bytes(1));
    Ok(())
}

#[test]
fn lends_its_pushes(rt: HostRuntime) -> Result<(), Fail> {
    let alloc = rt.alloc();
    let mut output = MemoryOutput::new(alloc, vec![in alloc; OutputStep::Take(2)]?);
    if push_to(&mut output, b"abc") == Push::Failed {
        return Err(Fail::from("out of memory"));
    }
    assert!(rt; output.as_bytes() == b"ab".as_slice());
    Ok(())
}

/// A reader and writer that fails with these kinds at its first calls, or succeeds.
#[derive(Drop)]
struct Flawed<'a> {
    kinds: &'a [Option<ErrorKind>],
}

impl Flawed<'_> {
    fn next(&mut self) -> io::Result<()> {
        let Some((kind, rest)) = self.kinds.split_first() else {
            return Ok(());
        };
        self.kinds = rest;
        match kind {
            Some(kind) => Err(io::Error::from(*kind)),
            None => Ok(()),
        }
    }
}

impl Read for Flawed<'_> {
    fn read(&mut self, buffer: &mut [u8]) -> io::Result<usize> {
        self.next()?;
        Ok(buffer.len().min(1))
    }
}

impl Write for Flawed<'_> {
    fn write(&mut self, bytes: &[u8]) -> io::Result<usize> {
        self.next()?;
        Ok(bytes.len().min(1))
    }

    fn flush(&mut self) -> io::Result<()> {
        self.next()
    }
}

const AT_CALL: [Option<ErrorKind>; 3] = [
    Some(ErrorKind::Interrupted),
    Some(ErrorKind::WouldBlock),
    Some(ErrorKind::BrokenPipe),
];

const AT_FLUSH: [Option<ErrorKind>; 4] = [
    None,
    Some(ErrorKind::Interrupted),
    None,
    Some(ErrorKind::BrokenPipe),
];

#[test]
fn reads_to_the_end(rt: HostRuntime) {
    let mut input = ReadInput::new(b"abcde".as_slice());
    let mut buffer = [0u8; 2];
    for (want, bytes) in [
        (Pull::Bytes(2), "ab"),
        (Pull::Bytes(2), "cd"),
        (Pull::Bytes(1), "ed"),
        (Pull::Ended, "ed"),
        (Pull::Ended, "ed"),
    ] {
        let pull = input.pull(&mut buffer);
        assert!(rt;
            pull == want && buffer.as_slice() == bytes.as_bytes(),
            "{bytes}"
        );
    }
}

#[test]
fn tells_waits_from_failed_reads(rt: HostRuntime) {
    let mut input = ReadInput::new(Flawed { kinds: &AT_CALL });
    let mut buffer = [0u8; 2];
    for want in [Pull::Empty, Pull::Empty, Pull::Failed, Pull::Bytes(1)] {
        let pull = input.pull(&mut buffer);
        assert!(rt; pull == want);
    }
}

/// Asserts that pushes to a writer that fails like this return these answers.
fn assert_pushes(rt: &impl Abort, kinds: &[Option<ErrorKind>], wants: [Push; 4]) {
    let mut output = WriteOutput::new(Flawed { kinds });
    for want in wants {
        let push = output.push(b"ab");
        assert!(rt; push == want);
    }
}

/// An interruption in a flush is a failure, since the bytes would be pushed again.
#[test]
fn tells_waits_from_failed_writes(rt: HostRuntime) {
    const CALLS: [Push; 4] = [Push::Full, Push::Full, Push::Failed, Push::Taken(1)];
    const FLUSHES: [Push; 4] = [Push::Failed, Push::Failed, Push::Taken(1), Push::Taken(1)];
    assert_pushes(&rt, &AT_CALL, CALLS);
    assert_pushes(&rt, &AT_FLUSH, FLUSHES);
}

#[test]
fn writes_to_a_vector(rt: HostRuntime) -> Result<(), Fail> {
    let mut bytes = Vec::new(rt.alloc());
    let mut output = WriteOutput::new(&mut bytes);
    if output.push(b"abc") == Push::Failed {
        return Err(Fail::from("out of memory"));
    }
    assert!(rt; bytes.as_slice() == b"abc".as_slice());
    Ok(())
}

#[test]
fn writes_to_the_streams(rt: HostRuntime) {
    assert!(rt; WriteOutput::new(rt.stdout()).push(b"a\n") == Push::Taken(2));
    assert!(rt; WriteOutput::new(rt.stderr()).push(b"a\n") == Push::Taken(2));
}
