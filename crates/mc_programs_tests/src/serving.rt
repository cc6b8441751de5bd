//! Golden streams through the serving loop, whole and in the smallest pieces, and what it does if
//! the input, the output or memory fails.
ghost use Rattle.std.specs.Prelude.{◌≤◌, ⊤, length};

use crate::runs::{demand, single_pulls, single_pushes, thousand_keys, thousand_values};
use mc_model::{Fault, Limits};
use mc_programs::{
    Hashing, Input, InputStep, MemoryInput, MemoryOutput, Output, OutputStep, Pull, Push, TurnOver,
    TurnOverAlone, serve_client,
};
use shared_tests::runs::{Text, input_of, output_of};
use std::alloc::{AllocError, Global};
use std::process::Abort;
use std::sync::Wait;
use uc_log::Log;
use uc_worker::{Next, Worker};

/// How many commands are applied at most.
const PLACES: u64 = 65_536;

/// Quotas with room for all that these streams store.
const LIMITS: Limits = Limits {
    items: 10_000,
    bytes: 10_000_000,
};

/// What is pushed last if memory runs out.
const STARVED: &[u8] = b"SERVER_ERROR out of memory\r\n";

/// What a client sends, and the replies that it is owed.
const STREAMS: [(&str, &[&str]); 10] = [
    // A stored value is given back with its flags and its length.
    (
        "set a 5 0 3\r\nabc\r\nget a\r\n",
        &["STORED\r\n", "VALUE a 5 3\r\nabc\r\nEND\r\n"],
    ),
    // Line ends inside a block don't end it.
    (
        "set k 0 0 7\r\n\r\nEND\r\n\r\nget k\r\n",
        &["STORED\r\n", "VALUE k 0 7\r\n\r\nEND\r\n\r\nEND\r\n"],
    ),
    // An input that ends inside a block or a line gives nothing for it.
    ("set a 0 0 3\r\nab", &[]),
    ("get a\r\nget a", &["END\r\n"]),
    ("", &[]),
    // A bad format is answered though it says noreply, and its block is passed over.
    (
        "set a x 0 1 noreply\r\ny\r\nget a\r\n",
        &["CLIENT_ERROR bad command line format\r\n", "END\r\n"],
    ),
    // A block without its end is refused, and reading goes on two bytes after it.
    (
        "set a 0 0 2\r\nabcde\r\n",
        &["CLIENT_ERROR bad data chunk\r\n", "ERROR\r\n"],
    ),
    // An expiry is refused with its block, without a reply if the line says so.
    (
        "set a 0 60 3\r\nget\r\nset a 0 9 1 noreply\r\nx\r\nget a\r\n",
        &["CLIENT_ERROR expiry is not supported\r\n", "END\r\n"],
    ),
    // Names of no command, and a get without a key.
    (
        "bogus\r\n\r\nGET a\r\nget\r\nget  a b\n",
        &[
            "ERROR\r\n",
            "ERROR\r\n",
            "ERROR\r\n",
            "ERROR\r\n",
            "END\r\n",
        ],
    ),
    // A quiet set is done and not answered; replies come in the order of the requests.
    (
        "set a 1 0 1 noreply\r\nx\r\nget a\r\nset a 2 0 0\r\n\r\nget b a a\r\nbogus\r\nset b 3 0 1 noreply\r\ny\r\nget b\r\n",
        &[
            "VALUE a 1 1\r\nx\r\nEND\r\n",
            "STORED\r\n",
            "VALUE a 2 0\r\n\r\nVALUE a 2 0\r\n\r\nEND\r\n",
            "ERROR\r\n",
            "VALUE b 3 1\r\ny\r\nEND\r\n",
        ],
    ),
];

/// The streams of one client, and how serving it ended.
#[derive(Drop)]
struct Served {
    result: Result<(), Fault>,
    input: MemoryInput,
    output: MemoryOutput,
}

/// Returns a client that sends these bytes, with these steps, before it is served.
fn open(
    rt: &impl AllocGlobal,
    sent: &[u8],
    pulls: &[InputStep],
    pushes: &[OutputStep],
) -> Result<Served, AllocError> {
    Ok(Served {
        result: Ok(()),
        input: input_of(rt.alloc(), sent, pulls)?,
        output: output_of(rt.alloc(), pushes)?,
    })
}

/// Serves a client on up to this many logs of this many places, each but the first opened by
/// `over`.
fn serve_turned(
    rt: &(impl Wait + AllocGlobal),
    over: &impl TurnOver,
    places: u64,
    generations: u64,
    served: &mut Served,
)
    requires { 1 ≤ generations }
{
    served.result = serve_client(
        rt,
        rt.alloc(),
        Hashing::Fixed,
        over,
        LIMITS,
        places,
        generations,
        &mut served.input,
        &mut served.output,
    );
}

/// Serves a client on up to this many logs of this many places.
fn serve_logs(rt: &(impl Wait + AllocGlobal), places: u64, generations: u64, served: &mut Served)
    requires { 1 ≤ generations }
{
    serve_turned(rt, &TurnOverAlone, places, generations, served);
}

/// Serves a client that sends these bytes, with these steps.
fn serve(
    rt: &(impl Wait + AllocGlobal),
    sent: &[u8],
    pulls: &[InputStep],
    pushes: &[OutputStep],
) -> Result<Served, AllocError> {
    let mut served = open(rt, sent, pulls, pushes)?;
    serve_logs(rt, PLACES, 1, &mut served);
    Ok(served)
}

/// Returns the replies, one after another.
fn bytes_of(rt: &impl AllocGlobal, replies: &[&str]) -> Result<Vec<u8>, AllocError> {
    let mut bytes = Vec::new(rt.alloc());
    for reply in replies {
        bytes.extend_from_slice(reply.as_bytes())?;
    }
    Ok(bytes)
}

/// Returns what follows the whole replies at the front, from the first reply on.
fn after_replies<'a>(pushed: &'a [u8], replies: &[&str]) -> &'a [u8] {
    let mut rest = pushed;
    for reply in replies {
        match rest.strip_prefix(reply.as_bytes()) {
            Some(others) => rest = others,
            None => break,
        }
    }
    rest
}

/// Returns whether the bytes that were pushed fit how serving ended: they are the expected ones; or
/// if memory ran out, whole replies and then the refusal; or if the output failed, a prefix of the
/// expected ones.
fn fits(served: &Served, case: Case) -> bool {
    let pushed = served.output.as_bytes();
    if served.result == Ok(()) {
        return pushed == case.wanted;
    }
    if served.result == Err(Fault::Memory) {
        return after_replies(pushed, case.replies) == STARVED;
    }
    served.result == Err(Fault::Output) && case.wanted.starts_with(pushed)
}

/// A stream, what it is owed, and the replies of which that consists.
#[derive(Clone, Copy)]
struct Case<'a> {
    sent: &'a [u8],
    wanted: &'a [u8],
    replies: &'a [&'a str],
}

/// Asserts that the stream is served by these steps.
fn check_steps(
    rt: &(impl AllocGlobal + Wait + Abort),
    case: Case,
    pulls: &[InputStep],
    pushes: &[OutputStep],
) -> Result<(), Fault> {
    let served = serve(rt, case.sent, pulls, pushes)?;
    demand(
        rt,
        fits(&served, case),
        "other bytes were pushed",
        pulls.len(),
    );
    served.result
}

/// Asserts that the stream is served whole, by these pulls, by these pushes, and by both.
fn check_ways(
    rt: &(impl AllocGlobal + Wait + Abort),
    case: Case,
    pulls: &[InputStep],
    pushes: &[OutputStep],
) -> Result<(), Fault> {
    check_steps(rt, case, &[], &[])?;
    check_steps(rt, case, pulls, &[])?;
    check_steps(rt, case, &[], pushes)?;
    check_steps(rt, case, pulls, pushes)
}

/// Asserts that the stream is served whole, in single bytes pulled, in single bytes pushed, and in
/// both.
fn check_singles(rt: &(impl AllocGlobal + Wait + Abort), case: Case) -> Result<(), Fault> {
    let pulls = single_pulls(rt.alloc(), case.sent.len())?;
    let pushes = single_pushes(rt.alloc(), case.wanted.len())?;
    check_ways(rt, case, &pulls, &pushes)
}

/// Does as `check_singles` for a stream that is owed these replies.
fn check_each_way(
    rt: &(impl AllocGlobal + Wait + Abort),
    sent: &[u8],
    replies: &[&str],
) -> Result<(), Fault> {
    let wanted = bytes_of(rt, replies)?;
    let case = Case {
        sent,
        wanted: &wanted,
        replies,
    };
    check_singles(rt, case)
}

#[test]
fn serves_golden_streams(rt: HostRuntime) -> Result<(), Fault> {
    for stream in &STREAMS {
        check_each_way(&rt, stream.0.as_bytes(), stream.1)?;
    }
    Ok(())
}

const LINE_TOO_LONG: &str = "CLIENT_ERROR line too long\r\n";

/// Does as `check_each_way` for a text with repeated words.
fn check_text(
    rt: &(impl AllocGlobal + Wait + Abort),
    sent: Text,
    replies: &[&str],
) -> Result<(), Fault> {
    let sent = sent.filled(rt.alloc())?;
    check_each_way(rt, sent.as_bytes(), replies)
}

/// Returns a text with 65,536 letters for each `@`.
fn letters(form: &str) -> Text<'_> {
    Text {
        form,
        word: "a",
        times: 65_536,
    }
}

#[test]
fn a_line_too_long_ends_the_stream(rt: HostRuntime) -> Result<(), Fault> {
    check_text(&rt, letters("@\n"), &["ERROR\r\n"])?;
    check_text(&rt, letters("@a\nget a\r\nbogus\r\n"), &[LINE_TOO_LONG])
}

/// Five pulls, the last of which brings the end of a line too long, and then a failure.
const FIVE_PULLS: [InputStep; 6] = [
    InputStep::Give(16_384),
    InputStep::Give(16_384),
    InputStep::Give(16_384),
    InputStep::Give(16_384),
    InputStep::Give(16_384),
    InputStep::Fail,
];

/// Does as `check_steps` for a text with repeated words, which is owed one reply, and these pulls.
fn check_text_pulls(
    rt: &(impl AllocGlobal + Wait + Abort),
    sent: Text,
    reply: &str,
    pulls: &[InputStep],
) -> Result<(), Fault> {
    let sent = sent.filled(rt.alloc())?;
    let case = Case {
        sent: sent.as_bytes(),
        wanted: reply.as_bytes(),
        replies: &[reply],
    };
    check_steps(rt, case, pulls, &[])
}

/// Nothing is pulled after such a line, though the next pull would fail.
#[test]
fn nothing_is_pulled_after_a_line_too_long(rt: HostRuntime) -> Result<(), Fault> {
    let sent = letters("@a\nget a\r\nbogus\r\n");
    check_text_pulls(&rt, sent, LINE_TOO_LONG, &FIVE_PULLS)
}

/// Returns `good` pulls of 16,384 bytes, and then a failure.
fn failing_pieces(rt: &impl AllocGlobal, good: usize) -> Result<Vec<InputStep>, AllocError> {
    let mut pulls = Vec::new(rt.alloc());
    for _ in 0..good {
        pulls.push(InputStep::Give(16_384))?;
    }
    pulls.push(InputStep::Fail)?;
    Ok(pulls)
}

/// Returns a text with 1,048,576 letters for each `@`.
fn blocks(form: &str) -> Text<'_> {
    Text {
        form,
        word: "x",
        times: 1_048_576,
    }
}

/// Asserts that the stream is served by whole pulls that fail after its end.
fn check_failing_end(
    rt: &(impl AllocGlobal + Wait + Abort),
    sent: &[u8],
    wanted: &[u8],
) -> Result<(), Fault> {
    let pulls = failing_pieces(rt, sent.len() / 16_384 + 1)?;
    check_serves(rt, sent, &pulls, &[], Ok(()), wanted)
}

/// Does as `check_failing_end` for texts with repeated words.
fn check_failing_texts(
    rt: &(impl AllocGlobal + Wait + Abort),
    sent: Text,
    wanted: Text,
) -> Result<(), Fault> {
    let sent = sent.filled(rt.alloc())?;
    let wanted = wanted.filled(rt.alloc())?;
    check_failing_end(rt, sent.as_bytes(), wanted.as_bytes())
}

/// Nothing is pulled after a `quit` that waited for replies of more than 1,048,576 bytes, though
/// the next pull would fail.
#[test]
fn nothing_is_pulled_after_a_quit_that_waited(rt: HostRuntime) -> Result<(), Fault> {
    let sent = blocks("set a 0 0 1048576\r\n@\r\nget a\r\nget a\r\nquit\r\n");
    let wanted = blocks(
        "STORED\r\nVALUE a 0 1048576\r\n@\r\nEND\r\nVALUE a 0 1048576\r\n@\r\nEND\r\n",
    );
    check_failing_texts(&rt, sent, wanted)
}

#[test]
fn too_large_an_object_is_passed_over(rt: HostRuntime) -> Result<(), Fault> {
    let sent = Text {
        form: "set a 0 0 1048577\r\n@\r\nget a\r\n",
        word: "\n",
        times: 1_048_577,
    };
    let refusal = "SERVER_ERROR object too large for cache\r\n";
    check_text(&rt, sent, &[refusal, "END\r\n"])
}

/// Returns how many bytes the next pull gives, which are all that are left.
fn left_in(input: &mut MemoryInput) -> usize {
    match input.pull(&mut [0; 512]) {
        Pull::Bytes(count) => count,
        _ => 0,
    }
}

/// Returns whether serving ended like this, and pushed these bytes.
fn has_ended(served: &Served, end: Result<(), Fault>, pushed: &[u8]) -> bool {
    served.result == end && served.output.as_bytes() == pushed
}

/// Asserts that serving ended like this, and pushed these bytes.
fn check_end(
    rt: &impl Abort,
    served: &Served,
    end: Result<(), Fault>,
    pushed: &[u8],
) -> Result<(), Fault> {
    if served.result == Err(Fault::Memory) {
        return Err(Fault::Memory);
    }
    demand(
        rt,
        has_ended(served, end, pushed),
        "another end",
        pushed.len(),
    );
    Ok(())
}

/// Asserts that serving a client by these steps ends like this, and pushes these bytes.
fn check_serves(
    rt: &(impl AllocGlobal + Wait + Abort),
    sent: &[u8],
    pulls: &[InputStep],
    pushes: &[OutputStep],
    end: Result<(), Fault>,
    pushed: &[u8],
) -> Result<(), Fault> {
    let served = serve(rt, sent, pulls, pushes)?;
    check_end(rt, &served, end, pushed)
}

/// Returns what is owed for bytes that are the front of a stream.
fn owed_for(
    rt: &(impl AllocGlobal + Wait + Abort),
    front: &[u8],
    wanted: &[u8],
) -> Result<Vec<u8>, AllocError> {
    let served = serve(rt, front, &[], &[])?;
    let owed = served.output.into_bytes();
    let holds = served.result == Ok(()) && wanted.starts_with(&owed);
    demand(rt, holds, "an input that ends", front.len());
    Ok(owed)
}

/// Returns steps that pull `good` single bytes, and then a failure.
fn failing_pulls(rt: &impl AllocGlobal, good: usize) -> Result<Vec<InputStep>, AllocError> {
    let mut pulls = single_pulls(rt.alloc(), good)?;
    pulls.push(InputStep::Fail)?;
    Ok(pulls)
}

/// Asserts that a pull that fails after `good` bytes, for which this is owed, ends serving.
fn check_failing_pull(
    rt: &(impl AllocGlobal + Wait + Abort),
    sent: &[u8],
    owed: &[u8],
    good: usize,
) -> Result<(), AllocError>
    requires { good ≤ length sent.now }
{
    let pulls = failing_pulls(rt, good)?;
    let mut served = serve(rt, sent, &pulls, &[])?;
    let ended = has_ended(&served, Err(Fault::Input), owed);
    let left = left_in(&mut served.input);
    demand(
        rt,
        ended && left == sent.len() - good,
        "a failing pull",
        good,
    );
    Ok(())
}

/// Asserts that a pull that fails ends serving, whichever it is.
fn check_failing_pulls(
    rt: &(impl AllocGlobal + Wait + Abort),
    sent: &[u8],
    replies: &[&str],
) -> Result<(), AllocError> {
    let wanted = bytes_of(rt, replies)?;
    for good in 0..=sent.len() {
        let owed = owed_for(rt, &sent[..good], &wanted)?;
        check_failing_pull(rt, sent, &owed, good)?;
    }
    Ok(())
}

#[test]
fn a_failing_pull_ends_it(rt: HostRuntime) -> Result<(), AllocError> {
    for stream in &STREAMS {
        check_failing_pulls(&rt, stream.0.as_bytes(), stream.1)?;
    }
    Ok(())
}

/// Returns steps that push `good` single bytes, and then a failure and a full push.
fn failing_pushes(rt: &impl AllocGlobal, good: usize) -> Result<Vec<OutputStep>, AllocError> {
    let mut pushes = single_pushes(rt.alloc(), good)?;
    pushes.extend_from_slice(&[OutputStep::Fail, OutputStep::Full])?;
    Ok(pushes)
}

/// Returns whether the output is full at the next push.
fn is_full(output: &mut MemoryOutput) -> bool {
    output.push(b"x") == Push::Full
}

/// Asserts that a push that fails after these bytes ends serving, and the step after it isn't used.
fn check_failing_push(
    rt: &(impl AllocGlobal + Wait + Abort),
    sent: &[u8],
    pushed: &[u8],
) -> Result<(), AllocError> {
    let pushes = failing_pushes(rt, pushed.len())?;
    let mut served = serve(rt, sent, &[], &pushes)?;
    let ended = has_ended(&served, Err(Fault::Output), pushed);
    let full = is_full(&mut served.output);
    demand(rt, ended && full, "a failing push", pushed.len());
    Ok(())
}

/// Asserts that a push that fails ends serving, whichever it is but the one after the last.
fn check_failing_pushes(
    rt: &(impl AllocGlobal + Wait + Abort),
    sent: &[u8],
    wanted: &[u8],
) -> Result<(), AllocError> {
    for good in 0..wanted.len() {
        check_failing_push(rt, sent, &wanted[..good])?;
    }
    Ok(())
}

/// Asserts that the push after the last one isn't asked for.
fn check_last_push(rt: &(impl AllocGlobal + Wait + Abort), case: Case) -> Result<(), Fault> {
    let pushes = failing_pushes(rt, case.wanted.len())?;
    check_steps(rt, case, &[], &pushes)
}

/// Asserts that serving ends at a push that fails, and at no other.
fn check_all_pushes(rt: &(impl AllocGlobal + Wait + Abort), case: Case) -> Result<(), Fault> {
    check_failing_pushes(rt, case.sent, case.wanted)?;
    check_last_push(rt, case)
}

/// Does as `check_all_pushes` for a stream that is owed these replies.
fn check_pushes(
    rt: &(impl AllocGlobal + Wait + Abort),
    sent: &[u8],
    replies: &[&str],
) -> Result<(), Fault> {
    let wanted = bytes_of(rt, replies)?;
    let case = Case {
        sent,
        wanted: &wanted,
        replies,
    };
    check_all_pushes(rt, case)
}

#[test]
fn a_failing_push_ends_it(rt: HostRuntime) -> Result<(), Fault> {
    for stream in &STREAMS {
        check_pushes(&rt, stream.0.as_bytes(), stream.1)?;
    }
    Ok(())
}

/// Asserts that a push that fails after those of one long reply, which are its line, its data and
/// its end, ends serving a text with repeated words.
fn check_failing_fourth(
    rt: &(impl AllocGlobal + Wait + Abort),
    sent: Text,
    pushed: Text,
) -> Result<(), Fault> {
    let sent = sent.filled(rt.alloc())?;
    let pushed = pushed.filled(rt.alloc())?;
    let taken = OutputStep::Take(2_097_152);
    let pushes = [taken, taken, taken, OutputStep::Fail];
    check_serves(
        rt,
        sent.as_bytes(),
        &[],
        &pushes,
        Err(Fault::Output),
        pushed.as_bytes(),
    )
}

#[test]
fn a_long_reply_is_pushed_before_the_next_request(rt: HostRuntime) -> Result<(), Fault> {
    let sent = blocks("set a 0 0 1048576\r\n@\r\nget a\r\nget a\r\n");
    let pushed = blocks("STORED\r\nVALUE a 0 1048576\r\n@\r\nEND\r\n");
    check_failing_fourth(&rt, sent, pushed)
}

/// What is sent to a log of two places, and the replies: a refusal takes no place, and a quiet
/// command takes one.
const FULL_LOG: (&str, &[&str]) = (
    "bogus\r\nset a 7 0 1 noreply\r\nx\r\nget a\r\nset a 0 0 1\r\nx\r\nget a\r\nbogus\r\nset a 0 0 1 noreply\r\nx\r\nset a 0 9 1 noreply\r\nx\r\nset a 0 0 1\r\nxyzget a\r\n",
    &[
        "ERROR\r\n",
        "VALUE a 7 1\r\nx\r\nEND\r\n",
        "SERVER_ERROR log full\r\n",
        "SERVER_ERROR log full\r\n",
        "ERROR\r\n",
        "CLIENT_ERROR bad data chunk\r\n",
        "SERVER_ERROR log full\r\n",
    ],
);

/// Asserts that the requests of `FULL_LOG` get this from this many logs of two places.
fn check_generations(
    rt: &(impl AllocGlobal + Wait + Abort),
    generations: u64,
    replies: &[&str],
) -> Result<(), Fault>
    requires { 1 ≤ generations }
{
    let wanted = bytes_of(rt, replies)?;
    let mut served = open(rt, FULL_LOG.0.as_bytes(), &[], &[])?;
    serve_logs(rt, 2, generations, &mut served);
    check_end(rt, &served, Ok(()), &wanted)
}

#[test]
fn a_full_log_refuses_commands_alone(rt: HostRuntime) -> Result<(), Fault> {
    check_generations(&rt, 1, FULL_LOG.1)
}

/// What the requests of `FULL_LOG` get from three logs of two places: no command is refused.
const THREE_LOGS: &[&str] = &[
    "ERROR\r\n",
    "VALUE a 7 1\r\nx\r\nEND\r\n",
    "STORED\r\n",
    "VALUE a 0 1\r\nx\r\nEND\r\n",
    "ERROR\r\n",
    "CLIENT_ERROR bad data chunk\r\n",
    "VALUE a 0 1\r\nx\r\nEND\r\n",
];

#[test]
fn a_full_log_is_followed_by_the_next_one(rt: HostRuntime) -> Result<(), Fault> {
    check_generations(&rt, 3, THREE_LOGS)?;
    // With one log it is refused.
    check_generations(&rt, 1, FULL_LOG.1)
}

/// Turns no log over, as if there were never memory for it.
struct NeverTurnsOver;

impl TurnOver for NeverTurnsOver {
    ghost refused = { λ _. ⊤ };

    fn turn_over(&self, _alloc: Global, _log: &Log, _worker: &Worker<'_>) -> Option<Next> {
        None
    }
}

#[test]
fn a_log_that_cannot_be_turned_over_is_the_last(rt: HostRuntime) -> Result<(), Fault> {
    let wanted = bytes_of(&rt, FULL_LOG.1)?;
    let mut served = open(&rt, FULL_LOG.0.as_bytes(), &[], &[])?;
    serve_turned(&rt, &NeverTurnsOver, 2, 3, &mut served);
    check_end(&rt, &served, Ok(()), &wanted)
}

/// A get that gave up at some key would fail.
#[test]
fn a_get_of_a_thousand_keys_shows_each(rt: HostRuntime) -> Result<(), Fault> {
    let sent = thousand_keys(rt.alloc())?;
    let wanted = thousand_values(rt.alloc())?;
    check_serves(&rt, &sent, &[], &[], Ok(()), &wanted)
}
