//! Runs of mc_stdin: its command line, what a client sends, and what comes out.
use crate::programs::{NO_STEPS, Program, Steps, check_run};
use crate::runs::{
    demand, for_each_key, joined, single_pulls, single_pushes, thousand_keys, thousand_values,
};
use mc_model::Fault;
use mc_programs::{InputStep, OutputStep, fault_text};
use shared_tests::runs::{Text, Wanted, columns};
use std::alloc::{AllocError, Global};
use std::process::Abort;
use std::sync::Wait;
use std::test::Fail;

/// Does as `check_run` for a run that ends well.
fn check_serves(
    rt: &(impl AllocGlobal + Wait + Abort),
    given: &str,
    sent: &[u8],
    pulls: &[InputStep],
    pushes: &[OutputStep],
    replies: &[u8],
) -> Result<(), AllocError> {
    let steps = Steps {
        pulls,
        pushes,
        tells: &[],
    };
    let wanted = Wanted {
        status: 0,
        output: replies,
        errors: &[],
    };
    check_run(rt, Program::Stdin, given, sent, steps, wanted)
}

/// Runs a stream whole, by these pulls, by these pushes, and by both.
fn check_ways(
    rt: &(impl AllocGlobal + Wait + Abort),
    given: &str,
    sent: &[u8],
    pulls: &[InputStep],
    pushes: &[OutputStep],
    replies: &[u8],
) -> Result<(), AllocError> {
    check_serves(rt, given, sent, &[], &[], replies)?;
    check_serves(rt, given, sent, pulls, &[], replies)?;
    check_serves(rt, given, sent, &[], pushes, replies)?;
    check_serves(rt, given, sent, pulls, pushes, replies)
}

/// Runs a stream whole, with a byte a pull, with a byte a push, and with both.
fn check_served(
    rt: &(impl AllocGlobal + Wait + Abort),
    given: &str,
    sent: &[u8],
    replies: &[u8],
) -> Result<(), AllocError> {
    let pulls = single_pulls(rt.alloc(), sent.len())?;
    let pushes = single_pushes(rt.alloc(), replies.len())?;
    check_ways(rt, given, sent, &pulls, &pushes, replies)
}

const FIRST_RUN: &[u8] = b"set a 5 0 3\r\nabc\r\nget a\r\n";

#[test]
fn ends_well(rt: HostRuntime) -> Result<(), AllocError> {
    let wanted = Wanted {
        status: 0,
        output: b"STORED\r\nVALUE a 5 3\r\nabc\r\nEND\r\n",
        errors: b"",
    };
    check_run(&rt, Program::Stdin, "", FIRST_RUN, NO_STEPS, wanted)
}

#[test]
fn tells_a_failed_input(rt: HostRuntime) -> Result<(), AllocError> {
    let steps = Steps {
        pulls: &[InputStep::Give(18), InputStep::Fail],
        pushes: &[],
        tells: &[OutputStep::Take(3), OutputStep::Full, OutputStep::Take(1)],
    };
    let wanted = Wanted {
        status: 1,
        output: b"STORED\r\n",
        errors: b"mc_stdin: input failed\n",
    };
    check_run(&rt, Program::Stdin, "", FIRST_RUN, steps, wanted)
}

#[test]
fn tells_a_failed_output(rt: HostRuntime) -> Result<(), AllocError> {
    let steps = Steps {
        pulls: &[],
        pushes: &[OutputStep::Take(4), OutputStep::Fail],
        tells: &[],
    };
    let wanted = Wanted {
        status: 1,
        output: b"STOR",
        errors: b"mc_stdin: output failed\n",
    };
    check_run(&rt, Program::Stdin, "", FIRST_RUN, steps, wanted)
}

#[test]
fn passes_over_failed_errors(rt: HostRuntime) -> Result<(), AllocError> {
    let steps = Steps {
        pulls: &[InputStep::Fail],
        pushes: &[],
        tells: &[OutputStep::Take(3), OutputStep::Fail],
    };
    let wanted = Wanted {
        status: 1,
        output: b"",
        errors: b"mc_",
    };
    check_run(&rt, Program::Stdin, "", FIRST_RUN, steps, wanted)
}

fn check_fault_text(rt: &(impl AllocGlobal + Abort), fault: Fault) -> Result<(), Fail> {
    let shown = format!(in rt.alloc(); "{fault}")?;
    demand(
        rt,
        fault_text(fault) == shown.as_bytes(),
        "another text",
        shown.len(),
    );
    Ok(())
}

const FAULTS: [Fault; 7] = [
    Fault::Memory,
    Fault::LogFull,
    Fault::Taken,
    Fault::Input,
    Fault::Output,
    Fault::BadEvent,
    Fault::BadSettings,
];

#[test]
fn names_faults_as_they_are_displayed(rt: HostRuntime) -> Result<(), Fail> {
    for fault in &FAULTS {
        check_fault_text(&rt, *fault)?;
    }
    Ok(())
}

/// Checks each row, with `~` between them: what it shows, a stream, and the replies with which it
/// is served, with `|` between them.
fn check_rows(rt: &(impl AllocGlobal + Wait + Abort), rows: &str) -> Result<(), AllocError> {
    for row in rows.split('~') {
        let (_, sent, replies) = columns(row);
        check_served(rt, "", sent.as_bytes(), replies.as_bytes())?;
    }
    Ok(())
}

/// Runs for `check_rows`, each of which shows one rule.
const GOLDEN_RUNS: &str = "\
    A stored value is given back with its flags and length\
    |set a 5 0 3\r\nabc\r\nget a\r\n\
    |STORED\r\nVALUE a 5 3\r\nabc\r\nEND\r\n~\
    Gets shows the unique; empty data; an absent key gives no value\
    |set e 0 0 0\r\n\r\ngets e x\r\n\
    |STORED\r\nVALUE e 0 0 1\r\n\r\nEND\r\n~\
    Line ends inside a data block do not end it\
    |set k 0 0 7\r\n\r\nEND\r\n\r\nget k\r\n\
    |STORED\r\nVALUE k 0 7\r\n\r\nEND\r\n\r\nEND\r\n~\
    A block without its line end is refused; line, block and two bytes are consumed\
    |set a 0 0 2\r\nabcde\r\n\
    |CLIENT_ERROR bad data chunk\r\nERROR\r\n~\
    Cas stores, finds another unique, finds no key\
    |set a 0 0 1\r\nx\r\ncas a 0 0 1 1\r\ny\r\ncas a 0 0 1 1\r\nz\r\ncas b 0 0 1 1\r\nw\r\ngets a\r\n\
    |STORED\r\nSTORED\r\nEXISTS\r\nNOT_FOUND\r\nVALUE a 0 1 2\r\ny\r\nEND\r\n~\
    Incr wraps at 2^64, decr stops at 0 and does not pad\
    |set n 7 0 20\r\n18446744073709551615\r\nincr n 1\r\nset n 0 0 1\r\n5\r\ndecr n 9\r\nset n 0 0 2\r\n10\r\ndecr n 1\r\ngets n\r\n\
    |STORED\r\n0\r\nSTORED\r\n0\r\nSTORED\r\n9\r\nVALUE n 0 1 6\r\n9\r\nEND\r\n~\
    A nonzero exptime is refused and its block swallowed; append ignores it and keeps the old flags\
    |set a 0 60 3\r\nget\r\nget a\r\nset a 7 0 1\r\nx\r\nappend a 9 60 1\r\ny\r\ngets a\r\n\
    |CLIENT_ERROR expiry is not supported\r\nEND\r\nSTORED\r\nSTORED\r\nVALUE a 7 2 2\r\nxy\r\nEND\r\n~\
    Noreply sends nothing; delete takes an optional 0\
    |set a 0 0 1\r\nx\r\nadd a 0 0 1 noreply\r\ny\r\ndelete a 0\r\ndelete a\r\n\
    |STORED\r\nDELETED\r\nNOT_FOUND\r\n~\
    An input that ends inside a block gives nothing\
    |set a 0 0 3\r\nab\
    |~\
    A bad line with noreply is answered, and its block swallowed\
    |set a x 0 1 noreply\r\ny\r\nget a\r\n\
    |CLIENT_ERROR bad command line format\r\nEND\r\n~\
    Where the length is unreadable the line alone is consumed\
    |set a 0 0 x\r\nabc\r\n\
    |CLIENT_ERROR bad command line format\r\nERROR\r\n~\
    Unknown, empty, upper-case and short lines; runs of spaces; a bare line feed\
    |stats\r\n\r\nGET a\r\nget\r\nget  a \n\
    |ERROR\r\nERROR\r\nERROR\r\nERROR\r\nEND\r\n~\
    Incr of a value above 2^64 - 1, by an unreadable delta, of an absent key\
    |set n 0 0 20\r\n18446744073709551616\r\nincr n 1\r\nincr n x\r\nincr m 1\r\n\
    |STORED\r\nCLIENT_ERROR cannot increment or decrement non-numeric value\r\nCLIENT_ERROR invalid numeric delta argument\r\nNOT_FOUND\r\n~\
    Flush_all empties the table and does not reset the uniques; a key twice is answered twice\
    |set a 0 0 1\r\nx\r\nflush_all 0\r\nappend a 0 0 1\r\ny\r\nset a 0 0 1\r\nz\r\ngets a a\r\n\
    |STORED\r\nOK\r\nNOT_STORED\r\nSTORED\r\nVALUE a 0 1 2\r\nz\r\nVALUE a 0 1 2\r\nz\r\nEND\r\n~\
    A refused expiry with noreply is quiet; nothing is read after quit\
    |set a 0 9 1 noreply\r\nx\r\nversion\r\nquit\r\nversion\r\n\
    |VERSION 1.0.0\r\n~\
    Prepend keeps the old flags; replace of an absent and add of a held key store nothing\
    |set p 4 0 2\r\nbc\r\nprepend p 9 0 1\r\na\r\nreplace q 0 0 1\r\nx\r\nadd p 0 0 1\r\nx\r\ngets p\r\n\
    |STORED\r\nSTORED\r\nNOT_STORED\r\nNOT_STORED\r\nVALUE p 4 3 2\r\nabc\r\nEND\r\n~\
    Wrong words of delete, flush_all, cas and incr, each with its refusal\
    |delete a 1\r\nflush_all 5\r\nflush_all x\r\nflush_all noreply\r\ncas a 0 0 1 x\r\ny\r\nincr a\r\n\
    |CLIENT_ERROR bad command line format\r\nCLIENT_ERROR expiry is not supported\r\nCLIENT_ERROR bad command line format\r\nCLIENT_ERROR bad command line format\r\nERROR\r\n~\
    Append, prepend and incr on one item are seen joined\
    |set n 3 0 1\r\n1\r\nappend n 0 0 1\r\n0\r\nprepend n 0 0 1\r\n2\r\nincr n 5\r\nappend n 0 0 2\r\nab\r\ngets n\r\n\
    |STORED\r\nSTORED\r\nSTORED\r\n215\r\nSTORED\r\nVALUE n 3 5 5\r\n215ab\r\nEND\r\n";

#[test]
fn serves_golden_runs_however_they_are_cut(rt: HostRuntime) -> Result<(), AllocError> {
    check_rows(&rt, GOLDEN_RUNS)
}

/// The words of runs, what a client sends, and the replies with which it is served.
const OPTIONS: [(&str, &str, &str); 5] = [
    // A full log refuses table commands and nothing else; the connection stays.
    (
        "--places 2",
        "set a 0 0 1\r\nx\r\nset b 0 0 1\r\ny\r\nget a\r\nversion\r\n",
        "STORED\r\nSTORED\r\nSERVER_ERROR log full\r\nVERSION 1.0.0\r\n",
    ),
    // The next log follows a full one, as often as is asked for: items and uniques go on.
    (
        "--places 2 --generations 3",
        "set a 0 0 1\r\nx\r\nset b 0 0 1\r\ny\r\ngets a b\r\ncas a 0 0 1 1\r\nz\r\ngets a\r\nincr c 1\r\nget a\r\nversion\r\n",
        "STORED\r\nSTORED\r\nVALUE a 0 1 1\r\nx\r\nVALUE b 0 1 2\r\ny\r\nEND\r\nSTORED\r\nVALUE a 0 1 3\r\nz\r\nEND\r\nNOT_FOUND\r\nSERVER_ERROR log full\r\nVERSION 1.0.0\r\n",
    ),
    // The quota of items refuses a new key; an old key may be set again.
    (
        "--items 1",
        "set a 0 0 1\r\nx\r\ngets a\r\nset b 0 0 1\r\ny\r\nset a 0 0 1\r\nz\r\ngets a b\r\n",
        "STORED\r\nVALUE a 0 1 1\r\nx\r\nEND\r\nSERVER_ERROR out of memory storing object\r\nSTORED\r\nVALUE a 0 1 2\r\nz\r\nEND\r\n",
    ),
    // The quota of bytes refuses an incr that grows the number.
    (
        "--bytes 2",
        "set n 0 0 1\r\n9\r\nincr n 1\r\ndecr n 1\r\n",
        "STORED\r\nSERVER_ERROR out of memory storing object\r\n8\r\n",
    ),
    // The quota of bytes counts keys and data; a refused set keeps the item and uses no unique.
    (
        "--bytes 4",
        "set ab 0 0 2\r\nxy\r\nset ab 0 0 3\r\nxyz\r\nreplace ab 0 0 1\r\nx\r\nset c 0 0 1\r\ny\r\ndelete ab\r\nset c 0 0 3\r\nyyy\r\ngets ab c\r\n",
        "STORED\r\nSERVER_ERROR out of memory storing object\r\nSTORED\r\nSERVER_ERROR out of memory storing object\r\nDELETED\r\nSTORED\r\nVALUE c 0 3 3\r\nyyy\r\nEND\r\n",
    ),
];

#[test]
fn serves_golden_runs_under_options(rt: HostRuntime) -> Result<(), AllocError> {
    for row in &OPTIONS {
        check_served(&rt, row.0, row.1.as_bytes(), row.2.as_bytes())?;
    }
    Ok(())
}

/// Does as `check_served` for texts with repeated words.
fn check_texts(
    rt: &(impl AllocGlobal + Wait + Abort),
    sent: Text,
    replies: Text,
) -> Result<(), AllocError> {
    let sent = sent.filled(rt.alloc())?;
    let replies = replies.filled(rt.alloc())?;
    check_served(rt, "", sent.as_bytes(), replies.as_bytes())
}

/// Does as `check_serves` for texts with repeated words, whole.
fn check_texts_whole(
    rt: &(impl AllocGlobal + Wait + Abort),
    sent: Text,
    replies: Text,
) -> Result<(), AllocError> {
    let sent = sent.filled(rt.alloc())?;
    let replies = replies.filled(rt.alloc())?;
    check_serves(rt, "", sent.as_bytes(), &[], &[], replies.as_bytes())
}

#[test]
fn a_key_has_at_most_250_bytes(rt: HostRuntime) -> Result<(), AllocError> {
    let sent = Text {
        form: "set @ 0 0 1\r\nx\r\nset @k 0 0 1\r\ny\r\nget @\r\n",
        word: "k",
        times: 250,
    };
    let replies = Text {
        form: "STORED\r\nCLIENT_ERROR bad command line format\r\nVALUE @ 0 1\r\nx\r\nEND\r\n",
        word: "k",
        times: 250,
    };
    check_texts(&rt, sent, replies)
}

#[test]
fn a_line_has_at_most_65_536_bytes(rt: HostRuntime) -> Result<(), AllocError> {
    let sent = Text {
        form: "@\r\n@a\r\nversion\r\n",
        word: "a",
        times: 65_535,
    };
    let replies = Text {
        form: "ERROR\r\nCLIENT_ERROR line too long\r\n",
        word: "",
        times: 0,
    };
    check_texts(&rt, sent, replies)
}

// With a byte a pull this is quick in the gate; under `rt try` it takes more than its minute.
#[test]
fn data_have_at_most_1_048_576_bytes(rt: HostRuntime) -> Result<(), AllocError> {
    let sent = Text {
        form: "set b 0 0 1048577\r\n@z\r\nset b 0 0 1048576\r\n@\r\nappend b 0 0 1\r\nz\r\n",
        word: "z",
        times: 1_048_576,
    };
    let replies = Text {
        form: "SERVER_ERROR object too large for cache\r\nSTORED\r\nSERVER_ERROR object too large for cache\r\n",
        word: "",
        times: 0,
    };
    check_texts(&rt, sent, replies)
}

const FOUR_REQUESTS: &[u8] = b"set a 0 0 1\r\nx\r\nset b 0 0 1\r\ny\r\nget a\r\nversion\r\n";

#[test]
fn applies_as_many_commands_as_are_asked_for(rt: HostRuntime) -> Result<(), AllocError> {
    let replies = b"STORED\r\nSTORED\r\nSERVER_ERROR log full\r\nVERSION 1.0.0\r\n";
    for words in &["--places 2", "--places=2"] {
        check_serves(&rt, words, FOUR_REQUESTS, &[], &[], replies)?;
    }
    Ok(())
}

const HELP: &str = "A memcached server for one client, from standard input to standard output

Usage: mc_stdin [OPTIONS]

Options:
      --places <N>       How many commands a log takes, from 1 to 1048576 [default: 65536]
      --generations <N>  How many logs there are, one after another, from 1 to 65536 [default: 1]
      --items <N>        How many items may be held, from 1 to 1048576 [default: 1048576]
      --bytes <N>        How many bytes keys and data may have, from 1 to 1073741824 [default: 67108864]
  -h, --help             Print help
  -V, --version          Print version
";

/// Asserts that these words are answered on standard output.
fn check_shown(
    rt: &(impl AllocGlobal + Wait + Abort),
    given: &str,
    text: &str,
) -> Result<(), AllocError> {
    check_serves(rt, given, FOUR_REQUESTS, &[], &[], text.as_bytes())
}

/// Asserts that these words are refused on standard error.
fn check_refused(
    rt: &(impl AllocGlobal + Wait + Abort),
    given: &str,
    text: &str,
) -> Result<(), AllocError> {
    let wanted = Wanted {
        status: 2,
        output: &[],
        errors: text.as_bytes(),
    };
    check_run(rt, Program::Stdin, given, FOUR_REQUESTS, NO_STEPS, wanted)
}

const SHOWN: [(&str, &str); 3] = [
    ("--help", HELP),
    ("-h", HELP),
    ("--version", "mc_stdin 1.0.0\n"),
];

#[test]
fn shows_help_and_the_version(rt: HostRuntime) -> Result<(), AllocError> {
    for row in &SHOWN {
        check_shown(&rt, row.0, row.1)?;
    }
    Ok(())
}

const REFUSED: [(&str, &str); 10] = [
    ("--places 0", "mc_stdin: bad settings\n"),
    ("--places 1048577", "mc_stdin: bad settings\n"),
    ("--generations 0", "mc_stdin: bad settings\n"),
    ("--generations 65537", "mc_stdin: bad settings\n"),
    ("--items 0", "mc_stdin: bad settings\n"),
    ("--items 1048577", "mc_stdin: bad settings\n"),
    ("--bytes 0", "mc_stdin: bad settings\n"),
    ("--bytes 1073741825", "mc_stdin: bad settings\n"),
    (
        "--places x",
        "error: invalid value 'x' for '--places <N>': invalid digit found in string\n\nFor more information, try '--help'.\n",
    ),
    (
        "--bogus",
        "error: unexpected argument '--bogus' found\n\nUsage: mc_stdin [OPTIONS]\n\nFor more information, try '--help'.\n",
    ),
];

#[test]
fn refuses_words_that_ask_for_no_service(rt: HostRuntime) -> Result<(), AllocError> {
    for row in &REFUSED {
        check_refused(&rt, row.0, row.1)?;
    }
    Ok(())
}

#[test]
fn tells_a_failed_output_at_help(rt: HostRuntime) -> Result<(), AllocError> {
    let steps = Steps {
        pulls: &[],
        pushes: &[OutputStep::Take(10), OutputStep::Fail],
        tells: &[],
    };
    let wanted = Wanted {
        status: 1,
        output: b"A memcache",
        errors: b"mc_stdin: output failed\n",
    };
    check_run(&rt, Program::Stdin, "--help", FOUR_REQUESTS, steps, wanted)
}

#[test]
fn serves_a_thousand_keys_of_one_line(rt: HostRuntime) -> Result<(), AllocError> {
    let sent = thousand_keys(rt.alloc())?;
    let replies = thousand_values(rt.alloc())?;
    check_served(&rt, "", &sent, &replies)
}

/// A set of a key, and a get in the longest line, which asks for that key again and again.
const LONGEST_GET: Text<'static> = Text {
    form: "set a 0 0 1\r\nx\r\nget@\r\n",
    word: " a",
    times: 32_766,
};

/// Asserts that the line of the longest get has as many bytes as a line may have.
fn check_longest(rt: &(impl AllocGlobal + Abort)) -> Result<(), AllocError> {
    // The line feed isn't a byte of the line.
    let length = "set a 0 0 1\r\nx\r\n".len() + 65_536 + 1;
    assert!(rt; LONGEST_GET.filled(rt.alloc())?.len() == length);
    Ok(())
}

#[test]
fn serves_the_longest_line_of_keys(rt: HostRuntime) -> Result<(), AllocError> {
    let replies = Text {
        form: "STORED\r\n@END\r\n",
        word: "VALUE a 0 1\r\nx\r\n",
        times: LONGEST_GET.times,
    };
    check_longest(&rt)?;
    check_texts(&rt, LONGEST_GET, replies)
}

/// Returns lines that set a key of each length, and then get each.
fn keys_sent(alloc: Global) -> Result<Vec<u8>, AllocError> {
    let sets = for_each_key(alloc, "set @ # 0 1\r\nx\r\n")?;
    let gets = for_each_key(alloc, "get @\r\n")?;
    joined(alloc, &[sets.as_bytes(), gets.as_bytes()])
}

/// Returns the replies to those lines.
fn keys_owed(alloc: Global) -> Result<Vec<u8>, AllocError> {
    let stored = for_each_key(alloc, "STORED\r\n")?;
    let values = for_each_key(alloc, "VALUE @ # 1\r\nx\r\nEND\r\n")?;
    joined(alloc, &[stored.as_bytes(), values.as_bytes()])
}

#[test]
fn serves_keys_of_every_length(rt: HostRuntime) -> Result<(), AllocError> {
    let sent = keys_sent(rt.alloc())?;
    let replies = keys_owed(rt.alloc())?;
    check_served(&rt, "", &sent, &replies)
}

/// All but the last command find a place in the log, if the words don't say how many it has.
#[test]
fn applies_65_536_commands_unless_told_otherwise(rt: HostRuntime) -> Result<(), AllocError> {
    let sent = Text {
        form: "@",
        word: "delete a\r\n",
        times: 65_537,
    };
    let replies = Text {
        form: "@SERVER_ERROR log full\r\n",
        word: "NOT_FOUND\r\n",
        times: 65_536,
    };
    check_texts_whole(&rt, sent, replies)
}
