//! The requests of golden and further streams: each is read whole, byte by byte, and cut in two at
//! every place, in pieces that are copied and in pieces that are shared.
ghost use Rattle.std.specs.Prelude.{◌<◌};

use bytes::Bytes;
use itoa::Buffer;
use mc_model::{Command, Data, Fault, Key, KeyList, Limits, Name, Reply, Request, Verb};
use mc_read::{Reader, Speaker};
use mc_write::refusal_text;
use shared_tests::runs::{Text, columns};
use std::process::Abort;
use std::test::Fail;

/// Returns what follows a word.
fn after<'a>(text: &'a [u8], word: &[u8]) -> Option<&'a [u8]> {
    text.strip_prefix(word)
}

/// Returns what follows a space and a word.
fn after_word<'a>(text: &'a [u8], word: &[u8]) -> Option<&'a [u8]> {
    after(after(text, b" ")?, word)
}

/// Returns what follows a space and a number. Needs no memory, so that no failing allocation falls
/// in here; nor do the functions like it below.
fn after_number<'a>(text: &'a [u8], number: u64) -> Option<&'a [u8]> {
    let mut buffer = Buffer::new();
    after_word(text, buffer.format(number).as_bytes())
}

/// Returns what follows a key and a number.
fn after_key_number<'a>(text: &'a [u8], key: &Key, number: u64) -> Option<&'a [u8]> {
    after_number(after_word(text, key.as_bytes())?, number)
}

/// Returns what follows a key, flags and a block.
fn after_item<'a>(text: &'a [u8], key: &Key, flags: u32, block: &Data) -> Option<&'a [u8]> {
    let text = after_key_number(text, key, u64::from(flags))?;
    after_word(text, block.as_bytes())
}

/// Returns what follows keys.
fn after_keys<'a>(text: &'a [u8], keys: &KeyList) -> Option<&'a [u8]> {
    let mut text = text;
    let mut texts = keys.texts();
    for _ in 0..keys.len() {
        text = after_word(text, texts.next()?)?;
    }
    Some(text)
}

fn verb_name(verb: Verb) -> &'static [u8] {
    match verb {
        Verb::Set => b"set",
        Verb::Add => b"add",
        Verb::Replace => b"replace",
        Verb::Append => b"append",
        Verb::Prepend => b"prepend",
    }
}

fn after_store<'a>(text: &'a [u8], command: &Command) -> Option<&'a [u8]> {
    match command {
        Command::Store {
            verb,
            key,
            flags,
            block,
        } => {
            let text = after(text, verb_name(*verb))?;
            after_item(text, key, *flags, block)
        }
        _ => None,
    }
}

fn after_cas<'a>(text: &'a [u8], command: &Command) -> Option<&'a [u8]> {
    match command {
        Command::Cas {
            key,
            flags,
            block,
            unique,
        } => {
            let text = after_number(after(text, b"cas")?, *unique)?;
            after_item(text, key, *flags, block)
        }
        _ => None,
    }
}

fn after_get<'a>(text: &'a [u8], command: &Command) -> Option<&'a [u8]> {
    match command {
        Command::Get { keys, uniques } => {
            let name: &[u8] = if *uniques { b"gets" } else { b"get" };
            after_keys(after(text, name)?, keys)
        }
        _ => None,
    }
}

fn after_delete<'a>(text: &'a [u8], command: &Command) -> Option<&'a [u8]> {
    match command {
        Command::Delete { key } => after_word(after(text, b"delete")?, key.as_bytes()),
        _ => None,
    }
}

fn after_incr<'a>(text: &'a [u8], command: &Command) -> Option<&'a [u8]> {
    match command {
        Command::Incr { key, by } => after_key_number(after(text, b"incr")?, key, *by),
        _ => None,
    }
}

fn after_decr<'a>(text: &'a [u8], command: &Command) -> Option<&'a [u8]> {
    match command {
        Command::Decr { key, by } => after_key_number(after(text, b"decr")?, key, *by),
        _ => None,
    }
}

/// Returns what follows a command: its name, for a cas its unique, then its key or keys, its number
/// or flags, and its block.
fn after_command<'a>(text: &'a [u8], command: &Command) -> Option<&'a [u8]> {
    match command {
        Command::Store { .. } => after_store(text, command),
        Command::Cas { .. } => after_cas(text, command),
        Command::Get { .. } => after_get(text, command),
        Command::Delete { .. } => after_delete(text, command),
        Command::Incr { .. } => after_incr(text, command),
        Command::Decr { .. } => after_decr(text, command),
        Command::Flush => after(text, b"flush_all"),
        // No line of a tenant's client sets quotas.
        Command::Limit { .. } => None,
    }
}

/// Returns what follows the setting of quotas: its name, the tenant's name and the numbers.
fn after_limit<'a>(text: &'a [u8], name: &Name, limits: &Limits) -> Option<&'a [u8]> {
    let text = after_word(after(text, b"limit")?, name.as_bytes())?;
    after_number(after_number(text, limits.items)?, limits.bytes)
}

fn after_reply<'a>(text: &'a [u8], reply: &Reply) -> Option<&'a [u8]> {
    match reply {
        Reply::Version => after(text, b"version\r\n"),
        Reply::Refused(refusal) => after(text, refusal_text(*refusal)),
        _ => None,
    }
}

/// Returns what follows the word of a quiet request.
fn after_quiet<'a>(text: &'a [u8], quiet: bool) -> Option<&'a [u8]> {
    if quiet {
        after(text, b"quiet ")
    } else {
        Some(text)
    }
}

/// Returns what follows a request in a text of the expected ones, if it is the next one expected.
fn after_request<'a>(text: &'a [u8], request: &Request) -> Option<&'a [u8]> {
    match request {
        Request::Logged { command, quiet } => {
            after(after_command(after_quiet(text, *quiet)?, command)?, b"\r\n")
        }
        Request::Local { reply, quiet } => after_reply(after_quiet(text, *quiet)?, reply),
        Request::Limit {
            name,
            limits,
            quiet,
        } => {
            let text = after_limit(after_quiet(text, *quiet)?, name, limits)?;
            after(text, b"\r\n")
        }
        Request::Quit => after(text, b"quit\r\n"),
        Request::TooLong => after(text, b"line too long\r\n"),
    }
}

/// A reader, and a text of the requests that are still to come.
#[derive(Drop)]
struct Reading<'a> {
    reader: Reader,
    text: &'a [u8],
    /// Whether no unexpected request has come.
    agrees: bool,
}

fn feed_once(reader: &mut Reader, piece: &[u8]) -> Result<(), Fault> {
    reader.feed(piece)
}

fn next_once(reader: &mut Reader) -> Result<Option<Request>, Fault> {
    reader.next()
}

/// Feeds a piece, and feeds it once more if that fails.
fn feed(reader: &mut Reader, piece: &[u8]) -> Result<(), Fault> {
    match feed_once(reader, piece) {
        Ok(()) => Ok(()),
        Err(_) => feed_once(reader, piece),
    }
}

fn reader_of(rt: &impl AllocGlobal, speaker: Speaker) -> Reader {
    match speaker {
        Speaker::Tenant => Reader::new(rt.alloc()),
        Speaker::Admin => Reader::admin(rt.alloc()),
    }
}

impl<'a> Reading<'a> {
    /// Returns a reading of a tenant's stream.
    fn new(rt: &impl AllocGlobal, text: &'a [u8]) -> Reading<'a> {
        Reading::of(rt, Speaker::Tenant, text)
    }

    fn of(rt: &impl AllocGlobal, speaker: Speaker, text: &'a [u8]) -> Reading<'a> {
        Reading {
            reader: reader_of(rt, speaker),
            text,
            agrees: true,
        }
    }

    /// Goes on after a request.
    fn see(&mut self, request: &Request) {
        match after_request(self.text, request) {
            Some(text) => self.text = text,
            None => self.agrees = false,
        }
    }

    /// Asks for the next request, without a second try. Returns whether there is one.
    fn see_once(&mut self) -> Result<bool, Fault> {
        match next_once(&mut self.reader)? {
            Some(request) => {
                self.see(&request);
                Ok(true)
            }
            None => Ok(false),
        }
    }

    /// Does as `see_once`, and tries once more if that fails.
    fn see_next(&mut self) -> Result<bool, Fault> {
        match self.see_once() {
            Ok(is_there) => Ok(is_there),
            Err(_) => self.see_once(),
        }
    }

    /// Asks for requests until there is none.
    fn see_all(&mut self) -> Result<(), Fault> {
        for _ in 0..u64::MAX {
            if !self.see_next()? {
                break;
            }
        }
        Ok(())
    }

    /// Feeds a piece, and asks for the requests in it.
    fn read(&mut self, piece: &[u8]) -> Result<(), Fault> {
        feed(&mut self.reader, piece)?;
        self.see_all()
    }

    /// Does as `read` with a piece that the reader copies or may share.
    fn read_in(&mut self, rt: &impl AllocGlobal, piece: &[u8], shared: bool) -> Result<(), Fault> {
        if shared {
            self.reader
                .feed_bytes(Bytes::copy_from_slice(rt.alloc(), piece)?)?;
            return self.see_all();
        }
        self.read(piece)
    }

    /// Returns whether all expected requests have come, and no others.
    fn is_done(&self) -> bool {
        self.agrees && self.text.is_empty()
    }
}

/// A named stream of some speaker, and a text of the requests that it reads as.
#[derive(Clone, Copy)]
struct Case<'a> {
    speaker: Speaker,
    name: &'a str,
    sent: &'a [u8],
    wanted: &'a [u8],
}

/// How a stream is cut: into a first piece of `first` bytes and further pieces of `size`, which the
/// reader copies or may share.
#[derive(Clone, Copy)]
struct Cut {
    first: usize,
    size: usize,
    shared: bool,
}

/// Reads a stream in pieces.
fn read_pieces(
    rt: &impl AllocGlobal,
    reading: &mut Reading,
    sent: &[u8],
    cut: Cut,
) -> Result<(), Fault>
    requires { 0 < cut.size }
{
    let (front, others) = sent.split_at(cut.first.min(sent.len()));
    reading.read_in(rt, front, cut.shared)?;
    for piece in others.chunks(cut.size) {
        reading.read_in(rt, piece, cut.shared)?;
    }
    Ok(())
}

/// Returns whether the stream in pieces like these reads as the requests of its case.
fn reads_in_pieces(rt: &impl AllocGlobal, case: Case, cut: Cut) -> Result<bool, Fault>
    requires { 0 < cut.size }
{
    let mut reading = Reading::of(rt, case.speaker, case.wanted);
    read_pieces(rt, &mut reading, case.sent, cut)?;
    Ok(reading.is_done())
}

/// Asserts that the stream in pieces like these reads as the requests of its case.
fn check_pieces(
    rt: &(impl AllocGlobal + Abort),
    case: Case,
    first: usize,
    size: usize,
) -> Result<(), Fault>
    requires { 0 < size }
{
    for shared in [false, true] {
        let cut = Cut {
            first,
            size,
            shared,
        };
        let reads = reads_in_pieces(rt, case, cut)?;
        assert!(rt;
            reads,
            "{}: {first} bytes, then {size} a piece, shared: {shared}",
            case.name
        );
    }
    Ok(())
}

/// Asserts that the stream, cut in two at each place of this range, reads as the requests of the
/// case.
fn check_cuts(
    rt: &(impl AllocGlobal + Abort),
    case: Case,
    from: usize,
    to: usize,
) -> Result<(), Fault> {
    for cut in from..=to {
        check_pieces(rt, case, cut, usize::MAX)?;
    }
    Ok(())
}

/// Asserts that the stream reads as these requests, byte by byte, and cut in two at every place,
/// its end included.
pub(crate) fn check_of(
    rt: &(impl AllocGlobal + Abort),
    speaker: Speaker,
    name: &str,
    sent: &[u8],
    wanted: &[u8],
) -> Result<(), Fault> {
    let case = Case {
        speaker,
        name,
        sent,
        wanted,
    };
    check_pieces(rt, case, 0, 1)?;
    check_cuts(rt, case, 0, sent.len())
}

/// Does as `check_of` for a row: a name, a stream and its requests, with `|` between them.
fn check_row(rt: &(impl AllocGlobal + Abort), speaker: Speaker, row: &str) -> Result<(), Fault> {
    let (name, sent, wanted) = columns(row);
    check_of(rt, speaker, name, sent.as_bytes(), wanted.as_bytes())
}

/// Does as `check_row` for each row, with `~` between them.
pub(crate) fn check_rows(
    rt: &(impl AllocGlobal + Abort),
    speaker: Speaker,
    rows: &str,
) -> Result<(), Fault> {
    for row in rows.split('~') {
        check_row(rt, speaker, row)?;
    }
    Ok(())
}

/// Does as `check_of` for texts with repeated words.
pub(crate) fn check_texts(
    rt: &(impl AllocGlobal + Abort),
    speaker: Speaker,
    name: &str,
    sent: Text,
    wanted: Text,
) -> Result<(), Fault> {
    let sent = sent.filled(rt.alloc())?;
    let wanted = wanted.filled(rt.alloc())?;
    check_of(rt, speaker, name, sent.as_bytes(), wanted.as_bytes())
}

#[test]
fn golden_rows_of_few_commands(rt: HostRuntime) -> Result<(), Fault> {
    check_rows(
        &rt,
        Speaker::Tenant,
        "\
        set-then-get\
        |set a 5 0 3\r\nabc\r\nget a\r\n\
        |set a 5 abc\r\nget a\r\n~\
        gets-shows-unique\
        |set e 0 0 0\r\n\r\ngets e x\r\n\
        |set e 0 \r\ngets e x\r\n~\
        block-holds-line-ends\
        |set k 0 0 7\r\n\r\nEND\r\n\r\nget k\r\n\
        |set k 0 \r\nEND\r\n\r\nget k\r\n~\
        bad-data-chunk\
        |set a 0 0 2\r\nabcde\r\n\
        |CLIENT_ERROR bad data chunk\r\nERROR\r\n~\
        noreply-and-delete\
        |set a 0 0 1\r\nx\r\nadd a 0 0 1 noreply\r\ny\r\ndelete a 0\r\ndelete a\r\n\
        |set a 0 x\r\nquiet add a 0 y\r\ndelete a\r\ndelete a\r\n~\
        input-ends-inside-block\
        |set a 0 0 3\r\nab\
        |~\
        noreply-on-a-bad-line\
        |set a x 0 1 noreply\r\ny\r\nget a\r\n\
        |CLIENT_ERROR bad command line format\r\nget a\r\n~\
        unreadable-length\
        |set a 0 0 x\r\nabc\r\n\
        |CLIENT_ERROR bad command line format\r\nERROR\r\n~\
        unknown-lines-and-words\
        |stats\r\n\r\nGET a\r\nget\r\nget  a \n\
        |ERROR\r\nERROR\r\nERROR\r\nERROR\r\nget a\r\n~\
        quit-and-quiet-refusal\
        |set a 0 9 1 noreply\r\nx\r\nversion\r\nquit\r\nversion\r\n\
        |quiet CLIENT_ERROR expiry is not supported\r\nversion\r\nquit\r\n~\
        delete-flush-cas-words\
        |delete a 1\r\nflush_all 5\r\nflush_all x\r\nflush_all noreply\r\ncas a 0 0 1 x\r\ny\r\nincr a\r\n\
        |CLIENT_ERROR bad command line format\r\nCLIENT_ERROR expiry is not supported\r\nCLIENT_ERROR bad command line format\r\nquiet flush_all\r\nCLIENT_ERROR bad command line format\r\nERROR\r\n",
    )
}

#[test]
fn golden_rows_of_changes(rt: HostRuntime) -> Result<(), Fault> {
    check_rows(
        &rt,
        Speaker::Tenant,
        "\
        cas-outcomes\
        |set a 0 0 1\r\nx\r\ncas a 0 0 1 1\r\ny\r\ncas a 0 0 1 1\r\nz\r\ncas b 0 0 1 1\r\nw\r\ngets a\r\n\
        |set a 0 x\r\ncas 1 a 0 y\r\ncas 1 a 0 z\r\ncas 1 b 0 w\r\ngets a\r\n~\
        arithmetic-wraps-and-stops-at-zero\
        |set n 7 0 20\r\n18446744073709551615\r\nincr n 1\r\nset n 0 0 1\r\n5\r\ndecr n 9\r\nset n 0 0 2\r\n10\r\ndecr n 1\r\ngets n\r\n\
        |set n 7 18446744073709551615\r\nincr n 1\r\nset n 0 5\r\ndecr n 9\r\nset n 0 10\r\ndecr n 1\r\ngets n\r\n~\
        expiry-refused\
        |set a 0 60 3\r\nget\r\nget a\r\nset a 7 0 1\r\nx\r\nappend a 9 60 1\r\ny\r\ngets a\r\n\
        |CLIENT_ERROR expiry is not supported\r\nget a\r\nset a 7 x\r\nappend a 9 y\r\ngets a\r\n~\
        arithmetic-refusals\
        |set n 0 0 20\r\n18446744073709551616\r\nincr n 1\r\nincr n x\r\nincr m 1\r\n\
        |set n 0 18446744073709551616\r\nincr n 1\r\nCLIENT_ERROR invalid numeric delta argument\r\nincr m 1\r\n~\
        flush-keeps-uniques\
        |set a 0 0 1\r\nx\r\nflush_all 0\r\nappend a 0 0 1\r\ny\r\nset a 0 0 1\r\nz\r\ngets a a\r\n\
        |set a 0 x\r\nflush_all\r\nappend a 0 y\r\nset a 0 z\r\ngets a a\r\n~\
        prepend-replace-add\
        |set p 4 0 2\r\nbc\r\nprepend p 9 0 1\r\na\r\nreplace q 0 0 1\r\nx\r\nadd p 0 0 1\r\nx\r\ngets p\r\n\
        |set p 4 bc\r\nprepend p 9 a\r\nreplace q 0 x\r\nadd p 0 x\r\ngets p\r\n~\
        fragments-joined\
        |set n 3 0 1\r\n1\r\nappend n 0 0 1\r\n0\r\nprepend n 0 0 1\r\n2\r\nincr n 5\r\nappend n 0 0 2\r\nab\r\ngets n\r\n\
        |set n 3 1\r\nappend n 0 0\r\nprepend n 0 2\r\nincr n 5\r\nappend n 0 ab\r\ngets n\r\n",
    )
}

/// The programs of these rows are given quotas, places or generations; the reader reads their input
/// like any other.
#[test]
fn golden_rows_with_options(rt: HostRuntime) -> Result<(), Fault> {
    check_rows(
        &rt,
        Speaker::Tenant,
        "\
        item-quota\
        |set a 0 0 1\r\nx\r\ngets a\r\nset b 0 0 1\r\ny\r\nset a 0 0 1\r\nz\r\ngets a b\r\n\
        |set a 0 x\r\ngets a\r\nset b 0 y\r\nset a 0 z\r\ngets a b\r\n~\
        log-full\
        |set a 0 0 1\r\nx\r\nset b 0 0 1\r\ny\r\nget a\r\nversion\r\n\
        |set a 0 x\r\nset b 0 y\r\nget a\r\nversion\r\n~\
        byte-quota-on-arithmetic\
        |set n 0 0 1\r\n9\r\nincr n 1\r\ndecr n 1\r\n\
        |set n 0 9\r\nincr n 1\r\ndecr n 1\r\n~\
        byte-quota\
        |set ab 0 0 2\r\nxy\r\nset ab 0 0 3\r\nxyz\r\nreplace ab 0 0 1\r\nx\r\nset c 0 0 1\r\ny\r\ndelete ab\r\nset c 0 0 3\r\nyyy\r\ngets ab c\r\n\
        |set ab 0 xy\r\nset ab 0 xyz\r\nreplace ab 0 x\r\nset c 0 y\r\ndelete ab\r\nset c 0 yyy\r\ngets ab c\r\n~\
        generations\
        |set a 0 0 1\r\nx\r\nset b 0 0 1\r\ny\r\ngets a b\r\ncas a 0 0 1 1\r\nz\r\ngets a\r\nincr c 1\r\nget a\r\nversion\r\n\
        |set a 0 x\r\nset b 0 y\r\ngets a b\r\ncas 1 a 0 z\r\ngets a\r\nincr c 1\r\nget a\r\nversion\r\n",
    )
}

#[test]
fn lines_that_name_a_block(rt: HostRuntime) -> Result<(), Fault> {
    check_rows(
        &rt,
        Speaker::Tenant,
        "\
        empty-block\
        |set a 0 0 0\r\n\r\nget a\r\n\
        |set a 0 \r\nget a\r\n~\
        quiet-bad-chunk\
        |set a 0 0 1 noreply\r\nxyz\r\n\
        |quiet CLIENT_ERROR bad data chunk\r\nERROR\r\n~\
        greatest-length\
        |set a 0 0 2147483645\r\nab\r\nget a\r\n\
        |~\
        length-above-the-greatest\
        |set a 0 0 2147483646\r\nget a\r\n\
        |CLIENT_ERROR bad command line format\r\nget a\r\n~\
        quiet-set\
        |set a 0 0 1 noreply\r\nx\r\n\
        |quiet set a 0 x\r\n~\
        words-after-noreply\
        |set a 0 0 1 noreply x\r\nget a\r\n\
        |ERROR\r\nget a\r\n~\
        another-last-word\
        |set a 0 0 1 norepl\r\nx\r\nget a\r\n\
        |CLIENT_ERROR bad command line format\r\nget a\r\n~\
        negative-exptimes\
        |set a 0 -0 1\r\nx\r\nset a 0 -1 1\r\nx\r\nset a 0 - 1\r\nx\r\n\
        |set a 0 x\r\nCLIENT_ERROR expiry is not supported\r\nCLIENT_ERROR bad command line format\r\n~\
        greatest-flags\
        |set a 4294967295 0 1\r\nx\r\nset a 4294967296 0 1\r\nx\r\nget a\r\n\
        |set a 4294967295 x\r\nCLIENT_ERROR bad command line format\r\nget a\r\n~\
        exptimes-of-other-verbs\
        |prepend a 0 -7 1 noreply\r\ny\r\nappend a 0 x 1\r\ny\r\nadd a 0 1 1\r\ny\r\nreplace a 0 1 1\r\ny\r\n\
        |quiet prepend a 0 y\r\nCLIENT_ERROR bad command line format\r\nCLIENT_ERROR expiry is not supported\r\nCLIENT_ERROR expiry is not supported\r\n",
    )
}

#[test]
fn lines_of_cas(rt: HostRuntime) -> Result<(), Fault> {
    check_rows(
        &rt,
        Speaker::Tenant,
        "\
        greatest-unique\
        |cas a 3 0 1 18446744073709551615 noreply\r\ny\r\ncas a 0 0 1 18446744073709551616\r\ny\r\nget a\r\n\
        |quiet cas 18446744073709551615 a 3 y\r\nCLIENT_ERROR bad command line format\r\nget a\r\n~\
        words-of-cas\
        |cas a 0 0 1 noreply\r\ny\r\ncas a 0 0 1\r\ncas a 0 0 1 1 noreply x\r\ncas a 0 60 1 1\r\ny\r\nget a\r\n\
        |CLIENT_ERROR bad command line format\r\nERROR\r\nERROR\r\nCLIENT_ERROR expiry is not supported\r\nget a\r\n",
    )
}

#[test]
fn lines_alone(rt: HostRuntime) -> Result<(), Fault> {
    check_rows(
        &rt,
        Speaker::Tenant,
        "\
        greatest-delta\
        |incr n 18446744073709551615 noreply\r\ndecr n 18446744073709551616\r\ndecr n -1 noreply\r\n\
        |quiet incr n 18446744073709551615\r\nCLIENT_ERROR invalid numeric delta argument\r\nCLIENT_ERROR invalid numeric delta argument\r\n~\
        words-of-arithmetic\
        |incr n 1 x\r\nincr n x x\r\nincr \x01 x noreply\r\nincr n noreply\r\ndecr n\r\nincr n 1 noreply x\r\ndecr n 02\r\n\
        |CLIENT_ERROR bad command line format\r\nCLIENT_ERROR bad command line format\r\nCLIENT_ERROR bad command line format\r\nCLIENT_ERROR invalid numeric delta argument\r\nERROR\r\nERROR\r\ndecr n 2\r\n~\
        last-words-of-delete\
        |delete a noreply\r\ndelete a 0 noreply\r\ndelete a noreply 0\r\ndelete a 0 0\r\ndelete a 00\r\ndelete a 1 noreply\r\n\
        |quiet delete a\r\nquiet delete a\r\nCLIENT_ERROR bad command line format\r\nCLIENT_ERROR bad command line format\r\nCLIENT_ERROR bad command line format\r\nCLIENT_ERROR bad command line format\r\n~\
        keys-of-delete\
        |delete\r\ndelete a 0 noreply x\r\ndelete \x7f\r\ndelete noreply\r\n\
        |ERROR\r\nERROR\r\nCLIENT_ERROR bad command line format\r\ndelete noreply\r\n~\
        words-of-flush\
        |flush_all\r\nflush_all -00 noreply\r\nflush_all 5 noreply\r\nflush_all noreply 0\r\nflush_all 0 0\r\nflush_all - noreply\r\nflush_all 0 noreply x\r\n\
        |flush_all\r\nquiet flush_all\r\nquiet CLIENT_ERROR expiry is not supported\r\nCLIENT_ERROR bad command line format\r\nCLIENT_ERROR bad command line format\r\nCLIENT_ERROR bad command line format\r\nERROR\r\n~\
        key-named-twice\
        |get a b a\n\
        |get a b a\r\n~\
        unlawful-keys\
        |get a\x01b\r\nget a \x7f\r\nget a\r\r\nget a\tb\r\n\
        |CLIENT_ERROR bad command line format\r\nCLIENT_ERROR bad command line format\r\nCLIENT_ERROR bad command line format\r\nCLIENT_ERROR bad command line format\r\n~\
        keys-of-gets\
        |gets\r\ngets a \x1f b\r\ngets noreply\r\ngets  a b\r\n\
        |ERROR\r\nCLIENT_ERROR bad command line format\r\ngets noreply\r\ngets a b\r\n~\
        words-after-version-and-quit\
        |version\r\nversion noreply\r\nquit now\r\n version \n\
        |version\r\nERROR\r\nERROR\r\nversion\r\n~\
        unknown-names\
        |se a 0 0 1\r\nsets a 0 0 1\r\nflush\r\ntouch a 0\r\nmg a\r\n\
        |ERROR\r\nERROR\r\nERROR\r\nERROR\r\nERROR\r\n~\
        nothing-is-read-after-quit\
        |quit\nset a 0 0 1\r\nx\r\n\
        |quit\r\n",
    )
}

#[test]
fn key_of_250_bytes(rt: HostRuntime) -> Result<(), Fault> {
    let sent = Text {
        form: "set @ 0 0 1\r\nx\r\nset @k 0 0 1\r\ny\r\nget @\r\n",
        word: "k",
        times: 250,
    };
    let wanted = Text {
        form: "set @ 0 x\r\nCLIENT_ERROR bad command line format\r\nget @\r\n",
        word: "k",
        times: 250,
    };
    check_texts(&rt, Speaker::Tenant, "key-of-250-bytes", sent, wanted)
}

#[test]
fn longest_line(rt: HostRuntime) -> Result<(), Fault> {
    let sent = Text {
        form: "@\r\n@a\r\nversion\r\n",
        word: "a",
        times: 65_535,
    };
    let wanted = Text {
        form: "ERROR\r\nline too long\r\n",
        word: "",
        times: 0,
    };
    check_texts(&rt, Speaker::Tenant, "longest-line", sent, wanted)
}

/// Cuts the stream at each 64th place, with each of the 64 first cuts: each place is a cut of one
/// of these readings. To cut two million bytes in two at each place would take 13 minutes.
fn check_sixty_fourths(rt: &(impl AllocGlobal + Abort), case: Case) -> Result<(), Fault> {
    for first in 1..=64 {
        check_pieces(rt, case, first, 64)?;
    }
    Ok(())
}

fn check_thousands(rt: &(impl AllocGlobal + Abort), case: Case) -> Result<(), Fault> {
    for thousands in 0..2_098 {
        check_pieces(rt, case, thousands * 1_000, usize::MAX)?;
    }
    Ok(())
}

/// Cuts the stream in two around the ends of the blocks of `object_too_large`.
fn check_block_ends(rt: &(impl AllocGlobal + Abort), case: Case) -> Result<(), Fault> {
    check_cuts(rt, case, 0, 24)?;
    check_cuts(rt, case, 1_048_592, 1_048_620)?;
    check_cuts(rt, case, 2_097_190, 2_097_214)
}

/// Checks a stream of two million bytes: byte by byte, with a cut at each place, and cut in two at
/// some of them.
fn check_long(
    rt: &(impl AllocGlobal + Abort),
    name: &str,
    sent: &[u8],
    wanted: &[u8],
) -> Result<(), Fault> {
    let case = Case {
        speaker: Speaker::Tenant,
        name,
        sent,
        wanted,
    };
    check_pieces(rt, case, 0, 1)?;
    check_sixty_fourths(rt, case)?;
    check_block_ends(rt, case)?;
    check_thousands(rt, case)
}

/// Does as `check_long` for texts with repeated words.
fn check_long_texts(
    rt: &(impl AllocGlobal + Abort),
    name: &str,
    sent: Text,
    wanted: Text,
) -> Result<(), Fault> {
    let sent = sent.filled(rt.alloc())?;
    let wanted = wanted.filled(rt.alloc())?;
    check_long(rt, name, sent.as_bytes(), wanted.as_bytes())
}

#[test]
fn object_too_large(rt: HostRuntime) -> Result<(), Fault> {
    let sent = Text {
        form: "set b 0 0 1048577\r\n@z\r\nset b 0 0 1048576\r\n@\r\nappend b 0 0 1\r\nz\r\n",
        word: "z",
        times: 1_048_576,
    };
    let wanted = Text {
        form: "SERVER_ERROR object too large for cache\r\nset b 0 @\r\nappend b 0 z\r\n",
        word: "z",
        times: 1_048_576,
    };
    check_long_texts(&rt, "object-too-large", sent, wanted)
}

/// Returns whether there is no request, without a second try.
fn shows_nothing(reading: &mut Reading) -> bool {
    reading.see_once() == Ok(false)
}

/// Feeds a piece, without a second try. Returns whether no request has come then.
fn brings_nothing(reading: &mut Reading, piece: &[u8]) -> bool {
    feed_once(&mut reading.reader, piece).is_ok() && shows_nothing(reading)
}

/// Returns whether 1 MiB brings no request, piece by piece.
fn is_swallowed(reading: &mut Reading) -> bool {
    let piece = [b'z'; 1_024];
    for _ in 0..1_024 {
        if !brings_nothing(reading, &piece) {
            return false;
        }
    }
    true
}

/// Reads a block that is refused. Its bytes are fed without a second try: these calls need no
/// memory, so none of them can fail.
fn swallows(reading: &mut Reading) -> Result<bool, Fault> {
    reading.read(b"set b 0 0 1048577\r\n")?;
    let is_swallowed = is_swallowed(reading);
    reading.read(b"z\r\nget a\r\n")?;
    Ok(is_swallowed && reading.is_done())
}

#[test]
fn refused_block_takes_no_memory(rt: HostRuntime) -> Result<(), Fail> {
    let wanted = b"SERVER_ERROR object too large for cache\r\nget a\r\n";
    let mut reading = Reading::new(&rt, wanted);
    let holds = swallows(&mut reading)?;
    assert!(rt; holds);
    Ok(())
}

/// Feeds an unfinished line of 65,536 bytes, piece by piece.
fn feed_line(reader: &mut Reader) -> Result<(), Fault> {
    let piece = [b'a'; 1_024];
    for _ in 0..64 {
        feed(reader, &piece)?;
    }
    Ok(())
}

/// Asks for a request at an unfinished line, and at one that is too long, without a second try.
fn looks(reading: &mut Reading) -> Result<bool, Fault> {
    feed_line(&mut reading.reader)?;
    let shows_nothing = shows_nothing(reading);
    feed(&mut reading.reader, b"a")?;
    Ok(shows_nothing && reading.see_once()? && reading.is_done())
}

#[test]
fn looks_without_memory(rt: HostRuntime) -> Result<(), Fail> {
    let mut reading = Reading::new(&rt, b"line too long\r\n");
    let holds = looks(&mut reading)?;
    assert!(rt; holds);
    Ok(())
}

/// Goes on after the end, where whatever comes is dropped and needs no memory.
fn drops(reading: &mut Reading) -> Result<bool, Fault> {
    reading.read(b"quit\r\n")?;
    Ok(brings_nothing(reading, b"get a\r\n") && reading.is_done())
}

#[test]
fn nothing_is_kept_after_the_end(rt: HostRuntime) -> Result<(), Fail> {
    let mut reading = Reading::new(&rt, b"quit\r\n");
    let holds = drops(&mut reading)?;
    assert!(rt; holds);
    Ok(())
}
