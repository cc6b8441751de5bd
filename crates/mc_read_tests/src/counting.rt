//! How many bytes a reader counts as fed, and in how many it counts a search for a line end, in
//! pieces of every size.
ghost use Rattle.std.specs.Prelude.{◌<◌};

use bytes::Bytes;
use mc_model::Fault;
use mc_read::Reader;
use shared_tests::runs::{Text, columns};
use std::alloc::Global;
use std::process::Abort;

fn read_all(reader: &mut Reader) -> Result<(), Fault> {
    for _ in 0..u64::MAX {
        if reader.next()?.is_none() {
            break;
        }
    }
    Ok(())
}

/// Reads a stream in pieces of this size, which the reader copies. Returns how many bytes it counts
/// as fed and as scanned.
fn counts_copied(alloc: Global, sent: &[u8], size: usize) -> Result<(u64, u64), Fault>
    requires { 0 < size }
{
    let mut reader = Reader::new(alloc);
    for piece in sent.chunks(size) {
        reader.feed(piece)?;
        read_all(&mut reader)?;
    }
    Ok((reader.fed(), reader.scanned()))
}

/// Does as `counts_copied` with pieces that the reader may share.
fn counts_shared(alloc: Global, sent: &[u8], size: usize) -> Result<(u64, u64), Fault>
    requires { 0 < size }
{
    let mut reader = Reader::new(alloc);
    for piece in sent.chunks(size) {
        reader.feed_bytes(Bytes::copy_from_slice(alloc, piece)?)?;
        read_all(&mut reader)?;
    }
    Ok((reader.fed(), reader.scanned()))
}

fn check_counts(
    rt: &(impl AllocGlobal + Abort),
    name: &str,
    sent: &[u8],
    scanned: u64,
) -> Result<(), Fault> {
    let wanted = (sent.len() as u64, scanned);
    for size in [1, 7, 4_096, 16_384, usize::MAX] {
        let size = size.max(1);
        let copied = counts_copied(rt.alloc(), sent, size)?;
        assert!(rt; copied == wanted, "{name}, {size} a piece");
        let shared = counts_shared(rt.alloc(), sent, size)?;
        assert!(rt; shared == wanted, "{name}, {size} a shared piece");
    }
    Ok(())
}

fn check_row(rt: &(impl AllocGlobal + Abort), row: &str) -> Result<(), Fault> {
    let (name, sent, scanned) = columns(row);
    let scanned = scanned.parse::<u64>().unwrap_or(0);
    check_counts(rt, name, sent.as_bytes(), scanned)
}

/// Of each stream the lines are searched, to their line feeds, and nothing else.
#[test]
fn lines_are_searched_once(rt: HostRuntime) -> Result<(), Fault> {
    let rows = "\
        block-holds-line-ends\
        |set k 0 0 7\r\n\r\nEND\r\n\r\nget k\r\n\
        |20~\
        set-then-get\
        |set a 5 0 3\r\nabc\r\nget a\r\n\
        |20~\
        bad-data-chunk\
        |set a 0 0 2\r\nabcde\r\n\
        |16~\
        refused-block-holds-line-ends\
        |set a 0 9 4\r\n\r\n\r\n\r\nget a\r\n\
        |20~\
        input-ends-inside-block\
        |set a 0 0 3\r\nab\
        |13~\
        input-ends-inside-line\
        |get a\r\nget \
        |11~\
        nothing-after-quit\
        |quit\r\nversion\r\n\
        |6";
    for row in rows.split('~') {
        check_row(&rt, row)?;
    }
    Ok(())
}

/// Checks the longest line, and a longer one.
#[test]
fn long_lines_are_searched_once(rt: HostRuntime) -> Result<(), Fault> {
    for form in ["@\n", "@a\nversion\r\n"] {
        let sent = Text {
            form,
            word: "a",
            times: 65_536,
        };
        let sent = sent.filled(rt.alloc())?;
        check_counts(&rt, form, sent.as_bytes(), 65_537)?;
    }
    Ok(())
}

/// Checks blocks of which some lie in one piece and some don't.
#[test]
fn long_blocks_are_not_searched(rt: HostRuntime) -> Result<(), Fault> {
    let sent = Text {
        form: "set a 0 0 20000\r\n@\r\nset a 0 0 4\r\n\r\n\r\n\r\nset b 0 0 20000\r\n@\r\nget a\r\n",
        word: "\n\n\n\n",
        times: 5_000,
    };
    let sent = sent.filled(rt.alloc())?;
    check_counts(&rt, "long-blocks", sent.as_bytes(), 54)
}
