//! The requests of an administrator's lines: each stream is read byte by byte, and cut in two at
//! every place. And tenants by their names.
use crate::reading::{check_of, check_rows, check_texts};
use mc_model::{Fault, Name, Names, Request, TenantId};
use mc_read::{Reader, Speaker};
use shared_tests::runs::Text;
use std::alloc::Global;

#[test]
fn lines_of_an_administrator(rt: HostRuntime) -> Result<(), Fault> {
    check_rows(
        &rt,
        Speaker::Admin,
        "\
        quotas-of-two\
        |limit a 2 100\r\nlimit x 1 1\r\nget a\r\nquit\r\n\
        |limit a 2 100\r\nlimit x 1 1\r\nERROR\r\nquit\r\n~\
        greatest-and-least-quotas\
        |limit a 1048576 1073741824\r\nlimit a 1 1\r\nlimit a 007 0000000000000000000000001\r\n\
        |limit a 1048576 1073741824\r\nlimit a 1 1\r\nlimit a 7 1\r\n~\
        quotas-out-of-range\
        |limit a 1048577 1\r\nlimit a 1 1073741825\r\nlimit a 0 1\r\nlimit a 1 0\r\nlimit a 1 18446744073709551617\r\n\
        |CLIENT_ERROR bad command line format\r\nCLIENT_ERROR bad command line format\r\nCLIENT_ERROR bad command line format\r\nCLIENT_ERROR bad command line format\r\nCLIENT_ERROR bad command line format\r\n~\
        quotas-that-are-no-numbers\
        |limit a x 1\r\nlimit a 1 +1\r\nlimit a -1 1 noreply\r\n\
        |CLIENT_ERROR bad command line format\r\nCLIENT_ERROR bad command line format\r\nCLIENT_ERROR bad command line format\r\n~\
        words-of-limit\
        |limit\r\nlimit a\r\nlimit a 1\r\nlimit a 1 1 noreply\r\nlimit a 1 1 norepl\r\nlimit a 1 1 noreply x\r\nlimit noreply 1 1\r\n limit  a 1 1 \n\
        |ERROR\r\nERROR\r\nERROR\r\nquiet limit a 1 1\r\nCLIENT_ERROR bad command line format\r\nERROR\r\nlimit noreply 1 1\r\nlimit a 1 1\r\n~\
        bytes-of-names\
        |limit a-b_0 1 1\r\nlimit A 1 1\r\nlimit a.b 1 1\r\nlimit { 1 1\r\nlimit ` 1 1\r\nlimit / 1 1\r\nlimit : 1 1\r\n\
        |limit a-b_0 1 1\r\nCLIENT_ERROR bad command line format\r\nCLIENT_ERROR bad command line format\r\nCLIENT_ERROR bad command line format\r\nCLIENT_ERROR bad command line format\r\nCLIENT_ERROR bad command line format\r\nCLIENT_ERROR bad command line format\r\n~\
        other-lines\
        |version\r\nversion now\r\nset a 0 0 1\r\nx\r\ngets a\r\nflush_all\r\nLIMIT a 1 1\r\n\r\nquit now\r\nquit\r\nlimit a 1 1\r\n\
        |version\r\nERROR\r\nERROR\r\nERROR\r\nERROR\r\nERROR\r\nERROR\r\nERROR\r\nERROR\r\nquit\r\n",
    )
}

#[test]
fn limit_on_a_tenants_connection(rt: HostRuntime) -> Result<(), Fault> {
    let sent = b"limit a 1 1\r\nlimit a 1 1 noreply\r\nget a\r\n";
    let wanted = b"ERROR\r\nERROR\r\nget a\r\n";
    check_of(&rt, Speaker::Tenant, "limit", sent, wanted)
}

#[test]
fn name_of_32_bytes(rt: HostRuntime) -> Result<(), Fault> {
    let sent = Text {
        form: "limit @ 1 1\r\nlimit @n 1 1\r\n",
        word: "n",
        times: 32,
    };
    let wanted = Text {
        form: "limit @ 1 1\r\nCLIENT_ERROR bad command line format\r\n",
        word: "n",
        times: 32,
    };
    check_texts(&rt, Speaker::Admin, "name-of-32-bytes", sent, wanted)
}

/// Returns whether the stream reads as a line that is too long, and nothing before it.
fn is_too_long(alloc: Global, sent: &[u8]) -> Result<bool, Fault> {
    let mut reader = Reader::admin(alloc);
    reader.feed(sent)?;
    Ok(reader.next()? == Some(Request::TooLong))
}

/// Returns whether that is so of a line of `limit` alone, again and again.
fn limits_are_too_long(alloc: Global) -> Result<bool, Fault> {
    let line = "limit ".repeat(alloc, 10_923)?;
    is_too_long(alloc, line.as_bytes())
}

#[test]
fn too_long_a_line_of_an_administrator(rt: HostRuntime) -> Result<(), Fault> {
    assert!(rt; limits_are_too_long(rt.alloc())?);
    Ok(())
}

/// Returns the valid name of these bytes.
fn name_of(alloc: Global, bytes: &[u8]) -> Result<Name, Fault> {
    match Name::new(alloc, bytes)? {
        Some(name) => Ok(name),
        None => Err(Fault::BadSettings),
    }
}

/// Returns `count` names `a`, and then a name `b`.
fn many_names(alloc: Global, count: usize) -> Result<Names, Fault> {
    let mut names = Vec::new(alloc);
    for _ in 0..count {
        names.push(name_of(alloc, b"a")?)?;
    }
    names.push(name_of(alloc, b"b")?)?;
    Names::new(names)
}

/// Returns the number of the tenant of this name, if there is one.
fn number_of(alloc: Global, names: &Names, name: &[u8]) -> Result<Option<u8>, Fault> {
    let name = name_of(alloc, name)?;
    Ok(names.tenant(&name).map(TenantId::number))
}

/// Returns whether the tenants of these names have these numbers.
fn have_numbers(alloc: Global, names: &Names, rows: &[(&[u8], Option<u8>)]) -> Result<bool, Fault> {
    for row in rows {
        if number_of(alloc, names, row.0)? != row.1 {
            return Ok(false);
        }
    }
    Ok(true)
}

/// Returns whether 64 names have as many tenants, also where the names are shared.
fn shared_names_have_numbers(alloc: Global) -> Result<bool, Fault> {
    let names = many_names(alloc, 63)?.share()?;
    let rows: [(&[u8], Option<u8>); 3] = [(b"a", Some(0)), (b"b", Some(63)), (b"c", None)];
    Ok(names.len() == 64 && have_numbers(alloc, &names, &rows)?)
}

/// Returns whether the name after 64 others has no tenant.
fn one_more_name_has_no_number(alloc: Global) -> Result<bool, Fault> {
    let names = many_names(alloc, 64)?;
    let rows: [(&[u8], Option<u8>); 3] = [(b"a", Some(0)), (b"b", None), (b"c", None)];
    have_numbers(alloc, &names, &rows)
}

#[test]
fn tenants_by_their_names(rt: HostRuntime) -> Result<(), Fault> {
    assert!(rt; shared_names_have_numbers(rt.alloc())?);
    assert!(rt; one_more_name_has_no_number(rt.alloc())?);
    Ok(())
}
