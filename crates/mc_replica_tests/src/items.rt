//! The golden examples of one table, and what a fault leaves: each row is a command as a client
//! writes it, and the reply as the client reads it.
use mc_items::{Hashing, Items, Table};
use mc_model::{Command, Fault, Item, Limits, Reply};
use shared_tests::values::{
    command_of, copied, key_of, limit_of, numbered_get, numbered_set, numbered_values, text_of,
};
use std::alloc::Global;
use std::process::Abort;
use std::test::Fail;

/// Room for the largest block under a key of one letter.
const QUOTAS: Limits = Limits {
    items: 3,
    bytes: 1_048_577,
};

/// Each key of these tests.
const NAMES: &[&str] = &["a", "ab", "b", "c", "e", "m", "n", "p", "q"];

const FULL: &str = "SERVER_ERROR out of memory storing object\r\n";

const TOO_LARGE: &str = "SERVER_ERROR object too large for cache\r\n";

const NON_NUMERIC: &str = "CLIENT_ERROR cannot increment or decrement non-numeric value\r\n";

/// A command as a client writes it, and the reply as the client reads it.
type Row = (&'static str, &'static str);

/// A table that answers, and one next to it that is advanced.
#[derive(Drop)]
struct Twins {
    items: Items,
    advanced: Items,
}

fn apply<'a>(items: &mut Items, command: &'a Command) -> Result<Reply<'a>, Fault> {
    if items.last_unique() == u64::MAX {
        return Err(Fault::BadEvent);
    }
    items.apply(command)
}

fn advance(items: &mut Items, command: &Command) -> Result<(), Fault> {
    if items.last_unique() == u64::MAX {
        return Err(Fault::BadEvent);
    }
    items.advance(command)
}

/// Returns what a client reads for the command.
fn answer(alloc: Global, items: &mut Items, command: &Command) -> Result<Vec<u8>, Fault> {
    text_of(alloc, apply(items, command)?)
}

fn is_alike_at(alloc: Global, name: &str, items: &Items, other: &Items) -> Result<bool, Fault> {
    let key = key_of(alloc, name)?;
    Ok(items.get(&key) == other.get(&key))
}

fn is_alike(items: &Items, other: &Items) -> bool {
    items.last_unique() == other.last_unique()
        && items.limits() == other.limits()
        && items.used() == other.used()
        && items.count() == other.count()
}

/// Returns whether both tables are alike, and hold the same under each key of these tests.
fn are_alike(alloc: Global, items: &Items, other: &Items) -> Result<bool, Fault> {
    for name in NAMES {
        if !is_alike_at(alloc, name, items, other)? {
            return Ok(false);
        }
    }
    Ok(is_alike(items, other))
}

/// Returns whether the command gets this reply, and a table that is advanced stays like one that
/// answers.
fn is_effect(
    alloc: Global,
    twins: &mut Twins,
    command: &Command,
    want: &[u8],
) -> Result<bool, Fault> {
    let text = answer(alloc, &mut twins.items, command)?;
    advance(&mut twins.advanced, command)?;
    Ok(text.as_slice() == want && are_alike(alloc, &twins.items, &twins.advanced)?)
}

/// Returns whether this is so for the command that a client writes as this text.
fn is_answer(alloc: Global, twins: &mut Twins, text: &[u8], want: &[u8]) -> Result<bool, Fault> {
    let command = command_of(alloc, text)?;
    let answered = is_effect(alloc, twins, &command, want);
    // A local enum that its block drops is proved variant by variant, on each way out.
    drop(command);
    answered
}

fn twins_of(alloc: Global, quotas: Limits) -> Twins {
    Twins {
        items: Items::new(alloc, quotas, Hashing::Fixed),
        advanced: Items::new(alloc, quotas, Hashing::Fixed),
    }
}

/// Returns the first command that doesn't get its reply, if any.
fn first_wrong(
    alloc: Global,
    twins: &mut Twins,
    rows: &[Row],
) -> Result<Option<&'static str>, Fault> {
    for (text, want) in rows {
        if !is_answer(alloc, twins, text.as_bytes(), want.as_bytes())? {
            return Ok(Some(*text));
        }
    }
    Ok(None)
}

/// Asserts that each command in turn gets its reply.
fn assert_next(rt: &impl Abort, alloc: Global, twins: &mut Twins, rows: &[Row]) {
    assert_eq!(rt; first_wrong(alloc, twins, rows), Ok(None));
}

/// Returns the table after these commands, each of which gets its reply within the quotas.
fn answered(rt: &impl Abort, alloc: Global, quotas: Limits, rows: &[Row]) -> Items {
    let mut twins = twins_of(alloc, quotas);
    assert_next(rt, alloc, &mut twins, rows);
    twins.items
}

fn assert_answers(rt: &impl Abort, alloc: Global, rows: &[Row]) {
    let mut twins = twins_of(alloc, QUOTAS);
    assert_next(rt, alloc, &mut twins, rows);
}

fn is_held(alloc: Global, items: &Items, name: &str) -> Result<bool, Fault> {
    let key = key_of(alloc, name)?;
    Ok(items.get(&key).is_some())
}

fn is_item(item: &Item, flags: u32, block: &str, unique: u64) -> bool {
    item.flags == flags && item.unique == unique && item.block.as_bytes() == block.as_bytes()
}

/// Returns whether the key has an item of these flags, data and unique.
fn holds(
    alloc: Global,
    items: &Items,
    name: &str,
    flags: u32,
    block: &str,
    unique: u64,
) -> Result<bool, Fault> {
    let key = key_of(alloc, name)?;
    Ok(match items.get(&key) {
        Some(item) => is_item(item, flags, block, unique),
        None => false,
    })
}

fn is_filled(items: &Items, used: u64, count: u64) -> bool {
    items.used() == used && items.count() == count
}

/// Returns whether the table is what a set of one key leaves.
fn is_one(alloc: Global, items: &Items) -> Result<bool, Fault> {
    let has_b = is_held(alloc, items, "b")?;
    let has_a = holds(alloc, items, "a", 5, "abc", 1)?;
    Ok(has_a && !has_b && items.last_unique() == 1 && items.limits() == QUOTAS)
}

#[test]
fn set_then_get(rt: HostRuntime) {
    const ROWS: [Row; 2] = [
        ("set a 5 0 3\r\nabc\r\n", "STORED\r\n"),
        ("get a\r\n", "VALUE a 5 3\r\nabc\r\nEND\r\n"),
    ];
    let items = answered(&rt, rt.alloc(), QUOTAS, &ROWS);
    assert!(rt; is_one(rt.alloc(), &items) == Ok(true));
}

/// A run of one table: each command in turn, with its reply.
#[derive(Clone, Copy)]
struct Run {
    name: &'static str,
    quotas: Limits,
    rows: &'static [Row],
    /// How many bytes and items there are in the end, if that is checked.
    left: Option<(u64, u64)>,
}

const RUNS: [Run; 9] = [
    Run {
        name: "keys in the order asked",
        quotas: QUOTAS,
        rows: &[
            ("set a 0 0 1\r\nx\r\n", "STORED\r\n"),
            ("set b 0 0 1\r\ny\r\n", "STORED\r\n"),
            ("set a 0 0 1\r\nz\r\n", "STORED\r\n"),
            (
                "gets b c a a\r\n",
                "VALUE b 0 1 2\r\ny\r\nVALUE a 0 1 3\r\nz\r\nVALUE a 0 1 3\r\nz\r\nEND\r\n",
            ),
        ],
        left: None,
    },
    Run {
        name: "outcomes of cas",
        quotas: QUOTAS,
        rows: &[
            ("set a 0 0 1\r\nx\r\n", "STORED\r\n"),
            ("cas a 0 0 1 1\r\ny\r\n", "STORED\r\n"),
            ("cas a 0 0 1 1\r\nz\r\n", "EXISTS\r\n"),
            ("cas b 0 0 1 1\r\nw\r\n", "NOT_FOUND\r\n"),
            ("gets a\r\n", "VALUE a 0 1 2\r\ny\r\nEND\r\n"),
        ],
        left: None,
    },
    Run {
        name: "arithmetic wraps and stops at zero",
        quotas: QUOTAS,
        rows: &[
            ("set n 7 0 20\r\n18446744073709551615\r\n", "STORED\r\n"),
            ("incr n 1\r\n", "0\r\n"),
            ("gets n\r\n", "VALUE n 7 1 2\r\n0\r\nEND\r\n"),
            ("set n 0 0 1\r\n5\r\n", "STORED\r\n"),
            ("decr n 9\r\n", "0\r\n"),
            ("set n 0 0 2\r\n10\r\n", "STORED\r\n"),
            ("decr n 1\r\n", "9\r\n"),
            ("gets n\r\n", "VALUE n 0 1 6\r\n9\r\nEND\r\n"),
        ],
        left: None,
    },
    Run {
        name: "flush keeps uniques",
        quotas: QUOTAS,
        rows: &[
            ("set a 0 0 1\r\nx\r\n", "STORED\r\n"),
            ("flush_all\r\n", "OK\r\n"),
            ("gets a\r\n", "END\r\n"),
            ("append a 0 0 1\r\ny\r\n", "NOT_STORED\r\n"),
            ("set a 0 0 1\r\nz\r\n", "STORED\r\n"),
            ("gets a\r\n", "VALUE a 0 1 2\r\nz\r\nEND\r\n"),
        ],
        left: None,
    },
    Run {
        name: "prepend replace add",
        quotas: QUOTAS,
        rows: &[
            ("set p 4 0 2\r\nbc\r\n", "STORED\r\n"),
            ("prepend p 9 0 1\r\na\r\n", "STORED\r\n"),
            ("replace q 0 0 1\r\nx\r\n", "NOT_STORED\r\n"),
            ("add p 0 0 1\r\nx\r\n", "NOT_STORED\r\n"),
            ("gets p\r\n", "VALUE p 4 3 2\r\nabc\r\nEND\r\n"),
            ("replace p 1 0 1\r\nx\r\n", "STORED\r\n"),
            ("add q 2 0 1\r\ny\r\n", "STORED\r\n"),
            ("gets p\r\n", "VALUE p 1 1 3\r\nx\r\nEND\r\n"),
            ("gets q\r\n", "VALUE q 2 1 4\r\ny\r\nEND\r\n"),
        ],
        left: None,
    },
    Run {
        name: "delete takes out",
        quotas: QUOTAS,
        rows: &[
            ("set a 0 0 1\r\nx\r\n", "STORED\r\n"),
            ("set e 0 0 0\r\n\r\n", "STORED\r\n"),
            ("add a 0 0 1\r\ny\r\n", "NOT_STORED\r\n"),
            ("delete a\r\n", "DELETED\r\n"),
            ("delete a\r\n", "NOT_FOUND\r\n"),
            ("gets e a\r\n", "VALUE e 0 0 2\r\n\r\nEND\r\n"),
            ("set a 0 0 1\r\nz\r\n", "STORED\r\n"),
            ("gets a\r\n", "VALUE a 0 1 3\r\nz\r\nEND\r\n"),
        ],
        left: None,
    },
    Run {
        name: "fragments joined",
        quotas: QUOTAS,
        rows: &[
            ("set n 3 0 1\r\n1\r\n", "STORED\r\n"),
            ("append n 0 0 1\r\n0\r\n", "STORED\r\n"),
            ("prepend n 0 0 1\r\n2\r\n", "STORED\r\n"),
            ("incr n 5\r\n", "215\r\n"),
            ("append n 0 0 2\r\nab\r\n", "STORED\r\n"),
            ("gets n\r\n", "VALUE n 3 5 5\r\n215ab\r\nEND\r\n"),
        ],
        left: None,
    },
    // A key that is held may be stored again even if the count is at its quota.
    Run {
        name: "quota of items",
        quotas: Limits {
            items: 1,
            bytes: 100,
        },
        rows: &[
            ("set a 0 0 1\r\nx\r\n", "STORED\r\n"),
            ("set b 0 0 1\r\ny\r\n", FULL),
            ("add b 0 0 1\r\ny\r\n", FULL),
            ("set a 0 0 2\r\nyz\r\n", "STORED\r\n"),
            ("gets a b\r\n", "VALUE a 0 2 2\r\nyz\r\nEND\r\n"),
            ("delete a\r\n", "DELETED\r\n"),
            ("set b 0 0 1\r\ny\r\n", "STORED\r\n"),
            ("flush_all\r\n", "OK\r\n"),
            ("add a 0 0 3\r\nxyz\r\n", "STORED\r\n"),
            ("gets a b\r\n", "VALUE a 0 3 4\r\nxyz\r\nEND\r\n"),
        ],
        left: Some((4, 1)),
    },
    // Keys and data count, before a change and after; a refused one leaves item and unique.
    Run {
        name: "quota of bytes",
        quotas: Limits { items: 3, bytes: 4 },
        rows: &[
            ("set n 0 0 3\r\n999\r\n", "STORED\r\n"),
            ("append n 0 0 1\r\n9\r\n", FULL),
            ("prepend n 0 0 1\r\n9\r\n", FULL),
            ("set n 0 0 4\r\n9999\r\n", FULL),
            ("replace n 0 0 4\r\n9999\r\n", FULL),
            ("cas n 0 0 4 1\r\n9999\r\n", FULL),
            ("incr n 1\r\n", FULL),
            ("set b 0 0 0\r\n\r\n", FULL),
            ("gets n b\r\n", "VALUE n 0 3 1\r\n999\r\nEND\r\n"),
            ("decr n 900\r\n", "99\r\n"),
            ("set b 0 0 0\r\n\r\n", "STORED\r\n"),
            ("incr n 1\r\n", FULL),
            ("delete b\r\n", "DELETED\r\n"),
            ("incr n 1\r\n", "100\r\n"),
            ("gets n\r\n", "VALUE n 0 3 4\r\n100\r\nEND\r\n"),
            ("flush_all\r\n", "OK\r\n"),
            ("set a 0 0 3\r\nxyz\r\n", "STORED\r\n"),
        ],
        left: Some((4, 1)),
    },
];

/// Returns whether the table is filled like this, if that is checked.
fn is_left_with(items: &Items, left: Option<(u64, u64)>) -> bool {
    left.is_none() || left == Some((items.used(), items.count()))
}

fn assert_run(rt: &impl Abort, alloc: Global, run: Run) {
    let items = answered(rt, alloc, run.quotas, run.rows);
    assert!(rt; is_left_with(&items, run.left), "{}", run.name);
}

#[test]
fn runs_of_one_table(rt: HostRuntime) {
    for run in RUNS {
        assert_run(&rt, rt.alloc(), run);
    }
}

/// Asserts that an increment of these data is answered like this, and one of a missing item in its
/// own way.
fn assert_increment(rt: &impl Abort, alloc: Global, set: &'static str, want: &'static str) {
    let rows = [
        (set, "STORED\r\n"),
        ("incr n 1\r\n", want),
        ("incr m 1\r\n", "NOT_FOUND\r\n"),
        ("decr m 1\r\n", "NOT_FOUND\r\n"),
    ];
    assert_answers(rt, alloc, &rows);
}

/// At most 20 digits are numeric, leading zeros among them.
#[test]
fn arithmetic_refusals(rt: HostRuntime) {
    const CASES: [Row; 6] = [
        ("set n 0 0 20\r\n18446744073709551616\r\n", NON_NUMERIC),
        ("set n 0 0 20\r\n00000000000000000041\r\n", "42\r\n"),
        ("set n 0 0 21\r\n000000000000000000041\r\n", NON_NUMERIC),
        ("set n 0 0 0\r\n\r\n", NON_NUMERIC),
        ("set n 0 0 2\r\n-1\r\n", NON_NUMERIC),
        ("set n 0 0 2\r\n1 \r\n", NON_NUMERIC),
    ];
    for (set, want) in CASES {
        assert_increment(&rt, rt.alloc(), set, want);
    }
}

/// Returns the block between these texts.
fn framed(alloc: Global, front: &str, block: &[u8], back: &str) -> Result<Vec<u8>, Fault> {
    let mut text = Vec::from_slice(alloc, front.as_bytes())?;
    text.extend_from_slice(block)?;
    text.extend_from_slice(back.as_bytes())?;
    Ok(text)
}

/// Returns whether the block is stored by this line.
fn is_stored(alloc: Global, twins: &mut Twins, line: &str, block: &[u8]) -> Result<bool, Fault> {
    let text = framed(alloc, line, block, "\r\n")?;
    is_answer(alloc, twins, &text, b"STORED\r\n")
}

/// Returns whether the block is shown after this line.
fn is_shown(alloc: Global, twins: &mut Twins, line: &str, block: &[u8]) -> Result<bool, Fault> {
    let want = framed(alloc, line, block, "\r\nEND\r\n")?;
    is_answer(alloc, twins, b"gets b\r\n", &want)
}

/// A block of the greatest length is stored, and nothing can be joined to it.
fn assert_largest(rt: &impl Abort, alloc: Global, twins: &mut Twins, largest: &[u8]) {
    const REFUSED: [Row; 2] = [
        ("append b 0 0 1\r\nz\r\n", TOO_LARGE),
        ("prepend b 0 0 1\r\nz\r\n", TOO_LARGE),
    ];
    assert!(rt; is_stored(alloc, twins, "set b 0 0 1048576\r\n", largest) == Ok(true));
    assert_next(rt, alloc, twins, &REFUSED);
    assert!(rt; is_shown(alloc, twins, "VALUE b 0 1048576 1\r\n", largest) == Ok(true));
}

/// A byte can be joined to a block that is a byte shorter.
fn assert_joined(
    rt: &impl Abort,
    alloc: Global,
    twins: &mut Twins,
    smaller: &[u8],
    largest: &[u8],
) {
    const JOINED: [Row; 1] = [("append b 0 0 1\r\nz\r\n", "STORED\r\n")];
    assert!(rt; is_stored(alloc, twins, "set b 0 0 1048575\r\n", smaller) == Ok(true));
    assert_next(rt, alloc, twins, &JOINED);
    assert!(rt; is_shown(alloc, twins, "VALUE b 0 1048576 3\r\n", largest) == Ok(true));
}

#[test]
fn object_too_large(rt: HostRuntime) -> Result<(), Fail> {
    let largest = vec![in rt.alloc(); b'z'; 1_048_576]?;
    let smaller = vec![in rt.alloc(); b'z'; 1_048_575]?;
    let mut twins = twins_of(rt.alloc(), QUOTAS);
    assert_largest(&rt, rt.alloc(), &mut twins, &largest);
    assert_joined(&rt, rt.alloc(), &mut twins, &smaller, &largest);
    Ok(())
}

/// Returns whether setting these quotas is answered.
fn is_limited(alloc: Global, twins: &mut Twins, quotas: (u64, u64)) -> Result<bool, Fault> {
    let command = limit_of(quotas.0, quotas.1);
    let answered = is_effect(alloc, twins, &command, b"OK\r\n");
    drop(command);
    answered
}

/// Asserts that setting these quotas is answered, and then that each command gets its reply.
fn assert_limited(
    rt: &impl Abort,
    alloc: Global,
    twins: &mut Twins,
    quotas: (u64, u64),
    rows: &[Row],
) {
    assert!(rt; is_limited(alloc, twins, quotas) == Ok(true));
    assert_next(rt, alloc, twins, rows);
}

const BOTH_SHOWN: &str = "VALUE a 0 1 1\r\nx\r\nVALUE b 0 1 2\r\ny\r\nEND\r\n";

/// Raised quotas let more in from then on. Lowered ones leave what is there, and refuse what would
/// leave more than they allow.
#[test]
fn quotas_that_change(rt: HostRuntime) {
    const FIRST: [Row; 2] = [
        ("set a 0 0 1\r\nx\r\n", "STORED\r\n"),
        ("set b 0 0 1\r\ny\r\n", FULL),
    ];
    const RAISED: [Row; 3] = [
        ("set b 0 0 1\r\ny\r\n", "STORED\r\n"),
        ("append b 0 0 1\r\nz\r\n", FULL),
        ("gets a b\r\n", BOTH_SHOWN),
    ];
    const LOWERED: [Row; 4] = [
        ("gets a b\r\n", BOTH_SHOWN),
        ("set a 0 0 1\r\nz\r\n", FULL),
        ("delete b\r\n", "DELETED\r\n"),
        ("set a 0 0 1\r\nz\r\n", "STORED\r\n"),
    ];
    const TIGHT: [Row; 3] = [
        ("set a 0 0 0\r\n\r\n", "STORED\r\n"),
        ("set a 0 0 1\r\nx\r\n", FULL),
        ("flush_all\r\n", "OK\r\n"),
    ];
    const QUOTAS: Limits = Limits {
        items: 1,
        bytes: 100,
    };
    let alloc = rt.alloc();
    let mut twins = twins_of(alloc, QUOTAS);
    assert_next(&rt, alloc, &mut twins, &FIRST);
    assert_limited(&rt, alloc, &mut twins, (2, 4), &RAISED);
    assert_limited(&rt, alloc, &mut twins, (1, 4), &LOWERED);
    assert_limited(&rt, alloc, &mut twins, (1, 1), &TIGHT);
}

/// Advances by a copy of the command.
fn advance_by_copy(alloc: Global, items: &mut Items, text: &str) -> Result<(), Fault> {
    let copy = copied(alloc, text)?;
    let advanced = advance(items, &copy);
    drop(copy);
    advanced
}

/// Returns a table after copies of these commands.
fn advanced_by(alloc: Global, quotas: Limits, texts: &[&str]) -> Result<Items, Fault> {
    let mut items = Items::new(alloc, quotas, Hashing::Fixed);
    for text in texts {
        advance_by_copy(alloc, &mut items, text)?;
    }
    Ok(items)
}

/// Returns whether the copy of a table is like it, and what the run below leaves.
fn is_copy_left(alloc: Global, copy: &Items, items: &Items) -> Result<bool, Fault> {
    let has_ab = is_held(alloc, copy, "ab")?;
    let has_c = holds(alloc, copy, "c", 0, "yyy", 3)?;
    Ok(has_c && !has_ab && is_filled(copy, 4, 1) && are_alike(alloc, copy, items)?)
}

/// Returns whether that is so for a copy of the table.
fn is_left(alloc: Global, items: &Items) -> Result<bool, Fault> {
    let copy = items.try_clone()?;
    is_copy_left(alloc, &copy, items)
}

/// The golden run of the same name, by copies of its commands, and what it leaves in a copy of the
/// table.
#[test]
fn byte_quota(rt: HostRuntime) -> Result<(), Fail> {
    const TEXTS: [&str; 6] = [
        "set ab 0 0 2\r\nxy\r\n",
        "set ab 0 0 3\r\nxyz\r\n",
        "replace ab 0 0 1\r\nx\r\n",
        "set c 0 0 1\r\ny\r\n",
        "delete ab\r\n",
        "set c 0 0 3\r\nyyy\r\n",
    ];
    let quotas = Limits {
        items: 1_048_576,
        bytes: 4,
    };
    let items = advanced_by(rt.alloc(), quotas, &TEXTS)?;
    assert!(rt; is_left(rt.alloc(), &items)?);
    Ok(())
}

/// Returns a table with an item under `a` and a number under `n`.
fn started(alloc: Global) -> Result<Items, Fault> {
    const ROWS: [Row; 2] = [
        ("set a 5 0 3\r\nold\r\n", "STORED\r\n"),
        ("set n 0 0 1\r\n7\r\n", "STORED\r\n"),
    ];
    let mut twins = twins_of(alloc, QUOTAS);
    match first_wrong(alloc, &mut twins, &ROWS)? {
        None => Ok(twins.items),
        Some(_) => Err(Fault::BadEvent),
    }
}

/// Returns the reply to the command, at once or after memory ran out. Returns `BadEvent` if
/// something changed then.
fn apply_at_last<'a>(
    alloc: Global,
    items: &mut Items,
    before: &Items,
    command: &'a Command,
) -> Result<Reply<'a>, Fault> {
    match apply(items, command) {
        Err(Fault::Memory) => {}
        reply => return reply,
    }
    if !are_alike(alloc, items, before)? {
        return Err(Fault::BadEvent);
    }
    apply(items, command)
}

/// Advances at once or after memory ran out. Returns `BadEvent` if a unique was taken then.
fn advance_at_last(items: &mut Items, command: &Command) -> Result<(), Fault> {
    let last_unique = items.last_unique();
    match advance(items, command) {
        Err(Fault::Memory) if items.last_unique() == last_unique => advance(items, command),
        Err(Fault::Memory) => Err(Fault::BadEvent),
        advanced => advanced,
    }
}

/// Returns whether the command is answered like this, at once or after memory ran out and nothing
/// changed, and whether a table that is advanced stays like the one that answers.
fn is_answered_alike(
    alloc: Global,
    items: &mut Items,
    advanced: &mut Items,
    command: &Command,
    want: &[u8],
) -> Result<bool, Fault> {
    let text = text_of(alloc, apply_at_last(alloc, items, advanced, command)?)?;
    advance_at_last(advanced, command)?;
    Ok(text.as_slice() == want && are_alike(alloc, items, advanced)?)
}

/// Returns whether that is so of two tables that are started alike.
fn is_answered_at_last(alloc: Global, command: &Command, want: &[u8]) -> Result<bool, Fault> {
    let mut advanced = started(alloc)?;
    let mut items = started(alloc)?;
    is_answered_alike(alloc, &mut items, &mut advanced, command, want)
}

/// Returns whether this is so for the command that a client writes as this text.
fn bears_a_fault(alloc: Global, text: &str, want: &str) -> Result<bool, Fault> {
    let command = command_of(alloc, text.as_bytes())?;
    let answered = is_answered_at_last(alloc, &command, want.as_bytes());
    drop(command);
    answered
}

/// If an allocation fails in a command (`rt try --test --fail-alloc N`), the answers are the same.
#[test]
fn a_fault_changes_nothing(rt: HostRuntime) -> Result<(), Fail> {
    const ROWS: [Row; 12] = [
        ("set a 0 0 3\r\nnew\r\n", "STORED\r\n"),
        ("set b 0 0 5\r\nother\r\n", "STORED\r\n"),
        ("add c 0 0 5\r\nother\r\n", "STORED\r\n"),
        ("replace a 0 0 3\r\nnew\r\n", "STORED\r\n"),
        ("append a 0 0 2\r\ner\r\n", "STORED\r\n"),
        ("prepend a 0 0 1\r\nc\r\n", "STORED\r\n"),
        ("cas a 0 0 3 1\r\nnew\r\n", "STORED\r\n"),
        ("gets a\r\n", "VALUE a 5 3 1\r\nold\r\nEND\r\n"),
        ("incr n 5\r\n", "12\r\n"),
        ("decr n 5\r\n", "2\r\n"),
        ("delete a\r\n", "DELETED\r\n"),
        ("flush_all\r\n", "OK\r\n"),
    ];
    for (text, want) in ROWS {
        assert!(rt; bears_a_fault(rt.alloc(), text, want)?, "{text}");
    }
    Ok(())
}

/// Stores one letter under a number.
fn store_number(alloc: Global, items: &mut Items, number: u64) -> Result<(), Fault> {
    let command = numbered_set(alloc, number)?;
    let advanced = advance(items, &command);
    drop(command);
    advanced
}

/// Returns a table with `count` keys, each a number, stored in order.
fn numbered(alloc: Global, count: u64) -> Result<Items, Fault> {
    let quotas = Limits {
        items: count,
        bytes: 1_048_577,
    };
    let mut items = Items::new(alloc, quotas, Hashing::Fixed);
    for number in 0..count {
        store_number(alloc, &mut items, number)?;
    }
    Ok(items)
}

/// Returns what a client reads that asks for `count` numbers.
fn numbers_in(alloc: Global, items: &mut Items, count: u64) -> Result<Vec<u8>, Fault> {
    let command = numbered_get(alloc, count)?;
    let text = answer(alloc, items, &command);
    drop(command);
    text
}

/// Returns whether a table of `count` keys shows each of them.
fn shows_all(alloc: Global, count: u64) -> Result<bool, Fault> {
    let mut items = numbered(alloc, count)?;
    let text = numbers_in(alloc, &mut items, count)?;
    Ok(text.as_slice() == numbered_values(alloc, count)?.as_bytes())
}

/// A retrieval shows each of a thousand keys that are held, in the order asked.
#[test]
fn a_thousand_keys(rt: HostRuntime) {
    assert!(rt; shows_all(rt.alloc(), 1_000) == Ok(true));
}
