//! Both kinds of table over the same commands, with ample memory and keys hashed at random: data
//! are joined, a copied table shows what it holds, and a table below another stays as it is.
use mc_model::{Command, Fault, Limits};
use mc_tables::{CellItems, HashKeys, Hashing, OwnedItems, Table};
use shared_tests::values::{command_of, reads_as};
use std::alloc::Global;
use std::test::Fail;

const QUOTAS: Limits = Limits {
    items: 3,
    bytes: 1_048_577,
};

/// Commands that join a key's data: 1, 10, 210, 215, 215ab.
const JOINING: [&str; 5] = [
    "set n 3 0 1\r\n1\r\n",
    "append n 0 0 1\r\n0\r\n",
    "prepend n 0 0 1\r\n2\r\n",
    "incr n 5\r\n",
    "append n 0 0 2\r\nab\r\n",
];

/// What asks for the data, and how they read.
const ASKED: &str = "gets n\r\n";

const JOINED: &str = "VALUE n 3 5 5\r\n215ab\r\nEND\r\n";

/// Returns the commands that a client writes as these texts.
fn commands_of(alloc: Global, texts: &[&str]) -> Result<Vec<Command>, Fault> {
    let mut commands = Vec::new(alloc);
    for text in texts {
        commands.push(command_of(alloc, text.as_bytes())?)?;
    }
    Ok(commands)
}

/// Returns whether a client reads this for the command.
fn answers<'a, T: Table<'a>>(
    alloc: Global,
    table: &mut T,
    command: &'a Command,
    want: &str,
) -> Result<bool, Fault> {
    if table.last_unique() == u64::MAX {
        return Err(Fault::BadEvent);
    }
    reads_as(alloc, table.apply(command)?, want.as_bytes())
}

fn advance<'a, T: Table<'a>>(table: &mut T, command: &'a Command) -> Result<(), Fault> {
    if table.last_unique() == u64::MAX {
        return Err(Fault::BadEvent);
    }
    table.advance(command)
}

fn advance_all<'a, T: Table<'a>>(table: &mut T, commands: &'a [Command]) -> Result<(), Fault> {
    for command in commands {
        advance(table, command)?;
    }
    Ok(())
}

/// Returns whether the table shows joined data after the commands.
fn joins<'a, T: Table<'a>>(
    alloc: Global,
    table: &mut T,
    commands: &'a [Command],
    gets: &'a Command,
) -> Result<bool, Fault> {
    advance_all(table, commands)?;
    answers(alloc, table, gets, JOINED)
}

/// Returns whether a table of its own memory does.
fn owned_joins(
    alloc: Global,
    hashing: Hashing,
    commands: &[Command],
    gets: &Command,
) -> Result<bool, Fault> {
    let mut items = OwnedItems::new(alloc, QUOTAS, hashing);
    joins(alloc, &mut items, commands, gets)
}

/// Returns whether a table that borrows from the commands does.
fn borrowed_joins(
    alloc: Global,
    hashing: Hashing,
    commands: &[Command],
    gets: &Command,
) -> Result<bool, Fault> {
    let mut items = CellItems::new(alloc, QUOTAS, hashing);
    joins(alloc, &mut items, commands, gets)
}

/// Returns a copy of the table that the commands lead to.
fn copied(alloc: Global, hashing: Hashing, commands: &[Command]) -> Result<OwnedItems, Fault> {
    let mut items = OwnedItems::new(alloc, QUOTAS, hashing);
    advance_all(&mut items, commands)?;
    items.try_clone()
}

/// Returns whether a table over that one answers so.
fn answers_over<'a>(
    alloc: Global,
    below: &'a OwnedItems,
    command: &'a Command,
    want: &str,
) -> Result<bool, Fault> {
    let mut items = CellItems::over(below)?;
    answers(alloc, &mut items, command, want)
}

/// Returns how many items a table over that one has after the command.
fn left_over<'a>(below: &'a OwnedItems, command: &'a Command) -> Result<u64, Fault> {
    let mut items = CellItems::over(below)?;
    advance(&mut items, command)?;
    Ok(items.count())
}

/// Returns whether a table over that one loses its only item, while that one keeps it.
fn stays(alloc: Global, below: &OwnedItems) -> Result<bool, Fault> {
    let delete = commands_of(alloc, &["delete n\r\n"])?;
    for command in &delete {
        if left_over(below, command)? != 0 {
            return Ok(false);
        }
    }
    Ok(below.count() == 1)
}

/// Which tables are tried.
#[derive(Clone, Copy)]
enum Tables {
    Owned,
    Borrowed,
    /// One that borrows over a copy of one of its own.
    Copied,
}

/// Returns whether these tables show joined data after the commands.
fn shows_joined(
    alloc: Global,
    tables: Tables,
    hashing: Hashing,
    commands: &[Command],
    gets: &Command,
) -> Result<bool, Fault> {
    match tables {
        Tables::Owned => owned_joins(alloc, hashing, commands, gets),
        Tables::Borrowed => borrowed_joins(alloc, hashing, commands, gets),
        Tables::Copied => {
            let below = copied(alloc, hashing, commands)?;
            answers_over(alloc, &below, gets, JOINED)
        }
    }
}

/// Does as `shows_joined` with the commands that join data.
fn joins_in(alloc: Global, tables: Tables, hashing: Hashing) -> Result<bool, Fault> {
    let commands = commands_of(alloc, &JOINING)?;
    for gets in &commands_of(alloc, &[ASKED])? {
        if !shows_joined(alloc, tables, hashing, &commands, gets)? {
            return Ok(false);
        }
    }
    Ok(true)
}

/// Returns a table with joined data below another.
fn joined_below(alloc: Global, hashing: Hashing) -> Result<OwnedItems, Fault> {
    copied(alloc, hashing, &commands_of(alloc, &JOINING)?)
}

/// Returns whether a table that is below another stays as it is when its item is deleted there.
fn is_left_below(alloc: Global, hashing: Hashing) -> Result<bool, Fault> {
    stays(alloc, &joined_below(alloc, hashing)?)
}

#[test]
fn data_are_joined(rt: HostRuntime) -> Result<(), Fail> {
    for tables in [Tables::Owned, Tables::Borrowed, Tables::Copied] {
        let hashing = Hashing::Random(HashKeys::draw(&rt)?);
        assert!(rt; joins_in(rt.alloc(), tables, hashing) == Ok(true));
    }
    Ok(())
}

#[test]
fn a_table_below_stays_as_it_is(rt: HostRuntime) -> Result<(), Fail> {
    let hashing = Hashing::Random(HashKeys::draw(&rt)?);
    assert!(rt; is_left_below(rt.alloc(), hashing) == Ok(true));
    Ok(())
}

/// Returns whether data that a get has joined are appended to, and joined again.
fn joins_again(alloc: Global) -> Result<bool, Fault> {
    let commands = commands_of(alloc, &JOINING)?;
    let asked = commands_of(alloc, &[ASKED, "append n 0 0 2\r\ncd\r\n", ASKED])?;
    let wanted = [JOINED, "STORED\r\n", "VALUE n 3 7 6\r\n215abcd\r\nEND\r\n"];
    let mut items = CellItems::new(alloc, QUOTAS, Hashing::Fixed);
    advance_all(&mut items, &commands)?;
    for (command, want) in asked.iter().zip(wanted) {
        if !answers(alloc, &mut items, command, want)? {
            return Ok(false);
        }
    }
    Ok(true)
}

#[test]
fn data_are_joined_again_after_a_get(rt: HostRuntime) {
    assert!(rt; joins_again(rt.alloc()) == Ok(true));
}
