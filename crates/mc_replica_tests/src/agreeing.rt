//! Replicas of two workers that have replayed the same cells agree.
ghost use Rattle.std.specs.Prelude.{◌≡◌, length, OnOk};
ghost use Rattle.mc_replica.specs.Replica.{SameCells};
ghost use Rattle.uc_cells.specs.Cells.{HasCell};

use crate::replica::{QUOTAS, assert_cell, opened, put_row, ticket_of, unique_of, worker_of};
use mc_model::{Fault, Ticket};
use mc_replica::Replica;
use std::alloc::Global;
use std::process::Abort;
use std::test::Fail;
use uc_cells::Cells;

/// Has both replay what each sees of the ticket's cell.
fn replay_both<'a>(
    rt: &impl Abort,
    alloc: Global,
    cells: &'a Cells,
    one: &mut Replica<'a>,
    other: &mut Replica<'a>,
    ticket: Ticket,
) -> Result<(), Fault>
    requires cell { HasCell cells.now ticket }
    requires long { length one.old.history ≡ length other.old.history }
    requires same { SameCells one.old.history other.old.history }
    ensures long { OnOk result (length one.new.history ≡ length other.new.history) }
    ensures same { OnOk result (SameCells one.new.history other.new.history) }
{
    assert!(rt; one.has_place() && other.has_place());
    let Ticket { worker, number } = ticket;
    let seen = cells.see(alloc, ticket)?;
    let again = cells.see(alloc, Ticket { worker, number })?;
    let _ = one.replay(seen)?;
    let _ = other.replay(again)?;
    Ok(())
}

/// Has two workers replay three cells, of which the last is absent, and agree.
fn agree_on_three<'a>(
    rt: &impl Abort,
    alloc: Global,
    cells: &'a Cells,
    one: &mut Replica<'a>,
    other: &mut Replica<'a>,
) -> Result<(), Fault>
    requires long { length one.old.history ≡ length other.old.history }
    requires same { SameCells one.old.history other.old.history }
{
    for number in 0..3 {
        let ticket = ticket_of(worker_of(0)?, number);
        assert_cell(rt, cells, ticket);
        replay_both(rt, alloc, cells, one, other, ticket)?;
    }
    one.agree(other);
    Ok(())
}

/// Puts two entries into their cells.
fn put_two(rt: &impl Abort, alloc: Global, cells: &Cells) -> Result<(), Fault> {
    put_row(rt, alloc, cells, 0, (0, 1, "set a 0 0 1\r\nx\r\n", ""))?;
    put_row(rt, alloc, cells, 1, (0, 1, "set a 0 0 1\r\ny\r\n", ""))
}

/// Returns whether both have replayed three places and two changes of the second tenant.
fn have_come_to_the_same(one: &Replica<'_>, other: &Replica<'_>) -> bool {
    one.len() == 3
        && other.len() == 3
        && unique_of(one, 1) == Some(2)
        && unique_of(other, 1) == Some(2)
}

/// Returns whether two workers that have replayed the cells have come to the same.
fn are_agreed(rt: &impl Abort, alloc: Global, cells: &Cells) -> Result<bool, Fault> {
    let mut one = opened(alloc, 0, &[QUOTAS, QUOTAS], 3)?;
    let mut other = opened(alloc, 1, &[QUOTAS, QUOTAS], 3)?;
    agree_on_three(rt, alloc, cells, &mut one, &mut other)?;
    Ok(have_come_to_the_same(&one, &other))
}

#[test]
fn replicas_of_the_same_cells_agree(rt: HostRuntime) -> Result<(), Fail> {
    let alloc = rt.alloc();
    let cells = Cells::open(alloc, 1, 3)?;
    put_two(&rt, alloc, &cells)?;
    assert!(rt; are_agreed(&rt, alloc, &cells) == Ok(true));
    Ok(())
}
