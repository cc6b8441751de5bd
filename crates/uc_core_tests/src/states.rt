//! A second opinion on the theorem: plain code that knows none of the definitions checks every
//! reachable state of a small core.
//!
//! Two workers share three places. Each move is tried at the end of each path, shorter paths first;
//! a path that leads to a state that was seen before goes no further. So event lists of any length
//! are covered.
use crate::events::{AMPLE, Replies, opened, view_of};
use mc_items::Items;
use mc_model::{Fault, Phase, TenantId, Ticket, WorkerId};
use shared_tests::values::{command_of, key_of as key_named, text_of as reply_text};
use std::alloc::Global;
use std::collections::BTreeSet;
use std::process::Abort;
use std::test::Fail;
use uc_core::{Core, Event};

const PLACES: u64 = 3;

/// As many states as `tests/core_states.py` counts, which knows nothing of the core's code.
const STATES: usize = 48_992;

/// More moves than the longest path to a new state has.
const MOVES: usize = 40;

#[derive(Clone, Copy, PartialEq, Eq)]
enum Deed {
    Announce,
    Read,
    Look,
    Propose,
    Replay,
    Stop,
}

const DEEDS: [Deed; 6] = [
    Deed::Announce,
    Deed::Read,
    Deed::Look,
    Deed::Propose,
    Deed::Replay,
    Deed::Stop,
];

/// What one worker does.
#[derive(Clone, Copy)]
struct Move {
    worker: u8,
    deed: Deed,
}

/// What the test remembers of a worker in addition to what the core shows.
#[derive(Clone, Copy)]
struct Notes {
    announced: u64,
    /// How many places were decided when the worker announced its latest command.
    decided_then: u64,
    /// How many commands the worker whose turn it was had announced when this one looked.
    looked_at: u64,
}

const NONE: Notes = Notes {
    announced: 0,
    decided_then: 0,
    looked_at: 0,
};

/// A path of moves from the opening, and the notes at its end.
#[derive(Drop)]
struct Way {
    moves: Vec<Move>,
    first: Notes,
    second: Notes,
}

impl Way {
    fn notes(&self, worker: u8) -> Notes {
        if worker == 0 { self.first } else { self.second }
    }

    /// Returns the path with one more move, and the new notes of its worker.
    fn longer(&self, alloc: Global, made: Move, notes: Notes) -> Result<Way, Fault> {
        let mut moves = Vec::from_slice(alloc, &self.moves)?;
        moves.push(made)?;
        let is_first = made.worker == 0;
        Ok(Way {
            moves,
            first: if is_first { notes } else { self.first },
            second: if is_first { self.second } else { notes },
        })
    }
}

/// Returns the text of the worker's command of this number, as a client writes it: worker 0 sets a
/// key to a digit, worker 1 gets and deletes it by turns.
fn text_of(alloc: Global, worker: u8, number: u64) -> Result<String, Fault> {
    let digit = number % 10;
    let text = if worker == 0 {
        format!(in alloc; "set a 0 0 1\r\n{digit}\r\n")?
    } else if number % 2 == 0 {
        String::from_str(alloc, "gets a\r\n")?
    } else {
        String::from_str(alloc, "delete a\r\n")?
    };
    Ok(text)
}

/// The one key as a plain table has it: its digit and its unique.
#[derive(Clone, Copy)]
struct Plain {
    held: Option<(u64, u64)>,
    changes: u64,
}

impl Plain {
    /// Takes the effect of a ticket's command.
    fn take(&mut self, ticket: &Ticket) {
        if ticket.worker.number() == 0 {
            self.changes = self.changes.wrapping_add(1);
            self.held = Some((ticket.number % 10, self.changes));
        } else if ticket.number % 2 == 1 {
            self.held = None;
        }
    }

    /// Returns the answer to a ticket's command.
    fn answer(&self, alloc: Global, ticket: &Ticket) -> Result<String, Fault> {
        let gets = ticket.number % 2 == 0;
        let text = match self.held {
            _ if ticket.worker.number() == 0 => String::from_str(alloc, "STORED\r\n")?,
            Some((digit, unique)) if gets => {
                format!(in alloc; "VALUE a 0 1 {unique}\r\n{digit}\r\nEND\r\n")?
            }
            Some(_) => String::from_str(alloc, "DELETED\r\n")?,
            None if gets => String::from_str(alloc, "END\r\n")?,
            None => String::from_str(alloc, "NOT_FOUND\r\n")?,
        };
        Ok(text)
    }
}

/// Returns the answer to the command at a place, after all commands before it.
fn answer_at(alloc: Global, decided: &[Ticket], place: usize) -> Result<String, Fault> {
    let mut plain = Plain {
        held: None,
        changes: 0,
    };
    for ticket in decided.iter().take(place) {
        plain.take(ticket);
    }
    match decided.get(place) {
        Some(ticket) => plain.answer(alloc, ticket),
        None => Err(Fault::BadEvent),
    }
}

/// Returns the event of a move by a worker that has announced this many commands.
fn event_for(alloc: Global, announced: u64, made: Move) -> Result<Event, Fault> {
    let worker = made.worker;
    Ok(match made.deed {
        Deed::Announce => {
            let text = text_of(alloc, worker, announced)?;
            Event::Announce(worker, 0, command_of(alloc, text.as_bytes())?)
        }
        Deed::Read => Event::Read(worker),
        Deed::Look => Event::Look(worker),
        Deed::Propose => Event::Propose(worker),
        Deed::Replay => Event::Replay(worker),
        Deed::Stop => Event::Stop(worker),
    })
}

/// Returns how many commands of the worker these moves announce.
fn announced_in(moves: &[Move], worker: u8) -> u64 {
    moves
        .iter()
        .filter(|made| made.worker == worker && made.deed == Deed::Announce)
        .count() as u64
}

/// Returns a core that has taken these moves.
fn core_after(alloc: Global, moves: &[Move]) -> Result<Core, Fault> {
    let mut core = opened(alloc, 2, PLACES, &[AMPLE])?;
    let mut events = Vec::new(alloc);
    for (at, made) in moves.iter().enumerate() {
        let announced = announced_in(&moves[..at], made.worker);
        events.push(event_for(alloc, announced, *made)?)?;
    }
    let mut replies: Replies = Vec::new(alloc);
    if core.run(&events, &mut replies).is_err() {
        return Err(Fault::BadEvent);
    }
    Ok(core)
}

/// Returns the expected answer to a move: at a replay of the worker's own command its answer,
/// otherwise nothing.
fn wanted(alloc: Global, core: &Core, made: Move) -> Result<String, Fault> {
    let place = view_of(core, made.worker)?.replayed as usize;
    match core.decided().get(place) {
        Some(ticket) if made.deed == Deed::Replay && ticket.worker.number() == made.worker => {
            answer_at(alloc, core.decided(), place)
        }
        _ => Ok(String::new(alloc)),
    }
}

/// Returns what is answered to an event, as a client reads it.
fn answered(alloc: Global, core: &mut Core, event: Event) -> Result<Vec<u8>, Fault> {
    match core.step(event)? {
        Some(reply) => reply_text(alloc, reply),
        None => Ok(Vec::new(alloc)),
    }
}

/// Returns whose turn it is at a worker's next place, as a remainder.
fn turn_of(core: &Core, worker: u8) -> Result<u64, Fault> {
    Ok(view_of(core, worker)?.learned % 2)
}

/// Returns the notes of a worker after its move, made at this turn and with this many places
/// decided before it.
fn noted(way: &Way, made: Move, turn: u64, decided: u64) -> Notes {
    let helped = if turn == 0 { way.first } else { way.second };
    let mut notes = way.notes(made.worker);
    match made.deed {
        Deed::Announce => {
            notes.announced = notes.announced.wrapping_add(1);
            notes.decided_then = decided;
        }
        Deed::Look => notes.looked_at = helped.announced,
        Deed::Propose => notes.looked_at = 0,
        Deed::Read | Deed::Replay | Deed::Stop => {}
    }
    notes
}

/// Asserts that no ticket stands twice or before an earlier one of its worker, and that each was
/// announced.
fn assert_sound(rt: &impl Abort, way: &Way, core: &Core) {
    let decided = core.decided();
    for (place, ticket) in decided.iter().enumerate() {
        let before = decided
            .iter()
            .take(place)
            .filter(|earlier| earlier.worker == ticket.worker)
            .count();
        assert!(rt; before as u64 == ticket.number);
        assert!(rt; ticket.number < way.notes(ticket.worker.number()).announced);
    }
}

/// Asserts that a worker's latest command stands among the places where it must stand by now.
fn assert_helped(rt: &impl Abort, way: &Way, core: &Core, worker: u8) {
    let notes = way.notes(worker);
    let soon = notes.decided_then.wrapping_add(3);
    if notes.announced > 0 && core.decided().len() as u64 >= soon {
        let latest = notes.announced.wrapping_sub(1);
        let stands = core.decided().iter().take(soon as usize).any(|ticket| ticket.worker.number()
            == worker
            && ticket.number == latest);
        assert!(rt; stands);
    }
}

/// Asserts that a worker hasn't proposed too often, and has learned no more than there is.
fn assert_bounds(rt: &impl Abort, core: &Core, worker: u8) -> Result<(), Fault> {
    let view = view_of(core, worker)?;
    assert!(rt; view.proposals <= 3);
    assert!(rt; view.replayed <= view.learned);
    assert!(rt; view.learned <= core.decided().len() as u64);
    Ok(())
}

/// Returns what a table holds under the one key: its digit and its unique.
fn held_in(alloc: Global, table: &Items) -> Result<Option<(Vec<u8>, u64)>, Fault> {
    let key = key_named(alloc, "a")?;
    match table.get(&key) {
        Some(item) => {
            let data = Vec::from_slice(alloc, item.block.as_bytes())?;
            Ok(Some((data, item.unique)))
        }
        None => Ok(None),
    }
}

/// Returns the key's digit and unique in a worker's table.
fn held_by(alloc: Global, core: &Core, worker: u8) -> Result<Option<(Vec<u8>, u64)>, Fault> {
    let worker = WorkerId::new(worker).ok_or(Fault::BadEvent)?;
    let tenant = TenantId::new(0).ok_or(Fault::BadEvent)?;
    match core.table(worker, tenant) {
        Some(table) => held_in(alloc, table),
        None => Err(Fault::BadEvent),
    }
}

/// Asserts that two workers that have replayed equally many places hold the same.
fn assert_agree(rt: &impl Abort, alloc: Global, core: &Core) -> Result<(), Fault> {
    if view_of(core, 0)?.replayed == view_of(core, 1)?.replayed {
        assert!(rt; held_by(alloc, core, 0)? == held_by(alloc, core, 1)?);
    }
    Ok(())
}

fn assert_state(rt: &impl Abort, alloc: Global, way: &Way, core: &Core) -> Result<(), Fault> {
    assert_sound(rt, way, core);
    assert_helped(rt, way, core, 0);
    assert_helped(rt, way, core, 1);
    assert_bounds(rt, core, 0)?;
    assert_bounds(rt, core, 1)?;
    assert_agree(rt, alloc, core)
}

fn phase_code(phase: Phase) -> u64 {
    match phase {
        Phase::Idle => 0,
        Phase::Pending => 1,
        Phase::Looked => 2,
        Phase::Stopped => 3,
    }
}

/// Appends what the core shows of a worker.
fn push_worker(key: &mut Vec<u64>, core: &Core, worker: u8) -> Result<(), Fault> {
    let view = view_of(core, worker)?;
    key.push(phase_code(view.phase))?;
    key.push(view.learned)?;
    key.push(view.replayed)?;
    key.push(view.mark)?;
    key.push(view.proposals)?;
    Ok(())
}

fn push_notes(key: &mut Vec<u64>, notes: Notes) -> Result<(), Fault> {
    key.extend_from_slice(&[notes.announced, notes.decided_then, notes.looked_at])?;
    Ok(())
}

fn push_ticket(key: &mut Vec<u64>, ticket: &Ticket) -> Result<(), Fault> {
    key.extend_from_slice(&[u64::from(ticket.worker.number()), ticket.number])?;
    Ok(())
}

/// Returns a state as numbers: two states are equal exactly if their numbers are.
fn key_of(alloc: Global, way: &Way, core: &Core) -> Result<Vec<u64>, Fault> {
    let mut key = Vec::new(alloc);
    push_worker(&mut key, core, 0)?;
    push_worker(&mut key, core, 1)?;
    push_notes(&mut key, way.first)?;
    push_notes(&mut key, way.second)?;
    for ticket in core.decided() {
        push_ticket(&mut key, ticket)?;
    }
    Ok(key)
}

/// Returns the event of a move at the end of a path.
fn next_event(alloc: Global, way: &Way, made: Move) -> Result<Event, Fault> {
    event_for(alloc, way.notes(made.worker).announced, made)
}

/// Returns whether the core takes the move.
fn is_enabled(alloc: Global, way: &Way, core: &Core, made: Move) -> Result<bool, Fault> {
    let event = next_event(alloc, way, made)?;
    let checked = core.check(&event);
    // A local enum that its block drops is proved variant by variant.
    drop(event);
    Ok(checked.is_ok())
}

/// Returns the path with a move that the core takes.
fn taken(alloc: Global, way: &Way, core: &Core, made: Move) -> Result<Way, Fault> {
    let turn = turn_of(core, made.worker)?;
    let notes = noted(way, made, turn, core.decided().len() as u64);
    way.longer(alloc, made, notes)
}

/// Has the core take the move. Returns whether the answer is the expected one.
fn is_answered(alloc: Global, way: &Way, core: &mut Core, made: Move) -> Result<bool, Fault> {
    let want = wanted(alloc, core, made)?;
    let said = answered(alloc, core, next_event(alloc, way, made)?)?;
    Ok(said.as_slice() == want.as_bytes())
}

/// Returns the path with one more move, if the core takes it and it leads to a state that wasn't
/// seen before.
fn longer(
    rt: &impl Abort,
    alloc: Global,
    way: &Way,
    made: Move,
    seen: &mut BTreeSet<Vec<u64>>,
) -> Result<Option<Way>, Fault> {
    let mut core = core_after(alloc, &way.moves)?;
    if !is_enabled(alloc, way, &core, made)? {
        return Ok(None);
    }
    let longer = taken(alloc, way, &core, made)?;
    assert!(rt; is_answered(alloc, way, &mut core, made)?);
    assert_state(rt, alloc, &longer, &core)?;
    let is_new = seen.insert(key_of(alloc, &longer, &core)?)?;
    Ok(if is_new { Some(longer) } else { None })
}

/// Tries each move at the end of a path.
fn try_moves(
    rt: &impl Abort,
    alloc: Global,
    way: &Way,
    seen: &mut BTreeSet<Vec<u64>>,
) -> Result<Vec<Way>, Fault> {
    let mut ways = Vec::new(alloc);
    for deed in DEEDS {
        for worker in 0..2u8 {
            if let Some(way) = longer(rt, alloc, way, Move { worker, deed }, seen)? {
                ways.push(way)?;
            }
        }
    }
    Ok(ways)
}

/// Returns all paths that are one move longer than these and lead to states that weren't seen
/// before.
fn all_longer(
    rt: &impl Abort,
    alloc: Global,
    ways: &[Way],
    seen: &mut BTreeSet<Vec<u64>>,
) -> Result<Vec<Way>, Fault> {
    let mut all = Vec::new(alloc);
    for way in ways {
        for longer in try_moves(rt, alloc, way, seen)? {
            all.push(longer)?;
        }
    }
    Ok(all)
}

#[test]
fn every_state_of_a_small_core_is_sound(rt: HostRuntime) -> Result<(), Fail> {
    let mut seen = BTreeSet::new(rt.alloc());
    let mut ways: Vec<Way> = Vec::new(rt.alloc());
    ways.push(Way {
        moves: Vec::new(rt.alloc()),
        first: NONE,
        second: NONE,
    })?;
    for _ in 0..MOVES {
        ways = all_longer(&rt, rt.alloc(), &ways, &mut seen)?;
    }
    assert!(rt; ways.is_empty());
    assert!(rt; seen.len() == STATES);
    Ok(())
}
