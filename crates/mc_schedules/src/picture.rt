//! A picture of a run: time goes down, and each worker has a column.
ghost use Rattle.std.specs.Prelude.{IfOk, IsOkUnless};
ghost use Rattle.mc_schedules.specs.Doing.{DoesAll};
ghost use Rattle.uc_core.specs.Core.{new_core};

use crate::running::{Outcome, run_items};
use crate::schedule::Item;
use crate::watching::Watch;
use mc_model::{Fault, Phase, Settings, WorkerId};
use std::alloc::{AllocError, Global};
use std::fmt::Write;
use uc_core::{Core, Event};

/// What the column of an event's worker says.
#[derive(Clone, Copy)]
enum Cell {
    Name(&'static str),
    /// A look that found a command of this worker.
    LookAt(u8),
}

/// What was last seen of a worker.
#[derive(Drop)]
struct Seen {
    learned: u64,
    is_idle: bool,
    is_stopped: bool,
}

/// The lines so far, and what was last seen.
#[derive(Drop)]
struct Picture {
    text: Vec<u8>,
    /// The line that is being written.
    row: String,
    workers: Vec<Seen>,
    /// The number of places that were decided.
    decided: usize,
    /// Memory ran out, so lines are missing.
    is_starved: bool,
}

/// Runs the items as `run_items` does, and draws the run, with an empty line after the picture.
///
/// The picture has a line for each event, with the number of the line that asks for it, a column
/// for each worker, and next to a proposal that decides a place, the place and its ticket. A
/// worker's column says what it does, for a look also whose command it found, and `|` while another
/// works; it ends where the worker stops. A star marks where the worker learned that its own
/// command is in the log. Up to 6 workers fit into 100 columns.
///
/// Returns `Memory` if the core can't be made, or if memory runs out for the picture.
pub fn draw_items(
    alloc: Global,
    settings: &Settings,
    items: Vec<Item>,
) -> Result<(Vec<u8>, Outcome), Fault>
    ensures outcome { IfOk result
        (λ drawn. DoesAll items.items
        (new_core settings.now) drawn.1.core drawn.1.replies.items drawn.1.fault) }
    ensures memory { IsOkUnless result Fault.Memory }
{
    let mut picture = Picture::new(alloc, settings.workers())?;
    let outcome = run_items(alloc, settings, items, &mut picture)?;
    if picture.is_starved {
        return Err(Fault::Memory);
    }
    picture.text.push(b'\n')?;
    Ok((picture.text, outcome))
}

impl Picture {
    /// Returns a picture with the line above all events.
    fn new(alloc: Global, count: u64) -> Result<Picture, Fault>
        ensures { IsOkUnless result Fault.Memory }
    {
        let mut row = String::new(alloc);
        let mut workers = Vec::new(alloc);
        row.push_str("   line  ")?;
        for number in 0..count {
            write!(row, "worker {number:<5}")?;
            workers.push(Seen {
                learned: 0,
                is_idle: true,
                is_stopped: false,
            })?;
        }
        row.push_str("log\n")?;
        let text = Vec::from_slice(alloc, row.as_bytes())?;
        row.clear();
        Ok(Picture {
            text,
            row,
            workers,
            decided: 0,
            is_starved: false,
        })
    }

    /// Adds the line of an event.
    fn add_line(&mut self, line: u64, event: &Event, core: &Core) -> Result<(), AllocError> {
        write!(self.row, "{line:>7}  ")?;
        let cell = self.note(event, core);
        for (number, worker) in self.workers.iter().enumerate() {
            let is_actor = number == usize::from(event.actor());
            match cell {
                Cell::Name(name) if is_actor => write!(self.row, "{name:<12}")?,
                Cell::LookAt(helped) if is_actor => write!(self.row, "look -> {helped:<4}")?,
                _ if worker.is_stopped => write!(self.row, "{:12}", "")?,
                _ => write!(self.row, "{:<12}", "|")?,
            }
        }
        self.end_line(core)
    }

    /// Notes the state of the event's worker, and returns what its column says.
    fn note(&mut self, event: &Event, core: &Core) -> Cell {
        let Some(progress) = WorkerId::new(event.actor()).and_then(|worker| core.progress(worker))
        else {
            return Cell::Name("");
        };
        let Some(seen) = self.workers.get_mut(usize::from(event.actor())) else {
            return Cell::Name("");
        };
        let has_learned = progress.learned > seen.learned;
        let is_idle = progress.phase == Phase::Idle;
        let is_done = is_idle && !seen.is_idle;
        *seen = Seen {
            learned: progress.learned,
            is_idle,
            is_stopped: progress.phase == Phase::Stopped,
        };
        if let (Event::Look(_), Some(found)) = (event, progress.look) {
            return Cell::LookAt(found.worker.number());
        }
        Cell::Name(match event {
            Event::Announce(_, _, _) => "announce",
            Event::Read(_) if is_done => "read *",
            Event::Read(_) if has_learned => "read",
            Event::Read(_) => "read empty",
            Event::Look(_) => "look",
            Event::Propose(_) if is_done => "propose *",
            Event::Propose(_) => "propose",
            Event::Replay(_) => "replay",
            Event::Stop(_) => "stop",
        })
    }

    /// Ends a line with the place that was decided, if any.
    fn end_line(&mut self, core: &Core) -> Result<(), AllocError> {
        if let Some(ticket) = core.decided().get(self.decided) {
            let (worker, number) = (ticket.worker.number(), ticket.number);
            write!(self.row, "{} ({worker},{number})", self.decided)?;
            self.decided += 1;
        }
        self.text.extend_from_slice(self.row.trim_end().as_bytes())?;
        self.row.clear();
        Ok(self.text.push(b'\n')?)
    }
}

impl Watch for Picture {
    fn see(&mut self, line: u64, event: &Event, core: &Core) {
        if self.add_line(line, event, core).is_err() {
            self.is_starved = true;
        }
    }
}
