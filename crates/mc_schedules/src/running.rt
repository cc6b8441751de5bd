//! Runs of event lists.
ghost use Rattle.std.specs.Prelude.{◌≡◌, ℕ, ◌++◌, List, IfOk, IsOkUnless};
ghost use Rattle.mc_schedules.specs.Doing.{Acts, Did, DoesAll, Finishes, TakesEvent};
ghost use Rattle.uc_core.specs.Core.{new_core};
ghost use Rattle.uc_core.specs.Run.{Given};

use crate::laws::runs_of_event_lists;
use crate::needed::needed;
use crate::schedule::{Action, Item};
use crate::watching::Watch;
use mc_model::{Fault, Reply, Settings, WorkerId};
use std::alloc::Global;
use uc_core::{Core, Event};

/// What a run of an event list left, and the replies it gave.
#[derive(Debug, Drop)]
pub struct Outcome {
    /// The core as the run left it.
    pub core: Core,
    /// The replies in order, each with its worker and the place of its command in the log.
    pub replies: Vec<(WorkerId, u64, Reply<'static>)>,
    /// What ended the run before its last event, if anything: the number of the event's line, and
    /// the fault that it met.
    pub fault: Option<(u64, Fault)>,
}

/// Takes an event of a line, and shows it to the watcher. Returns the fault that it meets.
fn take<W: Watch>(
    core: &mut Core,
    line: u64,
    event: Event,
    replies: &mut Vec<(WorkerId, u64, Reply<'static>)>,
    watch: &mut W,
) -> Result<(), Fault>
    ensures { Did (TakesEvent line event) line core.old core.new replies.old.items replies.new.items
        result }
{
    let events = [event];
    if let Err(met) = core.run(&events, replies) {
        return Err(met.fault);
    }
    watch.see(line, &events[0], core);
    Ok(())
}

/// Takes what a worker needs, event by event, until it needs nothing more. Returns the first fault.
fn finish<W: Watch>(
    core: &mut Core,
    line: u64,
    worker: u8,
    replies: &mut Vec<(WorkerId, u64, Reply<'static>)>,
    watch: &mut W,
) -> Result<(), Fault>
    ensures { (events : ℕ)
        × Did (Finishes events line worker) line core.old core.new replies.old.items
        replies.new.items result }
{
    // The law by which the loop ends.
    runs_of_event_lists();
    while let Some(event) = needed(core, worker) {
        take(core, line, event, replies, watch)?;
    }
    Ok(())
}

/// Does what a line asks for. Returns the first fault.
fn act<W: Watch>(
    core: &mut Core,
    line: u64,
    action: Action,
    replies: &mut Vec<(WorkerId, u64, Reply<'static>)>,
    watch: &mut W,
) -> Result<(), Fault>
    ensures { Did (Acts line action) line core.old core.new replies.old.items replies.new.items
        result }
{
    match action {
        Action::Event(event) => take(core, line, event, replies, watch),
        Action::Submit(worker, tenant, command) => {
            let announcement = Event::Announce(worker, tenant, command);
            take(core, line, announcement, replies, watch)?;
            finish(core, line, worker, replies, watch)
        }
    }
}

/// Does what the lines ask for, in order, and returns what ended this before its last event, if
/// anything.
fn do_all<W: Watch>(
    core: &mut Core,
    items: Vec<Item>,
    replies: &mut Vec<(WorkerId, u64, Reply<'static>)>,
    watch: &mut W,
) -> Option<(u64, Fault)>
    ensures { (given : List Given) × DoesAll items.items core.old core.new given result
        × (replies.new.items ≡ replies.old.items ++ given) }
{
    for Item { line, action } in items {
        if let Err(fault) = act(core, line, action, replies, watch) {
            return Some((line, fault));
        }
    }
    None
}

/// Does what the items of an event list ask for, one after another, in a core of these settings.
/// The first event that meets a fault ends the run. Returns `Memory` if the core can't be made; an
/// event that meets `Memory` ends the run as any fault does.
pub fn run_items<W: Watch>(
    alloc: Global,
    settings: &Settings,
    items: Vec<Item>,
    watch: &mut W,
) -> Result<Outcome, Fault>
    ensures outcome { IfOk result
        (λ it. DoesAll items.items (new_core settings.now) it.core it.replies.items it.fault) }
    ensures memory { IsOkUnless result Fault.Memory }
{
    let mut core = Core::new(alloc, settings)?;
    let mut replies: Vec<(WorkerId, u64, Reply<'static>)> = Vec::new(alloc);
    let fault = do_all(&mut core, items, &mut replies, watch);
    Ok(Outcome {
        core,
        replies,
        fault,
    })
}
