//! What the tests share: cores, events as text, and what a core answers and shows as text.
//!
//! Events are separated by `/`: `announce WORKER TENANT COMMAND`, where the command is what a
//! client writes, or `read`, `look`, `propose`, `replay` or `stop` and a worker.
use mc_model::{Fault, Limits, Phase, Reply, Settings, Ticket, WorkerId};
use mc_write::write_reply;
use shared_tests::values::command_of;
use std::alloc::Global;
use uc_core::{Core, Event, Progress};

/// Quotas that the golden runs don't reach.
pub(crate) const AMPLE: Limits = Limits {
    items: 4,
    bytes: 100,
};

/// Opens a core of this many workers and places, with these tenants.
pub(crate) fn opened(
    alloc: Global,
    workers: u64,
    places: u64,
    tenants: &[Limits],
) -> Result<Core, Fault> {
    let tenants = Vec::from_slice(alloc, tenants)?;
    let settings = Settings::check(workers, places, tenants)?;
    Ok(Core::new(alloc, &settings)?)
}

fn number_of(word: Option<&str>) -> Option<u8> {
    word?.parse::<u8>().ok()
}

/// Returns the announcement of these words.
fn announcement(
    alloc: Global,
    worker: u8,
    tenant: Option<&str>,
    text: Option<&str>,
) -> Result<Event, Fault> {
    match (number_of(tenant), text) {
        (Some(tenant), Some(text)) => Ok(Event::Announce(
            worker,
            tenant,
            command_of(alloc, text.as_bytes())?,
        )),
        _ => Err(Fault::BadEvent),
    }
}

/// Returns the event of this name and worker, if it isn't an announcement.
fn deed_of(name: &str, worker: u8) -> Result<Event, Fault> {
    match name {
        "read" => Ok(Event::Read(worker)),
        "look" => Ok(Event::Look(worker)),
        "propose" => Ok(Event::Propose(worker)),
        "replay" => Ok(Event::Replay(worker)),
        "stop" => Ok(Event::Stop(worker)),
        _ => Err(Fault::BadEvent),
    }
}

/// Returns the event of this text.
pub(crate) fn event_of(alloc: Global, text: &str) -> Result<Event, Fault> {
    let mut words = text.splitn(4, ' ');
    match (words.next(), number_of(words.next())) {
        (Some("announce"), Some(worker)) => {
            announcement(alloc, worker, words.next(), words.next())
        }
        (Some(name), Some(worker)) => deed_of(name, worker),
        _ => Err(Fault::BadEvent),
    }
}

/// Returns all events of a text.
pub(crate) fn events_of(alloc: Global, text: &str) -> Result<Vec<Event>, Fault> {
    let mut events = Vec::new(alloc);
    for event in text.split('/') {
        events.push(event_of(alloc, event)?)?;
    }
    Ok(events)
}

/// What the core shows of a worker, but for the command that it found to help.
#[derive(Clone, Copy)]
pub(crate) struct View {
    pub(crate) phase: Phase,
    pub(crate) learned: u64,
    pub(crate) replayed: u64,
    /// The place of its mark plus one, or 0 if it has none.
    pub(crate) mark: u64,
    pub(crate) proposals: u64,
}

/// Returns what the core shows of a worker.
pub(crate) fn view_of(core: &Core, worker: u8) -> Result<View, Fault> {
    let worker = WorkerId::new(worker).ok_or(Fault::BadEvent)?;
    match core.progress(worker) {
        Some(
            Progress {
                phase,
                learned,
                replayed,
                mark,
                proposals,
                ..
            },
        ) => Ok(View {
            phase,
            learned,
            replayed,
            mark: match mark {
                Some(place) => place.wrapping_add(1),
                None => 0,
            },
            proposals,
        }),
        None => Err(Fault::BadEvent),
    }
}

fn phase_name(phase: Phase) -> &'static str {
    match phase {
        Phase::Idle => "idle",
        Phase::Pending => "pending",
        Phase::Looked => "looked",
        Phase::Stopped => "stopped",
    }
}

/// Appends what the core shows of this worker, if there is one, on a line.
fn push_worker(text: &mut String, core: &Core, number: u8) -> Result<(), Fault> {
    let Ok(view) = view_of(core, number) else {
        return Ok(());
    };
    let View {
        phase,
        learned,
        replayed,
        proposals,
        ..
    } = view;
    let phase = phase_name(phase);
    write!(
        text,
        "worker {number} {phase} learned {learned} replayed {replayed} proposals {proposals}\n"
    )?;
    Ok(())
}

fn push_tickets(text: &mut String, tickets: &[Ticket]) -> Result<(), Fault> {
    for ticket in tickets {
        write!(text, " ({},{})", ticket.worker.number(), ticket.number)?;
    }
    Ok(())
}

/// Returns what the core shows: the log, and each worker on a line.
pub(crate) fn shown_by(alloc: Global, core: &Core) -> Result<String, Fault> {
    let mut text = String::from_str(alloc, "log")?;
    push_tickets(&mut text, core.decided())?;
    text.push_str("\n")?;
    for number in 0..16u8 {
        push_worker(&mut text, core, number)?;
    }
    Ok(text)
}

/// Returns whether the core shows this.
pub(crate) fn shows(alloc: Global, core: &Core, want: &str) -> Result<bool, Fault> {
    let shown = shown_by(alloc, core)?;
    Ok(shown.as_str() == want)
}

/// Appends a reply with its worker and place, as a client reads it.
fn tell(
    alloc: Global,
    said: &mut Vec<u8>,
    worker: u8,
    place: u64,
    reply: &Reply<'_>,
) -> Result<(), Fault> {
    let who = format!(in alloc; "{worker} {place} ")?;
    said.extend_from_slice(who.as_bytes())?;
    write_reply(reply, said)
}

/// Appends the reply, if there is one.
fn tell_some(
    alloc: Global,
    said: &mut Vec<u8>,
    worker: u8,
    place: u64,
    reply: Option<Reply<'_>>,
) -> Result<(), Fault> {
    match reply {
        Some(reply) => tell(alloc, said, worker, place, &reply),
        None => Ok(()),
    }
}

/// Returns the worker that the event of this text names.
fn worker_in(text: &str) -> Result<u8, Fault> {
    let mut words = text.splitn(3, ' ');
    let _ = words.next();
    number_of(words.next()).ok_or(Fault::BadEvent)
}

fn step(alloc: Global, core: &mut Core, text: &str, said: &mut Vec<u8>) -> Result<(), Fault> {
    let worker = worker_in(text)?;
    let place = view_of(core, worker)?.replayed;
    let reply = core.step(event_of(alloc, text)?)?;
    tell_some(alloc, said, worker, place, reply)
}

/// Returns what a core answers to these events, taken one at a time: each reply after its worker
/// and its place.
pub(crate) fn stepped(alloc: Global, core: &mut Core, text: &str) -> Result<Vec<u8>, Fault> {
    let mut said = Vec::new(alloc);
    for event in text.split('/') {
        step(alloc, core, event, &mut said)?;
    }
    Ok(said)
}

/// What a run has given: each reply with its worker and the place of its command in the log.
pub(crate) type Replies = Vec<(WorkerId, u64, Reply<'static>)>;

/// Returns what a core answers to one run of all these events.
pub(crate) fn ran(alloc: Global, core: &mut Core, text: &str) -> Result<Vec<u8>, Fault> {
    let events = events_of(alloc, text)?;
    let mut replies: Replies = Vec::new(alloc);
    if core.run(&events, &mut replies).is_err() {
        return Err(Fault::BadEvent);
    }
    told(alloc, &replies)
}

fn told(alloc: Global, replies: &[(WorkerId, u64, Reply<'_>)]) -> Result<Vec<u8>, Fault> {
    let mut said = Vec::new(alloc);
    for (worker, place, reply) in replies {
        tell(alloc, &mut said, worker.number(), *place, reply)?;
    }
    Ok(said)
}
