//! Serving one client with one worker, over logs of its own.
ghost use Rattle.std.specs.Prelude.{◌≡◌, ◌≤◌, ◌⊎◌, IfErr, IfOk, MatchResult};
ghost use Rattle.mc_model.specs.Settings.{IsLawful};
ghost use Rattle.mc_model.specs.declared.fault.Fault.TheVariants as faults;
ghost use Rattle.mc_programs.specs.Serving.{ServesByLogs, StopsService, settings_alone};
ghost use Rattle.mc_programs.specs.Opening.{IsOpened, RefusesToOpen};
ghost use Rattle.mc_stream.specs.Stream.{both};

use crate::generations::serve_logs;
use crate::turning_over::TurnOver;
use mc_conn::Conn;
use mc_model::{Fault, Limits, Settings, TenantId, WireNo};
use mc_stream::{Input, Output, push_while_taken};
use mc_write::refusal_text;
use std::alloc::Global;
use std::mem;
use std::sync::Wait;
use uc_log::{Log, Pass};
use uc_worker::{Hashing, Next};

/// Opens a log with one worker, for one tenant.
///
/// Returns `Memory` if memory runs out, and `BadSettings` if the quotas or the number of places are
/// out of range.
fn open_alone(alloc: Global, limits: Limits, places: u64) -> Result<(Log, Pass), Fault>
    ensures opened { IfOk result (λ opened. IsOpened limits places opened.0 opened.1) }
    ensures faults { IfErr result
        (λ fault. (fault ≡ faults.Memory) ⊎ (fault ≡ faults.BadSettings)
        × ¬ (IsLawful (settings_alone limits places))) }
{
    let mut tenants = Vec::new(alloc);
    tenants.push(limits)?;
    let settings = Settings::check(1, places, tenants)?;
    let (log, mut passes) = Log::open(alloc, &settings)?;
    let Some(pass) = passes.pop() else {
        unreachable!()
    };
    Ok((log, pass))
}

/// Returns the first tenant of a log, which is the only one here.
fn first_tenant() -> TenantId
    ensures { result ≡ 0 }
{
    TenantId::new(0).unwrap()
}

/// Returns the fault. If memory ran out, that is reported to the client first, as far as the output
/// takes it at once: no request was read then.
pub(crate) fn refuse_to_open<O: Output>(fault: Fault, output: &mut O) -> Fault
    ensures fault { result ≡ fault }
    ensures told { RefusesToOpen fault (O.tells output.old) (O.tells output.new) }
{
    if fault == Fault::Memory {
        push_while_taken(refusal_text(WireNo::OUT_OF_MEMORY), output);
    }
    fault
}

/// What becomes of the memory of a client's last log and its commands after the client was served.
#[derive(Clone, Copy)]
pub(crate) enum Memory {
    /// It is freed, piece by piece.
    Freed,
    /// It is left to the operating system, which takes it back at once when the process ends.
    Left,
}

impl Memory {
    /// Returns whether the memory of a log is left that was served with this result: never if
    /// another log follows.
    pub(crate) fn is_left(self, served: &Result<Option<Next>, Fault>) -> bool {
        matches!(self, Memory::Left) && !matches!(served, Ok(Some(_)))
    }
}

/// How one client is served over logs of its own.
#[derive(Drop)]
pub(crate) struct Service<'t, T> {
    pub(crate) alloc: Global,
    pub(crate) hashing: Hashing,
    /// What opens the log that follows a full one.
    pub(crate) over: &'t T,
    /// The quotas of the only tenant.
    pub(crate) limits: Limits,
    /// How many places each log has.
    pub(crate) places: u64,
    /// How many logs there may be in total.
    pub(crate) generations: u64,
    pub(crate) memory: Memory,
}

/// Serves one client as `serve_client` does, but may leave the memory of the last log's commands to
/// the operating system.
pub(crate) fn serve_and_leave<R: Wait, T: TurnOver, I: Input, O: Output>(
    rt: &R,
    service: &Service<'_, T>,
    input: &mut I,
    output: &mut O,
) -> Result<(), Fault>
    requires generations { 1 ≤ service.now.generations }
    ensures outcome { MatchResult result
        (λ _. ServesByLogs T.refused service.now.limits service.now.places
        service.now.generations (both (I.tells input.old) (O.tells output.old))
        (both (I.tells input.new) (O.tells output.new)))
        (StopsService service.now.limits service.now.places service.now.generations
        (both (I.tells input.old) (O.tells output.old))
        (both (I.tells input.new) (O.tells output.new))) }
{
    let (log, pass) = match open_alone(service.alloc, service.limits, service.places) {
        Ok(opened) => opened,
        Err(fault) => return Err(refuse_to_open(fault, output)),
    };
    let mut conn = Conn::new(service.alloc, first_tenant());
    let served = serve_logs(rt, service, log, pass, &mut conn, input, output);
    if let Memory::Left = service.memory {
        mem::forget(conn);
    }
    served
}

/// Serves one client over logs of its own, until the input ends or a request ends the stream.
///
/// Each log has this many places, one worker, and one tenant with these quotas. The worker reads
/// requests from the input, submits their commands, and pushes the replies. When all places are
/// taken and another command comes, the next log is opened over the table, up to `generations` of
/// them; a command after the last place of the last one is answered `SERVER_ERROR log full`. That
/// is so too where the next log can't be opened: `over`, which turns a full log over, runs out of
/// memory, or the changes of a whole log couldn't all get uniques. An input that has nothing and an
/// output that is full are asked again.
///
/// Returns `Memory` if memory runs out: the queued replies and then `SERVER_ERROR out of memory`
/// are pushed, as far as the output takes them at once. Returns `Input` or `Output` if the input or
/// the output fails, and `Taken` if a command's cell holds another value: nothing more is pushed
/// then. Returns `BadSettings` if the quotas or the number of places are out of range: nothing is
/// done then.
pub fn serve_client<R: Wait, T: TurnOver, I: Input, O: Output>(
    rt: &R,
    alloc: Global,
    hashing: Hashing,
    over: &T,
    limits: Limits,
    places: u64,
    generations: u64,
    input: &mut I,
    output: &mut O,
) -> Result<(), Fault>
    requires generations { 1 ≤ generations }
    // How the service ends, from what came in to what went out, and why if fewer logs served.
    ensures outcome { MatchResult result
        (λ _. ServesByLogs T.refused limits places generations
        (both (I.tells input.old) (O.tells output.old))
        (both (I.tells input.new) (O.tells output.new)))
        (StopsService limits places generations (both (I.tells input.old) (O.tells output.old))
        (both (I.tells input.new) (O.tells output.new))) }
{
    let service = Service {
        alloc,
        hashing,
        over,
        limits,
        places,
        generations,
        memory: Memory::Freed,
    };
    serve_and_leave(rt, &service, input, output)
}
