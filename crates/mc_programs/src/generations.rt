//! Serving one client over logs one after another, each with one worker.
ghost use Rattle.std.specs.Prelude.{◌≡◌, ◌⊎◌, ◌+◌, ◌≤◌, ◌∷◌, ℕ, [], length, false, true, None, IfOk, IfSome, MatchResult};
ghost use Rattle.mc_model.specs.declared.settings.Limits.{Limits};
ghost use Rattle.mc_conn.specs.declared.conn.Role.TheVariants.{Tenant};
ghost use Rattle.mc_conn.specs.Ending.{PullsLate, Serves, Stops};
ghost use Rattle.mc_conn.specs.Owed.{FitsLog, mark_of};
ghost use Rattle.mc_conn.specs.Turn.{scene};
ghost use Rattle.mc_programs.specs.Generations.{FollowsOn, LogsHaveServed, IsForOne, IsFreshOver, IsNextForOne, ServesLog};
ghost use Rattle.mc_programs.specs.Serving.{ServesByLogs, StopsByLogs, settings_alone};
ghost use Rattle.mc_stream.specs.Stream.{Streams, both};
ghost use Rattle.uc_cells.specs.Sighting.{entries};
ghost use Rattle.mc_model.specs.History.{state_after};
ghost use Rattle.mc_model.specs.Replay.{EachStands, HaveRoom};
ghost use Rattle.mc_conn.specs.Alone.{commands_of, first_mark};
ghost use Rattle.uc_log.specs.Passes.{IsNew};
ghost use Rattle.uc_worker.specs.Worker.{HasReplayedAll, history_of, openings_of, tables_of};

use crate::serving::{Service, refuse_to_open};
use crate::turning_over::TurnOver;
use mc_conn::{Conn, State, pump, pump_until};
use mc_model::Fault;
use mc_stream::{Input, Output};
use std::alloc::Global;
use std::mem;
use std::sync::Wait;
use uc_log::{Log, Pass};
use uc_worker::{Base, Next, Worker};

/// Opens the log that follows this one, all of whose places its one worker has replayed.
///
/// Returns `None` if the changes of a whole log couldn't all get uniques, or if memory runs out.
fn next_log<T: TurnOver>(alloc: Global, over: &T, log: &Log, worker: &Worker<'_>) -> Option<Next>
    requires alone { IsForOne log.now }
    requires log { worker.now.log.now ≡ log.now }
    requires done { HasReplayedAll worker.now }
    ensures ready { IfSome result IsNextForOne }
    ensures settings { IfSome result (λ next. next.log.settings ≡ log.now.settings) }
    ensures stands { IfSome result (λ next.
        EachStands (openings_of worker.now) (entries (history_of worker.now))
        next.base.tables.items) }
    ensures tables { EachStands (openings_of worker.now) (entries (history_of worker.now))
        (tables_of worker.now) }
    ensures none { result ≡ None →
        ¬ (HaveRoom (tables_of worker.now) log.now.settings.places) ⊎ T.refused worker.now }
{
    // The contract of `history` says what the table is in which there may be no room.
    let _ = worker.history();
    if !worker.has_room(log.settings().places()) {
        return None;
    }
    over.turn_over(alloc, log, worker)
}

/// Serves the client with this worker to the client's end. A command after the log's last place is
/// answered `SERVER_ERROR log full`.
///
/// Returns the errors of `pump`.
fn serve_to_end<R: Wait, I: Input, O: Output>(
    rt: &R,
    worker: &mut Worker<'_>,
    conn: &mut Conn,
    input: &mut I,
    output: &mut O,
) -> Result<Option<Next>, Fault>
    requires role { FitsLog conn.old.role worker.old }
    requires going { conn.old.is_closed ≡ false }
    ensures outcome { MatchResult result
        (λ after. (after ≡ None)
        × Serves (scene conn.old worker.old (both (I.tells input.old) (O.tells output.old)))
        (scene conn.new worker.new (both (I.tells input.new) (O.tells output.new))))
        (Stops (scene conn.old worker.old (both (I.tells input.old) (O.tells output.old)))
        (scene conn.new worker.new (both (I.tells input.new) (O.tells output.new)))) }
    ensures late { PullsLate
        (scene conn.old worker.old (both (I.tells input.old) (O.tells output.old)))
        (scene conn.new worker.new (both (I.tells input.new) (O.tells output.new))) }
{
    pump(rt, conn, worker, input, output)?;
    Ok(None)
}

/// Serves the client with this worker of this log, with which nothing was done yet, until the
/// client has ended, or the log is full and the next one is opened, which is returned. The last log
/// is never followed by another, nor is one that can't be: it serves the client to the end.
///
/// Returns the errors of `pump`.
fn serve_log<R: Wait, T: TurnOver, I: Input, O: Output>(
    rt: &R,
    service: &Service<'_, T>,
    log: &Log,
    worker: &mut Worker<'_>,
    is_last: bool,
    conn: &mut Conn,
    input: &mut I,
    output: &mut O,
) -> Result<Option<Next>, Fault>
    requires alone { IsForOne log.now }
    requires log { worker.old.log.now ≡ log.now }
    requires fresh { mark_of worker.old ≡ first_mark }
    requires role { conn.old.role ≡ Tenant 0 }
    requires going { conn.old.is_closed ≡ false }
    ensures served { (limits : Limits) (places logs : ℕ) (first : Streams) →
        (served : LogsHaveServed limits places logs first conn.old
        (both (I.tells input.old) (O.tells output.old))) →
        log.now.settings ≡ settings_alone limits places →
        IsFreshOver limits places served.requests worker.old →
        MatchResult result
        (ServesLog T.refused limits places logs is_last first conn.new
        (both (I.tells input.new) (O.tells output.new)))
        (StopsByLogs limits places (logs + 1) first
        (both (I.tells input.new) (O.tells output.new))) }
    ensures ready { IfOk result
        (λ after. IfSome after (λ next. (is_last ≡ false) × IsNextForOne next)) }
    ensures going { IfOk result (λ after. IfSome after (λ _. (conn.new.role ≡ Tenant 0)
        × (conn.new.is_closed ≡ false))) }
{
    // The laws from which that follows.
    mc_read::laws::every_stream_reads();
    mc_conn::laws::logs_of_a_worker_alone_add_up();
    mc_conn::laws::parts_add_up();
    mc_conn::laws::turns_add_up();
    if is_last {
        return serve_to_end(rt, worker, conn, input, output);
    }
    match pump_until(rt, conn, worker, input, output)? {
        State::Closed => Ok(None),
        State::Full => match next_log(service.alloc, service.over, log, worker) {
            Some(next) => Ok(Some(next)),
            None => serve_to_end(rt, worker, conn, input, output),
        },
        State::Idle | State::Busy => unreachable!(),
    }
}

/// Opens the worker of the first log, and serves the client as `serve_log` does.
///
/// Returns `Memory` if memory runs out at the opening, which is reported to the client.
fn open_first<R: Wait, T: TurnOver, I: Input, O: Output>(
    rt: &R,
    service: &Service<'_, T>,
    log: &Log,
    pass: Pass,
    is_last: bool,
    conn: &mut Conn,
    input: &mut I,
    output: &mut O,
) -> Result<Option<Next>, Fault>
    requires alone { IsForOne log.now }
    requires new { IsNew log.now 0 pass }
    requires role { conn.old.role ≡ Tenant 0 }
    requires going { conn.old.is_closed ≡ false }
    ensures served { (limits : Limits) (places : ℕ) →
        LogsHaveServed limits places 0 (both (I.tells input.old) (O.tells output.old)) conn.old
        (both (I.tells input.old) (O.tells output.old)) →
        log.now.settings ≡ settings_alone limits places →
        MatchResult result
        (ServesLog T.refused limits places 0 is_last
        (both (I.tells input.old) (O.tells output.old)) conn.new
        (both (I.tells input.new) (O.tells output.new)))
        (StopsByLogs limits places 1 (both (I.tells input.old) (O.tells output.old))
        (both (I.tells input.new) (O.tells output.new))) }
    ensures ready { IfOk result
        (λ after. IfSome after (λ next. (is_last ≡ false) × IsNextForOne next)) }
    ensures going { IfOk result (λ after. IfSome after (λ _. (conn.new.role ≡ Tenant 0)
        × (conn.new.is_closed ≡ false))) }
{
    let mut worker = match Worker::open(service.alloc, service.hashing, log, pass) {
        Ok(worker) => worker,
        Err(fault) => return Err(refuse_to_open(fault, output)),
    };
    serve_log(rt, service, log, &mut worker, is_last, conn, input, output)
}

/// Serves the client over its first log, as `serve_log` does.
///
/// Returns `Memory` if memory runs out at the opening, which is reported to the client.
fn serve_first<R: Wait, T: TurnOver, I: Input, O: Output>(
    rt: &R,
    service: &Service<'_, T>,
    log: Log,
    pass: Pass,
    is_last: bool,
    conn: &mut Conn,
    input: &mut I,
    output: &mut O,
) -> Result<Option<Next>, Fault>
    requires alone { IsForOne log }
    requires new { IsNew log 0 pass }
    requires role { conn.old.role ≡ Tenant 0 }
    requires going { conn.old.is_closed ≡ false }
    ensures served { (limits : Limits) (places : ℕ) →
        LogsHaveServed limits places 0 (both (I.tells input.old) (O.tells output.old)) conn.old
        (both (I.tells input.old) (O.tells output.old)) →
        log.settings ≡ settings_alone limits places →
        MatchResult result
        (ServesLog T.refused limits places 0 is_last
        (both (I.tells input.old) (O.tells output.old)) conn.new
        (both (I.tells input.new) (O.tells output.new)))
        (StopsByLogs limits places 1 (both (I.tells input.old) (O.tells output.old))
        (both (I.tells input.new) (O.tells output.new))) }
    ensures ready { IfOk result
        (λ after. IfSome after (λ next. (is_last ≡ false) × IsNextForOne next)) }
    ensures going { IfOk result (λ after. IfSome after (λ _. (conn.new.role ≡ Tenant 0)
        × (conn.new.is_closed ≡ false))) }
{
    let served = open_first(rt, service, &log, pass, is_last, conn, input, output);
    if service.memory.is_left(&served) {
        mem::forget(log);
    }
    served
}

/// Opens the worker of a later log over the table that the last one left, and serves the client as
/// `serve_log` does.
///
/// Returns `Memory` if memory runs out at the opening, which is reported to the client.
fn open_next<R: Wait, T: TurnOver, I: Input, O: Output>(
    rt: &R,
    service: &Service<'_, T>,
    log: &Log,
    pass: Pass,
    base: &Base,
    is_last: bool,
    conn: &mut Conn,
    input: &mut I,
    output: &mut O,
) -> Result<Option<Next>, Fault>
    requires alone { IsForOne log.now }
    requires new { IsNew log.now 0 pass }
    requires tables { length base.now.tables.items ≡ 1 }
    requires room { HaveRoom base.now.tables.items log.now.settings.places }
    requires role { conn.old.role ≡ Tenant 0 }
    requires going { conn.old.is_closed ≡ false }
    ensures served { (limits : Limits) (places logs : ℕ) (first : Streams) →
        (served : LogsHaveServed limits places logs first conn.old
        (both (I.tells input.old) (O.tells output.old))) →
        log.now.settings ≡ settings_alone limits places →
        base.now.tables.items ≡ state_after limits (commands_of served.requests) ∷ [] → 1 ≤ logs →
        MatchResult result
        (ServesLog T.refused limits places logs is_last first conn.new
        (both (I.tells input.new) (O.tells output.new)))
        (StopsByLogs limits places (logs + 1) first
        (both (I.tells input.new) (O.tells output.new))) }
    ensures ready { IfOk result
        (λ after. IfSome after (λ next. (is_last ≡ false) × IsNextForOne next)) }
    ensures going { IfOk result (λ after. IfSome after (λ _. (conn.new.role ≡ Tenant 0)
        × (conn.new.is_closed ≡ false))) }
{
    // The law from which that follows, if the worker can't be opened.
    mc_read::laws::every_stream_reads();
    let mut worker = match Worker::open_over(service.alloc, log, pass, base) {
        Ok(worker) => worker,
        Err(fault) => {
            conn.close(fault, output);
            return Err(fault);
        }
    };
    serve_log(rt, service, log, &mut worker, is_last, conn, input, output)
}

/// Serves the client over a later log, as `serve_log` does.
///
/// Returns `Memory` if memory runs out at the opening, which is reported to the client.
fn serve_next<R: Wait, T: TurnOver, I: Input, O: Output>(
    rt: &R,
    service: &Service<'_, T>,
    next: Next,
    is_last: bool,
    conn: &mut Conn,
    input: &mut I,
    output: &mut O,
) -> Result<Option<Next>, Fault>
    requires ready { IsNextForOne next }
    requires role { conn.old.role ≡ Tenant 0 }
    requires going { conn.old.is_closed ≡ false }
    ensures served { (limits : Limits) (places logs : ℕ) (first : Streams) →
        (served : LogsHaveServed limits places logs first conn.old
        (both (I.tells input.old) (O.tells output.old))) →
        FollowsOn limits places served.requests next → 1 ≤ logs →
        MatchResult result
        (ServesLog T.refused limits places logs is_last first conn.new
        (both (I.tells input.new) (O.tells output.new)))
        (StopsByLogs limits places (logs + 1) first
        (both (I.tells input.new) (O.tells output.new))) }
    ensures ready { IfOk result
        (λ after. IfSome after (λ next. (is_last ≡ false) × IsNextForOne next)) }
    ensures going { IfOk result (λ after. IfSome after (λ _. (conn.new.role ≡ Tenant 0)
        × (conn.new.is_closed ≡ false))) }
{
    let Next {
        log,
        mut passes,
        base,
    } = next;
    let Some(pass) = passes.pop() else {
        unreachable!()
    };
    let served = open_next(rt, service, &log, pass, &base, is_last, conn, input, output);
    if service.memory.is_left(&served) {
        mem::forget(log);
        mem::forget(base);
    }
    served
}

/// Serves the client over a log, and over as many logs in total as the service may have, one after
/// another.
///
/// Returns the errors of `pump`.
pub(crate) fn serve_logs<R: Wait, T: TurnOver, I: Input, O: Output>(
    rt: &R,
    service: &Service<'_, T>,
    log: Log,
    pass: Pass,
    conn: &mut Conn,
    input: &mut I,
    output: &mut O,
) -> Result<(), Fault>
    requires alone { IsForOne log }
    requires new { IsNew log 0 pass }
    requires generations { 1 ≤ service.now.generations }
    requires role { conn.old.role ≡ Tenant 0 }
    requires going { conn.old.is_closed ≡ false }
    ensures served { (limits : Limits) (places : ℕ) →
        LogsHaveServed limits places 0 (both (I.tells input.old) (O.tells output.old)) conn.old
        (both (I.tells input.old) (O.tells output.old)) →
        log.settings ≡ settings_alone limits places →
        MatchResult result
        (λ _. ServesByLogs T.refused limits places service.now.generations
        (both (I.tells input.old) (O.tells output.old))
        (both (I.tells input.new) (O.tells output.new)))
        (StopsByLogs limits places service.now.generations
        (both (I.tells input.old) (O.tells output.old))
        (both (I.tells input.new) (O.tells output.new))) }
{
    let is_last = service.generations == 1;
    let first = serve_first(rt, service, log, pass, is_last, conn, input, output)?;
    let Some(mut next) = first else {
        return Ok(());
    };
    for earlier in 1..service.generations {
        let is_last = earlier + 1 == service.generations;
        match serve_next(rt, service, next, is_last, conn, input, output)? {
            Some(after) => next = after,
            None => return Ok(()),
        }
    }
    unreachable!()
}
