//! Doing what a request asks for, and queueing its reply.
ghost use Rattle.std.specs.Prelude.{◌≡◌, ◌<◌, ◌++◌, length, MatchResult, None, Some};
ghost use Rattle.mc_counters.specs.Kinds.{asked_for_by};
ghost use Rattle.mc_model.specs.declared.fault.Fault.TheVariants as faults;
ghost use Rattle.mc_model.specs.declared.reply.Reply.{Reply};
ghost use Rattle.mc_model.specs.declared.reply.Reply.TheVariants.{Refused};
ghost use Rattle.mc_model.specs.declared.request.Request.TheVariants as Request;
ghost use Rattle.mc_conn.specs.declared.conn.Role.TheVariants as Role;
ghost use Rattle.uc_worker.specs.Worker.{tenants_of};
ghost use Rattle.uc_worker.specs.Going.{Continues};
ghost use Rattle.mc_conn.specs.Owed.{FitsLog, answered};
ghost use Rattle.mc_conn.specs.Parts.{AnswersCommand, Counts, GivesReply, IsTakeFault, MayAnnounce, Refuses, Responds};
ghost use Rattle.mc_conn.specs.Tallying.{HasCounted};

use crate::conn::Role;
use crate::queue::Queue;
use mc_counters::{AnsweredRequests, Asked, Tally};
use mc_model::{Command, Fault, Reply, Request, TenantId, WireNo};
use uc_worker::{Gate, Worker};

/// Submits a command and returns its reply. A full log is a reply, not an error.
///
/// Returns `Memory` and `Taken` as `Worker::submit` does.
fn answer<'a, G: Gate>(
    tenant: TenantId,
    command: Command,
    worker: &mut Worker<'a>,
    gate: &mut G,
) -> Result<Reply<'a>, Fault>
    requires tenant { tenant < length (tenants_of worker.old) }
    ensures onward { Continues worker.old worker.new }
    ensures outcome { MatchResult result
        (AnswersCommand worker.old worker.new tenant command) IsTakeFault }
    ensures announced { MayAnnounce worker.old worker.new tenant command }
{
    match worker.submit(tenant, command, gate) {
        Ok(answer) => Ok(answer.reply),
        Err(Fault::LogFull) => Ok(Reply::Refused(WireNo::LOG_FULL)),
        Err(Fault::Memory) => Err(Fault::Memory),
        Err(Fault::Taken) => Err(Fault::Taken),
        // `submit` returns no other fault.
        Err(Fault::Input | Fault::Output | Fault::BadEvent | Fault::BadSettings) => unreachable!(),
    }
}

/// Queues a reply, unless the request is quiet.
///
/// Returns `Memory` if memory runs out; the queue is unchanged then.
fn queue_reply(reply: &Reply<'_>, quiet: bool, queue: &mut Queue) -> Result<(), Fault>
    ensures { MatchResult result (λ _. queue.new ≡ queue.old ++ answered quiet reply.now)
        (λ fault. (fault ≡ faults.Memory) × (queue.new ≡ queue.old)) }
{
    if quiet {
        return Ok(());
    }
    queue.append(reply)
}

/// Queues a reply, unless the request is quiet, and counts the request.
///
/// Returns `Memory` if memory runs out; the queue is unchanged then, and nothing is counted.
fn reply_and_count(
    asked: &Option<Asked>,
    reply: &Reply<'_>,
    quiet: bool,
    queue: &mut Queue,
    past: &mut AnsweredRequests,
    tally: &mut Tally,
) -> Result<(), Fault>
    ensures queued { MatchResult result (λ _. queue.new ≡ queue.old ++ answered quiet reply.now)
        (λ fault. (fault ≡ faults.Memory) × (queue.new ≡ queue.old)) }
    ensures counts { MatchResult result
        (λ _. GivesReply asked.now quiet reply.now queue.old queue.new past.old past.new)
        (λ _. past.new ≡ past.old) }
    ensures tally { HasCounted past.old past.new tally.old tally.new }
{
    queue_reply(reply, quiet, queue)?;
    tally.count(asked, reply);
    past.add(asked, reply);
    Ok(())
}

/// Refuses a request without the log, and counts it.
///
/// Returns `Memory` if memory runs out; the queue is unchanged then, and nothing is counted.
fn refuse(
    refusal: WireNo,
    quiet: bool,
    queue: &mut Queue,
    past: &mut AnsweredRequests,
    tally: &mut Tally,
) -> Result<(), Fault>
    ensures queued { MatchResult result
        (λ _. queue.new ≡ queue.old ++ answered quiet (Refused refusal))
        (λ fault. (fault ≡ faults.Memory) × (queue.new ≡ queue.old)) }
    ensures counts { MatchResult result
        (λ _. GivesReply None quiet (Refused refusal) queue.old queue.new past.old past.new)
        (λ _. past.new ≡ past.old) }
    ensures tally { HasCounted past.old past.new tally.old tally.new }
{
    reply_and_count(&None, &Reply::Refused(refusal), quiet, queue, past, tally)
}

/// Submits a tenant's command, queues its reply unless the request is quiet, and counts the
/// request.
///
/// Returns `Memory` if memory runs out, and `Taken` if the command's cell holds another value. No
/// reply is queued then, and the command may be announced.
fn respond_by_log<G: Gate>(
    tenant: TenantId,
    command: Command,
    quiet: bool,
    queue: &mut Queue,
    worker: &mut Worker<'_>,
    gate: &mut G,
    past: &mut AnsweredRequests,
    tally: &mut Tally,
) -> Result<(), Fault>
    requires tenant { tenant < length (tenants_of worker.old) }
    ensures onward { Continues worker.old worker.new }
    ensures outcome { let role = Role.Tenant tenant in let request = Request.Logged command quiet in
        MatchResult result
        (λ _. Responds worker.old worker.new role request queue.old queue.new)
        (Refuses worker.old worker.new role request queue.old queue.new) }
    ensures counts { MatchResult result
        (λ _. (reply : Reply) × GivesReply (Some (asked_for_by command)) quiet reply queue.old
        queue.new past.old past.new) (λ _. past.new ≡ past.old) }
    ensures tally { HasCounted past.old past.new tally.old tally.new }
{
    let asked = Some(Asked::by(&command));
    let reply = answer(tenant, command, worker, gate)?;
    reply_and_count(&asked, &reply, quiet, queue, past, tally)
}

/// Does what a request asks for, queues the reply, and counts the request by it.
///
/// Returns `Memory` if memory runs out, and `Taken` if the cell of the request's command holds
/// another value. No reply is queued then, nothing is counted, and the command may be announced.
pub(crate) fn respond<G: Gate>(
    role: &Role,
    request: Request,
    queue: &mut Queue,
    worker: &mut Worker<'_>,
    gate: &mut G,
    past: &mut AnsweredRequests,
    tally: &mut Tally,
) -> Result<(), Fault>
    requires role { FitsLog role.now worker.old }
    ensures onward { Continues worker.old worker.new }
    ensures outcome { MatchResult result
        (λ _. Responds worker.old worker.new role.now request queue.old queue.new)
        (Refuses worker.old worker.new role.now request queue.old queue.new) }
    ensures counts { MatchResult result
        (λ _. Counts role.now request queue.old queue.new past.old past.new)
        (λ _. past.new ≡ past.old) }
    ensures tally { HasCounted past.old past.new tally.old tally.new }
{
    match request {
        Request::Logged { command, quiet } => match role {
            Role::Tenant(tenant) => {
                respond_by_log(*tenant, command, quiet, queue, worker, gate, past, tally)
            }
            Role::Admin(_) => refuse(WireNo::UNKNOWN_COMMAND, quiet, queue, past, tally),
        },
        Request::Limit {
            name,
            limits,
            quiet,
        } => match role {
            Role::Tenant(_) => refuse(WireNo::UNKNOWN_COMMAND, quiet, queue, past, tally),
            Role::Admin(names) => match names.tenant(&name) {
                Some(tenant) => {
                    let command = Command::Limit { limits };
                    respond_by_log(tenant, command, quiet, queue, worker, gate, past, tally)
                }
                None => refuse(WireNo::BAD_FORMAT, false, queue, past, tally),
            },
        },
        Request::Local { reply, quiet } => {
            reply_and_count(&None, &reply, quiet, queue, past, tally)
        }
        Request::Quit => Ok(()),
        Request::TooLong => refuse(WireNo::LINE_TOO_LONG, false, queue, past, tally),
    }
}
