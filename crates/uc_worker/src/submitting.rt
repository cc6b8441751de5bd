//! A command from its submission to its answer.
ghost use Rattle.std.specs.Prelude.{◌≡◌, ◌⊎◌, ◌<◌, length, Err, IfOk, IfErr, IsOk, OnErr, OnOk};
ghost use Rattle.mc_model.specs.declared.fault.Fault.TheVariants as faults;
ghost use Rattle.mc_model.specs.declared.shown.Phase.TheVariants as phase;
ghost use Rattle.uc_worker.specs.Counting.{TakesFew};
ghost use Rattle.uc_worker.specs.Going.{AnnouncesAtMost, CatchesUp, Continues, Submits};
ghost use Rattle.uc_worker.specs.Steps.{Leaves};
ghost use Rattle.uc_worker.specs.Unsettled.{HasSettled, UnsettlesOnlyNext};
ghost use Rattle.uc_worker.specs.Worker.{IsFull, IsSpent, IsUpToDate, openings_of, own_desk, seat_of, tenants_of};

use crate::announcing::{decide_new, settle};
use crate::gate::Gate;
use crate::worker::{Answer, Worker};
use mc_model::{Command, Fault, TenantId};

impl<'a> Worker<'a> {
    /// Decides a command that an earlier call left pending, and replays all that is learned then.
    ///
    /// Returns `LogFull` if that command is still pending, as all places are learned, and `Memory`
    /// if memory runs out.
    fn ready<G: Gate>(&mut self, gate: &mut G) -> Result<(), Fault>
        ensures catches { CatchesUp self.old self.new }
        ensures idle { OnOk result ((seat_of self.new).state.phase ≡ phase.Idle) }
        ensures all { OnOk result (IsUpToDate self.new) }
        ensures takes { TakesFew 1 (own_desk self.old) (own_desk self.new) }
        ensures faults { IfErr result
            (λ fault. ((fault ≡ faults.Memory) × ((seat_of self.new).state.phase ≡ phase.Idle))
            ⊎ ((fault ≡ faults.LogFull) × IsFull self.new
            × ((seat_of self.new).state.phase ≡ phase.Pending))) }
        ensures spent { (seat_of self.old).state.phase ≡ phase.Pending → IsFull self.old →
            result ≡ Err faults.LogFull }
        ensures still { (seat_of self.old).state.phase ≡ phase.Idle → IsUpToDate self.old →
            IsOk result × (self.new.pass ≡ self.old.pass) }
    {
        if !settle(self.log, &mut self.pass, gate) {
            return Err(Fault::LogFull);
        }
        let end = self.pass.learned();
        self.replay_to(end, gate)
    }

    /// Announces a command, decides it, and answers it once everything before it is replayed.
    ///
    /// Returns the same errors as `submit`.
    fn answer_new<G: Gate>(
        &mut self,
        tenant: TenantId,
        command: Command,
        gate: &mut G,
    ) -> Result<Answer<'a>, Fault>
        requires all { IsUpToDate self.old }
        requires idle { (seat_of self.old).state.phase ≡ phase.Idle }
        requires tenant { tenant < length (openings_of self.old) }
        ensures continues { Continues self.old self.new }
        ensures submits { IfOk result (λ answer. Submits self.old self.new tenant command answer) }
        ensures kept { OnErr result (AnnouncesAtMost self.old self.new tenant command) }
        ensures faults { IfErr result
            (λ fault. Leaves fault (seat_of self.old) (seat_of self.new)) }
        ensures takes { TakesFew 2 (own_desk self.old) (own_desk self.new) }
        ensures spent { IsFull self.old → result ≡ Err faults.LogFull }
        ensures spends { IfErr result
            (λ fault. fault ≡ faults.LogFull → IsUpToDate self.old → IsSpent self.new) }
    {
        decide_new(self.log, self.alloc, &mut self.pass, tenant, command, gate)?;
        let reply = self.reply_last(gate)?;
        Ok(Answer {
            place: self.pass.learned() - 1,
            reply,
            proposals: self.pass.proposals(),
        })
    }

    /// Submits the tenant's command, and answers it once it stands in the log and everything before
    /// it is replayed.
    ///
    /// Never waits for another worker. A command that an earlier call left pending is decided and
    /// replayed first; its reply is dropped.
    ///
    /// Returns `Memory` if memory runs out: this command, if it was announced, stands in the log
    /// and takes effect. Returns `LogFull` if all places are learned and this command isn't among
    /// them: it never takes effect. Returns `Taken` if its cell holds another value: it isn't
    /// announced.
    pub fn submit<G: Gate>(
        &mut self,
        tenant: TenantId,
        command: Command,
        gate: &mut G,
    ) -> Result<Answer<'a>, Fault>
        requires { tenant < length (tenants_of self.old) }
        // Whatever comes of it, it is the same worker later on.
        ensures continues { Continues self.old self.new }
        // The command is the last of the history, and its reply is the answer after its tenant's
        // own commands before it.
        ensures submits { IfOk result (λ answer. Submits self.old self.new tenant command answer) }
        // With a fault, at most this command was announced.
        ensures kept { OnErr result (AnnouncesAtMost self.old self.new tenant command) }
        // What a fault leaves.
        ensures faults { IfErr result
            (λ fault. Leaves fault (seat_of self.old) (seat_of self.new)) }
        // It takes at most two events for each place that it learns, and three more: so it ends,
        // whatever the others do, after at most two for each place of the log and three.
        ensures takes { TakesFew 3 (own_desk self.old) (own_desk self.new) }
        // Once a call has found the log full, each later call does.
        ensures spends { IfErr result (λ fault. fault ≡ faults.LogFull → IsSpent self.new) }
        ensures spent { IsSpent self.old → result ≡ Err faults.LogFull }
        // After an answer nothing is unsettled. After a fault at most this command is, or the one
        // that was left before.
        ensures settled { OnOk result (HasSettled self.new) }
        ensures unsettled { UnsettlesOnlyNext self.old self.new }
    {
        self.ready(gate)?;
        self.answer_new(tenant, command, gate)
    }
}
