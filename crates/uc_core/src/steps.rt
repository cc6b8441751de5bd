//! One event of the core: when it is enabled, and what it makes.
ghost use Rattle.std.specs.Prelude.{◌≡◌, ◌<◌, ◌≤◌, true, false, length, None, Some, IfOk, IfErr, OnOk, OnErr, IsOk, IsOkUnless};
ghost use Rattle.mc_model.specs.declared.fault.Fault.{Fault};
ghost use Rattle.uc_core.specs.Kept.{replay_of, shown_worker};
ghost use Rattle.uc_core.specs.Step.{CoreStep, StepShows, is_idle, is_looked, is_pending, is_quiet, is_stopped, refusal, refusal_by};
ghost use Rattle.uc_core.specs.declared.event.Event.TheVariants.{Announce, Look, Propose, Read, Replay, Stop};

use crate::event::Event;
use crate::machine::{Core, announced_under};
use crate::worker::Worker;
use mc_model::{Command, Entry, Fault, Phase, Reply, TenantId, Ticket, WorkerId};

impl Core {
    /// Takes one event, and returns the reply if it answers a command. Returns the fault of the
    /// first condition that fails if the event isn't enabled, and `Memory` if an allocation fails;
    /// nothing changes then.
    pub fn step(&mut self, event: Event) -> Result<Option<Reply<'static>>, Fault>
        ensures step { IfOk result (λ reply. CoreStep self.old event self.new reply) }
        ensures refused { (fault : Fault) → refusal self.old event ≡ Some fault →
            result ≡ Err fault }
        ensures memory { refusal self.old event ≡ None → IsOkUnless result Fault.Memory }

        // No event but an announcement or a replay needs memory.
        ensures quiet { is_quiet event ≡ true → refusal self.old event ≡ None → IsOk result }
        ensures shown { OnOk result (StepShows self.old event self.new) }
        ensures unchanged { OnErr result (self.new ≡ self.old) }
    {
        self.check(&event)?;
        self.take(event)
    }

    /// Returns `Ok` if the event is enabled, and otherwise the fault of its first condition that
    /// fails.
    pub fn check(&self, event: &Event) -> Result<(), Fault>
        ensures enabled { OnOk result (refusal self.now event.now ≡ None) }
        ensures fault { IfErr result (λ fault. refusal self.now event.now ≡ Some fault) }
    {
        let Some(worker) = self.workers.get(usize::from(event.actor())) else {
            return Err(Fault::BadEvent);
        };
        self.check_for(worker, event)
    }

    /// Does the same for the event's worker.
    fn check_for(&self, worker: &Worker, event: &Event) -> Result<(), Fault>
        requires { worker.now.learned ≤ length self.now.shown.decided }
        ensures enabled { OnOk result
            (refusal_by self.now event.now (shown_worker self.now.shown.decided worker.now)
            (replay_of worker.now) ≡ None) }
        ensures fault { IfErr result
            (λ fault. refusal_by self.now event.now (shown_worker self.now.shown.decided worker.now)
            (replay_of worker.now) ≡ Some fault) }
    {
        let has_room = (worker.learned as u64) < self.places;
        match event {
            Event::Announce(_, tenant, _) => {
                needs(is_idle(worker.phase), Fault::BadEvent)?;
                needs(usize::from(*tenant) < self.openings.len(), Fault::BadEvent)?;
                needs(has_room, Fault::LogFull)
            }
            Event::Read(_) => {
                needs(
                    is_idle(worker.phase) || is_pending(worker.phase),
                    Fault::BadEvent,
                )?;
                needs(has_room, Fault::BadEvent)
            }
            Event::Look(_) => {
                needs(is_pending(worker.phase), Fault::BadEvent)?;
                needs(has_room, Fault::LogFull)?;
                needs(worker.mark.is_some(), Fault::BadEvent)
            }
            Event::Propose(_) => needs(is_looked(worker.phase), Fault::BadEvent),
            Event::Replay(_) => {
                needs(!is_stopped(worker.phase), Fault::BadEvent)?;
                needs(worker.replayed < worker.learned, Fault::BadEvent)
            }
            Event::Stop(_) => needs(!is_stopped(worker.phase), Fault::BadEvent),
        }
    }

    /// Takes an event that is enabled.
    pub(crate) fn take(&mut self, event: Event) -> Result<Option<Reply<'static>>, Fault>
        requires { refusal self.old event ≡ None }
        ensures step { IfOk result (λ reply. CoreStep self.old event self.new reply) }
        ensures memory { IsOkUnless result Fault.Memory }
        ensures quiet { is_quiet event ≡ true → IsOk result }
        ensures unchanged { OnErr result (self.new ≡ self.old) }
    {
        match event {
            Event::Announce(worker, tenant, command) => self.announce(worker, tenant, command)?,
            Event::Read(worker) => self.read(worker),
            Event::Look(worker) => self.look(worker),
            Event::Propose(worker) => self.propose(worker),
            Event::Replay(worker) => return self.replay(worker),
            Event::Stop(worker) => self.stop(worker),
        }
        Ok(None)
    }

    /// Announces the tenant's command under the worker's next ticket.
    fn announce(&mut self, number: u8, tenant: u8, command: Command) -> Result<(), Fault>
        requires { refusal self.old (Announce number tenant command) ≡ None }
        ensures step { OnOk result
            (CoreStep self.old (Announce number tenant command) self.new None) }
        ensures memory { IsOkUnless result Fault.Memory }
        ensures unchanged { OnErr result (self.new ≡ self.old) }
    {
        let index = usize::from(number);
        let count = self.workers[index].announced;
        let ticket = Ticket {
            worker: WorkerId::new(number).unwrap(),
            number: count,
        };
        let tenant = TenantId::new(tenant).unwrap();
        self.entries[index].push(Entry {
            ticket,
            tenant,
            command,
        })?;
        self.workers[index].announce();
        Ok(())
    }

    /// Reads the worker's next place.
    fn read(&mut self, number: u8)
        requires { refusal self.old (Read number) ≡ None }
        ensures { CoreStep self.old (Read number) self.new None }
    {
        let worker = &mut self.workers[usize::from(number)];
        let id = WorkerId::new(number).unwrap();
        worker.read(id, &self.decided);
    }

    /// Looks at the worker whose turn it is at this worker's next place.
    fn look(&mut self, number: u8)
        requires { refusal self.old (Look number) ≡ None }
        ensures { CoreStep self.old (Look number) self.new None }
    {
        let index = usize::from(number);
        let turn = self.workers[index].learned % self.workers.len();
        let helped = WorkerId::new(turn as u8).unwrap();
        let announced = self.workers[turn].announced;
        let worker = &mut self.workers[index];
        worker.look(helped, announced);
    }

    /// Proposes at the worker's next place.
    fn propose(&mut self, number: u8)
        requires { refusal self.old (Propose number) ≡ None }
        ensures { CoreStep self.old (Propose number) self.new None }
    {
        let worker = &mut self.workers[usize::from(number)];
        let id = WorkerId::new(number).unwrap();
        worker.propose(id, &mut self.decided);
    }

    /// Replays the worker's next place.
    fn replay(&mut self, number: u8) -> Result<Option<Reply<'static>>, Fault>
        requires { refusal self.old (Replay number) ≡ None }
        ensures step { IfOk result (λ reply. CoreStep self.old (Replay number) self.new reply) }
        ensures memory { IsOkUnless result Fault.Memory }
        ensures unchanged { OnErr result (self.new ≡ self.old) }
    {
        let worker = &mut self.workers[usize::from(number)];
        let id = WorkerId::new(number).unwrap();
        let ticket = self.decided[worker.replayed];
        let found = announced_under(&self.entries, ticket);
        let reply = worker.replay(id, found)?;
        Ok(reply)
    }

    /// Stops the worker for good.
    fn stop(&mut self, number: u8)
        requires { refusal self.old (Stop number) ≡ None }
        ensures { CoreStep self.old (Stop number) self.new None }
    {
        self.workers[usize::from(number)].stop();
    }
}

/// Returns the fault unless the condition holds.
fn needs(condition: bool, fault: Fault) -> Result<(), Fault>
    ensures met { OnOk result (condition ≡ true) }
    ensures fault { IfErr result (λ it. (condition ≡ false) × (it ≡ fault)) }
{
    if condition { Ok(()) } else { Err(fault) }
}

fn is_idle(phase: Phase) -> bool
    ensures { result ≡ is_idle phase }
{
    matches!(phase, Phase::Idle)
}

fn is_pending(phase: Phase) -> bool
    ensures { result ≡ is_pending phase }
{
    matches!(phase, Phase::Pending)
}

fn is_looked(phase: Phase) -> bool
    ensures { result ≡ is_looked phase }
{
    matches!(phase, Phase::Looked)
}

fn is_stopped(phase: Phase) -> bool
    ensures { result ≡ is_stopped phase }
{
    matches!(phase, Phase::Stopped)
}
