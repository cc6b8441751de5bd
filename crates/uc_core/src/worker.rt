//! One worker of the core, and what each event makes of it.
ghost use Rattle.std.specs.Option.{option_copied, unwrap_or};
ghost use Rattle.std.specs.Prelude.{◌≡◌, ◌≢◌, ◌+◌, ◌-◌, ◌^◌, ◌<◌, ◌≤◌, ℕ, List, [], ◌∷◌, ◌++◌, length, take, vec_len, vec_capacity, slice_get, if◌then◌else◌, Some, IfErr, IfOk, OnOk, OnErr, IsOkUnless};
ghost use Rattle.mc_model.specs.declared.id.Ticket.{Ticket};
ghost use Rattle.mc_model.specs.declared.reply.Reply.TheVariants.{Values};
ghost use Rattle.mc_model.specs.declared.reply.Value.{Value};
ghost use Rattle.mc_model.specs.declared.shown.Phase.TheVariants.{Idle, Looked};
ghost use Rattle.mc_model.specs.Lawful.{decided_with};
ghost use Rattle.mc_model.specs.Replay.{TakeEffect, reply_from};
ghost use Rattle.mc_model.specs.State.{TableState};
ghost use Rattle.mc_model.specs.Shown.{announce, look, proposal, propose, read, stop};

use mc_items::tables::{owned_tables, take_effect};
use mc_items::{Hashing, Items};
use mc_model::{Entry, Fault, Limits, Phase, Reply, Ticket, WorkerId};
use std::alloc::Global;

/// What the core keeps of a worker, apart from what it announced.
#[derive(Debug, Drop)]
pub(crate) struct Worker {
    pub(crate) phase: Phase,
    /// The number of commands that it has announced.
    pub(crate) announced: u64,
    /// The number of decided places that it has learned.
    pub(crate) learned: usize,
    /// The number of learned places that it has replayed.
    pub(crate) replayed: usize,
    pub(crate) mark: Option<u64>,
    pub(crate) look: Option<Ticket>,
    pub(crate) proposals: u64,
    /// The number of tickets of each worker that it has learned, indexed by worker number.
    counts: Vec<u64>,
    /// One table per tenant, indexed by tenant number.
    pub(crate) tables: Vec<Items>,
}

impl Worker {
    ghost use Rattle.uc_core.specs.Kept.{AreCounts, IsFresh, IsInOrder, is_latest_of, shown_worker, replay_of};

    /// Returns a worker before any event, of a log with `workers` workers. Returns `Memory` if an
    /// allocation fails.
    pub(crate) fn new(alloc: Global, workers: usize, openings: &[Limits]) -> Result<Worker, Fault>
        ensures fresh { IfOk result (λ worker. IsFresh workers openings.now worker) }
        ensures memory { IsOkUnless result Fault.Memory }
    {
        Ok(Worker {
            phase: Phase::Idle,
            announced: 0,
            learned: 0,
            replayed: 0,
            mark: None,
            look: None,
            proposals: 0,
            counts: vec![in alloc; 0; workers]?,
            // Who writes the events chooses the keys, and nobody else waits for them.
            tables: owned_tables(alloc, openings, Hashing::Fixed)?,
        })
    }

    /// Announces one more command.
    pub(crate) fn announce(&mut self)
        requires { self.old.announced < 2 ^ 64 - 1 }
        ensures shown { (decided : List Ticket) →
            shown_worker decided self.new ≡ announce (shown_worker decided self.old) }
        ensures order { (workers places : ℕ) (decided : List Ticket) →
            IsInOrder workers places decided self.old →
            self.old.announced ≤ self.old.learned → IsInOrder workers places decided self.new }
        ensures replay { replay_of self.new ≡ replay_of self.old }
    {
        self.phase = Phase::Pending;
        self.announced += 1;
        self.mark = None;
        self.proposals = 0;
    }

    /// Learns the ticket of the next place. The phase is then idle if this is the ticket of the
    /// worker's latest command, and `phase` otherwise.
    fn learn(&mut self, number: WorkerId, phase: Phase, ticket: Ticket)
        requires few { self.old.learned < 2 ^ 64 - 1 }
        requires counts { (many : ℕ) → slice_get self.old.counts.items ticket.worker ≡ Some many →
            many ≤ self.old.learned }
        ensures phase { self.new.phase
            ≡ (if is_latest_of number self.old.announced ticket then Idle else phase) }
        ensures others { self.new
            ≡ record self.old {
              phase = self.new.phase;
              learned = self.old.learned + 1;
              counts =
                  self.new.counts;
            } }
        ensures counts { (tickets : List Ticket) → AreCounts tickets self.old.counts.items →
            AreCounts (tickets ++ ticket ∷ []) self.new.counts.items }
        ensures workers { vec_len self.new.counts ≡ vec_len self.old.counts }
    {
        let is_latest = ticket.worker == number
            && self.announced.checked_sub(1) == Some(ticket.number);
        self.phase = if is_latest { Phase::Idle } else { phase };
        self.learned += 1;
        if let Some(count) = self.counts.get_mut(usize::from(ticket.worker.number())) {
            *count += 1;
        }
    }

    /// Reads the next place: learns what stands there, or may take an empty place as its mark.
    pub(crate) fn read(&mut self, number: WorkerId, decided: &[Ticket])
        requires few { length decided.now < 2 ^ 64 - 1 }
        requires learned { self.old.learned ≤ length decided.now }
        requires counts { AreCounts (take self.old.learned decided.now) self.old.counts.items }
        ensures shown { shown_worker decided.now self.new
            ≡ read number (slice_get decided.now self.old.learned)
            (shown_worker decided.now self.old) }
        ensures order { (workers places : ℕ) → IsInOrder workers places decided.now self.old →
            self.old.phase ≢ Looked →
            IsInOrder workers places decided.now self.new }
        ensures replay { replay_of self.new ≡ replay_of self.old }
    {
        let Some(ticket) = decided.get(self.learned) else {
            if self.phase == Phase::Pending && self.mark.is_none() {
                self.mark = Some(self.learned as u64);
            }
            return;
        };
        self.learn(number, self.phase, *ticket);
    }

    /// Looks at the worker to help, which has announced `announced` commands: finds the first of
    /// them that it hasn't learned.
    pub(crate) fn look(&mut self, helped: WorkerId, announced: u64)
        requires { helped < vec_len self.old.counts }
        ensures shown { (decided : List Ticket) →
            AreCounts (take self.old.learned decided) self.old.counts.items →
            shown_worker decided self.new ≡ look helped announced (shown_worker decided self.old) }
        ensures order { (workers places : ℕ) (decided : List Ticket) →
            IsInOrder workers places decided self.old →
            self.old.learned < places → IsInOrder workers places decided self.new }
        ensures replay { replay_of self.new ≡ replay_of self.old }
    {
        let learned = self.counts[usize::from(helped.number())];
        self.phase = Phase::Looked;
        self.look = if learned < announced {
            Some(Ticket {
                worker: helped,
                number: learned,
            })
        } else {
            None
        };
    }

    /// Proposes what it found, or its own command, at its next place, and learns what then stands
    /// there.
    pub(crate) fn propose(&mut self, number: WorkerId, decided: &mut Vec<Ticket>)
        requires learned { self.old.learned ≤ vec_len decided.old }
        requires room { self.old.learned ≡ vec_len decided.old →
            vec_len decided.old < vec_capacity decided.old }
        requires counts { AreCounts
            (take self.old.learned decided.old.items) self.old.counts.items }
        requires proposals { self.old.proposals ≤ self.old.learned }
        ensures decided { decided.new.items ≡
            decided_with (proposal number (shown_worker decided.old.items self.old)) decided.old.items (slice_get decided.old.items self.old.learned) }
        ensures shown { shown_worker decided.new.items self.new ≡
            propose number (slice_get decided.old.items self.old.learned)
            (shown_worker decided.old.items self.old) }
        ensures room { vec_capacity decided.new ≡ vec_capacity decided.old }
        ensures order { (workers places : ℕ) → IsInOrder workers places decided.old.items self.old →
            IsInOrder workers places decided.new.items self.new }
        ensures replay { replay_of self.new ≡ replay_of self.old }
    {
        let ticket = decide(decided, self.learned, self.proposal(number));
        self.learn(number, Phase::Pending, ticket);
        self.look = None;
        self.proposals += 1;
    }

    /// Returns what it proposes: the ticket that it found, or its own latest.
    fn proposal(&self, number: WorkerId) -> Ticket
        ensures { (decided : List Ticket) →
            result ≡ proposal number (shown_worker decided self.now) }
    {
        match self.look {
            Some(ticket) => ticket,
            None => Ticket {
                worker: number,
                number: self.announced.saturating_sub(1),
            },
        }
    }

    /// Replays the next place, if this is the entry that stands there, and returns the reply if it
    /// is the worker's own. Returns `Memory` if an allocation fails; nothing changes then.
    pub(crate) fn replay(
        &mut self,
        number: WorkerId,
        found: Option<&Entry>,
    ) -> Result<Option<Reply<'static>>, Fault>
        requires few { self.old.replayed < 2 ^ 64 - 1 }
        requires uniques { (tenant : ℕ) (state : TableState) →
            slice_get self.old.tables.items tenant ≡ Some state →
            state.last_unique ≤ self.old.replayed }
        ensures reply { IfOk result
            (λ reply. reply ≡ reply_from number self.old.tables.items (option_copied found.entry)) }
        ensures replayed { OnOk result (self.new.replayed ≡ self.old.replayed + 1) }
        ensures tables { OnOk result
            (TakeEffect (option_copied found.entry) self.old.tables.items self.new.tables.items) }
        ensures shown { (decided : List Ticket) →
            shown_worker decided self.new ≡ shown_worker decided self.old }
        ensures order { (workers places : ℕ) (decided : List Ticket) →
            IsInOrder workers places decided self.old → IsInOrder workers places decided self.new }
        ensures memory { IsOkUnless result Fault.Memory }
        ensures unchanged { OnErr result (replay_of self.new ≡ replay_of self.old) }
    {
        let reply = take_effect(&mut self.tables, Some(number), found)?;
        let reply = owned(*self.tables.allocator(), reply)?;
        self.replayed += 1;
        Ok(reply)
    }

    /// Stops for good.
    pub(crate) fn stop(&mut self)
        ensures shown { (decided : List Ticket) →
            shown_worker decided self.new ≡ stop (shown_worker decided self.old) }
        ensures order { (workers places : ℕ) (decided : List Ticket) →
            IsInOrder workers places decided self.old → IsInOrder workers places decided self.new }
        ensures replay { replay_of self.new ≡ replay_of self.old }
    {
        self.phase = Phase::Stopped;
    }
}

/// Returns the same reply, which borrows nothing. Returns `Memory` if an allocation fails, which
/// only the items of a retrieval need: so no table has changed then.
fn owned(alloc: Global, reply: Option<Reply<'_>>) -> Result<Option<Reply<'static>>, Fault>
    ensures same { IfOk result (λ owned. owned ≡ reply.entry) }
    ensures items { IfErr result
        (λ fault. (values : List Value) × (reply.entry ≡ Some (Values values))) }
    ensures memory { IsOkUnless result Fault.Memory }
{
    match reply {
        Some(reply) => Ok(Some(reply.into_owned(alloc)?)),
        None => Ok(None),
    }
}

/// Decides the place by the proposal, if the place is empty and the next. Returns what then stands
/// there.
fn decide(decided: &mut Vec<Ticket>, place: usize, proposal: Ticket) -> Ticket
    requires place { place ≤ vec_len decided.old }
    requires room { place ≡ vec_len decided.old → vec_len decided.old < vec_capacity decided.old }
    ensures decided { decided.new.items
        ≡ decided_with proposal decided.old.items (slice_get decided.old.items place) }
    ensures found { result ≡ unwrap_or (slice_get decided.old.items place) proposal }
    ensures learned { take (place + 1) decided.new.items
        ≡ take place decided.old.items ++ result ∷ [] }
    ensures within { place < vec_len decided.new }
    ensures grows { vec_len decided.old ≤ vec_len decided.new }
    ensures room { vec_capacity decided.new ≡ vec_capacity decided.old }
{
    if let Some(found) = decided.get(place) {
        return *found;
    }
    let ticket = proposal;
    decided.push_reserved(proposal);
    ticket
}
