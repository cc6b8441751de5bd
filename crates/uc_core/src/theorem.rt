//! The theorem, for every run of the core: the contracts say it, and the bodies are empty.
//!
//! For every interleaving of announcing, reading, looking, proposing and replaying steps, whichever
//! workers stop for good, each announced command stands at most once in the log, all replicas agree
//! on every replayed prefix, and each replayed command's reply is what memcached's commands give on
//! a table holding only its tenant's commands in log order, so runs whose logs agree for a tenant
//! give equal replies. Each command is answered at most once, and one that was answered before
//! another was announced stands before it.
ghost use Rattle.std.specs.Prelude.{◌≡◌, ◌⊎◌, ◌↔◌, ℕ, ◌+◌, ◌<◌, ◌≤◌, [], ◌∷◌, length, true, Some, None};
ghost use Rattle.mc_model.specs.declared.reply.Reply.{Reply};
ghost use Rattle.mc_model.specs.Helping.{HelpingLaw, IsSoonDecided, LogLaw, LooksAreUsed, MarksStay};
ghost use Rattle.mc_model.specs.Lawful.{IsReached, turn};
ghost use Rattle.mc_model.specs.Settings.{Configuration};
ghost use Rattle.mc_model.specs.declared.shown.LogSize as size;
ghost use Rattle.mc_model.specs.declared.shown.ShownState as state;
ghost use Rattle.mc_model.specs.declared.shown.WorkerState as worker;
ghost use Rattle.uc_core.specs.Asked.{AnnouncementsStand, ByEvents, FewProposals, IsOfSettings, ReplaysCount};
ghost use Rattle.uc_core.specs.Core.{CoreState, core_size};
ghost use Rattle.uc_core.specs.Headline.{AnswerAlike, AnsweredOnce, AreOfSeveral, FaultsStand, IsDecidedSoon, KeepsRealTime, LogIsSound, OfEveryRun, OfEveryRunWith, OwnAreAnswered, RepliesAreAnswers, ReplicasAgree, StandsAfterDecided, StepsAreAlone, StepsAreEnabled, StepsAreOne, StepsLeadOn, StepsLearn, StopsForGood, TablesStand, WorkersAreFree};
ghost use Rattle.uc_core.specs.Run.{given_by, replayed_by};
ghost use Rattle.uc_core.specs.Step.{actor, is_quiet};
ghost use Rattle.uc_core.specs.declared.event.Event.{Event};
ghost use Rattle.uc_core.specs.declared.event.Event.TheVariants.{Look, Propose, Read, Stop};

/// What is true of every run: of any settings, and any events of any workers in any order.
pub fn laws()
    // Each announced command stands at most once in the log.
    ensures once { OfEveryRun (λ core given. LogIsSound core) }

    // All replicas agree on every replayed prefix.
    ensures replicas { OfEveryRun (λ core given. ReplicasAgree core) }

    // Each reply is the answer after only its tenant's commands in log order.
    ensures replies { OfEveryRun (λ core given. RepliesAreAnswers core given) }

    // Each command of its own that a worker has replayed was answered.
    ensures answered { OfEveryRun (λ core given. OwnAreAnswered core given) }

    // No place is answered twice.
    ensures answered_once { OfEveryRun (λ core given. AnsweredOnce given) }

    // Each table stands for its tenant's commands that its worker has replayed.
    ensures tables { OfEveryRun (λ core given. TablesStand core) }

    // Once one place more than there are workers was decided since a command was announced, that
    // command has a place, whether or not its worker has stopped.
    ensures helped { OfEveryRun
        (λ core given. IsDecidedSoon (length core.shown.workers + 1) core) }
    // As many as there are workers aren't enough, whatever the settings of two workers and more.
    ensures sharp { (settings : Configuration) → AreOfSeveral settings →
        ¬ OfEveryRunWith settings (λ core given. IsDecidedSoon settings.workers core) }

    // A command stands after all places that were decided when it was announced.
    ensures after { OfEveryRun (λ core given. StandsAfterDecided core) }

    // So a command that was answered before another was announced stands before it.
    ensures real_time { OfEveryRun (λ core given. KeepsRealTime core given) }

    // A worker that stops has stopped for good.
    ensures stopped { OfEveryRun (λ core given. StopsForGood core) }

    // Whatever the log shows is reachable by events of the shown log alone.
    ensures shown { OfEveryRun (λ core given. IsReached (core_size core) core.shown) }
{}

/// What is true of any two runs, of any workers, places and other tenants: if their logs agree for
/// a tenant of each, all replies to that tenant's commands are equal in both.
pub fn two_worlds()
    ensures { OfEveryRun
        (λ core given. OfEveryRun (λ other other_given. AnswerAlike core given other other_given)) }
{}

/// What is true of every event. In any state that a run leads to it leads on only if it meets no
/// fault. In any state it leads on if it meets none, to one state alone, and changes its own worker
/// alone.
pub fn events_lead_one_way()
    // An event that leads on meets no fault.
    ensures enabled { OfEveryRun (λ core given. StepsAreEnabled core) }

    // An event leads to one state alone, with one reply or with none.
    ensures one { (core : CoreState) → StepsAreOne core }

    // An event that meets no fault leads on.
    ensures on { (core : CoreState) → StepsLeadOn core }

    // No worker waits for another.
    ensures free { (core : CoreState) → WorkersAreFree core }

    // Which fault another event meets, whichever of its conditions fail.
    ensures faults { (core : CoreState) → FaultsStand core }

    // An event changes its own worker alone.
    ensures alone { (core : CoreState) → StepsAreAlone core }

    // A read of a decided place learns it, and a proposal learns its place.
    ensures learns { (core : CoreState) → StepsLearn core }
{}

/// What the settings and the events of a run say of the core that it leads to, by the list of
/// events alone.
pub fn runs_do_what_is_asked()
    // The core has the workers, the places and the tenants' quotas of its settings.
    ensures settings { ByEvents (λ settings events core. IsOfSettings settings core) }

    // Under a worker's ticket number k are, for good, the tenant and the command of its
    // announcement number k.
    ensures announced { ByEvents (λ settings events core. AnnouncementsStand events core) }

    // A worker has replayed as many places as the run has replays of it.
    ensures replayed { ByEvents (λ settings events core. ReplaysCount events core) }

    // For one command a worker makes at most one proposal more than there are workers.
    ensures proposed { ByEvents (λ settings events core. FewProposals settings events) }
{}

/// The events that never need memory are the reads, the looks, the proposals and the stops, and no
/// others.
pub fn quiet_events_are_by_name()
    ensures { (event : Event) → (is_quiet event ≡ true) ↔ ((number : ℕ) ×
        ((event ≡ Read number) ⊎ (event ≡ Look number) ⊎ (event ≡ Propose number)
        ⊎ (event ≡ Stop number))) }
{}

/// An event's reply is given exactly once, with its worker and the place that this worker replays,
/// and nothing else is given.
pub fn replies_are_given_once()
    ensures reply { (core : CoreState) (event : Event) (reply : Reply) →
        given_by core event (Some reply)
        ≡ (actor event, replayed_by core (actor event), reply) ∷ [] }
    ensures none { (core : CoreState) (event : Event) → given_by core event None ≡ [] }
{}

/// What is true of the shown log in every reachable state, and how soon a command is decided there.
pub fn shown_states()
    ensures lawful { (n : size.LogSize) (s : state.ShownState) → IsReached n s → LogLaw n s }
    ensures helping { (n : size.LogSize) (s : state.ShownState) → IsReached n s → HelpingLaw n s }
    ensures soon { (n : size.LogSize) → IsSoonDecided (n.workers + 1) n }
    // As many places as there are workers aren't soon enough, whatever the size.
    ensures sharp { (n : size.LogSize) → 1 < n.workers → n.workers ≤ n.places →
        ¬ IsSoonDecided n.workers n }
    // A mark stays until its worker announces again, and a look is used by one proposal.
    ensures marks { (n : size.LogSize) → MarksStay n }
    ensures looks { (n : size.LogSize) → LooksAreUsed n }
    // At each of the first places it is the turn of the worker with the place's number.
    ensures turns { (n : size.LogSize) (w : worker.WorkerState) → length w.learned < n.workers →
        turn n w ≡ length w.learned }
{}
