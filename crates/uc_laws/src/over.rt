//! The theorem, for every run of the core whose workers begin with any tables: each announced
//! command stands at most once in the log, all replicas agree on every replayed prefix, and each
//! replayed command's reply is what memcached's commands give on the table with which its tenant
//! began, after only its tenant's commands in log order. So logs that go on from equal tables of a
//! tenant, and agree for it, give equal replies.
ghost use Rattle.std.specs.Prelude.{◌≡◌, ◌↔◌, ℕ, ◌+◌, List, length};
ghost use Rattle.mc_model.specs.Lawful.{IsReached};
ghost use Rattle.mc_model.specs.Replay.{empty_tables};
ghost use Rattle.mc_model.specs.Settings.{Configuration};
ghost use Rattle.uc_core.specs.Asked.{AnnouncementsStand, FewProposals, IsOfSettings, ReplaysCount};
ghost use Rattle.uc_core.specs.Core.{CoreState, core_size, new_core};
ghost use Rattle.uc_core.specs.Headline.{AnswerAlike, AnsweredOnce, AreOfSeveral, IsDecidedSoon, KeepsRealTime, LogIsSound, OwnAreAnswered, RepliesAreAnswers, ReplicasAgree, StandsAfterDecided, StepsAreEnabled, StopsForGood, TablesStand};
ghost use Rattle.uc_core.specs.Run.{Given};
ghost use Rattle.uc_laws.specs.CoreRun.{core_over};
ghost use Rattle.uc_laws.specs.Over.{AnswerAlikeOver, ByEventsOver, EachHasATable, OfEveryRunOver, OfEveryRunOverWith, RepliesAreAnswersOver, TablesStandOver};

/// What is true of every run over tables: of any settings, any tables, and any events of any
/// workers in any order.
pub fn laws_over_tables()
    // Each announced command stands at most once in the log.
    ensures once { OfEveryRunOver (λ tables core given. LogIsSound core) }

    // All replicas agree on every replayed prefix.
    ensures replicas { OfEveryRunOver (λ tables core given. ReplicasAgree core) }

    // Each reply is the answer of the table with which its tenant began, after only its tenant's
    // commands in log order.
    ensures replies { OfEveryRunOver
        (λ tables core given. RepliesAreAnswersOver tables core given) }

    // Each command of its own that a worker has replayed was answered, if each tenant has a table.
    ensures answered { OfEveryRunOver
        (λ tables core given. EachHasATable tables core → OwnAreAnswered core given) }

    // No place is answered twice.
    ensures answered_once { OfEveryRunOver (λ tables core given. AnsweredOnce given) }

    // Each table is the one with which its tenant began, after its tenant's commands that its
    // worker has replayed.
    ensures tables { OfEveryRunOver (λ tables core given. TablesStandOver tables core) }

    // Once one place more than there are workers was decided since a command was announced, that
    // command has a place, whether or not its worker has stopped.
    ensures helped { OfEveryRunOver
        (λ tables core given. IsDecidedSoon (length core.shown.workers + 1) core) }
    // As many as there are workers aren't enough, whatever the settings of two workers and more.
    ensures sharp { (settings : Configuration) → AreOfSeveral settings →
        ¬ OfEveryRunOverWith settings
        (λ tables core given. IsDecidedSoon settings.workers core) }

    // A command stands after all places that were decided when it was announced.
    ensures after { OfEveryRunOver (λ tables core given. StandsAfterDecided core) }

    // So a command that was answered before another was announced stands before it.
    ensures real_time { OfEveryRunOver (λ tables core given. KeepsRealTime core given) }

    // A worker that stops has stopped for good.
    ensures stopped { OfEveryRunOver (λ tables core given. StopsForGood core) }

    // An event that leads on meets no fault.
    ensures enabled { OfEveryRunOver (λ tables core given. StepsAreEnabled core) }

    // Whatever the log shows is reachable by events of the shown log alone.
    ensures shown { OfEveryRunOver (λ tables core given. IsReached (core_size core) core.shown) }
{
    uc_core::laws();
    uc_core::events_lead_one_way();
}

/// What is true of any two runs over tables, of any workers, places and other tenants: if a tenant
/// of each begins with equal tables, and their logs agree for it, all replies to its commands are
/// equal in both.
pub fn two_worlds_over_tables()
    ensures { OfEveryRunOver (λ tables core given.
        OfEveryRunOver (λ other_tables other other_given.
        AnswerAlikeOver tables core given other_tables other other_given)) }
{
    laws_over_tables();
}

/// What the settings and the events of a run over tables say of the core that it leads to, by the
/// list of events alone.
pub fn runs_over_tables_do_what_is_asked()
    // The core has the workers, the places and the tenants' quotas of its settings.
    ensures settings { ByEventsOver (λ settings events core. IsOfSettings settings core) }

    // Under a worker's ticket number k are, for good, the tenant and the command of its
    // announcement number k.
    ensures announced { ByEventsOver (λ settings events core. AnnouncementsStand events core) }

    // A worker has replayed as many places as the run has replays of it.
    ensures replayed { ByEventsOver (λ settings events core. ReplaysCount events core) }

    // For one command a worker makes at most one proposal more than there are workers.
    ensures proposed { ByEventsOver (λ settings events core. FewProposals settings events) }
{
    uc_core::runs_do_what_is_asked();
}

/// Over empty tables, those of a first log, a run is one of the headline, and each clause on tables
/// is the headline's.
pub fn empty_tables_are_the_first_logs()
    // The core opens as it does in the headline's runs.
    ensures opening { (settings : Configuration) →
        core_over settings (empty_tables settings.tenants) ≡ new_core settings }
    ensures tables { (core : CoreState) →
        TablesStandOver (empty_tables core.openings) core ↔ TablesStand core }
    ensures replies { (core : CoreState) (given : List Given) →
        RepliesAreAnswersOver (empty_tables core.openings) core given
        ↔ RepliesAreAnswers core given }
    ensures alike { (core other : CoreState) (given other_given : List Given) →
        AnswerAlikeOver (empty_tables core.openings) core given (empty_tables other.openings) other
        other_given ↔ AnswerAlike core given other other_given }
{}
