//! What all workers of a log have done is a run of the machine of the headline. A law is the contract
//! of a function with an empty body, or with calls of the laws from which it follows.
ghost use Rattle.std.specs.Prelude.{◌≡◌};
ghost use Rattle.mc_model.specs.Replay.{empty_tables};
ghost use Rattle.mc_model.specs.Settings.{Configuration};
ghost use Rattle.uc_core.specs.Core.{new_core};
ghost use Rattle.uc_laws.specs.CoreRun.{core_over};
ghost use Rattle.uc_refinement.specs.Refinement.{AllDoOneCoreRun, ClosedLogsRunTheCore, EarlierRepliesAreGiven, NothingIsDecidedBehindAll, OwnHaveTheirReplies, SettledCommandsAreReplayed, SubmittedRepliesAreGiven, TheyRunTheCore};

/// Where all workers of a log have replayed the same number of places, and all that they have
/// learned, the log's run has decided these places and no others. So a log that is turned over has
/// no command that its history lacks.
pub fn nothing_is_decided_behind_all()
    ensures { NothingIsDecidedBehindAll }
{}

/// What all workers of a log have done, if one run has it all, is a run of the core, the machine of
/// the headline, in which each worker has replayed as many places as its history has.
pub fn all_workers_run_the_core()
    // Each ticket's tenant and command may be given to it: the run of the log has none.
    ensures given { TheyRunTheCore }
    // They may be those that the workers have put into their cells: then each worker's history has
    // what stands in that run.
    ensures put { AllDoOneCoreRun }
    // Over empty tables, those of a first log, the core opens as it does in the headline's runs,
    ensures opening { (settings : Configuration) →
        core_over settings (empty_tables settings.tenants) ≡ new_core settings }
    // and over any tables, one for each tenant at least, it answers each worker's own commands, where
    // the workers have one history, with the replies that follow from that history.
    ensures replies { OwnHaveTheirReplies }
    // Where the workers have closed their log, its history is all of the core's log.
    ensures closed { ClosedLogsRunTheCore }
{
    uc_laws::a_run_of_the_log_is_one_of_the_core();
    uc_laws::laws_over_tables();
    uc_laws::runs_over_tables_do_what_is_asked();
}

/// What a worker answered while it served is what the core's run of its log, once this is closed,
/// gives it at the same place: a reply is never that of an earlier state of the tables, or of a later
/// one.
pub fn replies_are_those_of_the_run()
    // What follows from its history as it was then is given,
    ensures earlier { EarlierRepliesAreGiven }
    // and so is what `Worker::submit` has answered.
    ensures submitted { SubmittedRepliesAreGiven }
{}

/// What `Worker::submit` says of commands that are settled: these are the ones that the worker has
/// replayed, not only learned.
pub fn settled_commands_are_replayed()
    ensures { SettledCommandsAreReplayed }
{}
