//! What follows of the logs that tenants were served on. A law is the contract of a function with
//! an empty body, or with calls of the laws from which it follows.
ghost use Rattle.std.specs.Prelude.{◌≡◌, ◌≤◌, ℕ, Some, length, map, slice_get};
ghost use Rattle.std.specs.declared.net.socket_addr.SocketAddrV4.{SocketAddrV4};
ghost use Rattle.mc_conn.specs.declared.conn.Role.TheVariants.{Admin, Tenant};
ghost use Rattle.mc_server.specs.CoreRuns.{AnnouncesInServedOrder, ClosedLogsAreCoreRuns, ClosedLogsDecidedNoMore, LastLogsAreCoreRuns, LastLogsComeBackOnCoreRuns, OwedRepliesAreGiven, RunsKeepOwnOrder, RunsKeepSeenOrder};
ghost use Rattle.mc_server.specs.Listeners.{clients_asked, roles_asked};
ghost use Rattle.mc_server.specs.NetworkWords.{NetworkAsked, NetworkGiven, admin_name, settings_asked, workers_for};
ghost use Rattle.mc_server.specs.OneLog.{LogsAreOneLog, NextRepliesFollowFromAll};
ghost use Rattle.mc_server.specs.TenantWord.{TenantAsked};
ghost use Rattle.mc_programs.specs.declared.options.TheConstants.{MAX_GENERATIONS};
ghost use Rattle.mc_server.specs.declared.generations.TheConstants.{MOST_PLACES};
ghost use Rattle.mc_server.specs.declared.network_words.TheConstants.{MAX_LOG_BYTES};

/// At most 65,536 logs may be asked for, one after another, and at most 1,099,511,627,776 bytes of
/// a log's commands. However many are asked for, a log is the last one once more than
/// 18,446,744,073,705,357,311 places of those before it were used.
pub fn numbers_of_a_service()
    ensures generations { MAX_GENERATIONS ≡ 65536 }
    ensures log_bytes { MAX_LOG_BYTES ≡ 1099511627776 }
    ensures places { MOST_PLACES ≡ 18446744073705357311 }
{}

/// What the words say of a tenant is its own: at its number stand the listener at its address, its
/// role and its quotas. Administrators come after all tenants, and know each number by that
/// tenant's name. As many workers serve as are asked for, where a log has a place for each.
pub fn each_tenant_has_what_its_word_says()
    ensures tenant { (asked : NetworkAsked) (number : ℕ) (tenant : TenantAsked) →
        slice_get asked.tenants number ≡ Some tenant →
        (slice_get (clients_asked asked) number
        ≡ Some (record { name = tenant.name; address = tenant.address }))
        × (slice_get (roles_asked asked) number ≡ Some (Tenant number))
        × (slice_get (settings_asked asked).tenants number ≡ Some tenant.limits) }
    ensures admin { (asked : NetworkAsked) (address : SocketAddrV4) → asked.admin ≡ Some address →
        (slice_get (clients_asked asked) (length asked.tenants)
        ≡ Some (record { name = admin_name; address = address }))
        × (slice_get (roles_asked asked) (length asked.tenants)
        ≡ Some (Admin (map (λ tenant. tenant.name) asked.tenants))) }
    ensures workers { (given : NetworkGiven) → given.workers ≤ given.places →
        workers_for given ≡ given.workers }
{}

/// What the workers of a log have done, of each log that is closed and of the last one of which
/// `WereServed` speaks, is one run of the core, the machine of the headline, over the tables that
/// the log was opened over. The core's log is the history that its workers have, and each reply
/// that a connection is owed for a command that has a place there is one of its replies. It also
/// answers a command whose worker ran out of memory, for which no connection is owed one.
pub fn each_log_is_one_run_of_the_core()
    ensures closed { ClosedLogsAreCoreRuns }
    ensures last { LastLogsAreCoreRuns }
    // So is what those of the last log had done as they came back, before they met.
    ensures back { LastLogsComeBackOnCoreRuns }
    // Whatever a connection is owed for a command, at any time, such a run gives at its place.
    ensures owed { OwedRepliesAreGiven }
{
    uc_refinement::all_workers_run_the_core();
    uc_refinement::replies_are_those_of_the_run();
    uc_worker::laws::workers_go_on();
}

/// The logs of a run of `wfmc`, which followed one another as `LogsWere` says, are one log that is
/// cut: the tables with which a log begins are those after all commands of the logs before it, in
/// their order, each tenant's after its own ones, from empty tables on. So a reply on that log is
/// the one that a table gives which holds only its tenant's commands, of all these logs and of that
/// one, in log order.
pub fn the_logs_of_a_run_are_one_log()
    ensures stands { LogsAreOneLog }
    ensures replies { NextRepliesFollowFromAll }
{}

/// Nothing is decided on a closed log behind the history that the next one goes on from, though it
/// may have places left: its workers have learned all that was decided.
pub fn closed_logs_have_no_other_commands()
    ensures { ClosedLogsDecidedNoMore }
{
    uc_refinement::nothing_is_decided_behind_all();
}

/// Of two commands of a worker that stand in its log's run, the one that it announced first stands
/// first, whichever connections they came by: a worker's commands are numbered as it announces
/// them. What it announced before it served connections has lower numbers than what it announces
/// after that. So what a client of two of its connections sees in order stands in that order: if it
/// was sent the reply to a command on the one, and a later serve takes a command on the other and
/// answers it, both stand in the run, and the first at the earlier place.
pub fn commands_of_a_worker_keep_their_order()
    ensures run { RunsKeepOwnOrder }
    ensures served { AnnouncesInServedOrder }
    ensures seen { RunsKeepSeenOrder }
{
    uc_laws::over::laws_over_tables();
    mc_connections::laws::work_adds_up();
    mc_connections::laws::what_a_client_has_seen_comes_first();
    uc_worker::laws::workers_go_on();
}
