//! What the definitions say of connections, log after log, and the numbers of this profile. A law
//! is the contract of a function with an empty body, or with calls of the laws from which it
//! follows.
ghost use mathlib.Core.Logic.{inl, inr};
ghost use Rattle.std.specs.Prelude.{◌≡◌, ◌≢◌, ◌↔◌, ◌⊎◌, ◌+◌, ◌*◌, ◌^◌, ◌<◌, ◌≤◌, [], ◌∷◌, ◌++◌, All, Bool, None, Option, Some, false, true, ℕ, List, length, replicate, slice_get};
ghost use Rattle.fair_places.specs.Places.{MayTake, held_by, with_held};
ghost use Rattle.fair_queue.specs.Turns.{IsFair, IsIdle, IsPushed};
ghost use Rattle.mc_conn.specs.Ending.{BreaksInTime, LogsLast, Stops};
ghost use Rattle.mc_conn.specs.Owed.{Mark, Owes, count_logged, demand_of, is_logged};
ghost use Rattle.mc_conn.specs.Turn.{Scene, Takes};
ghost use Rattle.mc_conn.specs.declared.conn.Role.{Role};
ghost use Rattle.mc_conn.specs.declared.conn.Role.TheVariants.{Admin, Tenant};
ghost use Rattle.mc_conn.specs.declared.conn.State.{State};
ghost use Rattle.mc_conn.specs.declared.conn.State.TheVariants.{Busy, Full};
ghost use Rattle.mc_counters.specs.Tallied.{CountedRequest};
ghost use Rattle.mc_connections.specs.Asking.{HaveBeenAsked, IsLogged, WereAnsweredAsAsked};
ghost use Rattle.mc_connections.specs.Counting.{HasPlace, held_as, is_of_tenant, with_held_as};
ghost use Rattle.mc_connections.specs.Holding.{WorkerPlaces};
ghost use Rattle.mc_connections.specs.InQueue.{WaitsOn};
ghost use Rattle.mc_connections.specs.InTurn.{HaveServedInTurn, InTurn};
ghost use Rattle.mc_connections.specs.Life.{OwesInLogs, OwesInParts, WasAnswered, WereAnsweredApart, came_of, sent_of};
ghost use Rattle.mc_connections.specs.Round.{HaveCome, IsOfConnection, MakesRound, Queued, ServesNext, TellsEnd};
ghost use Rattle.mc_connections.specs.Seen.{AreAnsweredFrom, IsAnsweredAmong, IsAnsweredInLogs, IsTakenInLogs, IsThere, SeesThenAsks, ServesAndAnswers, SplitsAtLast, WasSent, announced_number, history_place};
ghost use Rattle.mc_connections.specs.Serving.{HasComeTo, IsServedLater, answered_between, moved_between, scene_of, tenant_of};
ghost use Rattle.mc_connections.specs.Sharing.{OnlyTheTurnGoesOn, OthersTakeOneTurnEach, OthersTakeOneTurnPerConnection, RoundsAreServes};
ghost use Rattle.mc_connections.specs.Tallying.{tally_place};
ghost use Rattle.mc_connections.specs.Waiting.{AreQueued, LetsWait, WaitsInLine, cost_of, flow_of, short_at};
ghost use Rattle.mc_connections.specs.Working.{IsEmpty, KeepsPlaces, Standing, Works, standing};
ghost use Rattle.mc_connections.specs.declared.arrival.Admission.{Admission};
ghost use Rattle.mc_connections.specs.declared.arrival.Arrival.{Arrival};
ghost use Rattle.mc_connections.specs.declared.closing.TheConstants.{DROPPED_BYTES, MOST_CLOSING};
ghost use Rattle.mc_connections.specs.declared.connecting.TheConstants.{TURNS};
ghost use Rattle.mc_connections.specs.declared.connection.Connection.{Connection};
ghost use Rattle.mc_connections.specs.declared.connections.Connections.{Connections};
ghost use Rattle.mc_connections.specs.declared.connections.TheConstants.{MOST_OF_ALL};
ghost use Rattle.mc_connections.specs.declared.places.TheConstants.{MOST_ADMINS, MOST_CONNECTIONS};
ghost use Rattle.mc_connections.specs.declared.waiting.TheConstants.{BYTES_OF_A_REQUEST, BYTES_OF_A_SERVE, QUANTUM, ROUND};
ghost use Rattle.mc_connections.specs.declared.waiting.Waiting.{Waiting};
ghost use Rattle.mc_model.specs.declared.fault.Fault.{Fault};
ghost use Rattle.mc_model.specs.declared.request.Request.{Request};
ghost use Rattle.mio.specs.Event.{event_token};
ghost use Rattle.mio.specs.declared.event.event.Event.{Event};
ghost use Rattle.uc_worker.specs.Going.{CatchesUp, Continues};
ghost use Rattle.uc_worker.specs.Worker.{IsFull, announced_of, tenants_of};
ghost use Rattle.uc_worker.specs.declared.worker.Worker.{Worker};

/// Over one log, a connection is owed exactly what the log's worker owes it in parts.
pub fn one_log_is_owed_in_parts()
    ensures { (worker : Worker) (role : Role) (requests : List Request) (owed : List ℕ) →
        OwesInLogs role (worker ∷ []) requests owed ↔ (to : Mark)
        × OwesInParts worker role requests owed to }
{}

/// An event loop has at most 1,024 connections of tenants, and 16 more of administrators. Each gets
/// at most 2 turns when it is served. A tenant's connections may spend 20,480 bytes in their turn,
/// of which serving one counts as 4,096, and each of its requests as 1,024; a round doesn't end
/// before 10,240 are spent, while anybody waits. At most 64 streams of connections that have ended
/// close at the same time, and at most 65,536 bytes are dropped of each.
pub fn numbers_of_the_network()
    ensures connections { MOST_CONNECTIONS ≡ 1024 }
    ensures admins { MOST_ADMINS ≡ 16 }
    ensures all { MOST_OF_ALL ≡ 1040 }
    ensures turns { TURNS ≡ 2 }
    ensures quantum { QUANTUM ≡ 20480 }
    ensures serve { BYTES_OF_A_SERVE ≡ 4096 }
    ensures request { BYTES_OF_A_REQUEST ≡ 1024 }
    ensures round { ROUND ≡ 10240 }
    ensures closing { MOST_CLOSING ≡ 64 }
    ensures dropped { DROPPED_BYTES ≡ 65536 }
{}

/// Each tenant has a flow and a tally of its own, those of its number, and administrators have the
/// last ones.
pub fn each_tenant_has_its_own()
    ensures tenant { (tenant : ℕ) → tenant_of (Tenant tenant) ≡ Some tenant }
    ensures admin { (names : _) → tenant_of (Admin names) ≡ None }
    ensures flow { (tenants number : ℕ) → number < tenants →
        flow_of (tenants + 1) (Some number) ≡ number }
    ensures flow_of_admins { (tenants : ℕ) → flow_of (tenants + 1) None ≡ tenants }
    ensures tally { (tenants number : ℕ) → number < tenants →
        tally_place tenants (Some number) ≡ number }
    ensures tally_of_admins { (tenants : ℕ) → tally_place tenants None ≡ tenants }
{}

/// Each tenant holds places of its own, those of its number, however many tenants there are: they
/// decide whether one more of its connections has a place, a connection that takes or gives back a
/// place changes those of no other tenant, and it counts for its own tenant alone.
pub fn each_tenant_holds_its_own_places()
    ensures place { (tenant : ℕ) (places : WorkerPlaces) →
        HasPlace (Tenant tenant) places ↔ MayTake tenant places.tenants }
    ensures held { (tenant : ℕ) (places : WorkerPlaces) →
        held_as (Tenant tenant) places ≡ held_by places.tenants tenant }
    ensures taken { (tenant held : ℕ) (places : WorkerPlaces) →
        with_held_as (Tenant tenant) held places
        ≡ record places { tenants = with_held places.tenants tenant held } }
    ensures own { (tenant held : ℕ) (places : WorkerPlaces) →
        tenant < length places.tenants.held →
        held_as (Tenant tenant) (with_held_as (Tenant tenant) held places) ≡ held }
    ensures others { (tenant other held : ℕ) (places : WorkerPlaces) → other ≢ tenant →
        held_as (Tenant other) (with_held_as (Tenant tenant) held places)
        ≡ held_as (Tenant other) places }
    ensures counts { (tenant other : ℕ) →
        (is_of_tenant tenant (Tenant other) ≡ true) ↔ (other ≡ tenant) }
{}

/// A connection that has more to do, or whose command was left to the next log, waits behind those
/// of its tenant or of administrators, whatever the tenant's number and the connection's key, and a
/// short read isn't the last one for it. One that waits already stays where it is.
pub fn who_has_more_to_do_waits()
    ensures busy { (tenant : Option ℕ) (key : ℕ) (old new : Waiting) →
        WaitsOn Busy tenant key old new → LetsWait tenant key false old new }
    ensures full { (tenant : Option ℕ) (key : ℕ) (old new : Waiting) →
        WaitsOn Full tenant key old new → LetsWait tenant key false old new }
    ensures waits { (tenant : Option ℕ) (key : ℕ) (short : Bool) (old new : Waiting) →
        key < length old.waits.items → LetsWait tenant key short old new → WaitsInLine new key
        × (¬ (WaitsInLine old key)
        × IsPushed (flow_of (length old.queue.flows) tenant) key old.queue new.queue
        ⊎ WaitsInLine old key × (new.queue ≡ old.queue)) }
    ensures short { (tenant : Option ℕ) (key : ℕ) (old new : Waiting) →
        key < length old.waits.items → LetsWait tenant key false old new →
        short_at new key ≡ Some false }
{}

/// To serve a connection costs 4,096, as what the system's calls count, 1,024 for each of its
/// requests that got a reply, and 1 for each byte that came and each that was sent, as far as 64
/// bits count.
pub fn what_a_serve_costs()
    ensures cost { (requests bytes : ℕ) → 4096 + requests * 1024 + bytes < 2 ^ 64 →
        cost_of requests bytes ≡ 4096 + requests * 1024 + bytes }
    ensures requests { (old new : Connection) (more : List CountedRequest) →
        new.conn.past ≡ old.conn.past ++ more → length new.conn.past < 2 ^ 64 →
        answered_between old new ≡ length more }
    ensures bytes { (old new : Connection) (came went : List ℕ) →
        came_of new ≡ came_of old ++ came → sent_of new ≡ sent_of old ++ went →
        length (came_of new) + length (sent_of new) < 2 ^ 64 →
        moved_between old new ≡ length came + length went }
{}

/// Each time that a connection is served at most 128 of its requests get a reply, and at most
/// 32,768 bytes come, whatever its client sends: so the requests cost 131,072 at most, and what came
/// 32,768.
pub fn what_a_serve_takes()
    ensures requests { (until : Bool) (before after : Worker) (old new : Connection)
        (state : State) → IsServedLater until before after old new state →
        answered_between old new ≤ 128 }
    ensures bytes { (until : Bool) (before after : Worker) (old new : Connection) (state : State) →
        IsServedLater until before after old new state →
        length (came_of new) ≤ 32768 + length (came_of old) }
{}

/// Where commands are left to the next log, a serve logs none at a worker whose log is closing: of
/// those that it logs all but the last are taken before a moment at which it isn't closing yet, and
/// that one after it. Where a fault ends the connection it is so of the one that met it too.
pub fn a_serve_logs_in_time()
    ensures taken { (before after : Worker) (old new : Connection) (state : State)
        (later : IsServedLater true before after old new state)
        (takes : Takes (scene_of old before) (scene_of new after)) →
        later.served.how ≡ inl takes →
        (count_logged old.conn.role takes.taken.requests ≡ 0)
        ⊎ (between : Scene) × LogsLast (scene_of old before) between (scene_of new after) takes }
    ensures stopped { (before after : Worker) (old new : Connection) (state : State)
        (later : IsServedLater true before after old new state) (fault : Fault)
        (stops : Stops (scene_of old before) (scene_of new after) fault) →
        later.served.how ≡ inr (fault, stops) → BreaksInTime stops.breaks }
{}

/// While a connection waits in a flow and none of that flow is served, the serves of each other
/// flow in a round cost a quantum at most, and twice what the dearest serve does, of all these, in
/// whichever flow, and the one just before. The connections that are served in a round, one after
/// another, are such serves.
pub fn others_take_one_turn_each()
    ensures share { OthersTakeOneTurnEach }
    ensures rounds { RoundsAreServes }
{
    fair_queue::laws::a_flow_waits_for_one_quantum_of_each_other();
}

/// The same of a connection that waits behind others of its tenant, and of rounds one after another:
/// for each of these others, and once for the connection itself, the serves of each other tenant
/// cost a quantum at most and what the dearest serve does, in however many rounds; and that once
/// more, since the latest serve is charged before the next one. The dearest is of these serves and
/// the one just before.
pub fn others_take_one_turn_per_connection()
    ensures { OthersTakeOneTurnPerConnection }
{
    fair_queue::laws::a_key_waits_for_one_quantum_of_each_other_flow_per_key_up_to_it();
}

/// No flow of a worker's queue has more than a quantum left when it is new, as `ReadyQueue::new`
/// returns it, and each round, and each serve in it, keeps that: so the bound above holds of it.
pub fn rounds_stay_fair()
    ensures round { (until : Bool) (events : List Event) (before after : Queued) →
        MakesRound until events before after → IsFair before.waiting.queue →
        IsFair after.waiting.queue }
    ensures serve { (until : Bool) (before after : Queued) → ServesNext until before after →
        IsFair before.waiting.queue → IsFair after.waiting.queue }
{
    fair_queue::laws::a_fair_queue_stays_fair();
}

/// Who is noted as waiting is in the queue, once, and nobody else is: so it is when the queue is
/// new, as `ReadyQueue::new` returns it, and each round, and each serve in it, keeps that. So
/// whoever is noted as waiting waits behind a number of others in a flow, as the bounds above have
/// it.
pub fn who_waits_is_queued()
    ensures new { (waiting : Waiting) (places : ℕ) → IsIdle waiting.queue →
        waiting.waits.items ≡ replicate places None → AreQueued waiting }
    ensures round { (until : Bool) (events : List Event) (before after : Queued) →
        MakesRound until events before after → IsFair before.waiting.queue →
        AreQueued before.waiting → AreQueued after.waiting }
    ensures serve { (until : Bool) (before after : Queued) → ServesNext until before after →
        IsFair before.waiting.queue → AreQueued before.waiting → AreQueued after.waiting }
{
    fair_queue::laws::a_fair_queue_stays_fair();
}

/// Once 10,240 are spent in a round, only connections of the flow that has its turn are served in
/// it, and only while that turn goes on.
pub fn a_round_ends_with_a_turn()
    ensures { OnlyTheTurnGoesOn }
{}

/// Once an event has told of a connection that its peer has closed or that its stream has failed,
/// no short read is noted as the last one for it, whatever other events come before it is served.
/// So it is read to its end, of which no other event tells; that reads go by what is noted is in no
/// clause.
pub fn an_end_that_was_told_is_read()
    ensures ended { (connections : Connections) (first last : Waiting) (events : List Event)
        (place : ℕ) (event : Event) → HaveCome connections first events last →
        slice_get events place ≡ Some event → IsOfConnection event → TellsEnd event →
        short_at last (event_token event).0 ≢ Some true }
    // Nor where that was noted before these events came.
    ensures stays { (connections : Connections) (first last : Waiting) (events : List Event)
        (key : ℕ) → HaveCome connections first events last →
        short_at first key ≡ Some false → short_at last key ≡ Some false }
{}

/// Work adds up: none, work after work, and an arrival or the worker's catching up after work. The
/// worker is the same later on, its connections are still of its log's roles, and as many places
/// are kept for each tenant.
pub fn work_adds_up()
    ensures none { (until : Bool) (a : Standing) → Works until a a }
    ensures through { (until : Bool) (a b c : Standing) → Works until a b → Works until b c →
        Works until a c }
    ensures admits { (until : Bool) (a : Standing) (worker : Worker) (old new : Connections)
        (arrival : Arrival _) (admission : Admission) → Works until a (standing worker old) →
        HasComeTo old new arrival admission → Works until a (standing worker new) }
    ensures catches_up { (until : Bool) (a : Standing) (old new : Worker)
        (connections : Connections) → Works until a (standing old connections) →
        CatchesUp old new → Works until a (standing new connections) }
    ensures goes_on { (until : Bool) (a b : Standing) → Works until a b →
        Continues a.worker b.worker }
    ensures known { (until : Bool) (a b : Standing) → Works until a b →
        a.connections.tenants ≡ length (tenants_of a.worker) →
        b.connections.tenants ≡ length (tenants_of b.worker) }
    ensures keeps { (until : Bool) (reserve : ℕ) (a b : Standing) → Works until a b →
        KeepsPlaces reserve a.connections → KeepsPlaces reserve b.connections }
{}

/// Connections outlive logs: what a connection that has ended was sent, from its first byte to its
/// last, is what it is owed by the workers that have served it, log after log. If a fault ended it,
/// it is a prefix of that and of the words that report the fault.
pub fn connections_are_answered_over_logs()
    ensures { (who : InTurn) (connections : Connections) → HaveServedInTurn who connections →
        All (WasAnswered who.served) connections.ended.connections }
{
    mc_conn::laws::parts_add_up();
}

/// Connections that have ended at an event loop were answered so, and no two of them by one
/// command, however many logs its workers have served, one after another.
pub fn connections_are_answered_apart()
    ensures { (who : InTurn) (connections : Connections) → HaveServedInTurn who connections →
        WereAnsweredApart who.begun who.served connections.ended.connections }
{
    mc_conn::laws::parts_add_up();
}

/// Each request that is to be logged, of those that a connection's workers owe for, was answered by
/// a command, unless the log of the worker that took it is full, as that worker stands in the list.
/// The command is the one that the request logs, its worker has announced it, and it answers no
/// other request: neither of this connection nor of another that has ended.
pub fn a_command_answers_one_request()
    ensures each { (role : Role) (workers : List Worker) (requests : List Request)
        (owed : List ℕ) (owes : OwesInLogs role workers requests owed) (index : ℕ)
        (request : Request) → slice_get requests index ≡ Some request →
        is_logged (demand_of role request) ≡ true → (log : ℕ) × (worker : Worker)
        × (slice_get workers log ≡ Some worker) × IsTakenInLogs log index owes
        × (((number : ℕ) × IsAnsweredInLogs log number index owes) ⊎ IsFull worker) }
    // Its worker is the one that took it: each was taken on one log.
    ensures taken { (role : Role) (workers : List Worker) (requests : List Request)
        (owed : List ℕ) (owes : OwesInLogs role workers requests owed) (index one other : ℕ) →
        IsTakenInLogs one index owes → IsTakenInLogs other index owes → one ≡ other }
    ensures logged { (role : Role) (workers : List Worker) (requests : List Request)
        (owed : List ℕ) (owes : OwesInLogs role workers requests owed)
        (log number index : ℕ) (worker : Worker) → IsAnsweredInLogs log number index owes →
        slice_get workers log ≡ Some worker → (request : Request)
        × (slice_get requests index ≡ Some request) × IsLogged worker role request number }
    ensures owner { (begun served : List Worker) (ended : List Connection)
        (apart : WereAnsweredApart begun served ended) (later earlier : List Connection)
        (connection : Connection) (is : ended ≡ later ++ connection ∷ earlier)
        (log number index : ℕ) → IsAnsweredInLogs log number index
        (apart.answered later earlier connection is).answered.owes →
        apart.owner log number ≡ length earlier }
    // Where the last log was served twice, which counts as two logs here, a command answers in only
    // one of the two: it was announced since the worker began to serve that time, by `logged`
    // before it had served, and in between nothing was announced (`ServesInTwo` of mc_server).
    ensures since { (begun served : List Worker) (ended : List Connection)
        (apart : WereAnsweredApart begun served ended) (later earlier : List Connection)
        (connection : Connection) (is : ended ≡ later ++ connection ∷ earlier)
        (log number index : ℕ) (first : Worker) → IsAnsweredInLogs log number index
        (apart.answered later earlier connection is).answered.owes →
        slice_get begun log ≡ Some first → length (announced_of first) ≤ number }
    ensures request { (role : Role) (workers : List Worker) (requests : List Request)
        (owed : List ℕ) (owes : OwesInLogs role workers requests owed)
        (log number one other : ℕ) → IsAnsweredInLogs log number one owes →
        IsAnsweredInLogs log number other owes → one ≡ other }
{}

/// What a connection was sent by any moment between two serves, whether it is there still or has
/// ended, is a prefix of what it is owed by the workers that have served it, as they are then; where
/// a fault has closed it, of that and the words that report the fault.
pub fn connections_are_answered_so_far()
    ensures { (who : InTurn) (connections : Connections) (until : Bool) (begun : Worker)
        (now : Standing) (connection : Connection) → HaveServedInTurn who connections →
        Works until (standing begun connections) now → IsThere now connection →
        WasSent (who.served ++ now.worker ∷ []) connection }
{
    mc_conn::laws::parts_add_up();
}

/// Each request that a worker took and that is to be logged was answered, unless its log is full by
/// then. So was each that the worker of the last of several logs took, in whichever way what is
/// owed is split between that log and those before it.
pub fn logged_requests_are_answered()
    ensures among { (worker : Worker) (role : Role) (from to : Mark) (requests : List Request)
        (owed : List ℕ) → Owes worker role from requests owed to → (index : ℕ)
        (request : Request) → slice_get requests index ≡ Some request →
        is_logged (demand_of role request) ≡ true →
        IsAnsweredAmong worker role from requests owed index ⊎ IsFull worker }
    ensures on_last { (past : List Worker) (worker : Worker) (role : Role)
        (requests : List Request) (owed : List ℕ)
        (split : SplitsAtLast past worker role requests owed) →
        AreAnsweredFrom past worker role requests owed (length split.earlier) }
    // What is owed over logs splits so.
    ensures splits { (past : List Worker) (worker : Worker) (role : Role)
        (requests : List Request) (owed : List ℕ) →
        OwesInLogs role (past ++ worker ∷ []) requests owed →
        SplitsAtLast past worker role requests owed }
{}

/// If a client was sent the reply to a command on one connection, and the same worker answers
/// another command that it takes on a connection later, then the first was announced under a lower
/// number, and stands at an earlier place of the log.
pub fn what_a_client_has_seen_comes_first()
    ensures order { (until : Bool) (past : List Worker) (saw asked answered : Standing)
        (sees : SeesThenAsks until past saw asked answered) →
        (announced_number sees.seen.answer < announced_number sees.asks)
        × (history_place sees.seen.answer < history_place sees.asks) }
    // It is the same worker, later on.
    ensures onward { (until : Bool) (past : List Worker) (saw asked answered : Standing) →
        SeesThenAsks until past saw asked answered → Continues saw.worker answered.worker }
{}

/// Two requests that were answered have two announcements, also where they ask for the same. Of two
/// that a worker answers as it serves a connection, the later one's command was announced under the
/// higher number, and they stand at two places of the log. What it answers in one serve was
/// announced under lower numbers than what it answers in a later one, and stands at earlier places,
/// whichever connections these are of, and also where the log is served twice.
pub fn two_answers_have_two_announcements()
    ensures serve { (worker : Worker) (role : Role) (mark : Mark) (requests : List Request)
        (owed : List ℕ) (first second : ℕ)
        (one : IsAnsweredAmong worker role mark requests owed first)
        (two : IsAnsweredAmong worker role mark requests owed second) → first < second →
        (announced_number one < announced_number two)
        × (history_place one ≢ history_place two) }
    // The number of each is from the first mark of what is owed on, and below the last one.
    ensures within { (worker : Worker) (role : Role) (from to : Mark) (requests : List Request)
        (owed : List ℕ) → Owes worker role from requests owed to → (index : ℕ)
        (one : IsAnsweredAmong worker role from requests owed index) →
        (from.number ≤ announced_number one) × (announced_number one < to.number) }
    ensures serves { (until then_until : Bool) (begun served later last : Worker)
        (one : ServesAndAnswers until begun served)
        (two : ServesAndAnswers then_until later last) → Continues served later →
        (announced_number one.answer < announced_number two.answer)
        × (history_place one.answer < history_place two.answer) }
{}

/// Once no connection is left, each command that a worker has announced since it began to serve is
/// one request of a connection that has ended, and none was announced twice: neither on one log nor
/// on two.
pub fn commands_are_asked_for_over_logs()
    ensures { (who : InTurn) (connections : Connections) → HaveServedInTurn who connections →
        IsEmpty connections → HaveBeenAsked who.begun who.served connections.ended.connections }
{
    mc_conn::laws::parts_add_up();
}

/// Once no connection is left, the connections that have ended were answered apart, and each
/// command that a worker has announced since it began to serve was asked for by the connection that
/// owns it. So where two connections ask for the same, neither is answered by the other's command.
pub fn commands_answer_who_asked()
    ensures { (who : InTurn) (connections : Connections) → HaveServedInTurn who connections →
        IsEmpty connections →
        WereAnsweredAsAsked who.begun who.served connections.ended.connections }
{
    mc_conn::laws::parts_add_up();
}
