//! What follows from the definitions. A law is the contract of a function with an empty body.
ghost use Rattle.std.specs.Prelude.{◌≡◌, ℕ, ◌+◌, ◌≤◌, max, List, [], ◌++◌, length};
ghost use Rattle.mc_counters.specs.Tallied.{CountedRequest};
ghost use Rattle.mc_counters.specs.declared.tally.Tally.{Tally};
ghost use Rattle.mc_model.specs.declared.command.Command.{Command};
ghost use Rattle.mc_model.specs.declared.fault.Fault.{Fault};
ghost use Rattle.mc_model.specs.declared.reply.Reply.{Reply};
ghost use Rattle.mc_model.specs.declared.request.Request.{Request};
ghost use Rattle.mc_model.specs.declared.settings.Limits.{Limits};
ghost use Rattle.mc_stream.specs.Event.{waits};
ghost use Rattle.mc_stream.specs.Pushing.{Pushes};
ghost use Rattle.uc_worker.specs.declared.worker.Worker.{Worker};
ghost use Rattle.uc_worker.specs.Going.{Continues};
ghost use Rattle.uc_worker.specs.Cited.{entries};
ghost use Rattle.uc_worker.specs.Worker.{HasReplayedAll, IsClosing, history_of, seat_of};
ghost use Rattle.mc_model.specs.Log.{own};
ghost use Rattle.mc_conn.specs.declared.conn.Conn.{Conn};
ghost use Rattle.mc_conn.specs.declared.conn.Role.{Role};
ghost use Rattle.mc_conn.specs.declared.conn.Role.TheVariants.{Tenant};
ghost use Rattle.mc_conn.specs.declared.conn.TheConstants.{PULL_BYTES, QUEUE_BYTES, TURN_REQUESTS};
ghost use Rattle.mc_conn.specs.declared.queue.TheConstants.{KEPT_BYTES};
ghost use Rattle.mc_conn.specs.Alone.{IsAlone, IsAloneOver, commands_of, first_mark, owed, owed_after};
ghost use Rattle.mc_conn.specs.Ending.{AnswersAtMost, LogsInTime, Pulls, PullsFew, PullsLate, Stops, StopsUntil, TakesFewRequests, TakesUntil};
ghost use Rattle.mc_conn.specs.Held.{Holding, IsRead};
ghost use Rattle.mc_conn.specs.Owed.{IsPlaced, IsTurnedAway, Mark, Owes, mark_of};
ghost use Rattle.mc_conn.specs.Tallying.{HasCounted, HasCountedTo};
ghost use Rattle.mc_conn.specs.Turn.{Scene, Takes};

/// The bounds of a connection: how many bytes may be queued while requests are taken and bytes are
/// pulled, how many requests a turn takes, how many bytes a pull asks for, and how many bytes of
/// memory a queue keeps.
pub fn bounds_of_a_connection()
    ensures queue { QUEUE_BYTES ≡ 1048576 }
    ensures requests { TURN_REQUESTS ≡ 64 }
    ensures pull { PULL_BYTES ≡ 16384 }
    ensures kept { KEPT_BYTES ≡ 65536 }
{}

/// In a log of one worker a command stands at the place of its number, and is turned away only
/// after as many commands as there are places: so what is owed there doesn't depend on when one
/// looks, and is a function of the requests.
pub fn a_worker_alone_answers_in_order()
    ensures placed { (worker : Worker) (tenant : ℕ) (from to : Mark) (command : Command)
        (reply : Reply) →
        (seat_of worker).size.workers ≡ 1 → (is : IsPlaced worker tenant from command reply to) →
        is.place ≡ from.number }
    ensures away { (worker : Worker) (tenant : ℕ) (from to : Mark) (command : Command)
        (reply : Reply) →
        (seat_of worker).size.workers ≡ 1 → IsTurnedAway worker tenant from command reply to →
        (seat_of worker).size.places ≤ from.number }
    ensures owes { (limits : Limits) (places : ℕ) (worker : Worker) (requests : List Request)
        (bytes : List ℕ) (to : Mark) →
        IsAlone limits places worker → Owes worker (Tenant 0) first_mark requests bytes to →
        bytes ≡ owed limits places requests }
    // A log that is opened over a table goes on from that table.
    ensures goes_on { (limits : Limits) (base : List Command) (places : ℕ) (worker : Worker)
        (requests : List Request) (bytes : List ℕ) (to : Mark) →
        IsAloneOver limits base places worker →
        Owes worker (Tenant 0) first_mark requests bytes to →
        bytes ≡ owed_after limits base places [] requests }
{}

/// Logs of one worker, each opened over the table after the commands that the earlier ones took,
/// owe what one log owes that has as many places as all of them.
pub fn logs_of_a_worker_alone_add_up()
    // A log whose commands are left to the next one takes none that it has no place for.
    ensures in_time { (limits : Limits) (base : List Command) (places : ℕ) (before after : Scene)
        (takes : Takes before after) → IsAloneOver limits base places after.worker →
        before.conn.role ≡ Tenant 0 → mark_of before.worker ≡ first_mark → LogsInTime takes →
        (length (commands_of takes.taken.requests) ≤ places)
        × ((total : ℕ) → length base + places ≤ total →
        takes.taken.owed ≡ owed_after limits [] total base takes.taken.requests) }
    // Once such a log is closing, all its places are replayed,
    ensures done { (before after : Scene) (takes : Takes before after) →
        (seat_of after.worker).size.workers ≡ 1 → before.conn.role ≡ Tenant 0 →
        mark_of before.worker ≡ first_mark → LogsInTime takes →
        IsClosing after.worker → HasReplayedAll after.worker }
    // and then the log is the commands of the requests, one a place.
    ensures full { (limits : Limits) (base : List Command) (places : ℕ) (before after : Scene)
        (takes : Takes before after) → IsAloneOver limits base places after.worker →
        before.conn.role ≡ Tenant 0 → mark_of before.worker ≡ first_mark → LogsInTime takes →
        HasReplayedAll after.worker →
        (own 0 (entries (history_of after.worker)) ≡ commands_of takes.taken.requests)
        × (length (commands_of takes.taken.requests) ≡ places) }
    // The last log is full where all places are taken.
    ensures last { (limits : Limits) (base : List Command) (places : ℕ) (worker : Worker)
        (requests : List Request) (bytes : List ℕ) (to : Mark) →
        IsAloneOver limits base places worker →
        Owes worker (Tenant 0) first_mark requests bytes to →
        bytes ≡ owed_after limits [] (length base + places) base requests }
    // What is owed for further requests is owed for them after the commands of the first ones.
    ensures through { (limits : Limits) (total : ℕ) (applied : List Command)
        (first second : List Request) → length applied + length (commands_of first) ≤ total →
        owed_after limits [] total applied (first ++ second)
        ≡ owed_after limits [] total applied first
        ++ owed_after limits [] total (applied ++ commands_of first) second }
{}

/// Turns add up: no turn, turns after turns, and a turn that stops after turns that went well.
pub fn turns_add_up()
    ensures none { (a : Scene) → Takes a a }
    ensures through { (a b c : Scene) → Takes a b → Takes b c → Takes a c }
    ensures stops { (fault : Fault) (a b c : Scene) → Takes a b → Stops b c fault →
        Stops a c fault }
    // So do turns that pull late, if what follows only sends and the worker goes on meanwhile.
    ensures late { (a b c : Scene) → Takes a b → PullsLate a b → PullsLate b c →
        Continues b.worker c.worker → (more : List ℕ) →
        Pushes b.streams.output c.streams.output more →
        waits b.streams.output.events ≤ waits c.streams.output.events → PullsLate a c }
    // What is sent up to a fault, and about it.
    ensures sends { (fault : Fault) (a b : Scene) → Stops a b fault →
        (more : List ℕ) × Pushes a.streams.output b.streams.output more
        × (waits a.streams.output.events ≤ waits b.streams.output.events) }
{}

/// So do turns that leave commands to the next log: in all of them together no request was logged at
/// a worker whose log was closing, and if a fault stopped the last one none met it there.
pub fn turns_until_the_next_log_add_up()
    ensures none { (a : Scene) → TakesUntil a a }
    ensures through { (a b c : Scene) → TakesUntil a b → TakesUntil b c → TakesUntil a c }
    ensures stops { (fault : Fault) (a b c : Scene) → TakesUntil a b → StopsUntil b c fault →
        StopsUntil a c fault }
{}

/// A turn that may pull little takes little: the bytes that come in it are at most as many as it may
/// pull, or one, and never more than a pull asks for.
pub fn as_much_comes_as_may_be_pulled()
    ensures may { (most : ℕ) (before after : Scene) (takes : Takes before after) →
        Pulls before after → PullsFew most before.streams.input after.streams.input →
        length takes.taken.came ≤ max most 1 }
    ensures asks { (before after : Scene) (takes : Takes before after) → Pulls before after →
        length takes.taken.came ≤ PULL_BYTES }
{}

/// A turn takes few requests: at most 64, and the list of those that got a reply grows by at most
/// as many in it.
pub fn few_are_answered_in_a_turn()
    ensures answers { (before after : Conn) (more : List CountedRequest) →
        AnswersAtMost TURN_REQUESTS before after → after.past ≡ before.past ++ more →
        length more ≤ 64 }
    ensures takes { (before after : Scene) (takes : Takes before after) → TakesFewRequests takes →
        length takes.taken.requests ≤ 64 }
{}

/// What was read in one part and in the next was read in both, and what is owed stays owed while
/// the worker goes on.
pub fn parts_add_up()
    ensures read { (a b c : Holding) (came later : List ℕ) (first second : List Request) →
        IsRead a came first b → IsRead b later second c →
        IsRead a (came ++ later) (first ++ second) c }
    ensures stays { (old new : Worker) → Continues old new → (role : Role) (from : Mark)
        (requests : List Request) (bytes : List ℕ) (to : Mark) →
        Owes old role from requests bytes to → Owes new role from requests bytes to }
{}

/// What was counted in one part and in the next was counted in both; so it was if a fault ended the
/// second.
pub fn counts_add_up()
    ensures none { (past : List CountedRequest) (tally : Tally) → HasCounted past past tally tally }
    ensures through { (a b c : List CountedRequest) (old between new : Tally) →
        HasCounted a b old between → HasCounted b c between new → HasCounted a c old new }
    ensures fault { (fault : Fault) (a b c : List CountedRequest) (old between new : Tally) →
        HasCounted a b old between → HasCountedTo b c between new fault →
        HasCountedTo a c old new fault }
{}
