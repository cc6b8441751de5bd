//! What a request comes to on a connection: for whom, as which command, what is owed for it and
//! what is counted; and what a turn returns.
ghost use Rattle.mc_conn.specs.Ending.{AwaitsLog, IsDone, IsState, IsStuck};
ghost use Rattle.mc_conn.specs.Held.{lines_of};
ghost use Rattle.mc_conn.specs.Owed.{Logs, Says, answered, count_logged, demand_of, is_logged};
ghost use Rattle.mc_conn.specs.Tallying.{AreTallied, CountsFor, IsOwedWith, asked_for};
ghost use Rattle.mc_conn.specs.Turn.{Scene, Takes, amount};
ghost use Rattle.mc_conn.specs.declared.conn.Role.{Role};
ghost use Rattle.mc_conn.specs.declared.conn.Role.TheVariants.{Admin, Tenant};
ghost use Rattle.mc_conn.specs.declared.conn.State.TheVariants as state;
ghost use Rattle.mc_counters.specs.Kinds.{asked_for_by};
ghost use Rattle.mc_counters.specs.Tallied.{CountedRequest};
ghost use Rattle.mc_model.specs.Name.{tenant_named};
ghost use Rattle.mc_model.specs.declared.command.Command.{Command};
ghost use Rattle.mc_model.specs.declared.command.Command.TheVariants as command;
ghost use Rattle.mc_model.specs.declared.name.Name.{Name};
ghost use Rattle.mc_model.specs.declared.reply.Reply.{Reply};
ghost use Rattle.mc_model.specs.declared.reply.Reply.TheVariants.{Refused};
ghost use Rattle.mc_model.specs.declared.reply.TheConstants.WireNo.{BAD_FORMAT, LINE_TOO_LONG, UNKNOWN_COMMAND};
ghost use Rattle.mc_model.specs.declared.request.Request.{Request};
ghost use Rattle.mc_model.specs.declared.request.Request.TheVariants.{Limit, Local, Logged, Quit, TooLong};
ghost use Rattle.mc_model.specs.declared.settings.Limits.{Limits};
ghost use Rattle.mc_read.specs.Administering.{asked_by_admin};
ghost use Rattle.mc_read.specs.Line.{asked};
ghost use Rattle.mc_write.specs.Text.{text};
ghost use Rattle.std.specs.Prelude.{◌≡◌, ◌≢◌, ◌+◌, ◌<◌, ℕ, Bool, cond, false, true, List, [], ◌∷◌, ◌++◌, length, None, Some};

/// A connection carries its role's lines. A command on a tenant's connection is logged as that
/// command of that tenant, whatever the tenant's number; quotas that an administrator asks for are
/// logged as a command of the tenant that has that name.
pub fn each_request_is_for_its_roles_tenant()
    ensures lines { (tenant : ℕ) → lines_of (Tenant tenant) ≡ asked }
    ensures admin_lines { (names : List Name) → lines_of (Admin names) ≡ asked_by_admin }
    ensures command { (tenant : ℕ) (command : Command) (quiet : Bool) →
        demand_of (Tenant tenant) (Logged command quiet) ≡ Logs tenant command quiet }
    ensures quotas { (names : List Name) (name : Name) (limits : Limits) (quiet : Bool)
        (tenant : ℕ) → tenant_named names name ≡ Some tenant →
        demand_of (Admin names) (Limit name limits quiet)
        ≡ Logs tenant (command.Limit limits) quiet }
{}

/// The reply to a request that isn't quiet is owed as its whole text, however long that is, and to
/// a quiet one nothing is owed; to `quit` neither. A line that is too long gets its refusal, quotas
/// for a name that no tenant has are refused whether quiet or not, and what a role's lines don't
/// ask for is refused as an unknown command.
pub fn replies_are_owed_whole()
    ensures whole { (reply : Reply) → answered false reply ≡ text reply }
    ensures quiet { (reply : Reply) → answered true reply ≡ [] }
    ensures local { (role : Role) (reply : Reply) →
        demand_of role (Local reply false) ≡ Says (text reply) }
    ensures quiet_local { (role : Role) (reply : Reply) →
        demand_of role (Local reply true) ≡ Says [] }
    ensures quit { (role : Role) → demand_of role Quit ≡ Says [] }
    ensures too_long { (role : Role) →
        demand_of role TooLong ≡ Says (text (Refused LINE_TOO_LONG)) }
    ensures unknown_tenant { (names : List Name) (name : Name) (limits : Limits) (quiet : Bool) →
        tenant_named names name ≡ None →
        demand_of (Admin names) (Limit name limits quiet) ≡ Says (text (Refused BAD_FORMAT)) }
    ensures quotas_of_tenant { (tenant : ℕ) (name : Name) (limits : Limits) (quiet : Bool) →
        demand_of (Tenant tenant) (Limit name limits quiet)
        ≡ Says (answered quiet (Refused UNKNOWN_COMMAND)) }
    ensures command_of_admin { (names : List Name) (command : Command) (quiet : Bool) →
        demand_of (Admin names) (Logged command quiet)
        ≡ Says (answered quiet (Refused UNKNOWN_COMMAND)) }
{}

/// A request is to be logged exactly if it comes to a command, whatever the tenant's number, and
/// each such request counts once.
pub fn a_command_is_to_be_logged()
    ensures logs { (tenant : ℕ) (command : Command) (quiet : Bool) →
        is_logged (Logs tenant command quiet) ≡ true }
    ensures says { (said : List ℕ) → is_logged (Says said) ≡ false }
    ensures none { (role : Role) → count_logged role [] ≡ 0 }
    ensures counts { (role : Role) (request : Request) (requests : List Request) →
        count_logged role (request ∷ requests)
        ≡ cond (is_logged (demand_of role request)) 1 0 + count_logged role requests }
{}

/// Each request but `quit` is counted, once, with the reply that it got: a command by what it asks
/// for, whatever the tenant's number. Requests one after another are counted one after another.
pub fn each_request_is_counted()
    ensures asked { (tenant : ℕ) (command : Command) (quiet : Bool) →
        asked_for (Logs tenant command quiet) ≡ Some (asked_for_by command) }
    ensures says { (said : List ℕ) → asked_for (Says said) ≡ None }
    ensures one { (role : Role) (request : Request) (bytes : List ℕ)
        (counted : List CountedRequest) → request ≢ Quit → CountsFor role request bytes counted →
        (reply : Reply) × IsOwedWith (demand_of role request) reply bytes
        × (counted ≡ record { asked = asked_for (demand_of role request); reply = reply } ∷ []) }
    ensures command { (tenant : ℕ) (command : Command) (quiet : Bool) (bytes : List ℕ)
        (counted : List CountedRequest) →
        CountsFor (Tenant tenant) (Logged command quiet) bytes counted →
        (reply : Reply) × (bytes ≡ answered quiet reply)
        × (counted ≡ record { asked = Some (asked_for_by command); reply = reply } ∷ []) }
    ensures quit { (role : Role) (bytes : List ℕ) (counted : List CountedRequest) →
        CountsFor role Quit bytes counted → counted ≡ [] }
    ensures all { (role : Role) (request : Request) (requests : List Request) (bytes : List ℕ)
        (counted : List CountedRequest) → AreTallied role (request ∷ requests) bytes counted →
        (said : List ℕ) × (rest : List ℕ) × (one : List CountedRequest)
        × (others : List CountedRequest) × (bytes ≡ said ++ rest) × (counted ≡ one ++ others)
        × CountsFor role request said one × AreTallied role requests rest others }
{}

/// A turn that returns `Idle` has done nothing: its input had nothing, or its output took no more.
/// One that returns `Busy` has done something. After `Closed` nothing is left to do, and after
/// `Full` a command awaits the next log.
pub fn a_turn_returns_what_it_did()
    ensures amount { (before after : Scene) (takes : Takes before after) → amount takes
        ≡ length takes.taken.came + length takes.taken.requests + length takes.taken.sent }
    ensures idle { (before after : Scene) (takes : Takes before after) →
        IsState takes state.Idle → (amount takes ≡ 0) × IsStuck before after }
    ensures busy { (before after : Scene) (takes : Takes before after) →
        IsState takes state.Busy → 0 < amount takes }
    ensures closed { (before after : Scene) (takes : Takes before after) →
        IsState takes state.Closed → IsDone after.conn }
    ensures full { (before after : Scene) (takes : Takes before after) →
        IsState takes state.Full → AwaitsLog after.conn after.worker }
{}
