//! What one log of all tenants' commands does to their tables, and the tenants' isolation: no
//! tenant's commands alter another's table or replies.
ghost use Rattle.std.specs.Option.{option_map};
ghost use Rattle.std.specs.Prelude.{◌≡◌, ◌≢◌, ◌↔◌, ℕ, ◌+◌, ◌-◌, ◌^◌, ◌≤◌, true, false, List, [], ◌∷◌, ◌++◌, length, Option, Some, None, IfSome, slice_get};
ghost use Rattle.mc_items.specs.Asker.{answer_for, is_own, reply_for};
ghost use Rattle.mc_model.specs.declared.request.Entry.{Entry};
ghost use Rattle.mc_model.specs.declared.command.Command.{Command};
ghost use Rattle.mc_model.specs.declared.settings.Limits.{Limits};
ghost use Rattle.mc_model.specs.History.{StandsFor, answer, answer_from, state_after, state_from};
ghost use Rattle.mc_model.specs.Log.{PlaceSighting, entry_seen, own};
ghost use Rattle.mc_model.specs.Replay.{EachStands, HaveRoom, TakeEffect, empty_tables, reply_to};
ghost use Rattle.mc_model.specs.State.{TableState, next_reply};

/// A tenant's own commands in a log are those of its own entries, in log order: such an entry,
/// inserted anywhere into a log, inserts exactly its command there. Another tenant's entry, or
/// none, leaves them as they are.
pub fn own_entries_alone_count()
    ensures nothing { (tenant : ℕ) → own tenant [] ≡ [] }
    ensures own { (tenant : ℕ) (front back : List (Option Entry)) (entry : Entry) →
        entry.tenant ≡ tenant →
        own tenant (front ++ Some entry ∷ back)
        ≡ own tenant front ++ entry.command ∷ own tenant back }
    ensures others { (tenant : ℕ) (front back : List (Option Entry)) (entry : Option Entry) →
        IfSome entry (λ found. found.tenant ≢ tenant) →
        own tenant (front ++ entry ∷ back) ≡ own tenant (front ++ back) }
{}

/// The entry of a place counts if it has the ticket that stands there, and otherwise as absent.
pub fn an_entry_counts_for_its_own_ticket()
    ensures own { (seen : PlaceSighting) (entry : Entry) → seen.entry ≡ Some entry →
        entry.ticket ≡ seen.ticket → entry_seen seen ≡ Some entry }
    ensures others { (seen : PlaceSighting) (entry : Entry) → seen.entry ≡ Some entry →
        entry.ticket ≢ seen.ticket → entry_seen seen ≡ None }
    ensures absent { (seen : PlaceSighting) → seen.entry ≡ None → entry_seen seen ≡ None }
{}

/// An entry is the asker's own exactly if its ticket is that worker's; if nobody asks, none is.
/// Only the asker's own entries are answered, as the table of the entry's tenant answers them.
pub fn only_own_entries_are_answered()
    ensures own { (asker : Option ℕ) (entry : Entry) →
        (is_own asker entry ≡ true) ↔ (asker ≡ Some entry.ticket.worker) }
    ensures reply { (asker : Option ℕ) (tables : List TableState) (entry : Entry) →
        is_own asker entry ≡ true →
        reply_for asker tables (Some entry)
        ≡ option_map (λ table. next_reply table entry.command) (slice_get tables entry.tenant) }
    ensures no_reply { (asker : Option ℕ) (tables : List TableState) (entry : Entry) →
        is_own asker entry ≡ false → reply_for asker tables (Some entry) ≡ None }
    ensures answer { (asker : Option ℕ) (openings : List TableState) (log : List (Option Entry))
        (entry : Entry) → is_own asker entry ≡ true →
        answer_for asker openings log (Some entry) ≡ reply_to openings log (Some entry) }
    ensures no_answer { (asker : Option ℕ) (openings : List TableState) (log : List (Option Entry))
        (entry : Entry) → is_own asker entry ≡ false →
        answer_for asker openings log (Some entry) ≡ None }
{}

/// The tables of an empty log are those that it was opened over. The entry of one more place is
/// answered as its tenant's table answers it, and takes effect on that table alone: then each table
/// stands for its tenant's own commands again.
pub fn a_log_is_replayed_in_order()
    ensures opened { (openings : List TableState) → EachStands openings [] openings }
    ensures reply { (openings : List TableState) (log : List (Option Entry)) (entry : Entry)
        (tables : List TableState) → EachStands openings log tables →
        reply_to openings log (Some entry)
        ≡ option_map (λ table. next_reply table entry.command) (slice_get tables entry.tenant) }
    ensures stands { (openings : List TableState) (log : List (Option Entry)) (entry : Option Entry)
        (old new : List TableState) →
        EachStands openings log old → TakeEffect entry old new →
        EachStands openings (log ++ entry ∷ []) new }
{}

/// A log that is opened over a table goes on from it, whatever commands have led to that table:
/// after the tenant's own commands of the log, the table and the replies are those after the
/// earlier commands followed by these.
pub fn a_log_goes_on_where_its_tables_stood()
    ensures answer { (limits : Limits) (base : List Command) (own : List Command)
        (opening : TableState) (command : Command) → StandsFor limits base opening →
        answer_from opening own command ≡ answer limits (base ++ own) command }
    ensures stands { (limits : Limits) (base : List Command) (own : List Command)
        (opening : TableState) → StandsFor limits base opening →
        StandsFor limits (base ++ own) (state_from opening own) }
    ensures reply { (openings : List TableState) (log : List (Option Entry)) (entry : Entry)
        (limits : Limits) (base : List Command) (opening : TableState) →
        slice_get openings entry.tenant ≡ Some opening → StandsFor limits base opening →
        reply_to openings log (Some entry)
        ≡ Some (answer limits (base ++ own entry.tenant log) entry.command) }
    ensures tables { (openings : List TableState) (log : List (Option Entry))
        (tables : List TableState) (tenant : ℕ) (limits : Limits) (base : List Command)
        (opening : TableState) →
        EachStands openings log tables → slice_get openings tenant ≡ Some opening →
        StandsFor limits base opening →
        slice_get tables tenant ≡ Some (state_after limits (base ++ own tenant log)) }
{}

/// Another tenant's entry, or none, inserted anywhere into a log or removed from it, leaves a
/// tenant's table and the replies to its commands as they are, whatever tables the others have.
pub fn tenants_are_apart()
    ensures table { (openings others : List TableState) (front back : List (Option Entry))
        (entry : Option Entry) (with_it without : List TableState) (tenant : ℕ) →
        IfSome entry (λ found. found.tenant ≢ tenant) →
        slice_get openings tenant ≡ slice_get others tenant →
        EachStands openings (front ++ entry ∷ back) with_it →
        EachStands others (front ++ back) without →
        slice_get with_it tenant ≡ slice_get without tenant }
    ensures reply { (openings others : List TableState) (front back : List (Option Entry))
        (entry : Option Entry) (next : Entry) →
        IfSome entry (λ found. found.tenant ≢ next.tenant) →
        slice_get openings next.tenant ≡ slice_get others next.tenant →
        reply_to openings (front ++ entry ∷ back) (Some next)
        ≡ reply_to others (front ++ back) (Some next) }
{}

/// A log takes at most one unique a place from each table, however many tenants there are. An empty
/// table has room for 2^64 - 1 changes. Where there was room in each table for a log's places and
/// for some more changes, there is room for these after the log.
pub fn uniques_are_taken_one_a_place()
    ensures empty { (limits : List Limits) (places : ℕ) →
        places ≤ 2 ^ 64 - 1 → HaveRoom (empty_tables limits) places }
    ensures left { (openings tables : List TableState) (log : List (Option Entry)) (more : ℕ) →
        EachStands openings log tables → HaveRoom openings (length log + more) →
        HaveRoom tables more }
{}
