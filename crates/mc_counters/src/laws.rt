//! What the definitions say of tallies. A law is the contract of a function with an empty body.
ghost use Rattle.std.specs.Prelude.{◌≡◌, ◌≤◌, ◌+◌, ◌++◌, [], List, Option, Some, length};
ghost use Rattle.mc_model.specs.declared.reply.Reply.TheVariants.{Refused, Values};
ghost use Rattle.mc_model.specs.declared.reply.Value.{Value};
ghost use Rattle.mc_model.specs.declared.reply.WireNo.{WireNo};
ghost use Rattle.mc_counters.specs.Tallied.{CountedRequest, IsTallyOf, items_found, keys_missed, tally_of_both};
ghost use Rattle.mc_counters.specs.declared.kinds.Asked.{Asked};
ghost use Rattle.mc_counters.specs.declared.tally.Tally.{Tally};
ghost use Rattle.mc_counters.specs.declared.tally.TheConstants.Tally.{NONE};

/// The tally of no request counts none, and two tallies together count the requests of both.
pub fn tallies_add_up()
    ensures none { IsTallyOf [] NONE }
    ensures both { (one other : Tally) (first second : List CountedRequest) →
        IsTallyOf first one → IsTallyOf second other →
        IsTallyOf (first ++ second) (tally_of_both one other) }
{}

/// A retrieval that is answered counts each of its keys once, as found or as missed, and one that
/// is refused counts none.
pub fn each_key_is_found_or_missed()
    ensures answered { (asked : Asked) (values : List Value) → length values ≤ asked.keys →
        items_found (Values values) + keys_missed (Some asked) (Values values) ≡ asked.keys }
    ensures refused { (asked : Option Asked) (refusal : WireNo) →
        (items_found (Refused refusal) ≡ 0) × (keys_missed asked (Refused refusal) ≡ 0) }
{}
