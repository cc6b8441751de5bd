//! Under which name a command is counted, and what the numbers of a tally are.
ghost use Rattle.mc_counters.specs.Kinds.{asked_for_by, keys_asked, kind_of};
ghost use Rattle.mc_counters.specs.Tallied.{CountedRequest, IsTallyOf, is_of_kind, is_refused, items_found, keys_missed, tally_of_both};
ghost use Rattle.mc_counters.specs.declared.kinds.CommandKind.TheVariants as kind;
ghost use Rattle.mc_counters.specs.declared.kinds.TheConstants.{COMMANDS, REFUSALS};
ghost use Rattle.mc_counters.specs.declared.tally.Tally.{Tally};
ghost use Rattle.mc_model.specs.declared.command.Command.{Command};
ghost use Rattle.mc_model.specs.declared.command.Command.TheVariants as command;
ghost use Rattle.mc_model.specs.declared.command.Verb.TheVariants as verb;
ghost use Rattle.mc_model.specs.declared.settings.Limits.{Limits};
ghost use Rattle.std.specs.Prelude.{◌≡◌, ◌+◌, ◌<◌, ◌^◌, ℕ, List, count_by, false, length, slice_index, sum_by, true};

/// A command is counted under the name of its line, whatever its keys, its data and its numbers,
/// and with all the keys that it retrieves, however many those are.
pub fn each_command_is_counted_under_its_name()
    ensures set { (key block : _) (flags : ℕ) →
        kind_of (command.Store verb.Set key flags block) ≡ kind.Set }
    ensures add { (key block : _) (flags : ℕ) →
        kind_of (command.Store verb.Add key flags block) ≡ kind.Add }
    ensures replace { (key block : _) (flags : ℕ) →
        kind_of (command.Store verb.Replace key flags block) ≡ kind.Replace }
    ensures append { (key block : _) (flags : ℕ) →
        kind_of (command.Store verb.Append key flags block) ≡ kind.Append }
    ensures prepend { (key block : _) (flags : ℕ) →
        kind_of (command.Store verb.Prepend key flags block) ≡ kind.Prepend }
    ensures cas { (key block : _) (flags unique : ℕ) →
        kind_of (command.Cas key flags block unique) ≡ kind.Cas }
    ensures get { (keys : _) → kind_of (command.Get keys false) ≡ kind.Get }
    ensures gets { (keys : _) → kind_of (command.Get keys true) ≡ kind.Gets }
    ensures delete { (key : _) → kind_of (command.Delete key) ≡ kind.Delete }
    ensures incr { (key : _) (by : ℕ) → kind_of (command.Incr key by) ≡ kind.Incr }
    ensures decr { (key : _) (by : ℕ) → kind_of (command.Decr key by) ≡ kind.Decr }
    ensures flush { kind_of command.Flush ≡ kind.Flush }
    ensures limit { (limits : Limits) → kind_of (command.Limit limits) ≡ kind.Limit }
    ensures keys { (keys : _) (uniques : _) →
        keys_asked (command.Get keys uniques) ≡ length keys }
    ensures asked { (command : Command) → asked_for_by command
        ≡ record { kind = kind_of command; keys = keys_asked command } }
{}

/// The numbers of a tally are exact while they have 64 bits: how many items were found, how many
/// keys had none, and how many requests were of each kind and refused in each way. So are the hits
/// and misses of two tallies together.
pub fn counts_of_64_bits_are_exact()
    ensures hits { (answered : List CountedRequest) (tally : Tally) → IsTallyOf answered tally →
        sum_by (λ one. items_found one.reply) answered < 2 ^ 64 →
        tally.hits ≡ sum_by (λ one. items_found one.reply) answered }
    ensures misses { (answered : List CountedRequest) (tally : Tally) → IsTallyOf answered tally →
        sum_by (λ one. keys_missed one.asked one.reply) answered < 2 ^ 64 →
        tally.misses ≡ sum_by (λ one. keys_missed one.asked one.reply) answered }
    ensures commands { (answered : List CountedRequest) (tally : Tally) (place : ℕ) →
        IsTallyOf answered tally → place < COMMANDS →
        count_by (λ one. is_of_kind place one.asked) answered < 2 ^ 64 →
        slice_index tally.commands place ≡ count_by (λ one. is_of_kind place one.asked) answered }
    ensures refusals { (answered : List CountedRequest) (tally : Tally) (place : ℕ) →
        IsTallyOf answered tally → place < REFUSALS →
        count_by (λ one. is_refused place one.reply) answered < 2 ^ 64 →
        slice_index tally.refusals place ≡ count_by (λ one. is_refused place one.reply) answered }
    ensures both { (one other : Tally) → one.hits + other.hits < 2 ^ 64 →
        one.misses + other.misses < 2 ^ 64 →
        ((tally_of_both one other).hits ≡ one.hits + other.hits)
        × ((tally_of_both one other).misses ≡ one.misses + other.misses) }
{}
