//! Numbers of requests.
ghost use Rattle.std.specs.Prelude.{◌≡◌, ◌<◌, [], ◌∷◌, ◌++◌, List, length, slice_index};
ghost use Rattle.mc_counters.specs.Kinds.{place_of_kind, place_of_refusal};
ghost use Rattle.mc_counters.specs.Steps.{more_at, counts_with_command, counts_with_reply};
ghost use Rattle.mc_counters.specs.Tallied.{CountedRequest, IsTallyOf, counts_of_both, items_found, keys_missed, keys_wanted, tally_of_both};

use crate::kinds::{Asked, COMMANDS, CommandKind, REFUSALS, refusal_place};
use mc_model::{Reply, WireNo};

/// How many requests of each kind were answered, and how. A number stops at `u64::MAX`.
#[derive(Clone, Copy, Debug)]
pub struct Tally {
    /// How many commands of each kind were answered, each kind at its place.
    pub commands: [u64; COMMANDS],
    /// How many items retrievals found.
    pub hits: u64,
    /// How many keys of retrievals had no item.
    pub misses: u64,
    /// How many requests got each kind of refusal, each kind at its place.
    pub refusals: [u64; REFUSALS],
}

/// Counts one more at a place.
fn count_at(counts: &mut [u64], place: usize)
    requires { place < length counts.old }
    ensures { counts.new ≡ more_at counts.old place }
{
    counts[place] = counts[place].saturating_add(1);
}

/// Adds to each count the one at the same place.
fn add_counts(counts: &mut [u64], others: &[u64])
    requires { length counts.old ≡ length others.now }
    ensures { counts.new ≡ counts_of_both counts.old others.now }
{
    for place in 0..others.len() {
        counts[place] = counts[place].saturating_add(others[place]);
    }
}

/// Returns how many items a reply shows.
fn found_in(reply: &Reply<'_>) -> u64
    ensures { result ≡ items_found reply.now }
{
    match reply {
        Reply::Values(values) => values.as_slice().len() as u64,
        _ => 0,
    }
}

/// Returns how many keys were asked for.
fn wanted_by(asked: &Option<Asked>) -> u64
    ensures { result ≡ keys_wanted asked.now }
{
    match asked {
        Some(asked) => asked.keys as u64,
        None => 0,
    }
}

/// Returns how many keys had no item, if the reply shows items.
fn missed_in(asked: &Option<Asked>, reply: &Reply<'_>) -> u64
    ensures { result ≡ keys_missed asked.now reply.now }
{
    match reply {
        Reply::Values(values) => wanted_by(asked).saturating_sub(values.as_slice().len() as u64),
        _ => 0,
    }
}

impl Tally {
    /// The tally of no request.
    pub const NONE: Tally = Tally {
        commands: [0; COMMANDS],
        hits: 0,
        misses: 0,
        refusals: [0; REFUSALS],
    };

    /// Returns the tally of no request.
    pub fn new() -> Tally
        ensures { IsTallyOf [] result }
    {
        Tally::NONE
    }

    /// Counts the kind of a command, if there is one.
    fn count_command(&mut self, asked: &Option<Asked>)
        ensures counts { self.new ≡ record self.old
            { commands = counts_with_command asked.now self.old.commands } }
        ensures long { (length self.old.commands ≡ COMMANDS)
            × (length self.new.commands ≡ COMMANDS) }
    {
        if let Some(asked) = asked {
            count_at(&mut self.commands, asked.kind.place());
        }
    }

    /// Counts a refusal, if the reply is one.
    fn count_refusal(&mut self, reply: &Reply<'_>)
        ensures counts { self.new ≡ record self.old
            { refusals = counts_with_reply reply.now self.old.refusals } }
        ensures long { (length self.old.refusals ≡ REFUSALS)
            × (length self.new.refusals ≡ REFUSALS) }
    {
        if let Reply::Refused(refusal) = reply {
            count_at(&mut self.refusals, refusal_place(*refusal));
        }
    }

    /// Counts a request that was answered: what its command asked for, if it had one, and its
    /// reply.
    pub fn count(&mut self, asked: &Option<Asked>, reply: &Reply<'_>)
        // What was counted before is counted still, and now this one too.
        ensures { (past : List CountedRequest) → IsTallyOf past self.old →
            IsTallyOf (record { asked = asked.now; reply = reply.now } ∷ past) self.new }
    {
        self.count_command(asked);
        self.count_refusal(reply);
        self.hits = self.hits.saturating_add(found_in(reply));
        self.misses = self.misses.saturating_add(missed_in(asked, reply));
    }

    /// Adds the commands that another tally counts.
    fn add_commands(&mut self, other: &Tally)
        ensures counts { self.new ≡ record self.old
            { commands = counts_of_both self.old.commands other.now.commands } }
        ensures long { (length self.old.commands ≡ COMMANDS)
            × (length other.now.commands ≡ COMMANDS) }
    {
        add_counts(&mut self.commands, &other.commands);
    }

    /// Adds the refusals that another tally counts.
    fn add_refusals(&mut self, other: &Tally)
        ensures counts { self.new ≡ record self.old
            { refusals = counts_of_both self.old.refusals other.now.refusals } }
        ensures long { (length self.old.refusals ≡ REFUSALS)
            × (length other.now.refusals ≡ REFUSALS) }
    {
        add_counts(&mut self.refusals, &other.refusals);
    }

    /// Counts what another tally counts too.
    pub fn add(&mut self, other: &Tally)
        ensures both { self.new ≡ tally_of_both self.old other.now }
        // What either counted is counted now.
        ensures counts { (first second : List CountedRequest) → IsTallyOf first self.old →
            IsTallyOf second other.now → IsTallyOf (first ++ second) self.new }
    {
        self.add_commands(other);
        self.add_refusals(other);
        self.hits = self.hits.saturating_add(other.hits);
        self.misses = self.misses.saturating_add(other.misses);
    }

    /// Returns how many commands of a kind were answered.
    pub fn of_kind(&self, kind: CommandKind) -> u64
        ensures { result ≡ slice_index self.now.commands (place_of_kind kind) }
    {
        self.commands[kind.place()]
    }

    /// Returns how many requests got a refusal.
    pub fn of_refusal(&self, refusal: WireNo) -> u64
        ensures { result ≡ slice_index self.now.refusals (place_of_refusal refusal) }
    {
        self.refusals[refusal_place(refusal)]
    }
}
