//! The numbers in the definitions of `specs/`, and what is true of all that event lists do. A law
//! is the contract of a function that does nothing but call such functions.
ghost use Rattle.std.specs.Prelude.{◌≡◌, ◌<◌, ◌≤◌, ◌+◌, ◌-◌, ◌*◌, ◌^◌, ℕ, List, Option, Some};
ghost use Rattle.mc_model.specs.declared.id.TheConstants.{TENANTS};
ghost use Rattle.mc_model.specs.declared.reply.Reply.{Reply};
ghost use Rattle.mc_schedules.specs.Doing.{DoesAll, Ending, RanOut};
ghost use Rattle.mc_schedules.specs.Needed.{most_needed, needed};
ghost use Rattle.mc_schedules.specs.declared.command.TheConstants.{FLAGS, NUMBER};
ghost use Rattle.mc_schedules.specs.declared.line.TheConstants.{NAMED};
ghost use Rattle.mc_schedules.specs.declared.schedule.Item.{Item};
ghost use Rattle.mc_schedules.specs.declared.schedule.TheConstants.{INPUT_BYTES};
ghost use Rattle.uc_core.specs.Core.{CoreState};
ghost use Rattle.uc_core.specs.Run.{Given, IsReachedCore, Runs};
ghost use Rattle.uc_core.specs.Step.{CoreStep};
ghost use Rattle.uc_core.specs.declared.event.Event.{Event};

use uc_core::theorem;

/// The numbers of event lists: the largest number of bytes and of tenants of a list, the largest
/// number by which a worker or a tenant can be named, the largest flags, and the largest number in
/// all other places.
pub fn numbers_of_event_lists()
    ensures input { INPUT_BYTES ≡ 1048576 }
    ensures tenants { TENANTS ≡ 64 }
    ensures named { NAMED ≡ 255 }
    ensures flags { FLAGS ≡ 2 ^ 32 - 1 }
    ensures number { NUMBER ≡ 2 ^ 64 - 1 }
{}

/// What is true of all that event lists do, by the theorem on all runs of the core.
pub fn runs_of_event_lists()
    // What a list does is a run of the core, so that all that is true of every run is true of it.
    ensures are_runs { (items : List Item) (old new : CoreState) (given : List Given)
        (end : Ending) → DoesAll items old new given end →
        (events : List Event) × Runs old events new given }

    // Each event that a worker needs decreases the number that it can need, so a submit ends.
    ensures nearer { (core next : CoreState) (number : ℕ) (event : Event) (reply : Option Reply) →
        IsReachedCore core →
        needed core number ≡ Some event → CoreStep core event next reply →
        most_needed next number < most_needed core number }
    ensures few { (core : CoreState) (number : ℕ) → most_needed core number ≤ 3 * core.places + 2 }

    // A list has one outcome, unless it runs out of memory.
    ensures one { (items : List Item) (old new other : CoreState) (given other_given : List Given)
        (end other_end : Ending) → IsReachedCore old →
        DoesAll items old new given end → DoesAll items old other other_given other_end →
        ¬ RanOut end → ¬ RanOut other_end →
        (new ≡ other) × (given ≡ other_given) × (end ≡ other_end) }
{
    theorem::laws();
    theorem::events_lead_one_way();
}
