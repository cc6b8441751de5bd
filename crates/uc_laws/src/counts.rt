//! What the core shows of each worker, and under which tickets nothing stands, by the events of a
//! run alone, whatever tables the run begins with. A law is the contract of a function whose body
//! is empty or calls other laws.
ghost use Rattle.uc_laws.specs.Counts.{ProgressStands, ProposalsCount, UnannouncedHaveNoEntry};
ghost use Rattle.uc_laws.specs.Over.{ByEventsOver};

use crate::over::runs_over_tables_do_what_is_asked;

/// What the events of a run over tables say of what the core that it leads to shows of its workers:
/// the counts that are shown are those of the list of events.
pub fn shown_states_count_the_events()
    // Each worker shows as many proposals as it has made since its latest announcement.
    ensures proposals { ByEventsOver (λ settings events core. ProposalsCount events core) }

    // The progress of each worker that exists, and of no other, is shown: how often it has
    // announced and replayed, and proposed since its latest announcement; and its phase, how much
    // it has learned, its mark and its look, as its shown state has them.
    ensures progress { ByEventsOver (λ settings events core. ProgressStands settings events core) }
{
    uc_core::events_lead_one_way();
    runs_over_tables_do_what_is_asked();
}

/// Under a ticket that nobody has announced there is no entry, after any run over tables.
pub fn unannounced_tickets_have_no_entry()
    ensures { ByEventsOver (λ settings events core. UnannouncedHaveNoEntry events core) }
{}
