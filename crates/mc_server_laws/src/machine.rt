//! What the core shows of a worker, and what a `submit` of an event list needs of it.
ghost use Rattle.mc_model.specs.declared.fault.Fault.TheVariants.{LogFull};
ghost use Rattle.mc_model.specs.declared.shown.Phase.TheVariants.{Idle, Stopped};
ghost use Rattle.mc_schedules.specs.Needed.{needed};
ghost use Rattle.std.specs.Prelude.{◌≡◌, ◌⊎◌, ◌≤◌, ℕ, IfSome, None, Some, slice_get};
ghost use Rattle.uc_core.specs.Core.{CoreState, ReplayState};
ghost use Rattle.uc_core.specs.Showing.{progress_by, table_by};
ghost use Rattle.uc_core.specs.Step.{actor, refusal};
ghost use Rattle.uc_core.specs.declared.event.Event.{Event};

/// What the core shows as a tenant's table of a worker is that of this worker at this tenant's
/// number.
pub fn each_tenant_is_shown_its_own_table()
    ensures { (core : CoreState) (number tenant : ℕ) (replay : ReplayState) →
        slice_get core.replays number ≡ Some replay →
        table_by core number tenant ≡ slice_get replay.tables tenant }
{}

/// An event that a worker needs is its own, and enabled, unless the worker has learned all places
/// while its command is pending: it looks at a full log then. A worker that needs nothing has
/// stopped, or is idle and has replayed all that it has learned. So where memory doesn't run out, a
/// submit goes on until its worker is idle or the log is full.
pub fn what_is_needed_is_enabled()
    ensures own { (core : CoreState) (number : ℕ) (event : Event) →
        needed core number ≡ Some event → actor event ≡ number }
    ensures enabled { (core : CoreState) (number : ℕ) (event : Event) →
        needed core number ≡ Some event →
        (refusal core event ≡ None)
        ⊎ ((refusal core event ≡ Some LogFull)
        × IfSome (progress_by core number) (λ worker. core.places ≤ worker.learned)) }
    ensures nothing { (core : CoreState) (number : ℕ) → needed core number ≡ None →
        IfSome (progress_by core number) (λ worker. (worker.phase ≡ Stopped)
        ⊎ ((worker.phase ≡ Idle) × (worker.learned ≤ worker.replayed))) }
{}
