//! The places of a log that is near its end: which commands find one.
ghost use Rattle.std.specs.Prelude.{ℕ, ◌<◌, length};
ghost use Rattle.mc_model.specs.declared.shown.LogSize.{LogSize};
ghost use Rattle.mc_model.specs.declared.shown.ShownState.{ShownState};
ghost use Rattle.mc_model.specs.declared.shown.WorkerState.{WorkerState};
ghost use Rattle.mc_model.specs.Helping.{Waits};
ghost use Rattle.mc_model.specs.Lawful.{HasRoom, IsWorker, announced_by};
ghost use Rattle.mc_model.specs.Legal.{count};
ghost use Rattle.mc_laws.specs.Places.{IsReachedLeavingPlaces};

/// Whichever way the events of a log's workers interleave, and whichever workers stop: if whoever
/// announces a command leaves as many places as there are workers after those that it has learned,
/// no command that was announced finds the log full. While one isn't decided, a place is left; so
/// in a full log each command that was announced has its place. And a worker that hasn't learned
/// its own command yet has places left to learn.
pub fn no_command_loses_the_last_place()
    ensures undecided { (size : LogSize) (state : ShownState) (number : ℕ) →
        IsReachedLeavingPlaces size state →
        count number state.decided < announced_by state number →
        length state.decided < size.places }
    ensures room { (size : LogSize) (state : ShownState) (number : ℕ) (worker : WorkerState) →
        IsReachedLeavingPlaces size state → IsWorker state number worker →
        Waits number worker → HasRoom size worker }
{}
