//! A run of the log, as threads make it, is one of the machine of the headline. A law is the contract
//! of a function with an empty body.
ghost use Rattle.uc_laws.specs.CoreRun.{RunsAsCore};

/// Any run of the log is a run of the core, the machine of the headline, whatever was announced
/// under its tickets by known tenants, and however much of what it has learned each worker has
/// replayed.
pub fn a_run_of_the_log_is_one_of_the_core()
    ensures { RunsAsCore }
{}
