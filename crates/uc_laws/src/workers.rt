//! Who can take events. A law is the contract of a function with an empty body.
ghost use Rattle.uc_core.specs.Core.{CoreState};
ghost use Rattle.uc_laws.specs.Workers.{OnlyWorkersAct};

/// A worker that doesn't exist can't do anything: whatever the core, each event of such a worker is
/// refused as a bad event.
pub fn only_workers_act()
    ensures { (core : CoreState) → OnlyWorkersAct core }
{}
