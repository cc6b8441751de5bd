//! What follows from the definitions. A law is the contract of a function with an empty body.
ghost use Rattle.std.specs.Prelude.{◌≡◌, ℕ, ◌+◌, ◌-◌, ◌*◌, ◌^◌, ◌≤◌, List};
ghost use Rattle.mc_model.specs.Replay.{HaveRoom};
ghost use Rattle.mc_model.specs.declared.request.Request.{Request};
ghost use Rattle.mc_model.specs.declared.settings.Limits.{Limits};
ghost use Rattle.mc_programs.specs.Serving.{FillsLast};
ghost use Rattle.mc_programs.specs.declared.options.TheConstants.{MAX_GENERATIONS};
ghost use Rattle.uc_worker.specs.declared.worker.Worker.{Worker};
ghost use Rattle.uc_worker.specs.Worker.{tables_of};

/// The table of the last of some full logs has room for the changes of one more, unless these logs
/// and that one have more places than there are uniques.
pub fn full_logs_have_room_for_another()
    ensures { (limits : Limits) (places logs : ℕ) (requests : List Request) (worker : Worker) →
        FillsLast limits places logs requests worker → (logs + 1) * places ≤ 2 ^ 64 - 1 →
        HaveRoom (tables_of worker) places }
{}

/// At most 65,536 logs may be asked for, one after another, of a program of one tenant.
pub fn numbers_of_a_stream()
    ensures { MAX_GENERATIONS ≡ 65536 }
{}
