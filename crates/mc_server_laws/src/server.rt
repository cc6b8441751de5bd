//! What can be served, by the words of the command line, how many workers serve, and which numbers
//! are printed.
ghost use Rattle.mc_programs.specs.Lists.{bad_line_text};
ghost use Rattle.mc_server.specs.NetworkTexts.{done_line};
ghost use Rattle.mc_server.specs.NetworkWords.{IsServable, NetworkAsked, NetworkGiven, workers_for};
ghost use Rattle.mc_server.specs.TenantWord.{TenantAsked};
ghost use Rattle.std.specs.Prelude.{◌≡◌, ◌≢◌, ◌++◌, ◌<◌, ◌≤◌, ℕ, None, Some, codes, decimal, slice_get};

/// Where words can be served, no two tenants have one name, however many there are, and none has
/// the name of the administrators' listener or of the one for metrics, if there is such a listener.
pub fn each_tenant_has_a_name_of_its_own()
    ensures own { (asked : NetworkAsked) (one other : ℕ) (first second : TenantAsked) →
        IsServable asked → slice_get asked.tenants one ≡ Some first →
        slice_get asked.tenants other ≡ Some second → first.name ≡ second.name → one ≡ other }
    ensures admin { (asked : NetworkAsked) (number : ℕ) (tenant : TenantAsked) → IsServable asked →
        slice_get asked.tenants number ≡ Some tenant → asked.admin ≢ None →
        tenant.name ≢ codes "admin" }
    ensures metrics { (asked : NetworkAsked) (number : ℕ) (tenant : TenantAsked) →
        IsServable asked → slice_get asked.tenants number ≡ Some tenant → asked.metrics ≢ None →
        tenant.name ≢ codes "metrics" }
{}

/// As many workers serve as are asked for, where there is one log or a log has a place for each.
/// Where a log may follow another, and has fewer places than workers are asked for, as many serve
/// as it has places.
pub fn each_worker_has_a_place_of_each_log()
    ensures one_log { (given : NetworkGiven) → given.generations ≡ 1 →
        workers_for given ≡ given.workers }
    ensures enough { (given : NetworkGiven) → given.workers ≤ given.places →
        workers_for given ≡ given.workers }
    ensures few_places { (given : NetworkGiven) → given.generations ≢ 1 →
        given.places < given.workers → workers_for given ≡ given.places }
{}

/// The numbers that are printed are whole, however large they are: how many places were used, at
/// the end of `wfmc`, and which line is the first bad one of an event list.
pub fn numbers_are_printed_whole()
    ensures done { (places : ℕ) →
        done_line places ≡ codes "done " ++ decimal places ++ codes "\n" }
    ensures bad_line { (line : ℕ) → bad_line_text line
        ≡ codes "mc_schedule: line " ++ decimal line ++ codes ": bad line\n" }
{}
