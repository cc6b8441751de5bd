//! What the definitions say of a scrape. A law is the contract of a function with an empty body, or
//! with calls of the laws from which it follows.
ghost use Rattle.std.specs.Prelude.{◌≡◌, ◌<◌, ◌≤◌, ◌+◌, ◌/◌, ◌%◌, ◌++◌, [], ◌∷◌, ℕ, All, Contains, List, None, Some, codes, decimal, flat_map, length, map, slice_get, slice_index, sum_by};
ghost use Rattle.std.specs.Str.Parse.{IsNumeral, digits_value};
ghost use Rattle.mc_counters.specs.Kinds.{place_of_kind, place_of_refusal};
ghost use Rattle.mc_counters.specs.declared.kinds.CommandKind.{CommandKind};
ghost use Rattle.mc_counters.specs.declared.kinds.TheConstants.{COMMAND_KINDS, REFUSAL_KINDS};
ghost use Rattle.mc_counters.specs.Tallied.{CountedRequest, IsTallyOf, capped};
ghost use Rattle.mc_counters.specs.declared.board.TenantShown.{TenantShown};
ghost use Rattle.mc_counters.specs.declared.tally.Tally.{Tally};
ghost use Rattle.mc_model.specs.declared.reply.WireNo.{WireNo};
ghost use Rattle.mc_metrics.specs.Gathering.{Gathers, GathersNone, tally_at, tally_shown, tenant_shown};
ghost use Rattle.mc_metrics.specs.Metrics.{command_label, command_sample, metric_name, metrics_text, refusal_label, refusal_sample, samples_of, seconds_text, server_value, tenant_sample, tenant_value, worker_sample, worker_value};
ghost use Rattle.mc_metrics.specs.Page.{page_text, tenant_row};
ghost use Rattle.mc_metrics.specs.declared.gathering.ServerShown.{ServerShown};
ghost use Rattle.mc_metrics.specs.declared.gathering.Shown.{Shown};
ghost use Rattle.mc_metrics.specs.declared.metric.Metric.{Metric};
ghost use Rattle.mc_metrics.specs.declared.metric.Metric.TheVariants.{Commands, OfServer, OfTenant, OfWorker, Refusals, TurnOvers};
ghost use Rattle.mc_metrics.specs.declared.metric.ServerMetric.{ServerMetric};
ghost use Rattle.mc_metrics.specs.declared.metric.ServerMetric.TheVariants.{Generation, LogBytes, Places, ResidentBytes, UsedPlaces};
ghost use Rattle.mc_metrics.specs.declared.metric.TenantMetric.{TenantMetric};
ghost use Rattle.mc_metrics.specs.declared.metric.TenantMetric.TheVariants.{ByteQuota, Bytes, Connections, Hits, ItemQuota, Items, Misses};
ghost use Rattle.mc_metrics.specs.declared.metric.WorkerMetric.{WorkerMetric};
ghost use Rattle.mc_metrics.specs.declared.metric.WorkerMetric.TheVariants as worker;
ghost use Rattle.mc_metrics.specs.declared.snapshot.Snapshot.{Snapshot};
ghost use Rattle.mc_metrics.specs.declared.snapshot.TenantNumbers.{TenantNumbers};
ghost use Rattle.mc_metrics.specs.declared.snapshot.WorkerNumbers.{WorkerNumbers};

/// What a scrape shows of a tenant's requests counts those of all workers, each once: without a
/// worker none, and with one worker more that worker's too.
pub fn scrapes_count_for_all_workers()
    ensures none { (number : ℕ) → IsTallyOf [] (tally_shown number []) }
    ensures more { (number : ℕ) (first : Shown) (rest : List Shown)
        (one others : List CountedRequest) → IsTallyOf one (tally_at number first) →
        IsTallyOf others (tally_shown number rest) →
        IsTallyOf (one ++ others) (tally_shown number (first ∷ rest)) }
{
    mc_counters::laws::tallies_add_up();
}

/// A scrape shows each tenant by its name, with what stands at its number in the workers' lists:
/// its table at one of them, and its connections and requests at all.
pub fn each_tenant_is_shown_at_its_number()
    // What a worker shows of a tenant stands at the tenant's number,
    ensures own_table { (number : ℕ) (one : Shown) (table : TenantShown) →
        slice_get one.tenants.items number ≡ Some table → tenant_shown number one ≡ table }
    // and so does how it has answered the tenant's requests.
    ensures own_tally { (number : ℕ) (one : Shown) (tally : Tally) →
        slice_get one.tallies.items number ≡ Some tally → tally_at number one ≡ tally }
    // Of a tenant that it doesn't know it shows nothing.
    ensures unknown { (number : ℕ) (one : Shown) → length one.tenants.items ≤ number →
        let table = tenant_shown number one in
        (table.connections ≡ 0) × (table.items ≡ 0) × (table.bytes ≡ 0) }
    // The tenants stand in the order of their names,
    ensures names { (names : List (List ℕ)) (shown : ServerShown) (snapshot : Snapshot) →
        Gathers names shown snapshot → map (λ tenant. tenant.name) snapshot.tenants.items ≡ names }
    // each with its table as the worker shows it that has come furthest,
    ensures table { (names : List (List ℕ)) (shown : ServerShown) (snapshot : Snapshot)
        (gathers : Gathers names shown snapshot) (number : ℕ) (tenant : TenantNumbers)
        (table : TenantShown) → slice_get snapshot.tenants.items number ≡ Some tenant →
        slice_get gathers.leader.tenants.items number ≡ Some table →
        (tenant.items ≡ table.items) × (tenant.bytes ≡ table.bytes)
        × (tenant.quotas ≡ table.quotas) }
    // and with its connections and requests at all workers.
    ensures workers { (names : List (List ℕ)) (shown : ServerShown) (snapshot : Snapshot) →
        Gathers names shown snapshot → (number : ℕ) (tenant : TenantNumbers) →
        slice_get snapshot.tenants.items number ≡ Some tenant →
        (tenant.connections
        ≡ capped (sum_by (λ one. (tenant_shown number one).connections) shown.workers.items))
        × (tenant.tally ≡ tally_shown number shown.workers.items) }
{}

/// A scrape shows each worker by its number, with its connections and its lag: how many places of
/// the log that is served are used and not yet replayed by it.
pub fn each_worker_is_shown_at_its_number()
    ensures numbers { (names : List (List ℕ)) (shown : ServerShown) (snapshot : Snapshot) →
        Gathers names shown snapshot → (number : ℕ) (numbers : WorkerNumbers) →
        slice_get snapshot.workers.items number ≡ Some numbers → numbers.number ≡ number }
    ensures connections { (names : List (List ℕ)) (shown : ServerShown) (snapshot : Snapshot) →
        Gathers names shown snapshot →
        map (λ numbers. numbers.connections) snapshot.workers.items
        ≡ map (λ one. one.worker.connections) shown.workers.items }
    // While none is of a later log, the lag of one of this log completes what it has replayed.
    ensures lag { (names : List (List ℕ)) (shown : ServerShown) (snapshot : Snapshot) →
        Gathers names shown snapshot →
        All (λ other. other.worker.generation ≤ shown.logs.generation) shown.workers.items →
        (number : ℕ) (one : Shown) (numbers : WorkerNumbers) →
        slice_get shown.workers.items number ≡ Some one →
        slice_get snapshot.workers.items number ≡ Some numbers →
        one.worker.generation ≡ shown.logs.generation →
        numbers.lag + one.worker.replayed ≡ snapshot.log.used_places }
    // A worker of an earlier log lags by all of these.
    ensures earlier { (names : List (List ℕ)) (shown : ServerShown) (snapshot : Snapshot) →
        Gathers names shown snapshot → (number : ℕ) (one : Shown) (numbers : WorkerNumbers) →
        slice_get shown.workers.items number ≡ Some one →
        slice_get snapshot.workers.items number ≡ Some numbers →
        one.worker.generation < shown.logs.generation →
        numbers.lag ≡ snapshot.log.used_places }
{}

/// A scrape shows the log that is served as the worker shows it that has replayed most of it.
pub fn the_log_is_shown_by_its_furthest_worker()
    // While no worker is of a later log, as many places are used as any of this log has replayed,
    ensures most { (names : List (List ℕ)) (shown : ServerShown) (snapshot : Snapshot) →
        Gathers names shown snapshot →
        All (λ other. other.worker.generation ≤ shown.logs.generation) shown.workers.items →
        (one : Shown) → Contains shown.workers.items one →
        one.worker.generation ≡ shown.logs.generation →
        one.worker.replayed ≤ snapshot.log.used_places }
    // and one of these has replayed them all, and shows how many bytes they keep.
    ensures bytes { (names : List (List ℕ)) (shown : ServerShown) (snapshot : Snapshot) →
        Gathers names shown snapshot →
        All (λ other. other.worker.generation ≤ shown.logs.generation) shown.workers.items →
        (one : Shown) → Contains shown.workers.items one →
        one.worker.generation ≡ shown.logs.generation → (furthest : Shown)
        × Contains shown.workers.items furthest
        × (furthest.worker.generation ≡ shown.logs.generation)
        × (furthest.worker.replayed ≡ snapshot.log.used_places)
        × (furthest.worker.bytes ≡ snapshot.log.bytes) }
    // While all workers are of earlier logs, or there is none, no place is used and no byte kept.
    ensures earlier { (names : List (List ℕ)) (shown : ServerShown) (snapshot : Snapshot) →
        Gathers names shown snapshot →
        All (λ other. other.worker.generation < shown.logs.generation) shown.workers.items →
        (snapshot.log.used_places ≡ 0) × (snapshot.log.bytes ≡ 0) }
    ensures nobody { (shown : ServerShown) (snapshot : Snapshot) → GathersNone shown snapshot →
        (snapshot.log.used_places ≡ 0) × (snapshot.log.bytes ≡ 0) }
{}

/// What a scrape gets has the samples of each metric, and among these are those of every tenant or
/// worker, however many there are.
pub fn every_tenant_and_worker_has_its_samples()
    ensures metrics { (snapshot : Snapshot) (metric : Metric) → (before after : List ℕ)
        × (metrics_text snapshot ≡ before ++ samples_of snapshot metric ++ after) }
    // The samples of some tenants and of others are those of both,
    ensures tenants { (metric : TenantMetric) (one other both : Snapshot) →
        both.tenants.items ≡ one.tenants.items ++ other.tenants.items →
        samples_of both (OfTenant metric)
        ≡ samples_of one (OfTenant metric) ++ samples_of other (OfTenant metric) }
    ensures commands { (one other both : Snapshot) →
        both.tenants.items ≡ one.tenants.items ++ other.tenants.items →
        samples_of both Commands ≡ samples_of one Commands ++ samples_of other Commands }
    ensures refusals { (one other both : Snapshot) →
        both.tenants.items ≡ one.tenants.items ++ other.tenants.items →
        samples_of both Refusals ≡ samples_of one Refusals ++ samples_of other Refusals }
    // and a tenant alone has one of each metric, and one for each kind of commands and refusals.
    ensures tenant { (metric : TenantMetric) (snapshot : Snapshot) (tenant : TenantNumbers) →
        snapshot.tenants.items ≡ tenant ∷ [] →
        samples_of snapshot (OfTenant metric) ≡ tenant_sample metric tenant }
    ensures kinds { (snapshot : Snapshot) (tenant : TenantNumbers) →
        snapshot.tenants.items ≡ tenant ∷ [] →
        (samples_of snapshot Commands ≡ flat_map (command_sample tenant) COMMAND_KINDS)
        × (samples_of snapshot Refusals ≡ flat_map (refusal_sample tenant) REFUSAL_KINDS) }
    // The same holds of workers.
    ensures workers { (metric : WorkerMetric) (one other both : Snapshot) →
        both.workers.items ≡ one.workers.items ++ other.workers.items →
        samples_of both (OfWorker metric)
        ≡ samples_of one (OfWorker metric) ++ samples_of other (OfWorker metric) }
    ensures worker { (metric : WorkerMetric) (snapshot : Snapshot) (numbers : WorkerNumbers) →
        snapshot.workers.items ≡ numbers ∷ [] →
        samples_of snapshot (OfWorker metric) ≡ worker_sample metric numbers }
{}

/// A sample is a line with the name of its metric, the labels that say whose it is, and its number
/// whole, in decimal digits.
pub fn samples_show_numbers_whole()
    ensures tenant { (metric : TenantMetric) (tenant : TenantNumbers) → tenant_sample metric tenant
        ≡ metric_name (OfTenant metric) ++ codes "{tenant=\"" ++ tenant.name ++ codes "\"} "
        ++ decimal (tenant_value metric tenant) ++ codes "\n" }
    ensures tenant_numbers { (tenant : TenantNumbers) →
        (tenant_value Items tenant ≡ tenant.items)
        × (tenant_value Bytes tenant ≡ tenant.bytes)
        × (tenant_value ItemQuota tenant ≡ tenant.quotas.items)
        × (tenant_value ByteQuota tenant ≡ tenant.quotas.bytes)
        × (tenant_value Hits tenant ≡ tenant.tally.hits)
        × (tenant_value Misses tenant ≡ tenant.tally.misses)
        × (tenant_value Connections tenant ≡ tenant.connections) }
    ensures command { (tenant : TenantNumbers) (kind : CommandKind) → command_sample tenant kind
        ≡ codes "wfmc_tenant_commands_total{tenant=\"" ++ tenant.name ++ codes "\",command=\""
        ++ command_label kind ++ codes "\"} "
        ++ decimal (slice_index tenant.tally.commands (place_of_kind kind)) ++ codes "\n" }
    ensures refusal { (tenant : TenantNumbers) (refusal : WireNo) → refusal_sample tenant refusal
        ≡ codes "wfmc_tenant_refusals_total{tenant=\"" ++ tenant.name ++ codes "\",refusal=\""
        ++ refusal_label refusal ++ codes "\"} "
        ++ decimal (slice_index tenant.tally.refusals (place_of_refusal refusal)) ++ codes "\n" }
    ensures worker { (metric : WorkerMetric) (numbers : WorkerNumbers) →
        worker_sample metric numbers
        ≡ metric_name (OfWorker metric) ++ codes "{worker=\"" ++ decimal numbers.number
        ++ codes "\"} " ++ decimal (worker_value metric numbers) ++ codes "\n" }
    ensures worker_numbers { (numbers : WorkerNumbers) →
        (worker_value worker.Lag numbers ≡ numbers.lag)
        × (worker_value worker.Connections numbers ≡ numbers.connections) }
    // A number of the server that isn't known has no sample.
    ensures known { (metric : ServerMetric) (snapshot : Snapshot) (number : ℕ) →
        server_value metric snapshot ≡ Some number → samples_of snapshot (OfServer metric)
        ≡ metric_name (OfServer metric) ++ codes " " ++ decimal number ++ codes "\n" }
    ensures unknown { (metric : ServerMetric) (snapshot : Snapshot) →
        server_value metric snapshot ≡ None → samples_of snapshot (OfServer metric) ≡ [] }
    ensures server_numbers { (snapshot : Snapshot) →
        (server_value Places snapshot ≡ Some snapshot.log.places)
        × (server_value UsedPlaces snapshot ≡ Some snapshot.log.used_places)
        × (server_value LogBytes snapshot ≡ Some snapshot.log.bytes)
        × (server_value Generation snapshot ≡ Some snapshot.log.generation)
        × (server_value ResidentBytes snapshot ≡ snapshot.resident_bytes) }
    ensures turn_overs { (snapshot : Snapshot) → samples_of snapshot TurnOvers
        ≡ codes "wfmc_turn_over_seconds_sum " ++ seconds_text snapshot.log.turn_over_micros
        ++ codes "\nwfmc_turn_over_seconds_count " ++ decimal snapshot.log.turn_overs
        ++ codes "\n" }
{}

/// A number of microseconds is shown in seconds: the whole ones in decimal digits, a point, and six
/// digits whose number is that of the microseconds that are left.
pub fn seconds_have_six_digits_after_the_point()
    ensures { (micros : ℕ) → (digits : List ℕ)
        × (seconds_text micros ≡ decimal (micros / 1000000) ++ codes "." ++ digits)
        × (length digits ≡ 6) × IsNumeral 10 digits
        × (digits_value 10 digits ≡ micros % 1000000) }
{}

/// Each tenant has its row on the page, with its name and its numbers whole: without the tenant,
/// the page is the same but for this row.
pub fn every_tenant_has_its_row()
    ensures rows { (before after : List TenantNumbers) (tenant : TenantNumbers)
        (more fewer : Snapshot) → more.tenants.items ≡ before ++ tenant ∷ after →
        fewer.tenants.items ≡ before ++ after → more.log ≡ fewer.log →
        (front back : List ℕ) × (page_text more ≡ front ++ tenant_row tenant ++ back)
        × (page_text fewer ≡ front ++ back) }
    ensures row { (tenant : TenantNumbers) → tenant_row tenant
        ≡ codes "<tr><th>" ++ tenant.name ++ codes "<td>" ++ decimal tenant.items
        ++ codes "<td>" ++ decimal tenant.quotas.items ++ codes "<td>" ++ decimal tenant.bytes
        ++ codes "<td>" ++ decimal tenant.quotas.bytes ++ codes "<td>"
        ++ decimal tenant.connections ++ codes "\n" }
    // The numbers of the log are whole too.
    ensures log { (snapshot : Snapshot) → (front back : List ℕ)
        × (page_text snapshot
        ≡ front ++ codes "<td>" ++ decimal snapshot.log.generation ++ codes "<td>"
        ++ decimal snapshot.log.used_places ++ codes "<td>" ++ decimal snapshot.log.places
        ++ codes "<td>" ++ decimal snapshot.log.bytes ++ codes "<td>"
        ++ decimal snapshot.log.turn_overs ++ back) }
{}
