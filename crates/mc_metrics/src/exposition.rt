//! The text that a scrape gets.
ghost use Rattle.std.specs.Prelude.{◌≡◌, ◌∷◌, ◌+◌, ◌%◌, ◌++◌, [], OnOk, codes, flat_map, map};
ghost use Rattle.mc_metrics.specs.Exposition.{comment_line, head_lines, label_text, labels_text, sample_line};
ghost use Rattle.mc_metrics.specs.Metrics.{build_sample, command_sample, metric_help, metric_text, metrics_text, metric_name, refusal_sample, samples_of, seconds_text, server_sample, tenant_label, tenant_sample, turn_over_samples, metric_type, worker_sample};

use crate::metric::{
    LOGIC, METRICS, Metric, ServerMetric, TURN_OVER_COUNT, TURN_OVER_SUM, TenantMetric, VERSION,
    WorkerMetric, command_label, refusal_label,
};
use crate::snapshot::{LogNumbers, Snapshot, TenantNumbers, WorkerNumbers};
use itoa::Buffer;
use mc_counters::{COMMAND_KINDS, CommandKind, REFUSAL_KINDS};
use mc_model::WireNo;
use std::alloc::AllocError;

/// A label of a sample.
#[derive(Clone, Copy)]
struct Label<'a> {
    name: &'a [u8],
    value: &'a [u8],
}

/// Appends a label: its name, and its value in quotes.
fn write_label(label: &Label<'_>, out: &mut Vec<u8>) -> Result<(), AllocError>
    ensures { OnOk result
        (out.new.items ≡ out.old.items ++ label_text (label.now.name.now, label.now.value.now)) }
{
    out.extend_from_slice(label.name)?;
    out.extend_from_slice(b"=\"")?;
    out.extend_from_slice(label.value)?;
    out.extend_from_slice(b"\"")
}

/// Appends labels, each after a comma.
fn write_more_labels(labels: &[Label<'_>], out: &mut Vec<u8>) -> Result<(), AllocError>
    ensures { OnOk result (out.new.items ≡ out.old.items ++ flat_map
        (λ label. codes "," ++ label_text (label.name.now, label.value.now)) labels.now) }
{
    for label in labels {
        out.extend_from_slice(b",")?;
        write_label(label, out)?;
    }
    Ok(())
}

/// Appends at least one label, between braces.
fn write_some_labels(
    first: &Label<'_>,
    others: &[Label<'_>],
    out: &mut Vec<u8>,
) -> Result<(), AllocError>
    ensures { OnOk result (out.new.items ≡ out.old.items ++ labels_text
        (map (λ label. (label.name.now, label.value.now)) (first.now ∷ others.now))) }
{
    out.extend_from_slice(b"{")?;
    write_label(first, out)?;
    write_more_labels(others, out)?;
    out.extend_from_slice(b"}")
}

/// Appends the labels of a sample, between braces if there are any.
fn write_labels(labels: &[Label<'_>], out: &mut Vec<u8>) -> Result<(), AllocError>
    ensures { OnOk result (out.new.items ≡ out.old.items
        ++ labels_text (map (λ label. (label.name.now, label.value.now)) labels.now)) }
{
    match labels.split_first() {
        Some((first, others)) => write_some_labels(first, others, out),
        None => Ok(()),
    }
}

/// Appends the line of a sample.
#[tactic(auto, unfolding(crate::specs::Exposition::sample_line))]
fn write_sample(
    name: &[u8],
    labels: &[Label<'_>],
    value: &[u8],
    out: &mut Vec<u8>,
) -> Result<(), AllocError>
    ensures { OnOk result (out.new.items ≡ out.old.items ++ sample_line name.now
        (map (λ label. (label.name.now, label.value.now)) labels.now) value.now) }
{
    out.extend_from_slice(name)?;
    write_labels(labels, out)?;
    out.extend_from_slice(b" ")?;
    out.extend_from_slice(value)?;
    out.extend_from_slice(b"\n")
}

/// Appends a line about a metric: `# HELP ` or `# TYPE `, its name and a text.
#[tactic(auto, unfolding(crate::specs::Exposition::comment_line))]
fn write_comment(
    front: &[u8],
    name: &[u8],
    text: &[u8],
    out: &mut Vec<u8>,
) -> Result<(), AllocError>
    ensures { OnOk result (out.new.items ≡ out.old.items
        ++ comment_line front.now name.now text.now) }
{
    out.extend_from_slice(front)?;
    out.extend_from_slice(name)?;
    out.extend_from_slice(b" ")?;
    out.extend_from_slice(text)?;
    out.extend_from_slice(b"\n")
}

/// Appends the lines before a metric's samples.
fn write_head(metric: Metric, out: &mut Vec<u8>) -> Result<(), AllocError>
    ensures { OnOk result (out.new.items ≡ out.old.items
        ++ head_lines (metric_name metric) (metric_help metric) (metric_type metric)) }
{
    write_comment(b"# HELP ", metric.name(), metric.help(), out)?;
    write_comment(b"# TYPE ", metric.name(), metric.kind(), out)
}

/// Returns the label that names a tenant.
fn tenant_label(tenant: &TenantNumbers) -> Label<'_>
    ensures { (result.name.now, result.value.now) ≡ tenant_label tenant.now }
{
    Label {
        name: b"tenant",
        value: tenant.name.as_bytes(),
    }
}

/// Appends the sample of a tenant.
fn write_tenant_sample(
    metric: TenantMetric,
    tenant: &TenantNumbers,
    out: &mut Vec<u8>,
) -> Result<(), AllocError>
    ensures { OnOk result (out.new.items ≡ out.old.items ++ tenant_sample metric tenant.now) }
{
    let name = Metric::OfTenant(metric).name();
    let mut buffer = Buffer::new();
    let value = buffer.format(metric.value(tenant));
    write_sample(name, &[tenant_label(tenant)], value.as_bytes(), out)
}

/// Appends the sample of each tenant.
fn write_tenant_samples(
    metric: TenantMetric,
    tenants: &[TenantNumbers],
    out: &mut Vec<u8>,
) -> Result<(), AllocError>
    ensures { OnOk result (out.new.items ≡ out.old.items
        ++ flat_map (tenant_sample metric) tenants.now) }
{
    for tenant in tenants {
        write_tenant_sample(metric, tenant, out)?;
    }
    Ok(())
}

/// Appends the sample of a tenant and a kind of commands.
fn write_command_sample(
    tenant: &TenantNumbers,
    kind: CommandKind,
    out: &mut Vec<u8>,
) -> Result<(), AllocError>
    ensures { OnOk result (out.new.items ≡ out.old.items ++ command_sample tenant.now kind) }
{
    let label = Label {
        name: b"command",
        value: command_label(kind),
    };
    let mut buffer = Buffer::new();
    let value = buffer.format(tenant.tally.of_kind(kind));
    let labels = [tenant_label(tenant), label];
    write_sample(Metric::Commands.name(), &labels, value.as_bytes(), out)
}

/// Appends the sample of a tenant and each of these kinds of commands.
fn write_command_samples(
    tenant: &TenantNumbers,
    kinds: &[CommandKind],
    out: &mut Vec<u8>,
) -> Result<(), AllocError>
    ensures { OnOk result (out.new.items ≡ out.old.items
        ++ flat_map (command_sample tenant.now) kinds.now) }
{
    for kind in kinds {
        write_command_sample(tenant, *kind, out)?;
    }
    Ok(())
}

/// Appends the sample of each tenant and each of these kinds of commands.
fn write_all_command_samples(
    tenants: &[TenantNumbers],
    kinds: &[CommandKind],
    out: &mut Vec<u8>,
) -> Result<(), AllocError>
    ensures { OnOk result (out.new.items ≡ out.old.items
        ++ flat_map (λ tenant. flat_map (command_sample tenant) kinds.now) tenants.now) }
{
    for tenant in tenants {
        write_command_samples(tenant, kinds, out)?;
    }
    Ok(())
}

/// Appends the sample of a tenant and a kind of refusals.
fn write_refusal_sample(
    tenant: &TenantNumbers,
    refusal: WireNo,
    out: &mut Vec<u8>,
) -> Result<(), AllocError>
    ensures { OnOk result (out.new.items ≡ out.old.items ++ refusal_sample tenant.now refusal) }
{
    let label = Label {
        name: b"refusal",
        value: refusal_label(refusal),
    };
    let mut buffer = Buffer::new();
    let value = buffer.format(tenant.tally.of_refusal(refusal));
    let labels = [tenant_label(tenant), label];
    write_sample(Metric::Refusals.name(), &labels, value.as_bytes(), out)
}

/// Appends the sample of a tenant and each of these kinds of refusals.
fn write_refusal_samples(
    tenant: &TenantNumbers,
    refusals: &[WireNo],
    out: &mut Vec<u8>,
) -> Result<(), AllocError>
    ensures { OnOk result (out.new.items ≡ out.old.items
        ++ flat_map (refusal_sample tenant.now) refusals.now) }
{
    for refusal in refusals {
        write_refusal_sample(tenant, *refusal, out)?;
    }
    Ok(())
}

/// Appends the sample of each tenant and each of these kinds of refusals.
fn write_all_refusal_samples(
    tenants: &[TenantNumbers],
    refusals: &[WireNo],
    out: &mut Vec<u8>,
) -> Result<(), AllocError>
    ensures { OnOk result (out.new.items ≡ out.old.items
        ++ flat_map (λ tenant. flat_map (refusal_sample tenant) refusals.now) tenants.now) }
{
    for tenant in tenants {
        write_refusal_samples(tenant, refusals, out)?;
    }
    Ok(())
}

/// Appends the sample of a worker.
fn write_worker_sample(
    metric: WorkerMetric,
    worker: &WorkerNumbers,
    out: &mut Vec<u8>,
) -> Result<(), AllocError>
    ensures { OnOk result (out.new.items ≡ out.old.items
        ++ worker_sample metric worker.now) }
{
    let mut digits = Buffer::new();
    let label = Label {
        name: b"worker",
        value: digits.format(worker.number).as_bytes(),
    };
    let mut buffer = Buffer::new();
    let value = buffer.format(metric.value(worker));
    let name = Metric::OfWorker(metric).name();
    write_sample(name, &[label], value.as_bytes(), out)
}

/// Appends the sample of each worker.
fn write_worker_samples(
    metric: WorkerMetric,
    workers: &[WorkerNumbers],
    out: &mut Vec<u8>,
) -> Result<(), AllocError>
    ensures { OnOk result (out.new.items ≡ out.old.items
        ++ flat_map (worker_sample metric) workers.now) }
{
    for worker in workers {
        write_worker_sample(metric, worker, out)?;
    }
    Ok(())
}

/// Returns the last digit of a number.
fn last_digit(number: u64) -> u8
    ensures { result ≡ 48 + number % 10 }
{
    b'0' + (number % 10) as u8
}

/// Appends a number of microseconds in seconds, with six digits after the point.
fn write_seconds(micros: u64, out: &mut Vec<u8>) -> Result<(), AllocError>
    ensures { OnOk result (out.new.items ≡ out.old.items ++ seconds_text micros) }
{
    let mut buffer = Buffer::new();
    out.extend_from_slice(buffer.format(micros / 1_000_000).as_bytes())?;
    out.extend_from_slice(b".")?;
    out.extend_from_slice(&[
        last_digit(micros / 100_000),
        last_digit(micros / 10_000),
        last_digit(micros / 1_000),
        last_digit(micros / 100),
        last_digit(micros / 10),
        last_digit(micros),
    ])
}

/// Appends the sample of the server, if its number is known.
fn write_server_sample(
    metric: ServerMetric,
    snapshot: &Snapshot,
    out: &mut Vec<u8>,
) -> Result<(), AllocError>
    ensures { OnOk result (out.new.items ≡ out.old.items ++ server_sample metric snapshot.now) }
{
    let Some(number) = metric.value(snapshot) else {
        return Ok(());
    };
    let name = Metric::OfServer(metric).name();
    let mut buffer = Buffer::new();
    let value = buffer.format(number);
    write_sample(name, &[], value.as_bytes(), out)
}

/// Appends a sample in seconds, of a number of microseconds.
#[tactic(auto, unfolding(crate::specs::Exposition::sample_line))]
fn write_seconds_sample(name: &[u8], micros: u64, out: &mut Vec<u8>) -> Result<(), AllocError>
    ensures { OnOk result (out.new.items ≡ out.old.items
        ++ sample_line name.now [] (seconds_text micros)) }
{
    out.extend_from_slice(name)?;
    out.extend_from_slice(b" ")?;
    write_seconds(micros, out)?;
    out.extend_from_slice(b"\n")
}

/// Appends how many turn overs there were, and how long they took in total.
fn write_turn_overs(log: &LogNumbers, out: &mut Vec<u8>) -> Result<(), AllocError>
    ensures { OnOk result (out.new.items ≡ out.old.items ++ turn_over_samples log.now) }
{
    write_seconds_sample(TURN_OVER_SUM, log.turn_over_micros, out)?;
    let mut buffer = Buffer::new();
    let count = buffer.format(log.turn_overs);
    write_sample(TURN_OVER_COUNT, &[], count.as_bytes(), out)
}

/// Appends which version runs, and the logic that it is proved in.
fn write_build(out: &mut Vec<u8>) -> Result<(), AllocError>
    ensures { OnOk result (out.new.items ≡ out.old.items ++ build_sample) }
{
    let version = Label {
        name: b"version",
        value: VERSION,
    };
    let logic = Label {
        name: b"logic",
        value: LOGIC,
    };
    write_sample(Metric::Build.name(), &[version, logic], b"1", out)
}

/// Appends the samples of a metric.
#[tactic(auto, unfolding(crate::specs::Metrics::samples_of))]
fn write_samples(metric: Metric, snapshot: &Snapshot, out: &mut Vec<u8>) -> Result<(), AllocError>
    ensures { OnOk result (out.new.items ≡ out.old.items ++ samples_of snapshot.now metric) }
{
    let tenants = snapshot.tenants.as_slice();
    match metric {
        Metric::OfTenant(metric) => write_tenant_samples(metric, tenants, out),
        Metric::Commands => write_all_command_samples(tenants, &COMMAND_KINDS, out),
        Metric::Refusals => write_all_refusal_samples(tenants, &REFUSAL_KINDS, out),
        Metric::OfWorker(metric) => write_worker_samples(metric, &snapshot.workers, out),
        Metric::OfServer(metric) => write_server_sample(metric, snapshot, out),
        Metric::TurnOvers => write_turn_overs(&snapshot.log, out),
        Metric::Build => write_build(out),
    }
}

/// Appends a metric: its head and its samples.
#[tactic(auto, unfolding(crate::specs::Metrics::metric_text))]
fn write_metric(metric: Metric, snapshot: &Snapshot, out: &mut Vec<u8>) -> Result<(), AllocError>
    ensures { OnOk result (out.new.items ≡ out.old.items ++ metric_text snapshot.now metric) }
{
    write_head(metric, out)?;
    write_samples(metric, snapshot, out)
}

/// Appends these metrics.
fn write_each(metrics: &[Metric], snapshot: &Snapshot, out: &mut Vec<u8>) -> Result<(), AllocError>
    ensures { OnOk result (out.new.items ≡ out.old.items
        ++ flat_map (metric_text snapshot.now) metrics.now) }
{
    for metric in metrics {
        write_metric(*metric, snapshot, out)?;
    }
    Ok(())
}

/// Appends the metrics of a snapshot, as a scrape gets them.
///
/// Returns an error if memory runs out; some of the text may be there then.
#[tactic(auto, unfolding(crate::specs::Metrics::metrics_text))]
pub fn write_metrics(snapshot: &Snapshot, out: &mut Vec<u8>) -> Result<(), AllocError>
    ensures { OnOk result (out.new.items ≡ out.old.items ++ metrics_text snapshot.now) }
{
    write_each(&METRICS, snapshot, out)
}
