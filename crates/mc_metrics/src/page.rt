//! The page that people get.
ghost use Rattle.std.specs.Prelude.{◌≡◌, ◌++◌, OnOk, flat_map};
ghost use Rattle.mc_metrics.specs.Page.{log_numbers, number_cell, page_of, page_text, tenant_row};

use crate::snapshot::{LogNumbers, Snapshot, TenantNumbers};
use itoa::Buffer;
use std::alloc::AllocError;

/// What is before the rows of tenants.
pub(crate) const PAGE_FRONT: &[u8] = b"\
<!DOCTYPE html>
<html lang=\"en\">
<meta charset=\"utf-8\">
<title>wfmc</title>
<style>body{font:1em sans-serif;margin:2em}td,th{padding:.2em .8em;text-align:right}</style>
<h1>wfmc</h1>
<p>For Prometheus: <a href=\"/metrics\">/metrics</a></p>
<table>
<tr><th>tenant<th>items<th>of<th>bytes<th>of<th>connections
";

/// What is between the rows of tenants and the numbers of the log.
pub(crate) const PAGE_MIDDLE: &[u8] = b"\
</table>
<table>
<tr><th>log<th>places used<th>of<th>bytes<th>turn overs
<tr>";

/// What is after the numbers of the log.
pub(crate) const PAGE_BACK: &[u8] = b"
</table>
</html>
";

/// Appends cells of a table, one for each number.
fn write_cells(numbers: &[u64], out: &mut Vec<u8>) -> Result<(), AllocError>
    ensures { OnOk result (out.new.items ≡ out.old.items ++ flat_map number_cell numbers.now) }
{
    for number in numbers {
        out.extend_from_slice(b"<td>")?;
        out.extend_from_slice(Buffer::new().format(*number).as_bytes())?;
    }
    Ok(())
}

/// Appends the row of a tenant.
#[tactic(auto, unfolding(crate::specs::Page::tenant_row))]
fn write_row(tenant: &TenantNumbers, out: &mut Vec<u8>) -> Result<(), AllocError>
    ensures { OnOk result (out.new.items ≡ out.old.items ++ tenant_row tenant.now) }
{
    let numbers = [
        tenant.items,
        tenant.quotas.items,
        tenant.bytes,
        tenant.quotas.bytes,
        tenant.connections,
    ];
    out.extend_from_slice(b"<tr><th>")?;
    out.extend_from_slice(tenant.name.as_bytes())?;
    write_cells(&numbers, out)?;
    out.extend_from_slice(b"\n")
}

/// Appends the rows of tenants.
fn write_rows(tenants: &[TenantNumbers], out: &mut Vec<u8>) -> Result<(), AllocError>
    ensures { OnOk result (out.new.items ≡ out.old.items ++ flat_map tenant_row tenants.now) }
{
    for tenant in tenants {
        write_row(tenant, out)?;
    }
    Ok(())
}

/// Appends the numbers of the log.
fn write_log(log: &LogNumbers, out: &mut Vec<u8>) -> Result<(), AllocError>
    ensures { OnOk result (out.new.items ≡ out.old.items
        ++ flat_map number_cell (log_numbers log.now)) }
{
    let numbers = [
        log.generation,
        log.used_places,
        log.places,
        log.bytes,
        log.turn_overs,
    ];
    write_cells(&numbers, out)
}

/// Appends a page of these parts, with the rows of tenants and the numbers of the log between them.
#[tactic(auto, unfolding(crate::specs::Page::page_of))]
fn write_parts(
    front: &[u8],
    middle: &[u8],
    back: &[u8],
    snapshot: &Snapshot,
    out: &mut Vec<u8>,
) -> Result<(), AllocError>
    ensures { OnOk result (out.new.items ≡ out.old.items
        ++ page_of front.now middle.now back.now snapshot.now) }
{
    out.extend_from_slice(front)?;
    write_rows(&snapshot.tenants, out)?;
    out.extend_from_slice(middle)?;
    write_log(&snapshot.log, out)?;
    out.extend_from_slice(back)
}

/// Appends the page.
///
/// Returns an error if memory runs out; some of the text may be there then.
#[tactic(auto, unfolding(crate::specs::Page::page_text))]
pub(crate) fn write_page(snapshot: &Snapshot, out: &mut Vec<u8>) -> Result<(), AllocError>
    ensures { OnOk result (out.new.items ≡ out.old.items ++ page_text snapshot.now) }
{
    write_parts(PAGE_FRONT, PAGE_MIDDLE, PAGE_BACK, snapshot, out)
}
