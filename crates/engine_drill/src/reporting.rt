// The report of a drill.
ghost use Rattle.std.specs.Prelude.{◌≡◌, IfOk, string_bytes};
ghost use Rattle.drill_model.specs.Report.{report_by};

use super::lines::{put_number, put_statuses, put_verdict};
use journal_lines::Verdict;
use std::alloc::{AllocError, Global};

/// The report by how often each status was answered, and how many events and containers there are.
pub fn report(
    alloc: Global,
    requests: u32,
    counts: &[u64],
    events: u64,
    containers: u64,
    verdict: &Verdict,
) -> Result<String, AllocError>
    ensures { IfOk result
        (λ s. string_bytes s ≡ report_by requests counts.now events containers verdict.now) }
{
    let mut out = String::new(alloc);
    put_number(alloc, &mut out, "requests", u64::from(requests))?;
    put_statuses(alloc, &mut out, counts)?;
    put_number(alloc, &mut out, "events", events)?;
    put_number(alloc, &mut out, "containers", containers)?;
    put_verdict(alloc, &mut out, verdict)?;
    Ok(out)
}
