//! How many reads show a fault, by the list of faults as JSON.

ghost use Rattle.std.specs.Prelude.{◌≡◌, IfOk};
ghost use Rattle.serde_json.specs.View.{view};
ghost use Rattle.app_pages.specs.Writing.{CountsReads, counted_reads, number_at};

use serde_json::Value;
use std::alloc::{AllocError, Global};

/// How many reads show a fault, as a list of faults as JSON counts them: 0 where it counts none.
///
/// Fails for want of memory, and where the text is no JSON. O(n) for n bytes.
pub(crate) fn reads_counted(alloc: Global, report: &[u8]) -> Result<u64, AllocError>
    ensures { IfOk result (CountsReads report.now) }
{
    match Value::from_slice(alloc, report) {
        Ok(value) => {
            let counted = reads_in(&value);
            drop(value);
            counted
        }
        Err(_) => Err(AllocError),
    }
}

// The same of the value of that text.
fn reads_in(report: &Value) -> Result<u64, AllocError>
    ensures { IfOk result (λ counted. counted ≡ counted_reads (view report.now)) }
{
    let unwritten = count_at(report, "/1/0/0/1");
    let initial = count_at(report, "/1/0/1/1");
    let overwritten = count_at(report, "/1/0/2/1");
    let Some(sum) = unwritten.checked_add(initial) else {
        return Err(AllocError);
    };
    match sum.checked_add(overwritten) {
        Some(counted) => Ok(counted),
        None => Err(AllocError),
    }
}

// The whole number at a place of a value, or 0.
fn count_at(report: &Value, place: &str) -> u64
    ensures { result ≡ number_at place.now (view report.now) }
{
    let Some(value) = report.pointer(place) else {
        return 0;
    };
    match value.as_u64() {
        Some(count) => count,
        None => 0,
    }
}
