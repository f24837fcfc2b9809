//! The report on a memory history of any length.

ghost use Rattle.std.specs.Prelude.{IfErr, IfOk};
ghost use Rattle.app_orders.specs.declared.length.Length.TheVariants.{Any};
ghost use Rattle.app_explanations.specs.Report.{IsReportOnAt};
ghost use Rattle.app_engine.specs.Steps.ReportErrors.{IsReportError};

use crate::failure::RunError;
use app_findings::{Findings, report_on_long};
use judge_decision::SessionWork;
use judge_reader::read_long;
use std::alloc::Global;

/// The report on the memory history in an input, of any length.
///
/// Refuses what is no such history, and fails for want of memory. The cost is that of reading and of [`report_on_long`].
pub(crate) fn report_on_long_input<W: SessionWork>(
    work: &W,
    alloc: Global,
    input: &[u8],
) -> Result<Findings, RunError>
    requires { W.can_work work.now }
    ensures report { IfOk result (IsReportOnAt Any input.now) }
    ensures error { IfErr result (IsReportError Any input.now) }
{
    let history = read_long(alloc, input)?;
    let report = report_on_long(work, alloc, &history);
    drop(history);
    Ok(report?)
}
