//! Judging the history of a log.

ghost use Rattle.std.specs.Prelude.{◌≡◌, IfErr, IfOk};
ghost use Rattle.app_logs.specs.Reports.{IsReportOn};

use crate::forced_history::forced_history;
use app_engine::{Findings, RunError, SessionWork, report_on_long};
use log_events::EventLog;
use std::alloc::Global;

/// What is known of the history of a log by what is forced of its null reads, for each criterion. `in_time` says that its events stand in
/// the order of time. `work` shares out the sessions, and starts threads or none.
///
/// It is that of [`report_on_long`]: `Unknown` only where values are not distinct. Fails for want of memory alone.
/// O(n (k + log n)) for n calls of k clients and lost writes and deletes that were seen, and the cost of `log_choices::forced_reads`.
#[tactic(auto, using(crate::proofs::ReportLaws::reported))]
pub fn report_on_log<W: SessionWork>(
    work: &W,
    alloc: Global,
    log: &EventLog,
    in_time: bool,
) -> Result<Findings, RunError>
    requires { W.can_work work.now }
    ensures report { IfOk result (IsReportOn in_time log.now) }
    ensures error { IfErr result (λ e. e ≡ RunError.Memory) }
{
    let history = forced_history(alloc, log, in_time)?;
    let report = report_on_long(work, alloc, &history)?;
    Ok(report)
}

/// The same, but drops the log before it judges the history, and so takes less memory.
#[tactic(auto, using(crate::proofs::ReportLaws::reported))]
pub(crate) fn report_on_last_log<W: SessionWork>(
    work: &W,
    alloc: Global,
    log: EventLog,
    in_time: bool,
) -> Result<Findings, RunError>
    requires { W.can_work work.now }
    ensures report { IfOk result (IsReportOn in_time log) }
    ensures error { IfErr result (λ e. e ≡ RunError.Memory) }
{
    let history = forced_history(alloc, &log, in_time)?;
    drop(log);
    let report = report_on_long(work, alloc, &history)?;
    Ok(report)
}
