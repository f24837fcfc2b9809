//! One turn of judging a log while it is read: to the next cut, and the line on it.

ghost use Rattle.std.specs.Prelude.{◌≡◌, ◌≢◌, ◌⊎◌, Err, IfErr, IfOk, OnOk};
ghost use Rattle.json_lines.specs.WriteCalls.{FailsToTake, PassesOn};
ghost use Rattle.app_logs.specs.Endings.{WritesLineFront};
ghost use Rattle.app_logs.specs.Reports.{cut_line};
ghost use Rattle.app_logs.specs.Steps.Watching.{GoesOnBy, WritesCut};

use crate::failure::LogError;
use crate::following::Followed;
use crate::judging::report_on_log;
use app_engine::{Findings, SessionWork, joined_text, outcome_of, write_output};
use app_orders::Expected;
use json_lines::{MAX_WRITE_CALLS, Outcome, Sink};
use log_events::EventLog;
use std::alloc::{AllocError, Global};

/// What a turn comes to.
#[derive(Clone, Copy)]
pub(crate) enum Turn {
    /// The outcome at the cut was the expected one, and the log may go on.
    On,
    /// It was not: the judging ends at this cut.
    Stopped(Followed),
    /// The log was read to its end.
    Ended(Followed),
}

/// What the turn to a cut with this outcome comes to.
pub(crate) fn turn_of(outcome: Outcome) -> Turn
    ensures { GoesOnBy outcome result }
{
    match outcome {
        Outcome::Met => Turn::On,
        _ => Turn::Stopped(Followed {
            outcome,
            torn: false,
            late: None,
            says_order: false,
        }),
    }
}

/// Judges the log so far, and writes the line on it.
pub(crate) fn write_cut<K: SessionWork, W: Sink>(
    work: &K,
    alloc: Global,
    writer: &mut W,
    log: &EventLog,
    expected: Expected,
) -> Result<Outcome, LogError>
    requires { K.can_work work.now }
    ensures written { IfOk result (WritesCut expected log.now (W.contents writer.old) (W.contents writer.new)) }
    ensures error { IfErr result (λ e. e ≢ LogError.WriteFault → writer.new ≡ writer.old) }
    ensures refused { IfErr result (λ e. (e ≡ LogError.Memory) ⊎ (e ≡ LogError.WriteFault)) }
    ensures begun { result ≡ Err LogError.WriteFault → WritesLineFront log.now (W.contents writer.old) (W.contents writer.new) }
    ensures passed_on { OnOk result (PassesOn W.called writer.old writer.new) }
    ensures write_fault { result ≡ Err LogError.WriteFault → FailsToTake W.called MAX_WRITE_CALLS writer.old writer.new }
{
    let report = report_on_log(work, alloc, log, true)?;
    let line = line_of_cut(alloc, log.events(), &report);
    let outcome = outcome_of(&report, expected);
    drop(report);
    let line = line?;
    write_output(writer, line.as_slice())?;
    Ok(outcome)
}

// The number of events, and the joined lines of a report.
fn line_of_cut(alloc: Global, events: u32, report: &Findings) -> Result<Vec<u8>, AllocError>
    ensures { IfOk result (λ line. line.items ≡ cut_line events report.now) }
{
    let count = format!(in alloc; "{events} ")?;
    let joined = joined_text(alloc, report)?;
    let mut line = count.into_bytes();
    line.extend_from_slice(joined.as_slice())?;
    Ok(line)
}
