//! Logs that are in memory, and answers to them by the calling thread alone.

ghost use Rattle.std.specs.Prelude.{◌≡◌, IfErr, IfOk, string_bytes};
ghost use Rattle.log_reader.specs.Logs.{IsLogOf};
ghost use Rattle.app_logs.specs.Reports.{IsForcedIn};
ghost use Rattle.app_logs.specs.Alone.{IsAnswerTo, IsMemoryError, judging_once as once, memory_error};

use crate::answering::{answer_to, shows_notes};
use crate::failure::LogError;
use crate::logged_run::LoggedRun;
use crate::reading::{WholeLog, read_log};
use app_engine::{Answered, CallingThread, Workers};
use app_orders::{Expected, LogJudging, LogOrder};
use std::alloc::Global;

/// How a log is judged once, and nothing is expected of it.
pub fn judging_once() -> LogJudging
    ensures { result ≡ once }
{
    LogJudging {
        workers: Workers::usual(),
        expected: Expected::nothing(),
        every: None,
    }
}

/// The answer to an order on a log in memory, which is given once: `every` of an order to judge is passed over. It starts no thread. A
/// last line that is not whole is passed over.
///
/// Fails with the first line that is refused, and then appends to `details` what [`error_lines`](crate::error_lines) says of it besides its
/// reason; or for want of memory. O(n (k + log n)) for a history of n operations in k sessions, and the cost of reading.
pub fn answer_log_alone(
    alloc: Global,
    log: &[u8],
    order: &LogOrder,
    details: &mut String,
) -> Result<Answered, LogError>
    ensures answer { IfOk result (λ answer. IsAnswerTo order.now log.now (string_bytes answer.text) answer.outcome) }
    ensures error { IfErr result (IsMemoryError log.now) }
{
    let whole = read_in_memory(alloc, log, shows_notes(order), details)?;
    answer_to(&CallingThread, alloc, whole, order)
}

/// The run of a log in memory, with its notes.
///
/// It appends and fails as [`LoggedRun::read`] does, and has no read fault.
pub fn run_in_memory(alloc: Global, log: &[u8], details: &mut String) -> Result<LoggedRun, LogError>
    ensures run { IfOk result (λ run. IsLogOf log.now run.log run.torn) }
    ensures forced { IfOk result (λ run. IsForcedIn run.log.in_time run.log.events run.saw) }
    ensures error { IfErr result (IsMemoryError log.now) }
{
    let whole = read_in_memory(alloc, log, true, details)?;
    Ok(LoggedRun::of(alloc, whole)?)
}

// Reads a log in memory to its end.
fn read_in_memory(
    alloc: Global,
    log: &[u8],
    keeps_notes: bool,
    details: &mut String,
) -> Result<WholeLog, LogError>
    ensures whole { IfOk result (λ whole. IsLogOf log.now whole.reader.log whole.torn) }
    ensures error { IfErr result (IsMemoryError log.now) }
{
    let mut rest = log;
    match read_log(alloc, &mut rest, keeps_notes, details) {
        Ok(whole) => Ok(whole),
        Err(error) => Err(in_memory(error)),
    }
}

// Why a log in memory can't be read. Where bytes in memory can't be read, memory is short.
fn in_memory(error: LogError) -> LogError
    ensures { result ≡ memory_error error }
{
    match error {
        LogError::Refused(refusal) => LogError::Refused(refusal),
        LogError::Memory | LogError::ReadFault | LogError::WriteFault => LogError::Memory,
    }
}
