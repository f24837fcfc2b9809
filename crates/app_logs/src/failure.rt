//! Why a log has no answer, and what the program says of it.

ghost use Rattle.std.specs.Prelude.{◌≡◌, IfOk, string_bytes};
ghost use Rattle.app_logs.specs.Failure.{lines_for, refusal_lines, status_for, words_for};

use app_engine::RunError;
use log_reader::{LogFault, Reason, Refusal};
use std::alloc::{AllocError, AllocFailed, Global};
use thiserror::Error;

/// Why a log has no answer.
#[derive(Clone, Copy, Debug, PartialEq, Eq, Error)]
pub enum LogError {
    /// A line of the log is refused.
    #[error("a line of the log is refused")]
    Refused(Refusal),
    /// An allocation was refused, or the log has too many events or names to be numbered.
    #[error("no memory")]
    Memory,
    /// The reader failed, or it did not reach the end of a line within the read calls allowed for one line.
    #[error("the log could not be read")]
    ReadFault,
    /// The writer failed, or took nothing.
    #[error("the answer could not be written")]
    WriteFault,
}

impl From<AllocError> for LogError {
    ghost use Rattle.std.specs.Prelude.{◌≡◌};
    ghost use Rattle.app_logs.specs.declared.failure.LogError.TheVariants.{Memory};

    ghost from_gives = { λ _ e. e ≡ Memory };

    fn from(_refused: AllocError) -> LogError {
        LogError::Memory
    }
}

impl<T: Drop> From<AllocFailed<T>> for LogError {
    ghost use Rattle.std.specs.Prelude.{◌≡◌};
    ghost use Rattle.app_logs.specs.declared.failure.LogError.TheVariants.{Memory};

    ghost from_gives = { λ _ e. e ≡ Memory };

    fn from(_refused: AllocFailed<T>) -> LogError {
        LogError::Memory
    }
}

impl From<LogFault> for LogError {
    ghost use Rattle.std.specs.Prelude.{◌≡◌};
    ghost use Rattle.app_logs.specs.Failure.{error_of};

    ghost from_gives = { λ fault e. e ≡ error_of fault };

    fn from(fault: LogFault) -> LogError {
        match fault {
            LogFault::Refused(refusal) => LogError::Refused(refusal),
            LogFault::Memory => LogError::Memory,
            LogFault::Read => LogError::ReadFault,
        }
    }
}

// The engine refuses no history of a log.
impl From<RunError> for LogError {
    ghost use Rattle.std.specs.Prelude.{◌≡◌};
    ghost use Rattle.app_logs.specs.Failure.{error_by};

    ghost from_gives = { λ failure e. e ≡ error_by failure };

    fn from(failure: RunError) -> LogError {
        match failure {
            RunError::WriteFault => LogError::WriteFault,
            _ => LogError::Memory,
        }
    }
}

/// The exit status after a log that had no answer: 1 where a line was refused, 3 where the reader or the writer failed, and 4 where
/// memory ran out.
pub fn status_of_error(error: &LogError) -> u8
    ensures { result ≡ status_for error.now }
{
    match error {
        LogError::Refused(_) => 1,
        LogError::ReadFault | LogError::WriteFault => 3,
        LogError::Memory => 4,
    }
}

/// The text for standard error after a log that had no answer, with no line feed at the end: if a line was refused, `refused N LINE`
/// and a second line with what is wrong there, which ends in these details; else `read fault`, `write fault` or `no memory`.
pub fn error_lines(alloc: Global, error: &LogError, details: &str) -> Result<String, AllocError>
    ensures { IfOk result (λ lines. string_bytes lines ≡ lines_for error.now details.now) }
{
    match error {
        LogError::Refused(refusal) => lines_of_refusal(alloc, refusal, details),
        LogError::Memory => String::from_str(alloc, "no memory"),
        LogError::ReadFault => String::from_str(alloc, "read fault"),
        LogError::WriteFault => String::from_str(alloc, "write fault"),
    }
}

// The lines on a refused line.
fn lines_of_refusal(alloc: Global, refusal: &Refusal, details: &str) -> Result<String, AllocError>
    ensures { IfOk result (λ lines. string_bytes lines ≡ refusal_lines refusal.now details.now) }
{
    let code = refusal.code();
    let line = refusal.line;
    let words = words_of(refusal.reason);
    format!(in alloc; "refused {code} {line}\nline {line}: {words}{details}")
}

// What is wrong with a line.
fn words_of(reason: Reason) -> &'static str
    ensures { result.now ≡ words_for reason }
{
    match reason {
        Reason::NotJson => "no JSON text in UTF-8",
        Reason::TooLong => "more than 1000000 bytes",
        Reason::NoForm => {
            "no event: wanted is [\"start\",KEY,VALUE], [\"begin\",CLIENT,CALL], [\"end\",CLIENT,ANSWER], [\"fail\",CLIENT] or \
                [\"lost\",CLIENT], where CALL is [\"w\",KEY,VALUE], [\"r\",KEY] or [\"d\",KEY]"
        }
        Reason::LateStart => "a start after the first begin, or a second start of its key",
        Reason::CallPending => "a begin of a client that has a call pending",
        Reason::NothingPending => "the end of a call of a client that has none pending",
        Reason::WrongEnd => {
            r#"an answer that the pending call does not have: "ok" ends a write or a delete, a value or null ends a read"#
        }
        Reason::LateOrder => {
            r#"the order of time is said after an event, or twice: ["order","time"] is the first event of a log"#
        }
    }
}
