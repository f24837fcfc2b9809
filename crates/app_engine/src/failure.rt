//! Why a run gave no answer, and what the program says of it.
ghost use Rattle.std.specs.Prelude.{◌≡◌, IfOk, string_bytes};
ghost use Rattle.app_engine.specs.Failure.{line_for, refusal_line, refused_at, script_line as line_for_script, status_for};

use cert_check::CertError;
use json_histories::{OpId, ReadError};
use json_lines::Fault;
use live_driver::DriveError;
use live_script::ScriptError;
use std::alloc::{AllocError, AllocFailed, Global};
use thiserror::Error;

/// Why a run gave no answer.
#[derive(Clone, Copy, Debug, PartialEq, Eq, Error)]
pub enum RunError {
    /// The history in the input is refused.
    #[error("the history is refused: {0}")]
    History(ReadError),
    /// The script in the input is refused.
    #[error("the script is refused: {0}")]
    Script(ScriptError),
    /// The certificate in the input has no form of a certificate.
    #[error("the certificate has no form of a certificate")]
    BadCertificate,
    /// The certificate in the input does not have the shape of the history.
    #[error("the certificate does not have the shape of the history")]
    ShapeMismatch,
    /// What comes after the history in the input is not the name of a criterion and a pattern that shows that the history does
    /// not meet it.
    #[error("the pattern does not show that the history does not meet the criterion")]
    NotThatPattern,
    /// The history in the input has no session, so nothing can be driven.
    #[error("the history has no session")]
    BadLimits,
    /// The history in the input does not have the session that is to stop.
    #[error("the history does not have the session that is to stop")]
    NoSuch,
    /// The input has more bytes than a run reads.
    #[error("the input has too many bytes")]
    TooLong,
    /// An allocation was refused.
    #[error("no memory")]
    Memory,
    /// The reader failed, or the read calls that a run makes did not find its end.
    #[error("the input could not be read")]
    ReadFault,
    /// The writer failed, or took nothing.
    #[error("the answer could not be written")]
    WriteFault,
}

impl From<AllocError> for RunError {
    ghost use Rattle.std.specs.Prelude.{◌≡◌};
    ghost use Rattle.app_engine.specs.declared.failure.RunError.TheVariants.{Memory};

    ghost from_gives = { λ _ e. e ≡ Memory };

    fn from(_refused: AllocError) -> RunError {
        RunError::Memory
    }
}

impl<T: Drop> From<AllocFailed<T>> for RunError {
    ghost use Rattle.std.specs.Prelude.{◌≡◌};
    ghost use Rattle.app_engine.specs.declared.failure.RunError.TheVariants.{Memory};

    ghost from_gives = { λ _ e. e ≡ Memory };

    fn from(_refused: AllocFailed<T>) -> RunError {
        RunError::Memory
    }
}

impl From<CertError> for RunError {
    ghost use Rattle.std.specs.Prelude.{◌≡◌};
    ghost use Rattle.app_engine.specs.Failure.{certificate_failure};

    ghost from_gives = { λ refusal e. e ≡ certificate_failure refusal };

    fn from(refusal: CertError) -> RunError {
        match refusal {
            CertError::Memory => RunError::Memory,
            CertError::BadCertificate => RunError::BadCertificate,
        }
    }
}

impl From<ReadError> for RunError {
    ghost use Rattle.std.specs.Prelude.{◌≡◌};
    ghost use Rattle.app_engine.specs.Failure.{failure_of};

    ghost from_gives = { λ refusal e. e ≡ failure_of refusal };

    fn from(refusal: ReadError) -> RunError {
        match refusal {
            ReadError::Memory => RunError::Memory,
            _ => RunError::History(refusal),
        }
    }
}

// No run meets `ClockFull` or `CellGaveBack`.
impl From<DriveError> for RunError {
    ghost use Rattle.std.specs.Prelude.{◌≡◌};
    ghost use Rattle.app_engine.specs.Failure.{drive_failure};

    ghost from_gives = { λ refusal e. e ≡ drive_failure refusal };

    fn from(refusal: DriveError) -> RunError {
        match refusal {
            DriveError::BadLimits => RunError::BadLimits,
            DriveError::NoSuch => RunError::NoSuch,
            DriveError::Memory | DriveError::ClockFull | DriveError::CellGaveBack => {
                RunError::Memory
            }
        }
    }
}

impl From<Fault> for RunError {
    ghost use Rattle.std.specs.Prelude.{◌≡◌};
    ghost use Rattle.app_engine.specs.Failure.{stream_failure};

    ghost from_gives = { λ fault e. e ≡ stream_failure fault };

    fn from(fault: Fault) -> RunError {
        match fault {
            Fault::Memory => RunError::Memory,
            Fault::Read => RunError::ReadFault,
            Fault::Write => RunError::WriteFault,
        }
    }
}

impl From<ScriptError> for RunError {
    ghost use Rattle.std.specs.Prelude.{◌≡◌};
    ghost use Rattle.app_engine.specs.Failure.{script_failure};

    ghost from_gives = { λ refusal e. e ≡ script_failure refusal };

    fn from(refusal: ScriptError) -> RunError {
        match refusal {
            ScriptError::Memory => RunError::Memory,
            _ => RunError::Script(refusal),
        }
    }
}

/// The exit status after a run of which nothing was expected: 0 where it was answered, 1 where its input was refused, 3 where its reader
/// or its writer failed, and 4 where memory ran out. After an answer of which something is expected,
/// [`Outcome::status`](crate::Outcome::status) is the status.
pub fn status_of(outcome: &Result<(), RunError>) -> u8
    ensures { result ≡ status_for outcome.now }
{
    match outcome {
        Ok(()) => 0,
        Err(
            RunError::Memory
            | RunError::History(ReadError::Memory)
            | RunError::Script(ScriptError::Memory),
        ) => 4,
        Err(RunError::ReadFault | RunError::WriteFault) => 3,
        Err(
            RunError::History(_)
            | RunError::Script(_)
            | RunError::BadCertificate
            | RunError::ShapeMismatch
            | RunError::NotThatPattern
            | RunError::BadLimits
            | RunError::NoSuch
            | RunError::TooLong,
        ) => 1,
    }
}

/// The line on standard error after a run that failed, without its line feed: `refused N`, `refused N s.i` with the
/// operation that is at fault, `refused 28 i` with the place of the step that is, `read fault`, `write fault` or `no memory`.
pub fn fault_line(alloc: Global, error: &RunError) -> Result<String, AllocError>
    ensures { IfOk result (λ line. string_bytes line ≡ line_for error.now) }
{
    match error {
        RunError::History(refusal) => history_line(alloc, refusal),
        RunError::Script(refusal) => script_line(alloc, refusal),
        RunError::TooLong => String::from_str(alloc, "refused 9"),
        RunError::BadCertificate => String::from_str(alloc, "refused 20"),
        RunError::ShapeMismatch => String::from_str(alloc, "refused 21"),
        RunError::NotThatPattern => String::from_str(alloc, "refused 23"),
        RunError::BadLimits => String::from_str(alloc, "refused 10"),
        RunError::NoSuch => String::from_str(alloc, "refused 26"),
        RunError::Memory => String::from_str(alloc, "no memory"),
        RunError::ReadFault => String::from_str(alloc, "read fault"),
        RunError::WriteFault => String::from_str(alloc, "write fault"),
    }
}

// The line for a history that is refused.
fn history_line(alloc: Global, refusal: &ReadError) -> Result<String, AllocError>
    ensures { IfOk result (λ line. string_bytes line ≡ refusal_line refusal.now) }
{
    match refusal {
        ReadError::Memory => String::from_str(alloc, "no memory"),
        ReadError::BadOp(op) => operation_line(alloc, refusal.number(), *op),
        ReadError::ReturnAfterUnknown(op) => operation_line(alloc, refusal.number(), *op),
        _ => format!(in alloc; "refused {}", refusal.number()),
    }
}

// The line for a script that is refused.
fn script_line(alloc: Global, refusal: &ScriptError) -> Result<String, AllocError>
    ensures { IfOk result (λ line. string_bytes line ≡ line_for_script refusal.now) }
{
    let number = refusal.number();
    match refusal {
        ScriptError::Memory => String::from_str(alloc, "no memory"),
        ScriptError::BadStep(place) => format!(in alloc; "refused {number} {place}"),
        _ => format!(in alloc; "refused {number}"),
    }
}

// The line for a refusal with the operation at fault.
fn operation_line(alloc: Global, number: u8, op: OpId) -> Result<String, AllocError>
    ensures { IfOk result (λ line. string_bytes line ≡ refused_at number op) }
{
    let OpId { session, index } = op;
    format!(in alloc; "refused {number} {session}.{index}")
}
