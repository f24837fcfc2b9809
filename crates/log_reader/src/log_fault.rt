//! Why a log is not read to its end.

ghost use Rattle.std.specs.Prelude.{◌≡◌};

use crate::refusal::{Reason, Refusal};
use json_lines::Fault;
use std::alloc::{AllocError, AllocFailed};
use thiserror::Error;

/// Why a log is not read to its end.
#[derive(Clone, Copy, Debug, PartialEq, Eq, Error)]
pub enum LogFault {
    /// A line does not follow those before it.
    #[error("a line does not follow those before it")]
    Refused(Refusal),
    /// An allocation was refused, or there are more events, names or lines than have numbers.
    #[error("no memory")]
    Memory,
    /// The reader failed, or a line did not end within the read calls that are allowed for one line.
    #[error("the log could not be read")]
    Read,
}

impl From<AllocError> for LogFault {
    ghost use Rattle.std.specs.Prelude.{◌≡◌};
    ghost use Rattle.log_reader.specs.declared.log_fault.LogFault.TheVariants.{Memory};

    ghost from_gives = { λ _ e. e ≡ Memory };

    fn from(_refused: AllocError) -> LogFault {
        LogFault::Memory
    }
}

impl<T: Drop> From<AllocFailed<T>> for LogFault {
    ghost use Rattle.std.specs.Prelude.{◌≡◌};
    ghost use Rattle.log_reader.specs.declared.log_fault.LogFault.TheVariants.{Memory};

    ghost from_gives = { λ _ e. e ≡ Memory };

    fn from(_refused: AllocFailed<T>) -> LogFault {
        LogFault::Memory
    }
}

impl From<Fault> for LogFault {
    ghost use Rattle.log_reader.specs.Faults.{IsLogFault};

    ghost from_gives = { IsLogFault };

    fn from(fault: Fault) -> LogFault {
        match fault {
            Fault::Memory => LogFault::Memory,
            Fault::Read | Fault::Write => LogFault::Read,
        }
    }
}

/// The fault of a line that is refused.
pub(crate) fn refused(reason: Reason, line: u64) -> LogFault
    ensures { result ≡ LogFault.Refused (record { reason = reason; line = line }) }
{
    LogFault::Refused(Refusal { reason, line })
}
