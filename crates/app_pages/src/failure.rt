//! Why a log has no page.

use app_engine::RunError;
use app_logs::LogError;
use thiserror::Error;

/// Why a log has no page.
#[derive(Clone, Copy, Debug, PartialEq, Eq, Error)]
pub enum PageError {
    /// The log has more bytes than an input may have.
    #[error("the log has more than {most} bytes", most = app_engine::MAX_INPUT_BYTES)]
    TooLong,
    /// The log has no answer, or its page could not be written.
    #[error("{0}")]
    Log(LogError),
}

impl From<LogError> for PageError {
    ghost use Rattle.std.specs.Prelude.{◌≡◌};
    ghost use Rattle.app_pages.specs.declared.failure.PageError.TheVariants.{Log};

    ghost from_gives = { λ error e. e ≡ Log error };

    fn from(error: LogError) -> PageError {
        PageError::Log(error)
    }
}

// An input that is read or written is no history yet, so that nothing else of it is refused.
impl From<RunError> for PageError {
    ghost use Rattle.std.specs.Prelude.{◌≡◌};
    ghost use Rattle.app_pages.specs.Failure.{page_error_by};

    ghost from_gives = { λ failure e. e ≡ page_error_by failure };

    fn from(failure: RunError) -> PageError {
        match failure {
            RunError::TooLong => PageError::TooLong,
            RunError::ReadFault => PageError::Log(LogError::ReadFault),
            RunError::WriteFault => PageError::Log(LogError::WriteFault),
            _ => PageError::Log(LogError::Memory),
        }
    }
}
