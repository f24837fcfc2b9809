//! Why a log refused an event.

use thiserror::Error;

/// Why a log refused an event.
#[derive(Clone, Copy, Debug, PartialEq, Eq, Error)]
pub enum PushError {
    /// The event may not come next: a begin of a client whose call is pending, an end that fits no pending call of its client, or
    /// a start after a begin, or of a key that is not above those that were started.
    #[error("the event may not come next")]
    NotAllowed,
    /// An allocation was refused, or the event goes over a limit of the log.
    #[error("no memory")]
    Memory,
}
