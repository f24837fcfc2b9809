//! Sessions that are refused as a whole.

use crate::part::{Part, enter_path, length_of, next_part};
use json::{Reader, Scratch};
use model_history::MAX_OPERATIONS;
use std::alloc::{AllocError, Global};

/// Why a session is refused.
#[derive(Clone, Copy)]
pub(crate) enum SessionFault {
    /// It is no list.
    NoList,
    /// It has more than 256 operations.
    TooMany,
}

impl SessionFault {
    fn is_of(self, alloc: Global, session: Part<'_>) -> Result<bool, AllocError> {
        match self {
            SessionFault::NoList => Ok(!session.is_list()),
            SessionFault::TooMany => match length_of(alloc, session) {
                Ok(Some(length)) => Ok(length > MAX_OPERATIONS),
                Ok(None) => Ok(false),
                Err(error) => Err(error),
            },
        }
    }
}

/// The first session with this fault, and its number, of a list of sessions.
///
/// Fails for want of memory alone. O(n) for a list of n bytes.
pub(crate) fn session_with<'a>(
    alloc: Global,
    sessions: Part<'a>,
    fault: SessionFault,
) -> Result<Option<(usize, Part<'a>)>, AllocError> {
    let mut scratch = Scratch::new(alloc);
    let mut reader = Reader::new(sessions.text, &mut scratch)?;
    if !enter_path(&mut reader, &[0]) {
        return Ok(None);
    }
    for number in 0..sessions.text.len() {
        let Some(session) = next_part(&mut reader, sessions) else {
            return Ok(None);
        };
        if fault.is_of(alloc, session)? {
            return Ok(Some((number, session)));
        }
    }
    Ok(None)
}
