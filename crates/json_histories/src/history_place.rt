//! The places in the JSON form of a history, and how many parts each may have.

ghost use Rattle.json_histories.specs.Places.{inside_of, limit_of};

use json_bounded::Place;
use model_history::{MAX_OPERATIONS, MAX_SESSIONS};
use model_objects::MAX_ENTRIES;

/// The parts of a history: the name of its object, its sessions, and its start where it has one.
const MAX_PARTS: usize = 3;

/// The parts of an operation: its word, its key, its argument and its return.
const MAX_WORDS: usize = 4;

/// The parts of an entry of a start: a key and what is there.
const ENTRY_PARTS: usize = 2;

/// A place in the form of a history.
#[derive(Clone, Copy, Drop)]
pub enum HistoryPlace {
    /// The history.
    Whole,
    /// Its sessions.
    Sessions,
    /// A session.
    Session,
    /// An operation.
    Operation,
    /// Its start.
    Start,
    /// An entry of its start.
    Entry,
    /// A text or a number.
    Scalar,
}

impl Place for HistoryPlace {
    ghost limit = { limit_of };

    ghost inside = { inside_of };

    fn limit(self) -> Option<usize> {
        match self {
            HistoryPlace::Whole => Some(MAX_PARTS + 1),
            HistoryPlace::Sessions => Some(MAX_SESSIONS + 1),
            HistoryPlace::Session => Some(MAX_OPERATIONS + 1),
            HistoryPlace::Operation => Some(MAX_WORDS + 1),
            HistoryPlace::Start => Some(MAX_ENTRIES + 1),
            HistoryPlace::Entry => Some(ENTRY_PARTS + 1),
            HistoryPlace::Scalar => Some(0),
        }
    }

    fn inside(self, index: usize) -> HistoryPlace {
        match self {
            HistoryPlace::Whole => if index == 1 {
                HistoryPlace::Sessions
            } else if index == 2 {
                HistoryPlace::Start
            } else {
                HistoryPlace::Scalar
            },
            HistoryPlace::Sessions => HistoryPlace::Session,
            HistoryPlace::Session => HistoryPlace::Operation,
            HistoryPlace::Start => HistoryPlace::Entry,
            HistoryPlace::Operation | HistoryPlace::Entry | HistoryPlace::Scalar =>
                HistoryPlace::Scalar,
        }
    }
}
