//! What is said of the notes of a call.

use crate::log_tables::{CallNote, LogTables};
use crate::shortening::short_note;
use std::alloc::{AllocError, Global};

/// The words on a call that began at a place, and after them its notes, each with its line, as ` [note of line 4: {"server":"n1"}]`.
pub(crate) fn with_notes<T: LogTables>(
    alloc: Global,
    tables: &T,
    words: String,
    place: u32,
) -> Result<String, AllocError> {
    let begin = note_words(alloc, tables, place, false)?;
    let end = note_words(alloc, tables, place, true)?;
    match (begin, end) {
        (None, None) => Ok(words),
        (Some(note), None) | (None, Some(note)) => { format!(in alloc; "{words} [note of {note}]") }
        (Some(begin), Some(end)) => { format!(in alloc; "{words} [note of {begin}; of {end}]") }
    }
}

// The line of a note, and the note, cut where it is long.
fn note_words<T: LogTables>(
    alloc: Global,
    tables: &T,
    place: u32,
    is_end: bool,
) -> Result<Option<String>, AllocError> {
    match tables.note(alloc, place, is_end)? {
        Some(CallNote { line, text }) => {
            let text = short_note(alloc, text)?;
            Ok(Some(format!(in alloc; "line {line}: {text}")?))
        }
        None => Ok(None),
    }
}
