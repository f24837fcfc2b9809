//! What is said of a read that found nothing, though nothing is left that it can have seen.

use crate::log_tables::LogTables;
use crate::phrases::key_words;
use log_choices::{Exclusion, LackingRead, Reason, Seen};
use std::alloc::{AllocError, Global};

/// The most candidates that are named.
const MAX_EXCLUSIONS: usize = 8;

/// Why the first such read of a log can't have seen what would be a candidate, if there is such a read.
///
/// Fails for want of memory alone.
pub(crate) fn lacking_words<T: LogTables>(
    alloc: Global,
    tables: &T,
) -> Result<Option<String>, AllocError> {
    let Some(lacking) = tables.lacking() else {
        return Ok(None);
    };
    if lacking.exclusions.is_empty() {
        return Ok(None);
    }
    let mut words = read_words(alloc, tables, lacking)?;
    for (number, exclusion) in lacking.exclusions.iter().take(MAX_EXCLUSIONS).enumerate() {
        words.push_str(if number == 0 { ": " } else { "; " })?;
        push_exclusion(alloc, &mut words, tables, *exclusion)?;
    }
    let more = lacking.exclusions.len().saturating_sub(MAX_EXCLUSIONS);
    if more > 0 {
        words.push_str(format!(in alloc; "; and {more} more")?.as_str())?;
    }
    words.push_str(".")?;
    Ok(Some(words))
}

// That a read found nothing, and that nothing is left.
fn read_words<T: LogTables>(
    alloc: Global,
    tables: &T,
    lacking: &LackingRead,
) -> Result<String, AllocError> {
    let line = tables.line(lacking.place);
    let key = key_words(alloc, tables, lacking.key)?;
    format!(in alloc;
        "Line {line} found nothing at {key}, and nothing is left that it can have seen"
    )
}

// Adds why it did not see a candidate.
fn push_exclusion<T: LogTables>(
    alloc: Global,
    words: &mut String,
    tables: &T,
    exclusion: Exclusion,
) -> Result<(), AllocError> {
    let candidate = match exclusion.seen {
        Seen::Start => String::from_str(alloc, "the start")?,
        Seen::Delete(place) => {
            let line = tables.line(place);
            format!(in alloc; "the delete of line {line}")?
        }
    };
    let reason = match exclusion.reason {
        Reason::Later => String::from_str(alloc, "began after it had ended")?,
        Reason::AfterRead => String::from_str(alloc, "comes after it")?,
        Reason::ReplacedBy(place) => {
            let line = tables.line(place);
            format!(in alloc; "line {line} replaced before")?
        }
    };
    words.push_str(format!(in alloc; "not {candidate}, which {reason}")?.as_str())
}
