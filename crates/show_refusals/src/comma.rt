//! Commas between the parts of a JSON text.

/// The place of the comma that comes last before a place, where nothing but blanks is between them.
pub(crate) fn comma_before(text: &str, place: usize) -> Option<usize> {
    let before = text.get(..place)?.trim_end();
    if before.ends_with(',') {
        before.len().checked_sub(1)
    } else {
        None
    }
}
