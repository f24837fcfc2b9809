//! What a text looks like by its first word.

// The words of events, and the names of objects.
const EVENTS: &[&str] = &["\"begin\"", "\"end\"", "\"start\"", "\"fail\"", "\"lost\""];

const OBJECTS: &[&str] = &[
    "\"memory\"",
    "\"register\"",
    "\"counter\"",
    "\"set\"",
    "\"queue\"",
    "\"counters\"",
    "\"sets\"",
    "\"queues\"",
];

/// Whether a text looks like a log of events.
pub(crate) fn is_log(text: &str) -> bool {
    begins_list_with(text, EVENTS)
}

/// Whether a text looks like a history.
pub(crate) fn is_history(text: &str) -> bool {
    begins_list_with(text, OBJECTS)
}

// Whether a text begins with a list, the first element of which is one of these texts.
fn begins_list_with(text: &str, words: &[&str]) -> bool {
    match text.trim_start().strip_prefix('[') {
        Some(elements) => begins_with(elements.trim_start(), words),
        None => false,
    }
}

fn begins_with(text: &str, words: &[&str]) -> bool {
    for word in words {
        if text.starts_with(*word) {
            return true;
        }
    }
    false
}
