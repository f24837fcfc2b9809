//! Names and notes that are too long for a line.

use std::alloc::{AllocError, Global};

/// How many letters of a longer name are shown.
const MAX_NAME: usize = 60;

/// How many letters of a longer note are shown.
const MAX_NOTE: usize = 200;

/// What an escape of a JSON text has still to come.
#[derive(Clone, Copy, Debug, PartialEq, Eq)]
enum Escape {
    /// No escape is open.
    None,
    /// The letter after a backslash.
    Letter,
    /// So many hexadecimal digits, at least one.
    Digits(u8),
}

impl Escape {
    // After the next character.
    fn after(self, character: char) -> Escape {
        match (self, character) {
            (Escape::None, '\\') => Escape::Letter,
            (Escape::Letter, 'u') => Escape::Digits(4),
            (Escape::Digits(left), _) if left > 1 => Escape::Digits(left - 1),
            _ => Escape::None,
        }
    }
}

/// A name, cut where it is long.
pub(crate) fn short_name(alloc: Global, name: String) -> Result<String, AllocError> {
    shortened(alloc, name, MAX_NAME)
}

/// A note, cut where it is long.
pub(crate) fn short_note(alloc: Global, note: String) -> Result<String, AllocError> {
    shortened(alloc, note, MAX_NOTE)
}

// A JSON text. If it is longer than some letters, three dots replace what is left out, within the quotes of a text that is cut. No escape
// is cut.
//
// Fails for want of memory alone. O(n) for a text of n letters.
fn shortened(alloc: Global, text: String, most: usize) -> Result<String, AllocError> {
    if text.chars().count() <= most {
        return Ok(text);
    }
    let mut short = String::new(alloc);
    let mut letters: usize = 0;
    let mut escape = Escape::None;
    let mut is_quoted = false;
    for character in text.chars() {
        if escape == Escape::None && letters >= most {
            break;
        }
        short.push(character)?;
        letters = letters.saturating_add(1);
        is_quoted = is_quoted != (escape == Escape::None && character == '"');
        escape = escape.after(character);
    }
    short.push_str(if is_quoted { "…\"" } else { "…" })?;
    Ok(short)
}
