//! Texts of the input, as a line shows them.

use std::alloc::{AllocError, Global};

// How many characters of a value are shown, about.
const MAX_SHOWN: usize = 60;

// A value while it is written: what is written, and where in the value that is.
#[derive(Drop)]
struct Writing {
    written: String,
    in_text: bool,
    is_escape: bool,
}

impl Writing {
    fn new(alloc: Global) -> Writing {
        Writing {
            written: String::new(alloc),
            in_text: false,
            is_escape: false,
        }
    }

    // Writes the next character of the value, but for the blanks between its parts.
    fn push(&mut self, alloc: Global, character: char) -> Result<(), AllocError> {
        if self.in_text || !is_blank(character) {
            push_character(alloc, &mut self.written, character)?;
        }
        if character == '"' && !self.is_escape {
            self.in_text = !self.in_text;
        }
        self.is_escape = character == '\\' && !self.is_escape;
        Ok(())
    }

    fn is_long(&self) -> bool {
        self.written.len() >= MAX_SHOWN && !self.is_escape
    }
}

fn is_blank(character: char) -> bool {
    matches!(character, ' ' | '\t' | '\n' | '\r')
}

// Writes a character, or its escape where it is no printable ASCII.
fn push_character(alloc: Global, written: &mut String, character: char) -> Result<(), AllocError> {
    if ' ' <= character && character <= '~' {
        return written.push(character);
    }
    let mut units = [0; 2];
    for unit in character.encode_utf16(&mut units).iter() {
        written.push_str(format!(in alloc; "\\u{unit:04x}")?.as_str())?;
    }
    Ok(())
}

/// The text of a JSON value with no blanks between its parts and with escapes for what is no printable ASCII: some 60 characters, and
/// `...` where it is longer.
///
/// Fails for want of memory alone.
pub(crate) fn shown(alloc: Global, value: &str) -> Result<String, AllocError> {
    let mut writing = Writing::new(alloc);
    for character in value.chars() {
        if writing.is_long() {
            writing.written.push_str("...")?;
            break;
        }
        writing.push(alloc, character)?;
    }
    Ok(writing.written)
}
