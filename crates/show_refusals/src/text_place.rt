//! Lines and columns of a text.

/// A place in a text: its line, and the character of the line, both counted from 1.
#[derive(Clone, Copy)]
pub(crate) struct TextPlace {
    pub(crate) line: usize,
    pub(crate) column: usize,
}

impl TextPlace {
    // The place after a byte.
    fn after(self, byte: u8) -> TextPlace {
        if byte == b'\n' {
            TextPlace {
                line: self.line.saturating_add(1),
                column: 1,
            }
        } else if is_within(byte) {
            self
        } else {
            TextPlace {
                line: self.line,
                column: self.column.saturating_add(1),
            }
        }
    }
}

// Whether a byte of UTF-8 is none of the first ones of a character.
fn is_within(byte: u8) -> bool {
    128 <= byte && byte < 192
}

/// The line and the column of a byte. O(n) for n bytes before it.
pub(crate) fn text_place(bytes: &[u8], byte: usize) -> TextPlace {
    let mut place = TextPlace { line: 1, column: 1 };
    if let Some(before) = bytes.get(..byte) {
        for byte in before {
            place = place.after(*byte);
        }
    }
    place
}
