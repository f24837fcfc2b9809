//! Texts that are made by a form: words in which `A`, `B` and `C` are the places of other texts. A form has no other capital A, B or C.

use std::alloc::{AllocError, Global};

/// A text, where memory did not run out. A function here takes each text as such, so that its callers have no branch.
pub(crate) type Made = Result<String, AllocError>;

/// Words, and a number after them.
pub(crate) fn numbered(alloc: Global, words: &'static str, number: u64) -> Made {
    format!(in alloc; "{words}{number}")
}

/// The form with a text in it.
pub(crate) fn with_one(alloc: Global, form: &'static str, a: Made) -> Made {
    with_two(alloc, form, a, Ok(String::new(alloc)))
}

/// The form with two texts in it.
pub(crate) fn with_two(alloc: Global, form: &'static str, a: Made, b: Made) -> Made {
    with_three(alloc, form, a, b, Ok(String::new(alloc)))
}

/// The form with three texts in it.
pub(crate) fn with_three(alloc: Global, form: &'static str, a: Made, b: Made, c: Made) -> Made {
    let a = a?;
    let b = b?;
    let c = c?;
    filled(alloc, form, &a, &b, &c)
}

// The form with these texts in the places of its letters. O(n) for a text of n letters.
fn filled(alloc: Global, form: &'static str, a: &str, b: &str, c: &str) -> Made {
    let mut text = String::new(alloc);
    for letter in form.chars() {
        match text_at(letter, a, b, c) {
            Some(other) => text.push_str(other)?,
            None => text.push(letter)?,
        }
    }
    Ok(text)
}

// The text that has its place at a letter of a form, where one of these has.
fn text_at<'a>(letter: char, a: &'a str, b: &'a str, c: &'a str) -> Option<&'a str> {
    match letter {
        'A' => Some(a),
        'B' => Some(b),
        'C' => Some(c),
        _ => None,
    }
}

/// Puts a text after others.
pub(crate) fn push_text(texts: &mut Vec<String>, text: Made) -> Result<(), AllocError> {
    Ok(texts.push(text?)?)
}
