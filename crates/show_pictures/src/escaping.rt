//! Text within markup.

ghost use Rattle.std.specs.Prelude.{◌≡◌, ◌++◌, ◌∷◌, [], IfOk, OnOk, chars, encode_utf8_all, string_bytes};
ghost use Rattle.show_pictures.specs.Markup.{escaped_text};

use std::alloc::{AllocError, Global};

/// The text with the entity of each character that has a meaning in markup: `<`, `>`, `&` and both quotes.
///
/// So the text begins no element and ends no attribute: `escaped_text_has_no_markup` in [`laws`](crate::laws). Fails for want of
/// memory alone. O(n) for n characters.
pub fn escaped(alloc: Global, text: &str) -> Result<String, AllocError>
    ensures { IfOk result (λ written. string_bytes written ≡ encode_utf8_all (escaped_text (chars text.now))) }
{
    let mut written = String::new(alloc);
    for character in text.chars() {
        push_escaped(&mut written, character)?;
    }
    Ok(written)
}

// Puts a character, or its entity, after the text.
fn push_escaped(written: &mut String, character: char) -> Result<(), AllocError>
    ensures { OnOk result
        (string_bytes written.new ≡ string_bytes written.old ++ encode_utf8_all (escaped_text (character ∷ []))) }
{
    match character {
        '<' => written.push_str("&lt;"),
        '>' => written.push_str("&gt;"),
        '&' => written.push_str("&amp;"),
        '"' => written.push_str("&quot;"),
        '\'' => written.push_str("&#39;"),
        other => written.push(other),
    }
}
