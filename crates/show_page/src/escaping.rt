//! Texts in a page.

ghost use Rattle.std.specs.Prelude.{◌≡◌, ◌++◌, OnOk};
ghost use Rattle.show_page.specs.Pages.{escaped, shown_byte};

use std::alloc::AllocError;

/// What a text stands in.
#[derive(Clone, Copy, PartialEq, Eq)]
pub enum Within {
    /// A script element that holds JSON.
    Json,
    /// An element that shows its text.
    Markup,
}

/// Appends a text to a page, escaped for what it stands in.
///
/// A JSON text has `<` in its strings alone, and gets the escape of JSON strings there, so its meaning stays the same. In markup `<` and
/// `&` get their entities, so that the element shows the text. What is appended has no `<`, so it begins no element and ends none:
/// `escaped_text_begins_no_markup` in [`laws`](crate::laws). Fails only when memory is refused. O(n) for n bytes.
#[tactic(auto, using(crate::proofs::Escapes::escaped_more))]
pub(crate) fn push_escaped(
    page: &mut Vec<u8>,
    text: &[u8],
    within: Within,
) -> Result<(), AllocError>
    ensures { OnOk result (page.new.items ≡ page.old.items ++ escaped within text.now) }
{
    for byte in text {
        push_shown(page, *byte, within)?;
    }
    Ok(())
}

// Appends a byte of a text to a page, or its escape.
fn push_shown(page: &mut Vec<u8>, byte: u8, within: Within) -> Result<(), AllocError>
    ensures { OnOk result (page.new.items ≡ page.old.items ++ shown_byte within byte) }
{
    match within {
        Within::Json => {
            if byte == b'<' {
                page.extend_from_slice(br"\u003c")?;
                return Ok(());
            }
        }
        Within::Markup => {
            if byte == b'<' {
                page.extend_from_slice(b"&lt;")?;
                return Ok(());
            }
            if byte == b'&' {
                page.extend_from_slice(b"&amp;")?;
                return Ok(());
            }
        }
    }
    page.push(byte)?;
    Ok(())
}
