//! Texts of printable ASCII alone.

ghost use Rattle.std.specs.Prelude.{◌≡◌, ◌<◌, IfOk, OnOk, string_bytes, true};
ghost use Rattle.show_refusals.specs.Lines.{IsPlain, is_plain};

use std::alloc::{AllocError, Global};

// A byte as a character, or a question mark if it is not printable ASCII.
#[tactic(auto, using(crate::proofs::PlainLines::printed))]
fn plain_character(byte: u8) -> char
    ensures printed { is_plain result ≡ true }
    ensures ascii { result < 128 }
{
    if byte < 32 || 126 < byte {
        return '?';
    }
    char::from(byte)
}

// Writes a character that is printed.
#[tactic(auto, using(crate::proofs::PlainLines::pushed_plain))]
fn push_plain(text: &mut String, character: char) -> Result<(), AllocError>
    requires printed { is_plain character ≡ true }
    requires ascii { character < 128 }
    ensures { OnOk result (IsPlain (string_bytes text.old) → IsPlain (string_bytes text.new)) }
{
    text.push(character)
}

/// The text with a question mark in the place of each byte that is no printable ASCII.
///
/// Fails for want of memory alone. O(n) for n bytes.
pub(crate) fn plain(alloc: Global, text: &str) -> Result<String, AllocError>
    ensures { IfOk result (λ plain. IsPlain (string_bytes plain)) }
{
    let mut plain = String::new(alloc);
    for byte in text.as_bytes() {
        push_plain(&mut plain, plain_character(*byte))?;
    }
    Ok(plain)
}
