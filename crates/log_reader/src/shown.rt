//! Texts as JSON, in which no character disturbs a terminal.

ghost use Rattle.std.specs.Prelude.{◌≡◌, ◌≢◌, ◌<◌, ◌≤◌, ◌↔◌, ◌⊎◌, [], ◌∷◌, true, false, IsTrue, OnOk, encode_utf8, string_bytes};
ghost use Rattle.std.specs.Char.{digit_char};
ghost use Rattle.log_reader.specs.Shown.{IsPlain, StaysShown};
ghost use Rattle.log_reader.specs.Spelling.{Adds, AddsSpelled};

use std::alloc::AllocError;

fn is_between(code: u32, low: u32, high: u32) -> bool
    ensures { IsTrue result ↔ ((low ≤ code) × (code ≤ high)) }
{
    low <= code && code <= high
}

// Whether a character is shown as it is.
fn is_plain(c: char) -> bool
    ensures plain { result ≡ true → IsPlain c }
    ensures low { result ≡ false → c < 55296 }
{
    let code = u32::from(c);
    if code < 0x20 {
        return false;
    }
    if is_between(code, 0x7f, 0x9f) {
        return false;
    }
    if is_between(code, 0x200e, 0x200f) {
        return false;
    }
    if is_between(code, 0x2028, 0x202e) {
        return false;
    }
    if is_between(code, 0x2066, 0x2069) {
        return false;
    }
    true
}

fn push_plain(text: &mut String, c: char) -> Result<(), AllocError>
    requires { IsPlain c }
    ensures shown { OnOk result (StaysShown (string_bytes text.old) (string_bytes text.new)) }
    ensures added { OnOk result (Adds (encode_utf8 c) (string_bytes text.old) (string_bytes text.new)) }
{
    text.push(c)
}

// Writes a character of ASCII that is shown as it is.
#[tactic(auto, using(crate::proofs::NameTextLaws::low_plain))]
fn push_letter(text: &mut String, c: char) -> Result<(), AllocError>
    requires low { 32 ≤ c }
    requires high { c < 127 }
    ensures shown { OnOk result (StaysShown (string_bytes text.old) (string_bytes text.new)) }
    ensures added { OnOk result (Adds (c ∷ []) (string_bytes text.old) (string_bytes text.new)) }
{
    push_plain(text, c)
}

// A digit to the base 16.
fn hex_digit(digit: u32) -> char
    requires { digit < 16 }
    ensures low { 32 ≤ result }
    ensures high { result < 127 }
    ensures digit { result ≡ digit_char digit }
{
    match digit {
        0 => '0',
        1 => '1',
        2 => '2',
        3 => '3',
        4 => '4',
        5 => '5',
        6 => '6',
        7 => '7',
        8 => '8',
        9 => '9',
        10 => 'a',
        11 => 'b',
        12 => 'c',
        13 => 'd',
        14 => 'e',
        _ => 'f',
    }
}

// Writes an escape of four digits to the base 16, which represents a character.
fn push_escape(text: &mut String, code: u32) -> Result<(), AllocError>
    requires { code < 55296 }
    ensures shown { OnOk result (StaysShown (string_bytes text.old) (string_bytes text.new)) }
    ensures spelled { OnOk result (AddsSpelled (encode_utf8 code) (string_bytes text.old) (string_bytes text.new)) }
{
    push_letter(text, '\\')?;
    push_letter(text, 'u')?;
    push_letter(text, hex_digit(code / 4096 % 16))?;
    push_letter(text, hex_digit(code / 256 % 16))?;
    push_letter(text, hex_digit(code / 16 % 16))?;
    push_letter(text, hex_digit(code % 16))
}

// Writes a character as it is, or as an escape where it is not plain.
fn push_visible(text: &mut String, c: char) -> Result<(), AllocError>
    ensures shown { OnOk result (StaysShown (string_bytes text.old) (string_bytes text.new)) }
    ensures spelled { c ≢ 34 → c ≢ 92
        → OnOk result (AddsSpelled (encode_utf8 c) (string_bytes text.old) (string_bytes text.new)) }
{
    if is_plain(c) {
        push_plain(text, c)
    } else {
        push_escape(text, u32::from(c))
    }
}

// Writes a quotation mark or a backslash after a backslash.
fn push_escaped(text: &mut String, c: char) -> Result<(), AllocError>
    requires { (c ≡ 34) ⊎ (c ≡ 92) }
    ensures shown { OnOk result (StaysShown (string_bytes text.old) (string_bytes text.new)) }
    ensures spelled { OnOk result (AddsSpelled (encode_utf8 c) (string_bytes text.old) (string_bytes text.new)) }
{
    push_letter(text, '\\')?;
    push_letter(text, c)
}

fn push_character(text: &mut String, c: char) -> Result<(), AllocError>
    ensures shown { OnOk result (StaysShown (string_bytes text.old) (string_bytes text.new)) }
    ensures spelled { OnOk result (AddsSpelled (encode_utf8 c) (string_bytes text.old) (string_bytes text.new)) }
{
    if c == '"' || c == '\\' {
        push_escaped(text, c)
    } else {
        push_visible(text, c)
    }
}

/// Writes the characters of a text, as they are in a JSON text.
pub(crate) fn push_shown(text: &mut String, shown: &str) -> Result<(), AllocError>
    ensures shown { OnOk result (StaysShown (string_bytes text.old) (string_bytes text.new)) }
    ensures spelled { OnOk result (AddsSpelled shown.now (string_bytes text.old) (string_bytes text.new)) }
{
    for c in shown.chars() {
        push_character(text, c)?;
    }
    Ok(())
}

/// Writes a compact JSON text. Only in its texts are characters that are not plain.
pub(crate) fn push_json(text: &mut String, json: &str) -> Result<(), AllocError>
    ensures { OnOk result (StaysShown (string_bytes text.old) (string_bytes text.new)) }
{
    for c in json.chars() {
        push_visible(text, c)?;
    }
    Ok(())
}

/// Writes a quotation mark.
pub(crate) fn push_quote(text: &mut String) -> Result<(), AllocError>
    ensures shown { OnOk result (StaysShown (string_bytes text.old) (string_bytes text.new)) }
    ensures added { OnOk result (Adds (34 ∷ []) (string_bytes text.old) (string_bytes text.new)) }
{
    push_letter(text, '"')
}
