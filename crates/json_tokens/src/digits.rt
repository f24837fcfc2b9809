//! Whole numbers that are written with digits alone.

ghost use Rattle.std.specs.Prelude.{◌≡◌, ◌<◌, ◌≤◌, length, Some, IfSome};
ghost use Rattle.std.specs.Char.{digit_value};
ghost use Rattle.serde_json.specs.Data.{unsigned};
ghost use Rattle.serde_json.specs.Read.{number_of};

/// The most digits of which every number fits 64 bits.
const FEW_DIGITS: usize = 19;

/// The value of a digit.
#[inline(always)]
fn digit(byte: u8) -> Option<u64>
    ensures value { IfSome result (λ digit. digit ≡ digit_value byte) }
    ensures small { IfSome result (λ digit. digit < 10) }
{
    if byte.is_ascii_digit() {
        Some(u64::from(byte - b'0'))
    } else {
        None
    }
}

/// The number that a few bytes write, where they are digits alone. O(n) for n digits.
#[inline(always)]
fn number_of_few(bytes: &[u8]) -> Option<u64>
    requires some { 0 < length bytes.now }
    requires few { length bytes.now ≤ FEW_DIGITS }
    ensures { IfSome result (λ n. number_of bytes.now ≡ Some (unsigned n)) }
{
    let mut number = 0;
    for byte in bytes {
        number = number * 10 + digit(*byte)?;
    }
    Some(number)
}

/// The number that a text of any length writes, where it is digits alone and fits 64 bits. O(n) for n digits.
fn number_of_many(text: &str) -> Option<u64>
    ensures { IfSome result (λ n. number_of text.now ≡ Some (unsigned n)) }
{
    let bytes = text.as_bytes();
    if bytes.is_empty() || bytes[0] == b'+' {
        return None;
    }
    match text.parse::<u64>() {
        Ok(number) => Some(number),
        Err(_) => None,
    }
}

/// The number that a token of JSON writes, where it is digits alone and fits 64 bits. O(n) for n digits. None says nothing of the token.
#[inline]
pub fn whole_number(text: &str) -> Option<u64>
    ensures { IfSome result (λ n. number_of text.now ≡ Some (unsigned n)) }
{
    let bytes = text.as_bytes();
    if bytes.is_empty() || FEW_DIGITS < bytes.len() {
        return number_of_many(text);
    }
    number_of_few(bytes)
}
