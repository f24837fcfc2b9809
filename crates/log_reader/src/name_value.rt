//! Names, as JSON values are.

ghost use Rattle.std.specs.Prelude.{◌≡◌, [], OnOk, option_map, string_bytes};
ghost use Rattle.std.specs.Fmt.{decimal, signed_decimal};
ghost use Rattle.serde_json.specs.View.{view};
ghost use Rattle.log_reader.specs.Names.{name_of as name_at, value_name as value_name_at};
ghost use Rattle.log_reader.specs.Spelling.{IsName};
ghost use Rattle.log_reader.specs.Steps.{name_in};

use itoa::Buffer;
use serde_json::Value;
use std::alloc::AllocError;

/// A JSON value that is a name of a client, a key or a value.
#[derive(Clone, Copy)]
pub(crate) enum NameValue<'a> {
    /// A text.
    Text(&'a str),
    /// A whole number that is not negative.
    Whole(u64),
    /// A negative whole number.
    Negative(i64),
    /// True or false.
    Truth(bool),
}

/// The name that a value is for a client or a key.
pub(crate) fn name_of(value: &Value) -> Option<NameValue<'_>>
    ensures { option_map name_in result ≡ name_at (view value.now) }
{
    match value {
        Value::String(text) => Some(NameValue::Text(text.as_str())),
        Value::Number(number) => match number.as_u64() {
            Some(whole) => Some(NameValue::Whole(whole)),
            None => None,
        },
        _ => None,
    }
}

/// The name that a value is for a value.
pub(crate) fn value_name_of(value: &Value) -> Option<NameValue<'_>>
    ensures { option_map name_in result ≡ value_name_at (view value.now) }
{
    match value {
        Value::String(text) => Some(NameValue::Text(text.as_str())),
        Value::Number(number) => match number.as_u64() {
            Some(whole) => Some(NameValue::Whole(whole)),
            None => match number.as_i64() {
                Some(negative) => Some(NameValue::Negative(negative)),
                None => None,
            },
        },
        Value::Bool(truth) => Some(NameValue::Truth(*truth)),
        _ => None,
    }
}

/// Writes the text that identifies a name. The text is empty before. O(n) for a text of n bytes.
pub(crate) fn write_name(code: &mut String, name: NameValue<'_>) -> Result<(), AllocError>
    requires { string_bytes code.old ≡ [] }
    ensures code { OnOk result (string_bytes code.new ≡ name_in name.entry) }
    ensures name { OnOk result (IsName (string_bytes code.new)) }
{
    match name {
        NameValue::Text(text) => {
            code.push_str("\"")?;
            code.push_str(text)
        }
        NameValue::Whole(number) => push_whole(code, number),
        NameValue::Negative(number) => push_signed(code, number),
        NameValue::Truth(true) => code.push_str("true"),
        NameValue::Truth(false) => code.push_str("false"),
    }
}

// Writes a whole number.
fn push_whole(code: &mut String, number: u64) -> Result<(), AllocError>
    requires { string_bytes code.old ≡ [] }
    ensures code { OnOk result (string_bytes code.new ≡ decimal number) }
    ensures name { OnOk result (IsName (string_bytes code.new)) }
{
    code.push_str(Buffer::new().format(number))
}

// Writes a whole number that may be negative.
fn push_signed(code: &mut String, number: i64) -> Result<(), AllocError>
    requires { string_bytes code.old ≡ [] }
    ensures code { OnOk result (string_bytes code.new ≡ signed_decimal number) }
    ensures name { OnOk result (IsName (string_bytes code.new)) }
{
    code.push_str(Buffer::new().format(number))
}
