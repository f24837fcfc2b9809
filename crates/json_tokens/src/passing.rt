//! Steps that the readers share: the next token, the next value cut at its place, and values that are not kept.

ghost use Rattle.std.specs.Prelude.{◌≡◌, ◌≢◌, [], ◌∷◌, ◌<◌, ◌≤◌, ℕ, length, IfOk, IfErr, OnOk, OnErr, None};
ghost use Rattle.json.specs.Reads.{token_of};
ghost use Rattle.serde_json.specs.View.{view};
ghost use Rattle.json_bounded.specs.Steps.Reading.{IsCut, IsRefused};
ghost use Rattle.json_histories.specs.Places.{inside_of, limit_of};
ghost use Rattle.json_tokens.specs.Tokens.{IsList, IsValue};

use json::{Reader, Token};
use json_bounded::{TextError, read_value};
use json_histories::HistoryPlace;
use serde_json::Value;
use std::alloc::Global;

/// The next token, with which a value begins.
///
/// `NotJson` exactly where no token comes next. O(1) for all but a text, and O(n) for n bytes of a text.
#[inline(always)]
pub fn next_token<'a>(reader: &mut Reader<'a>) -> Result<Token<'a>, TextError>
    ensures token { IfOk result (λ token. reader.old ≡ token_of token ∷ reader.new) }
    ensures none { OnErr result (reader.old ≡ []) }
    ensures refused { IfErr result (λ error. (depth : ℕ) → IsRefused depth reader.old error) }
{
    match reader.next() {
        Some(token) => Ok(token),
        None => Err(TextError::NotJson),
    }
}

/// The value that comes next, cut at its place.
///
/// `depth` is how much deeper the text may nest there. `NotJson` exactly where no value comes next, and `Memory` only where an allocation
/// was refused. O(n) for n bytes of the value, of which it keeps what the place asks for.
pub fn next_value(
    alloc: Global,
    reader: &mut Reader<'_>,
    place: HistoryPlace,
    depth: usize,
) -> Result<Value, TextError>
    ensures read { IfOk result (λ value. IsCut limit_of inside_of place depth reader.old reader.new (view value)) }
    ensures shorter { OnOk result (length reader.new < length reader.old) }
    ensures refused { IfErr result (IsRefused depth reader.old) }
{
    let token = next_token(reader)?;
    read_value(alloc, token, reader, place, depth)
}

/// Passes the value that comes next.
///
/// `NotJson` exactly where no value comes next, and `Memory` only where an allocation was refused. O(n) for n bytes of the value.
pub fn pass_value(alloc: Global, reader: &mut Reader<'_>, depth: usize) -> Result<(), TextError>
    ensures passed { OnOk result (IsValue (λ _. Unit {0}) depth reader.old reader.new) }
    ensures shorter { OnOk result (length reader.new < length reader.old) }
    ensures refused { IfErr result (IsRefused depth reader.old) }
{
    let value = next_value(alloc, reader, HistoryPlace::Scalar, depth)?;
    drop(value);
    Ok(())
}

/// Passes the value that begins with a token; the value is no list.
///
/// `NotJson` exactly where the token begins no value, and `Memory` only where an allocation was refused. O(n) for n bytes of the value.
pub fn pass_no_list(
    alloc: Global,
    token: Token<'_>,
    reader: &mut Reader<'_>,
    depth: usize,
) -> Result<(), TextError>
    requires { token ≢ Token.BeginArray }
    ensures passed { OnOk result (IsList (λ ds. ds ≡ None) depth (token_of token.entry ∷ reader.old) reader.new) }
    ensures shorter { OnOk result (length reader.new ≤ length reader.old) }
    ensures refused { IfErr result (IsRefused depth (token_of token.entry ∷ reader.old)) }
{
    let value = read_value(alloc, token, reader, HistoryPlace::Scalar, depth)?;
    drop(value);
    Ok(())
}
