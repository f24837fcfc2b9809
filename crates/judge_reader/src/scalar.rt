//! Reading the elements of an operation: its words, whole numbers and `"?"`.

ghost use Rattle.std.specs.Prelude.{◌≡◌, ◌∷◌, ◌<◌, ◌≤◌, length, IfOk, IfErr, IfSome, OnOk};
ghost use Rattle.json.specs.Reads.{token_of};
ghost use Rattle.serde_json.specs.View.{view};
ghost use Rattle.json_bounded.specs.Steps.Reading.{AreRefused, IsRefused};
ghost use Rattle.judge_reader.specs.Steps.Scalars.{IsAlone, IsNextScalar, scalar_of as said_in, text_scalar};
ghost use Rattle.json_tokens.specs.Tokens.{IsValue};

use json::{Reader, Token};
use json_bounded::{TextError, read_value};
use json_histories::HistoryPlace;
use json_tokens::{next_token, whole_number};
use serde_json::Value;
use std::alloc::Global;

/// What an element of an operation says.
#[derive(Clone, Copy)]
pub(crate) enum Scalar {
    /// The word of a write.
    Write,
    /// The word of a read.
    Read,
    /// That the return is not known.
    Unknown,
    /// A whole number below 2^64.
    Number(u64),
    /// Nothing that an operation has.
    Other,
}

fn scalar_of_text(text: &str) -> Scalar
    ensures { result ≡ text_scalar text.now }
{
    match text.as_bytes() {
        [b'w'] => Scalar::Write,
        [b'r'] => Scalar::Read,
        [b'?'] => Scalar::Unknown,
        _ => Scalar::Other,
    }
}

fn scalar_of(value: &Value) -> Scalar
    ensures { result ≡ said_in (view value.now) }
{
    match value.as_str() {
        Some(text) => scalar_of_text(text),
        None => match value.as_u64() {
            Some(number) => Scalar::Number(number),
            None => Scalar::Other,
        },
    }
}

/// What a token says, if it is a text or digits alone.
#[inline(always)]
#[tactic(auto, using(crate::proofs::ScalarTokens::number_alone))]
fn scalar_of_token(token: &Token<'_>) -> Option<Scalar>
    ensures { IfSome result (λ s. IsAlone (token_of token.now) s) }
{
    match token {
        Token::String(text) => Some(scalar_of_text(text)),
        Token::Number(text) => match whole_number(text) {
            Some(number) => Some(Scalar::Number(number)),
            None => None,
        },
        _ => None,
    }
}

/// What the value that begins with a token says. It passes the value.
#[inline(always)]
fn read_scalar(
    alloc: Global,
    token: Token<'_>,
    reader: &mut Reader<'_>,
    depth: usize,
) -> Result<Scalar, TextError>
    ensures read { IfOk result (λ s. IsValue (λ d. said_in d ≡ s) depth (token_of token.entry ∷ reader.old) reader.new) }
    ensures shorter { OnOk result (length reader.new ≤ length reader.old) }
    ensures refused { IfErr result (IsRefused depth (token_of token.entry ∷ reader.old)) }
{
    if let Some(scalar) = scalar_of_token(&token) {
        return Ok(scalar);
    }
    let value = read_value(alloc, token, reader, HistoryPlace::Scalar, depth)?;
    Ok(scalar_of(&value))
}

/// What the next element of a list says, or none at the end of the list, which it passes.
///
/// It takes the token first, and so it is faster where an element comes next.
#[inline]
pub(crate) fn expected_scalar(
    alloc: Global,
    reader: &mut Reader<'_>,
    depth: usize,
) -> Result<Option<Scalar>, TextError>
    ensures read { IfOk result (λ s. IsNextScalar depth reader.old reader.new s) }
    ensures shorter { OnOk result (length reader.new < length reader.old) }
    ensures refused { IfErr result (AreRefused depth reader.old) }
{
    let token = next_token(reader)?;
    if let Token::EndArray = token {
        return Ok(None);
    }
    Ok(Some(read_scalar(alloc, token, reader, depth)?))
}

/// What the next element of a list says, or none at the end of the list, which it passes.
///
/// It looks for the end first, and so it is faster where the list ends.
#[inline]
pub(crate) fn next_scalar(
    alloc: Global,
    reader: &mut Reader<'_>,
    depth: usize,
) -> Result<Option<Scalar>, TextError>
    ensures read { IfOk result (λ s. IsNextScalar depth reader.old reader.new s) }
    ensures shorter { OnOk result (length reader.new < length reader.old) }
    ensures refused { IfErr result (AreRefused depth reader.old) }
{
    if reader.take_end_array() {
        return Ok(None);
    }
    let token = next_token(reader)?;
    Ok(Some(read_scalar(alloc, token, reader, depth)?))
}
