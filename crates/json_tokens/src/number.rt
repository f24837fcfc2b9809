//! Reading a whole number.

ghost use Rattle.std.specs.Prelude.{◌≡◌, ◌∷◌, ◌<◌, length, IfOk, IfErr, IfSome, OnOk};
ghost use Rattle.json.specs.Reads.{token_of};
ghost use Rattle.json_bounded.specs.Steps.Reading.{IsRefused};
ghost use Rattle.json_histories.specs.Reads.{number_form, IsRead};
ghost use Rattle.json_tokens.specs.Alone.{IsAlone};
ghost use Rattle.json_tokens.specs.Tokens.{IsValue};

use crate::digits::whole_number;
use crate::passing::next_token;
use json::{Reader, Token};
use json_bounded::{TextError, read_value};
use json_histories::HistoryPlace;
use std::alloc::Global;

/// The number that a token writes, where it is digits alone and fits 64 bits. None says nothing of the token.
#[inline(always)]
fn number_of_token(token: &Token<'_>) -> Option<u64>
    ensures { IfSome result (IsAlone (token_of token.now)) }
{
    match token {
        Token::Number(text) => whole_number(text),
        _ => None,
    }
}

/// The whole number that comes next, from 0 to 2^64 - 1, or none where the next value is no such number. It passes the value in any case.
///
/// `NotJson` exactly where no value comes next, and `Memory` only where an allocation was refused. O(n) for n bytes of the value.
#[inline]
pub fn next_whole_number(
    alloc: Global,
    reader: &mut Reader<'_>,
    depth: usize,
) -> Result<Option<u64>, TextError>
    ensures read { IfOk result (λ number. IsValue (λ d. IsRead number_form d number) depth reader.old reader.new) }
    ensures shorter { OnOk result (length reader.new < length reader.old) }
    ensures refused { IfErr result (IsRefused depth reader.old) }
{
    let token = next_token(reader)?;
    if let Some(number) = number_of_token(&token) {
        return Ok(Some(number));
    }
    let value = read_value(alloc, token, reader, HistoryPlace::Scalar, depth)?;
    let number = value.as_u64();
    drop(value);
    Ok(number)
}
