//! Reading a value that is cut by place.

ghost use Rattle.std.specs.Prelude.{◌≡◌, ◌≤◌, ◌∷◌, length, map, IfOk, IfErr, OnOk};
ghost use Rattle.json.specs.Reads.{token_of};
ghost use Rattle.serde_json.specs.Data.{Data};
ghost use Rattle.serde_json.specs.View.{view, items_of};
ghost use Rattle.json_bounded.specs.Cut.{cut};
ghost use Rattle.json_bounded.specs.Text.{IsJson, IsTextRefused};
ghost use Rattle.json_bounded.specs.Steps.Reading.{AreCut, AreRefused, IsCut, IsRefused, IsWholeCut, IsWholeRefused};

use crate::number::number_at;
use crate::place::Place;
use crate::text_error::TextError;
use crate::walk::{walk_items, walk_members};
use json::{Reader, Scratch, Token};
use serde_json::{Map, Value};
use std::alloc::Global;

/// How deep `serde_json` reads.
pub const MAX_DEPTH: usize = 127;

/// The elements of a list that its place keeps, each cut at its own place. It passes over the others.
#[cycle(read_value)]
fn read_elements<P: Place>(
    alloc: Global,
    reader: &mut Reader<'_>,
    place: P,
    depth: usize,
) -> Result<Vec<Value>, TextError>
    ensures read { IfOk result
        (λ es. AreCut P.limit P.inside place depth reader.old reader.new (items_of (map view es.items))) }
    ensures shorter { OnOk result (length reader.new ≤ length reader.old) }
    ensures refused { IfErr result (AreRefused depth reader.old) }
{
    let limit = place.limit();
    let mut elements = Vec::new(alloc);
    'items: while limit != Some(elements.len()) {
        let Some(token) = reader.next() else {
            return Err(TextError::NotJson);
        };
        if let Token::EndArray = token {
            return Ok(elements);
        }
        let element = read_value(alloc, token, reader, place.inside(elements.len()), depth)?;
        elements.push(element)?;
    }
    walk_items(reader, depth)?;
    Ok(elements)
}

/// The value that begins with a token, cut at its place: one step of a reader that takes a longer text value by value.
///
/// `depth` is how much deeper the text may nest there. Fails exactly where `serde_json` refuses what comes, or for want of memory. O(n)
/// for n bytes of the value, and it takes no more memory than what is kept.
#[cycle(read_value)]
pub fn read_value<P: Place>(
    alloc: Global,
    token: Token<'_>,
    reader: &mut Reader<'_>,
    place: P,
    depth: usize,
) -> Result<Value, TextError>
    ensures read { IfOk result (λ v. IsCut P.limit P.inside place depth (token_of token.entry ∷ reader.old) reader.new (view v)) }
    ensures shorter { OnOk result (length reader.new ≤ length reader.old) }
    ensures refused { IfErr result (IsRefused depth (token_of token.entry ∷ reader.old)) }
{
    match token {
        Token::String(text) => Ok(Value::String(String::from_str(alloc, text)?)),
        Token::Number(text) => match number_at(text) {
            Some(number) => Ok(Value::Number(number)),
            None => Err(TextError::NotJson),
        },
        Token::Bool(b) => Ok(Value::Bool(b)),
        Token::Null => Ok(Value::Null),
        Token::EndObject | Token::EndArray | Token::Key(_) | Token::Bad => Err(TextError::NotJson),
        Token::BeginArray => {
            if depth == 0 {
                return Err(TextError::NotJson);
            }
            let elements = read_elements(alloc, reader, place, depth - 1)?;
            Ok(Value::Array(elements))
        }
        Token::BeginObject => {
            if depth == 0 {
                return Err(TextError::NotJson);
            }
            walk_members(reader, depth - 1)?;
            Ok(Value::Object(Map::new(alloc)))
        }
    }
}

/// The value that makes up the whole text, which is read in the scratch.
fn read_whole<P: Place>(
    alloc: Global,
    text: &str,
    scratch: &mut Scratch<Global>,
    place: P,
) -> Result<Value, TextError>
    ensures read { IfOk result (λ v. IsWholeCut P.limit P.inside place text.now (view v)) }
    ensures refused { IfErr result (IsWholeRefused text.now) }
{
    let mut reader = Reader::new(text, scratch)?;
    let Some(token) = reader.next() else {
        return Err(TextError::NotJson);
    };
    let value = read_value(alloc, token, &mut reader, place, MAX_DEPTH)?;
    if reader.next().is_some() {
        drop(value);
        return Err(TextError::NotJson);
    }
    Ok(value)
}

/// The value of a JSON text, cut at its place: it has the first elements of a list, as many as its place keeps, and no
/// members of an object.
///
/// `NotJson` exactly where `serde_json` refuses the text, also for what is not kept. `Memory` only where an allocation was
/// refused. O(n) for a text of n bytes, and it takes no more memory than the text and what is kept.
pub fn read_bounded<P: Place>(alloc: Global, text: &[u8], place: P) -> Result<Value, TextError>
    ensures read { IfOk result (λ v. (d : Data) × IsJson text.now d × (view v ≡ cut P.limit P.inside place d)) }
    ensures refused { IfErr result (IsTextRefused text.now) }
{
    match simdutf8::compat::from_utf8(text) {
        Ok(text) => read_whole(alloc, text, &mut Scratch::new(alloc), place),
        Err(_) => Err(TextError::NotJson),
    }
}
