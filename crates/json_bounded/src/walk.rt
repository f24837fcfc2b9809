//! Passing what is not kept, by the rule of what `serde_json` reads.

ghost use Rattle.std.specs.Prelude.{◌≡◌, ◌<◌, ◌≤◌, length, Some, None, MatchResult, OnOk};
ghost use Rattle.json_bounded.specs.Steps.Behind.{behind_value, behind_items, behind_members};

use crate::number::number_at;
use json::{Invalid, Reader, Token};

/// Passes a value.
#[cycle(walk)]
fn walk(reader: &mut Reader<'_>, depth: usize) -> Result<(), Invalid>
    ensures value { MatchResult result (λ _. behind_value depth reader.old ≡ Some reader.new)
        (λ _. behind_value depth reader.old ≡ None) }
    ensures shorter { OnOk result (length reader.new < length reader.old) }
{
    let Some(token) = reader.next() else {
        return Err(Invalid);
    };
    match token {
        Token::String(_) | Token::Bool(_) | Token::Null => Ok(()),
        Token::Number(text) => match number_at(text) {
            Some(_) => Ok(()),
            None => Err(Invalid),
        },
        Token::EndObject | Token::EndArray | Token::Key(_) | Token::Bad => Err(Invalid),
        Token::BeginArray => {
            if depth == 0 {
                return Err(Invalid);
            }
            walk_items(reader, depth - 1)
        }
        Token::BeginObject => {
            if depth == 0 {
                return Err(Invalid);
            }
            walk_members(reader, depth - 1)
        }
    }
}

/// Passes the rest of a list, with its bracket. Fails exactly where `serde_json` refuses it.
#[cycle(walk)]
pub fn walk_items(reader: &mut Reader<'_>, depth: usize) -> Result<(), Invalid>
    ensures value { MatchResult result (λ _. behind_items depth reader.old ≡ Some reader.new)
        (λ _. behind_items depth reader.old ≡ None) }
    ensures shorter { OnOk result (length reader.new ≤ length reader.old) }
{
    'items: while !reader.take_end_array() {
        walk(reader, depth)?;
    }
    Ok(())
}

/// Passes the rest of an object.
#[cycle(walk)]
pub(crate) fn walk_members(reader: &mut Reader<'_>, depth: usize) -> Result<(), Invalid>
    ensures value { MatchResult result (λ _. behind_members depth reader.old ≡ Some reader.new)
        (λ _. behind_members depth reader.old ≡ None) }
    ensures shorter { OnOk result (length reader.new ≤ length reader.old) }
{
    'members: while let Some(_) = reader.next_key()? {
        walk(reader, depth)?;
    }
    Ok(())
}
