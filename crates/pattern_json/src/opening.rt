//! Lists that begin with a word, which says what comes after it.

ghost use Rattle.std.specs.Prelude.{◌∷◌, ◌<◌, ◌≤◌, List, length, IfOk, IfErr, OnOk};
ghost use Rattle.serde_json.specs.Data.{Data, string};
ghost use Rattle.json_bounded.specs.Steps.Reading.{AreRefused, IsRefused};
ghost use Rattle.json_histories.specs.Json.{list};
ghost use Rattle.json_histories.specs.Reads.{IsRead};
ghost use Rattle.pattern_json.specs.Steps.Taken.{opened_parts};
ghost use Rattle.json_tokens.specs.Tokens.{IsRest, IsValue};

use crate::word::{Word, next_word};
use json::{Reader, Token};
use json_bounded::{TextError, walk_items};
use json_tokens::{next_token, pass_no_list};
use std::alloc::Global;

/// A word that begins a list, and says what comes after it.
pub(crate) trait Opening: Word {
    /// What the list makes.
    type Whole: Drop;

    /// The word that its list begins with.
    ghost word_of: { Self.Whole → Self };

    /// What comes after the word.
    ghost shown: { Self.Whole → List Data };

    /// What the list makes of which the rest comes next, after this word. It passes the rest in any case.
    ///
    /// `NotJson` exactly where no rest of a list comes next, and `Memory` only where an allocation was refused. O(n) for n bytes of the
    /// rest.
    fn rest(
        self,
        alloc: Global,
        reader: &mut Reader<'_>,
        depth: usize,
    ) -> Result<Option<Self::Whole>, TextError>
        ensures read { IfOk result
            (λ whole. IsRest (λ ds. IsRead (opened_parts Self.name word_of shown) (string (Self.name self) ∷ ds) whole)
            depth reader.old reader.new) }
        ensures shorter { OnOk result (length reader.new ≤ length reader.old) }
        ensures refused { IfErr result (AreRefused depth reader.old) };
}

/// What a list makes of which the rest comes next, from its word on. It passes the rest in any case.
fn opened_rest<W: Opening>(
    alloc: Global,
    reader: &mut Reader<'_>,
    depth: usize,
) -> Result<Option<W::Whole>, TextError>
    ensures read { IfOk result
        (λ whole. IsRest (λ ds. IsRead (opened_parts W.name W.word_of W.shown) ds whole) depth reader.old reader.new) }
    ensures shorter { OnOk result (length reader.new ≤ length reader.old) }
    ensures refused { IfErr result (AreRefused depth reader.old) }
{
    if reader.take_end_array() {
        return Ok(None);
    }
    match next_word::<W>(alloc, reader, depth)? {
        Some(word) => word.rest(alloc, reader, depth),
        None => {
            walk_items(reader, depth)?;
            Ok(None)
        }
    }
}

/// What the value that comes next makes, where it is a list that begins with such a word. It passes the value in any case.
///
/// `NotJson` exactly where no value comes next, and `Memory` only where an allocation was refused. O(n) for n bytes of the value.
pub(crate) fn next_opened<W: Opening>(
    alloc: Global,
    reader: &mut Reader<'_>,
    depth: usize,
) -> Result<Option<W::Whole>, TextError>
    ensures read { IfOk result
        (λ whole. IsValue (λ d. IsRead (λ w. list (opened_parts W.name W.word_of W.shown w)) d whole) depth reader.old reader.new) }
    ensures shorter { OnOk result (length reader.new < length reader.old) }
    ensures refused { IfErr result (IsRefused depth reader.old) }
{
    let token = next_token(reader)?;
    if let Token::BeginArray = token {
        if depth == 0 {
            return Err(TextError::NotJson);
        }
        return opened_rest::<W>(alloc, reader, depth - 1);
    }
    pass_no_list(alloc, token, reader, depth)?;
    Ok(None)
}
