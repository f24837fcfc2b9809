//! Taking the elements of the list that a whole text is.

ghost use Rattle.std.specs.Prelude.{◌≡◌, [], IfOk, IfErr, Some};
ghost use Rattle.serde_json.specs.Data.{Data};
ghost use Rattle.serde_json.specs.Read.{read};
ghost use Rattle.json_bounded.specs.Steps.Reading.{IsWholeRefused};
ghost use Rattle.json_bounded.specs.Text.{IsJson, IsTextRefused};
ghost use Rattle.json_histories.specs.Json.{elements};
ghost use Rattle.json_tokens.specs.Gathers.{IsTakenList};

use crate::gather::{Gather, next_list};
use json::{Reader, Scratch};
use json_bounded::{MAX_DEPTH, TextError};
use std::alloc::Global;

/// Takes the elements of the list that the text is, and returns whether it is a list, and its elements are wanted. It reads in the
/// scratch.
fn gather_whole<G: Gather>(
    alloc: Global,
    text: &str,
    scratch: &mut Scratch<Global>,
    gathered: &mut G,
) -> Result<bool, TextError>
    requires empty { G.is_of gathered.old [] }
    ensures read { IfOk result
        (λ taken. (d : Data) × (read text.now ≡ Some d) × IsTakenList G.is_of G.refuses gathered.new taken (elements d)) }
    ensures refused { IfErr result (IsWholeRefused text.now) }
{
    let mut reader = Reader::new(text, scratch)?;
    let taken = next_list(alloc, &mut reader, MAX_DEPTH, gathered)?;
    if reader.next().is_some() {
        return Err(TextError::NotJson);
    }
    Ok(taken)
}

/// Takes the elements of the list that the bytes are as JSON, and returns whether they are a list, and its elements are wanted.
///
/// `NotJson` exactly where `serde_json` refuses the text, also for what is not wanted. `Memory` only where an allocation was refused. O(n)
/// for n bytes of the text, beside what `take_next` takes.
pub fn gather_text<G: Gather>(
    alloc: Global,
    text: &[u8],
    gathered: &mut G,
) -> Result<bool, TextError>
    requires empty { G.is_of gathered.old [] }
    ensures read { IfOk result
        (λ taken. (d : Data) × IsJson text.now d × IsTakenList G.is_of G.refuses gathered.new taken (elements d)) }
    ensures refused { IfErr result (IsTextRefused text.now) }
{
    match simdutf8::compat::from_utf8(text) {
        Ok(text) => gather_whole(alloc, text, &mut Scratch::new(alloc), gathered),
        Err(_) => Err(TextError::NotJson),
    }
}
