//! Reading a long history from its text.

ghost use Rattle.std.specs.Prelude.{◌≡◌, IfOk, IfErr, MatchResult};
ghost use Rattle.json_bounded.specs.Steps.Reading.{IsWholeRefused};
ghost use Rattle.judge_memory.specs.LongHistories.{IsLongHistory};
ghost use Rattle.order_memory.specs.Memory.{MemoryHistory};
ghost use Rattle.json_histories.specs.AnyForm.{IsJson, form_of};
ghost use Rattle.judge_reader.specs.LongRefusals.{IsRefusedLong};
ghost use Rattle.judge_reader.specs.Steps.Reading.{IsJsonOf, IsWhole};

use crate::parts::{Parts, read_history};
use json::{Reader, Scratch};
use json_bounded::{MAX_DEPTH, TextError};
use json_histories::{AnyHistory, ReadError};
use json_tokens::next_token;
use judge_memory::LongHistory;
use std::alloc::Global;

/// The parts of the history that the text is, or their first refusal.
fn read_text(
    alloc: Global,
    scratch: &mut Scratch<Global>,
    text: &str,
) -> Result<Result<Parts, ReadError>, TextError>
    ensures read { IfOk result (IsWhole text.now) }
    ensures refused { IfErr result (IsWholeRefused text.now) }
{
    let mut reader = Reader::new(text, scratch)?;
    let token = next_token(&mut reader)?;
    let parts = read_history(alloc, token, &mut reader, MAX_DEPTH)?;
    if reader.next().is_some() {
        return Err(TextError::NotJson);
    }
    Ok(parts)
}

/// The parts of the history that the bytes are, or why they are none.
fn read_bytes(alloc: Global, scratch: &mut Scratch<Global>, text: &[u8]) -> Result<Parts, ReadError>
    ensures read { IfOk result (IsJsonOf text.now) }
    ensures refused { IfErr result (IsRefusedLong text.now) }
{
    let Ok(text) = simdutf8::compat::from_utf8(text) else {
        return Err(ReadError::NotJson);
    };
    match read_text(alloc, scratch, text) {
        Ok(parts) => parts,
        Err(TextError::NotJson) => Err(ReadError::NotJson),
        Err(TextError::Memory) => Err(ReadError::Memory),
    }
}

/// The memory history whose form is the text, as JSON: any number of sessions, each with any number of operations.
///
/// `NotJson` where `serde_json` refuses the text, else the first refusal of its value, in this order: its shape, its name, which is
/// `memory`, each session in order, and last the start. `Memory` where an allocation was refused, or where there are more operations or
/// sessions than [`judge_memory::MAX_NUMBERS`]. O(n) for a text of n bytes, and beside the text it takes memory for the operations alone.
pub fn read_long(alloc: Global, text: &[u8]) -> Result<LongHistory, ReadError>
    ensures is_history { IfOk result IsLongHistory }
    ensures form { IfOk result (λ h. IsJson text.now (form_of (AnyHistory.Memory h))) }

    // A text of the form of a long history is read as that history, unless memory runs out.
    ensures only { (h : MemoryHistory) → IsLongHistory h → IsJson text.now (form_of (AnyHistory.Memory h))
        → MatchResult result (λ g. g ≡ h) (λ e. e ≡ ReadError.Memory) }
    ensures refused { IfErr result (IsRefusedLong text.now) }
{
    let mut scratch = Scratch::new(alloc);
    read_long_in(alloc, &mut scratch, text)
}

/// The same, with a scratch that one text after the other may use: making one takes as long as reading some hundred bytes.
pub fn read_long_in(
    alloc: Global,
    scratch: &mut Scratch<Global>,
    text: &[u8],
) -> Result<LongHistory, ReadError>
    ensures is_history { IfOk result IsLongHistory }
    ensures form { IfOk result (λ h. IsJson text.now (form_of (AnyHistory.Memory h))) }

    // A text of the form of a long history is read as that history, unless memory runs out.
    ensures only { (h : MemoryHistory) → IsLongHistory h → IsJson text.now (form_of (AnyHistory.Memory h))
        → MatchResult result (λ g. g ≡ h) (λ e. e ≡ ReadError.Memory) }
    ensures refused { IfErr result (IsRefusedLong text.now) }
{
    let (start, sessions) = read_bytes(alloc, scratch, text)?;
    Ok(LongHistory::of(start, sessions)?)
}
