//! Words, each the name of something.

ghost use Rattle.std.specs.Prelude.{◌≡◌, ◌<◌, ℕ, List, length, IfOk, IfErr, OnOk};
ghost use Rattle.json_bounded.specs.Steps.Reading.{IsRefused};
ghost use Rattle.json_histories.specs.Reads.{IsRead};
ghost use Rattle.pattern_json.specs.Words.{word_form};
ghost use Rattle.json_tokens.specs.Tokens.{IsValue};

use cert_check::Criterion;
use json::{Reader, Token};
use json_bounded::{TextError, read_value};
use json_histories::HistoryPlace;
use json_tokens::next_token;
use pattern_check::Kind;
use std::alloc::Global;

/// What has a name, by which a form names it.
pub trait Word: Copy {
    /// Its name.
    ghost name: { Self → List ℕ };

    /// The word of this name. O(n) for n bytes of the text.
    fn named(text: &str) -> Option<Self>
        ensures { IsRead name text.now result };
}

/// What the value that comes next names, or none where the value is no text or names nothing. It passes the value in any case.
///
/// `depth` is how much deeper the text may nest there. `NotJson` exactly where no value comes next, and `Memory` only where an allocation
/// was refused. O(n) for n bytes of the value.
pub fn next_word<W: Word>(
    alloc: Global,
    reader: &mut Reader<'_>,
    depth: usize,
) -> Result<Option<W>, TextError>
    ensures read { IfOk result (λ word. IsValue (λ d. IsRead (word_form W.name) d word) depth reader.old reader.new) }
    ensures shorter { OnOk result (length reader.new < length reader.old) }
    ensures refused { IfErr result (IsRefused depth reader.old) }
{
    let token = next_token(reader)?;
    if let Token::String(text) = token {
        return Ok(W::named(text));
    }
    let _value = read_value(alloc, token, reader, HistoryPlace::Scalar, depth)?;
    Ok(None)
}

impl Word for Kind {
    ghost use Rattle.pattern_check.specs.KindNames.{kind_name};

    ghost name = { kind_name };

    fn named(text: &str) -> Option<Kind> {
        Kind::named(text)
    }
}

impl Word for Criterion {
    ghost use Rattle.cert_check.specs.CriterionNames.{name_of};

    ghost name = { name_of };

    fn named(text: &str) -> Option<Criterion> {
        Criterion::named(text)
    }
}
