//! Reading a text that is a list of a history and a certificate.

ghost use Rattle.std.specs.Prelude.{◌≡◌, ◌<◌, Err, List, length, IfOk, IfErr, OnOk};
ghost use Rattle.serde_json.specs.Data.{Data};
ghost use Rattle.json_bounded.specs.Steps.Reading.{IsRefused};
ghost use Rattle.json_histories.specs.AnyForm.{form_of, IsAnyHistory, IsJson};
ghost use Rattle.pattern_json.specs.Found.{IsFoundIn};
ghost use Rattle.pattern_json.specs.Pairs.{pair_form, IsPairRefused};
ghost use Rattle.pattern_json.specs.Steps.PairParts.{ArePairParts, IsNextPairPart, joined_of, pair_by};
ghost use Rattle.json_tokens.specs.Tokens.{IsValue};

use crate::certificate::next_certificate;
use crate::found::{FoundCertificate, found_of};
use json::Reader;
use json_bounded::TextError;
use json_histories::{AnyHistory, ReadError};
use json_tokens::{Gather, gather_text, next_history, pass_value};
use std::alloc::Global;
use std::mem;

/// A history with what was found after it, or the first refusal of the history.
type Pair = Result<(AnyHistory, FoundCertificate), ReadError>;

/// The elements of a pair so far.
enum PairParts {
    /// None.
    Begun,
    /// A history, or its first refusal.
    History(Result<AnyHistory, ReadError>),
    /// Both of them.
    Both(Pair),
}

// Drops a history, or its refusal.
fn discard(history: Result<AnyHistory, ReadError>) {
    if let Ok(history) = history {
        history.discard();
    }
}

// Drops a pair, or the refusal of its history.
fn discard_pair(pair: Pair) {
    if let Ok((history, found)) = pair {
        drop(found);
        history.discard();
    }
}

impl PairParts {
    // Drops the elements.
    fn discard(self) {
        match self {
            PairParts::Begun => {}
            PairParts::History(history) => discard(history),
            PairParts::Both(pair) => discard_pair(pair),
        }
    }
}

/// The history with what was found after it, unless it is refused.
fn joined(history: Result<AnyHistory, ReadError>, found: FoundCertificate) -> Pair
    ensures { result ≡ joined_of history found }
{
    Ok((history?, found))
}

/// The elements with the one that comes next, or none where no pair goes on so. It passes the value.
fn next_part(
    alloc: Global,
    reader: &mut Reader<'_>,
    depth: usize,
    parts: PairParts,
) -> Result<Option<PairParts>, TextError>
    ensures read { IfOk result
        (λ next. IsValue (λ d. (ds : List Data) → ArePairParts parts ds → IsNextPairPart next ds d) depth reader.old reader.new) }
    ensures shorter { OnOk result (length reader.new < length reader.old) }
    ensures refused { IfErr result (IsRefused depth reader.old) }
{
    match parts {
        PairParts::Begun => {
            let history = next_history(alloc, reader, depth)?;
            Ok(Some(PairParts::History(history)))
        }
        PairParts::History(history) => match next_certificate(alloc, reader, depth) {
            Ok(read) => Ok(Some(PairParts::Both(joined(history, found_of(read))))),
            Err(error) => {
                discard(history);
                Err(error)
            }
        },
        PairParts::Both(pair) => {
            discard_pair(pair);
            pass_value(alloc, reader, depth)?;
            Ok(None)
        }
    }
}

impl Gather for PairParts {
    ghost use Rattle.pattern_json.specs.Steps.PairParts.{ArePairParts, AreNoPair};

    ghost is_of = { ArePairParts };

    ghost refuses = { AreNoPair };

    fn take_next(
        &mut self,
        alloc: Global,
        reader: &mut Reader<'_>,
        depth: usize,
    ) -> Result<bool, TextError> {
        let parts = mem::replace(self, PairParts::Begun);
        match next_part(alloc, reader, depth, parts)? {
            Some(next) => {
                mem::replace(self, next).discard();
                Ok(true)
            }
            None => Ok(false),
        }
    }
}

/// The pair of these elements of a whole list.
fn pair_of(parts: PairParts) -> Pair
    ensures { result ≡ pair_by parts }
{
    match parts {
        PairParts::Both(pair) => pair,
        PairParts::Begun => Err(ReadError::BadShape),
        PairParts::History(history) => {
            discard(history);
            Err(ReadError::BadShape)
        }
    }
}

// The error, in the place of what was read before it.
fn without(pair: Pair, error: ReadError) -> Pair
    ensures { result ≡ Err error }
{
    discard_pair(pair);
    Err(error)
}

/// The history and the certificate in a text that is a JSON list of both.
///
/// `NotJson` where `serde_json` refuses the text, `BadShape` where it is no list of two elements, else the first refusal of the
/// history. `Memory` only where an allocation was refused. A certificate of more sessions than a history has is
/// [`TooLarge`](FoundCertificate::TooLarge): it has the shape of no history. O(n) for a text of n bytes.
pub fn read_pair(alloc: Global, text: &[u8]) -> Result<(AnyHistory, FoundCertificate), ReadError>
    ensures history { IfOk result (λ pair. IsAnyHistory pair.0) }
    ensures read { IfOk result (λ pair. (d : Data) × IsJson text.now (pair_form (form_of pair.0) d) × IsFoundIn d pair.1) }
    ensures refused { IfErr result (IsPairRefused text.now) }
{
    let mut parts = PairParts::Begun;
    let gathered = gather_text(alloc, text, &mut parts);
    let pair = pair_of(parts);
    match gathered {
        Ok(true) => pair,
        Ok(false) => without(pair, ReadError::BadShape),
        Err(TextError::NotJson) => without(pair, ReadError::NotJson),
        Err(TextError::Memory) => without(pair, ReadError::Memory),
    }
}
