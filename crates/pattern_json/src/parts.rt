//! Reading the parts of a certificate: its word, its vectors, and what comes after them.

ghost use Rattle.std.specs.Prelude.{◌<◌, List, length, IfOk, IfErr, OnOk};
ghost use Rattle.serde_json.specs.Data.{Data};
ghost use Rattle.json_bounded.specs.Steps.Reading.{IsRefused};
ghost use Rattle.pattern_json.specs.Steps.Parts.{ArePartsOf, IsNextPart};
ghost use Rattle.json_tokens.specs.Tokens.{IsValue};

use crate::explained::{certificate_of, next_explained};
use crate::lists::next_lists;
use crate::word::next_word;
use cert_check::{Certificate, Criterion};
use json::Reader;
use json_bounded::TextError;
use json_tokens::{Gather, pass_value};
use order_causal::Vectors;
use std::alloc::Global;
use std::mem;

/// The parts of a certificate so far.
#[derive(Drop)]
pub(crate) enum Parts {
    /// None.
    Begun,
    /// The word of a criterion.
    Named(Criterion),
    /// The word and the vectors.
    Vectors(Criterion, Vectors),
    /// All of them.
    All(Certificate),
}

/// The parts with the one that comes next, or none where no certificate goes on so. It passes the value.
fn next_part(
    alloc: Global,
    reader: &mut Reader<'_>,
    depth: usize,
    parts: Parts,
) -> Result<Option<Parts>, TextError>
    ensures read { IfOk result
        (λ next. IsValue (λ d. (ds : List Data) → ArePartsOf parts ds → IsNextPart next ds d) depth reader.old reader.new) }
    ensures shorter { OnOk result (length reader.new < length reader.old) }
    ensures refused { IfErr result (IsRefused depth reader.old) }
{
    match parts {
        Parts::Begun => match next_word(alloc, reader, depth)? {
            Some(criterion) => Ok(Some(Parts::Named(criterion))),
            None => Ok(None),
        },
        Parts::Named(criterion) => match next_lists::<u16>(alloc, reader, depth)? {
            Some(vectors) => Ok(Some(Parts::Vectors(criterion, vectors))),
            None => Ok(None),
        },
        Parts::Vectors(criterion, vectors) => match next_explained(
            alloc, reader, depth, criterion,
        )? {
            Some(explained) => Ok(Some(Parts::All(certificate_of(vectors, explained)))),
            None => Ok(None),
        },
        Parts::All(certificate) => {
            drop(certificate);
            pass_value(alloc, reader, depth)?;
            Ok(None)
        }
    }
}

impl Gather for Parts {
    ghost use Rattle.pattern_json.specs.Steps.Parts.{ArePartsOf, AreNoParts};

    ghost is_of = { ArePartsOf };

    ghost refuses = { AreNoParts };

    fn take_next(
        &mut self,
        alloc: Global,
        reader: &mut Reader<'_>,
        depth: usize,
    ) -> Result<bool, TextError> {
        let parts = mem::replace(self, Parts::Begun);
        match next_part(alloc, reader, depth, parts)? {
            Some(next) => {
                drop(mem::replace(self, next));
                Ok(true)
            }
            None => Ok(false),
        }
    }
}
