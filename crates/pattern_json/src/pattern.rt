//! Patterns: lists of the name of a kind and the one thing or two that show it.

ghost use Rattle.std.specs.Prelude.{◌<◌, length, IfOk, IfErr, OnOk};
ghost use Rattle.pattern_json.specs.PatternForm.{form_of};
ghost use Rattle.json_bounded.specs.Steps.Reading.{IsRefused};
ghost use Rattle.json_histories.specs.Reads.{IsRead};
ghost use Rattle.json_tokens.specs.Tokens.{IsValue};

use crate::formed::next_rest;
use crate::only::Only;
use crate::opening::{Opening, next_opened};
use crate::pair::Pair;
use json::Reader;
use json_bounded::TextError;
use model_history::OpId;
use pattern_check::{Derivation, Kind, Links, Path, Pattern};
use std::alloc::Global;

impl Opening for Kind {
    ghost use Rattle.pattern_check.specs.Patterns.{kind_of};
    ghost use Rattle.pattern_json.specs.Steps.PatternTaken.{shown_parts};

    type Whole = Pattern;

    ghost word_of = { kind_of };

    ghost shown = { shown_parts };

    fn rest(
        self,
        alloc: Global,
        reader: &mut Reader<'_>,
        depth: usize,
    ) -> Result<Option<Pattern>, TextError> {
        match self {
            Kind::CyclicCO => match next_rest::<Only<Path>>(alloc, reader, depth)? {
                Some(path) => Ok(Some(Pattern::CyclicCO(path))),
                None => Ok(None),
            },
            Kind::ThinAirRead => match next_rest::<Only<OpId>>(alloc, reader, depth)? {
                Some(read) => Ok(Some(Pattern::ThinAirRead(read))),
                None => Ok(None),
            },
            Kind::WriteCOInitRead => match next_rest::<Only<Path>>(alloc, reader, depth)? {
                Some(path) => Ok(Some(Pattern::WriteCOInitRead(path))),
                None => Ok(None),
            },
            Kind::WriteCORead => match next_rest::<Pair<Path, Path>>(alloc, reader, depth)? {
                Some((above, below)) => Ok(Some(Pattern::WriteCORead(above, below))),
                None => Ok(None),
            },
            Kind::WriteHBInitRead => match next_rest::<Pair<OpId, Derivation>>(
                alloc, reader, depth,
            )? {
                Some((op, lines)) => Ok(Some(Pattern::WriteHBInitRead(op, lines))),
                None => Ok(None),
            },
            Kind::CyclicHB => match next_rest::<Pair<OpId, Derivation>>(alloc, reader, depth)? {
                Some((op, lines)) => Ok(Some(Pattern::CyclicHB(op, lines))),
                None => Ok(None),
            },
            Kind::CyclicCF => match next_rest::<Only<Links>>(alloc, reader, depth)? {
                Some(links) => Ok(Some(Pattern::CyclicCF(links))),
                None => Ok(None),
            },
        }
    }
}

/// The pattern that comes next, or none where the next value is the form of no pattern. It passes the value in any case.
///
/// The form is a list of the name of the kind and what shows it: `["CyclicCO",path]`, `["ThinAirRead",op]`,
/// `["WriteCOInitRead",path]`, `["WriteCORead",path,path]`, `["WriteHBInitRead",op,lines]`, `["CyclicHB",op,lines]` or
/// `["CyclicCF",links]`. An operation is `[session,index]`, a path is a list of operations, links are a list of
/// `["co",op,op]` and `["cf",path,op]`, and lines are a list of `["co",path,path]`, `["tr",i,j]` and `["rf",i,op]` with line
/// numbers i and j. A path, links and lines may be empty, and the operations need not be of any history.
///
/// `depth` is how much deeper the text may nest there.
///
/// `NotJson` exactly where no value comes next, and `Memory` only where an allocation was refused. O(n) for n bytes of the value, of which
/// it keeps the pattern alone.
pub fn next_pattern(
    alloc: Global,
    reader: &mut Reader<'_>,
    depth: usize,
) -> Result<Option<Pattern>, TextError>
    ensures read { IfOk result (λ pattern. IsValue (λ d. IsRead form_of d pattern) depth reader.old reader.new) }
    ensures shorter { OnOk result (length reader.new < length reader.old) }
    ensures refused { IfErr result (IsRefused depth reader.old) }
{
    next_opened::<Kind>(alloc, reader, depth)
}
