//! Lines of derivations: lists of `"co"` and two paths, of `"tr"` and two numbers, or of `"rf"`, a number and an operation.

ghost use Rattle.pattern_json.specs.Steps.PartWords.{line_word};

use crate::formed::{Formed, next_rest, next_whole};
use crate::items::Items;
use crate::opening::{Opening, next_opened};
use crate::pair::Pair;
use crate::word::Word;
use json::Reader;
use json_bounded::TextError;
use model_history::OpId;
use pattern_check::{Derivation, Line, Path};
use std::alloc::Global;

/// The words of lines.
#[derive(Clone, Copy)]
pub(crate) enum LineWord {
    /// Of a line of the causal order.
    Co,
    /// Of a line by transitivity.
    Tr,
    /// Of a line by what a read reads from.
    Rf,
}

impl Word for LineWord {
    ghost name = { line_word };

    fn named(text: &str) -> Option<LineWord> {
        if text == "co" {
            Some(LineWord::Co)
        } else if text == "tr" {
            Some(LineWord::Tr)
        } else if text == "rf" {
            Some(LineWord::Rf)
        } else {
            None
        }
    }
}

impl Opening for LineWord {
    ghost use Rattle.pattern_json.specs.Steps.Taken.{line_opening, line_shown};

    type Whole = Line;

    ghost word_of = { line_opening };

    ghost shown = { line_shown };

    fn rest(
        self,
        alloc: Global,
        reader: &mut Reader<'_>,
        depth: usize,
    ) -> Result<Option<Line>, TextError> {
        match self {
            LineWord::Co => match next_rest::<Pair<Path, Path>>(alloc, reader, depth)? {
                Some((above, below)) => Ok(Some(Line::Co(above, below))),
                None => Ok(None),
            },
            LineWord::Tr => match next_rest::<Pair<u64, u64>>(alloc, reader, depth)? {
                Some((i, j)) => Ok(Some(Line::Tr(i, j))),
                None => Ok(None),
            },
            LineWord::Rf => match next_rest::<Pair<u64, OpId>>(alloc, reader, depth)? {
                Some((i, read)) => Ok(Some(Line::Rf(i, read))),
                None => Ok(None),
            },
        }
    }
}

impl Formed for Line {
    ghost use Rattle.pattern_json.specs.PatternForm.{line_form};

    ghost form = { line_form };

    fn next(
        alloc: Global,
        reader: &mut Reader<'_>,
        depth: usize,
    ) -> Result<Option<Line>, TextError> {
        next_opened::<LineWord>(alloc, reader, depth)
    }
}

impl Formed for Derivation {
    ghost use Rattle.pattern_json.specs.PatternForm.{lines_form};

    ghost form = { lines_form };

    fn next(
        alloc: Global,
        reader: &mut Reader<'_>,
        depth: usize,
    ) -> Result<Option<Derivation>, TextError> {
        let Some(lines) = next_whole::<Items<Line>>(alloc, reader, depth)? else {
            return Ok(None);
        };
        Ok(Some(Derivation::of(lines.into_vec())))
    }
}
