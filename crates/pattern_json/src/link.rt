//! Links: lists of `"co"` and two operations, or of `"cf"`, a path and an operation.

ghost use Rattle.pattern_json.specs.Steps.PartWords.{link_word};

use crate::formed::{Formed, next_rest, next_whole};
use crate::items::Items;
use crate::opening::{Opening, next_opened};
use crate::pair::Pair;
use crate::word::Word;
use json::Reader;
use json_bounded::TextError;
use model_history::OpId;
use pattern_check::{Link, Links, Path};
use std::alloc::Global;

/// The words of links.
#[derive(Clone, Copy)]
pub(crate) enum LinkWord {
    /// Of an edge of the causal order.
    Co,
    /// Of a conflict.
    Cf,
}

impl Word for LinkWord {
    ghost name = { link_word };

    fn named(text: &str) -> Option<LinkWord> {
        if text == "co" {
            Some(LinkWord::Co)
        } else if text == "cf" {
            Some(LinkWord::Cf)
        } else {
            None
        }
    }
}

impl Opening for LinkWord {
    ghost use Rattle.pattern_json.specs.Steps.Taken.{link_opening, link_shown};

    type Whole = Link;

    ghost word_of = { link_opening };

    ghost shown = { link_shown };

    fn rest(
        self,
        alloc: Global,
        reader: &mut Reader<'_>,
        depth: usize,
    ) -> Result<Option<Link>, TextError> {
        match self {
            LinkWord::Co => match next_rest::<Pair<OpId, OpId>>(alloc, reader, depth)? {
                Some((begin, end)) => Ok(Some(Link::Co(begin, end))),
                None => Ok(None),
            },
            LinkWord::Cf => match next_rest::<Pair<Path, OpId>>(alloc, reader, depth)? {
                Some((path, end)) => Ok(Some(Link::Cf(path, end))),
                None => Ok(None),
            },
        }
    }
}

impl Formed for Link {
    ghost use Rattle.pattern_json.specs.PatternForm.{link_form};

    ghost form = { link_form };

    fn next(
        alloc: Global,
        reader: &mut Reader<'_>,
        depth: usize,
    ) -> Result<Option<Link>, TextError> {
        next_opened::<LinkWord>(alloc, reader, depth)
    }
}

impl Formed for Links {
    ghost use Rattle.pattern_json.specs.PatternForm.{links_form};

    ghost form = { links_form };

    fn next(
        alloc: Global,
        reader: &mut Reader<'_>,
        depth: usize,
    ) -> Result<Option<Links>, TextError> {
        let Some(links) = next_whole::<Items<Link>>(alloc, reader, depth)? else {
            return Ok(None);
        };
        Ok(Some(Links::of(links.into_vec())))
    }
}
