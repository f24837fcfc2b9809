//! Paths: lists of operations.

use crate::formed::{Formed, next_whole};
use crate::items::Items;
use json::Reader;
use json_bounded::TextError;
use model_history::OpId;
use pattern_check::Path;
use std::alloc::Global;

impl Formed for Path {
    ghost use Rattle.pattern_json.specs.PatternForm.{path_form};

    ghost form = { path_form };

    fn next(
        alloc: Global,
        reader: &mut Reader<'_>,
        depth: usize,
    ) -> Result<Option<Path>, TextError> {
        let Some(ops) = next_whole::<Items<OpId>>(alloc, reader, depth)? else {
            return Ok(None);
        };
        // A derivation may have millions of short paths, so each is a copy with no room for more.
        Ok(Some(Path::of(Vec::from_slice(alloc, ops.items())?)))
    }
}
