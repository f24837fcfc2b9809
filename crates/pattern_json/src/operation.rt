//! Operations: a list of the numbers of a session and of an operation of it.

use crate::formed::{Formed, next_whole};
use crate::pair::Pair;
use json::Reader;
use json_bounded::TextError;
use model_history::OpId;
use std::alloc::Global;

impl Formed for OpId {
    ghost use Rattle.pattern_json.specs.PatternForm.{op_form};

    ghost form = { op_form };

    fn next(
        alloc: Global,
        reader: &mut Reader<'_>,
        depth: usize,
    ) -> Result<Option<OpId>, TextError> {
        let numbers = next_whole::<Pair<u64, u64>>(alloc, reader, depth)?;
        let Some((session, index)) = numbers else {
            return Ok(None);
        };
        Ok(Some(OpId { session, index }))
    }
}
