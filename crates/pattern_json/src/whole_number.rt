//! Whole numbers below 2^64.

use crate::formed::Formed;
use json::Reader;
use json_bounded::TextError;
use json_tokens::next_whole_number;
use std::alloc::Global;

impl Formed for u64 {
    ghost use Rattle.json_histories.specs.Reads.{number_form};

    ghost form = { number_form };

    fn next(
        alloc: Global,
        reader: &mut Reader<'_>,
        depth: usize,
    ) -> Result<Option<u64>, TextError> {
        next_whole_number(alloc, reader, depth)
    }
}
