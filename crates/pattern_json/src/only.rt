//! Lists of one item.

ghost use Rattle.std.specs.Prelude.{◌≡◌, ◌≢◌, ◌∷◌, [], List};
ghost use Rattle.pattern_json.specs.Steps.Taken.{one, only_taken};

use crate::formed::{Formed, Parts};
use json::Reader;
use json_bounded::TextError;
use json_tokens::{Gather, pass_value};
use std::alloc::Global;

/// What was taken of a list of one item.
#[derive(Drop)]
pub(crate) enum Only<T> {
    /// Not the item.
    Nothing,
    /// The item.
    Item(T),
}

impl<T: Formed> Gather for Only<T> {
    ghost is_of = { λ only ds. ds ≡ only_taken T.form only };

    ghost refuses = { λ ds. (item : T) → ds ≢ one T.form item };

    fn take_next(
        &mut self,
        alloc: Global,
        reader: &mut Reader<'_>,
        depth: usize,
    ) -> Result<bool, TextError> {
        if let Only::Item(_) = self {
            pass_value(alloc, reader, depth)?;
            return Ok(false);
        }
        let Some(item) = T::next(alloc, reader, depth)? else {
            return Ok(false);
        };
        *self = Only::Item(item);
        Ok(true)
    }
}

impl<T: Formed> Parts for Only<T> {
    type Whole = T;

    ghost parts = { one T.form };

    ghost refuses_parts = { λ ds item none. none item };

    fn none(_alloc: Global) -> Only<T> {
        Only::Nothing
    }

    fn whole(self) -> Option<T> {
        match self {
            Only::Item(item) => Some(item),
            Only::Nothing => None,
        }
    }
}
