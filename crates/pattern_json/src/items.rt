//! Lists of any number of items of one form.

ghost use Rattle.std.specs.Prelude.{◌≡◌, ◌≢◌, List, [], map};
ghost use Rattle.serde_json.specs.Data.{Data};

use crate::formed::{Formed, Parts};
use json::Reader;
use json_bounded::TextError;
use json_tokens::Gather;
use std::alloc::Global;
use std::marker::Model;

/// Items that were taken from a list, in order.
#[derive(Drop)]
pub(crate) struct Items<T> {
    items: Vec<T>,
}

impl<T> Model for Items<T> {
    ghost use Rattle.std.specs.Prelude.{List};

    ghost Value = { List T };

    ghost view = { λ items. items.items.items };
}

impl<T> Items<T> {
    /// The items, in order.
    pub(crate) fn items(&self) -> &[T]
        ensures { result.now ≡ self.now }
    {
        self.items.as_slice()
    }

    /// The items, in a vector that may have room for more.
    pub(crate) fn into_vec(self) -> Vec<T>
        ensures { result.items ≡ self }
    {
        self.items
    }
}

impl<T: Formed> Gather for Items<T> {
    ghost is_of = { λ items ds. ds ≡ map T.form items };

    ghost refuses = { λ ds. (items : List T) → ds ≢ map T.form items };

    fn take_next(
        &mut self,
        alloc: Global,
        reader: &mut Reader<'_>,
        depth: usize,
    ) -> Result<bool, TextError> {
        let Some(item) = T::next(alloc, reader, depth)? else {
            return Ok(false);
        };
        self.items.push(item)?;
        Ok(true)
    }
}

impl<T: Formed> Parts for Items<T> {
    type Whole = Items<T>;

    ghost parts = { map T.form };

    ghost refuses_parts = { λ ds items none. none items };

    fn none(alloc: Global) -> Items<T> {
        Items {
            items: Vec::new(alloc),
        }
    }

    fn whole(self) -> Option<Items<T>> {
        Some(self)
    }
}
