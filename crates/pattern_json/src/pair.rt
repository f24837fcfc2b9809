//! Lists of two items.

ghost use Rattle.std.specs.Prelude.{◌≡◌, ◌≢◌, ◌∷◌, [], List};
ghost use Rattle.pattern_json.specs.Steps.Taken.{both, pair_taken};

use crate::formed::{Formed, Parts};
use json::Reader;
use json_bounded::TextError;
use json_tokens::{Gather, pass_value};
use std::alloc::Global;
use std::mem;

/// What was taken of a list of two items.
#[derive(Drop)]
pub(crate) enum Pair<A, B> {
    /// None of them.
    Nothing,
    /// The first.
    First(A),
    /// Both.
    Both(A, B),
}

impl<A: Formed, B: Formed> Gather for Pair<A, B> {
    ghost is_of = { λ pair ds. ds ≡ pair_taken A.form B.form pair };

    ghost refuses = { λ ds. (items : A × B) → ds ≢ both A.form B.form items };

    fn take_next(
        &mut self,
        alloc: Global,
        reader: &mut Reader<'_>,
        depth: usize,
    ) -> Result<bool, TextError> {
        match mem::replace(self, Pair::Nothing) {
            Pair::Nothing => {
                let Some(first) = A::next(alloc, reader, depth)? else {
                    return Ok(false);
                };
                drop(mem::replace(self, Pair::First(first)));
                Ok(true)
            }
            Pair::First(first) => match B::next(alloc, reader, depth) {
                Ok(Some(second)) => {
                    drop(mem::replace(self, Pair::Both(first, second)));
                    Ok(true)
                }
                Ok(None) => {
                    drop(first);
                    Ok(false)
                }
                Err(error) => {
                    drop(first);
                    Err(error)
                }
            },
            Pair::Both(first, second) => {
                drop((first, second));
                pass_value(alloc, reader, depth)?;
                Ok(false)
            }
        }
    }
}

impl<A: Formed, B: Formed> Parts for Pair<A, B> {
    type Whole = (A, B);

    ghost parts = { both A.form B.form };

    ghost refuses_parts = { λ ds items none. none items };

    fn none(_alloc: Global) -> Pair<A, B> {
        Pair::Nothing
    }

    fn whole(self) -> Option<(A, B)> {
        match self {
            Pair::Both(first, second) => Some((first, second)),
            Pair::Nothing | Pair::First(_) => None,
        }
    }
}
