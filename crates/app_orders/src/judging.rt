//! How histories are judged.

ghost use Rattle.std.specs.Prelude.{◌≡◌};
ghost use Rattle.app_orders.specs.Expected.{expecting_nothing};
ghost use Rattle.app_orders.specs.declared.length.Length.TheVariants.{Limited};

use crate::expected::Expected;
use crate::length::Length;
use judge_workers::Workers;

/// How a history is judged.
#[derive(Clone, Copy, Debug, PartialEq, Eq)]
pub struct Judging {
    /// How many workers check certificates.
    pub workers: Workers,
    /// The criteria that are expected to be met.
    pub expected: Expected,
    /// How long a history may be.
    pub length: Length,
}

impl Judging {
    /// So many workers judge a history within the limits, and nothing is expected of it.
    pub fn by(workers: Workers) -> Judging
        ensures { result ≡ record { workers = workers; expected = expecting_nothing; length = Limited } }
    {
        Judging {
            workers,
            expected: Expected::nothing(),
            length: Length::Limited,
        }
    }
}
