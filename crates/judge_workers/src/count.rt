//! How many workers there are.
ghost use Rattle.std.specs.Prelude.{◌≡◌, ◌≤◌, MatchOption};
ghost use Rattle.judge_workers.specs.Workers.{AreWorkers};

use crate::limit::MAX_WORKERS;
use std::marker::Model;

/// A number of workers, from 1 to [`MAX_WORKERS`].
#[derive(Clone, Copy, Debug, PartialEq, Eq)]
pub struct Workers {
    count: usize,
}

impl Model for Workers {
    ghost use Rattle.std.specs.Prelude.{ℕ};
    ghost use Rattle.judge_workers.specs.Workers.{AreWorkers};

    ghost Value = { ℕ };

    ghost view = { λ w. w.count };

    ghost inverse = { λ n. record { count = n } };

    ghost invariant = { λ w. AreWorkers w.count };
}

impl Workers {
    /// So many workers; none where the number is not from 1 to [`MAX_WORKERS`].
    pub fn of(count: usize) -> Option<Workers>
        ensures { MatchOption result (¬ AreWorkers count) (λ workers. (workers ≡ count) × AreWorkers count) }
    {
        if count == 0 || count > MAX_WORKERS {
            return None;
        }
        Some(Workers { count })
    }

    /// The number of workers if no number is given.
    pub fn usual() -> Workers
        ensures { result ≡ 2 }
    {
        Workers { count: 2 }
    }

    /// How many workers there are.
    pub fn count(self) -> usize
        ensures count { result ≡ self }
        ensures number { AreWorkers result }
    {
        self.count
    }
}
