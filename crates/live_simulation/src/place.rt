//! The marks of cases on the board of the world: their numbers.

use live_case_board::Mark;

/// The mark of a case: the place of its file in the list of files, which is the number of the case.
#[derive(Clone, Copy, Debug, PartialEq, Eq, Drop)]
pub struct Place {
    /// The number of the case.
    pub number: usize,
}

impl Mark for Place {
    ghost place = { λ p. p.number };

    fn place(&self) -> usize {
        self.number
    }
}
