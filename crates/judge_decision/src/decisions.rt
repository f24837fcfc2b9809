//! What is decided of a long history.

use pattern_check::Kind;

/// What is decided of a long history and a criterion.
#[derive(Clone, Copy, Debug, PartialEq, Eq)]
pub enum LongDecision {
    /// The history meets the criterion.
    Meets,
    /// It does not meet the criterion, since this kind of bad pattern is present.
    ExcludedBy(Kind),
    /// Its values are not distinct, and nothing is decided.
    Open,
}

/// What is decided of a long history, for each criterion.
#[derive(Clone, Copy, Debug, PartialEq, Eq)]
pub struct LongDecisions {
    pub cc: LongDecision,
    pub cm: LongDecision,
    pub ccv: LongDecision,
}
