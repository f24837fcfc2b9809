//! The violation that a claim names.

use cert_check::Criterion;
use pattern_check::Pattern;

/// A criterion that a history does not meet, and a pattern that shows it.
#[derive(Drop)]
pub struct Violation {
    /// The criterion, or none where the second element of the claim names none.
    pub criterion: Option<Criterion>,
    /// The pattern, or none where the third element of the claim is none.
    pub pattern: Option<Pattern>,
}
