//! Why a history does not meet a criterion.

use cert_check::Criterion;
use pattern_check::Pattern;
use show_words::Guarantee;

/// Why a history of a memory does not meet a criterion, as a picture shows it.
#[derive(Clone, Copy)]
pub struct Reason<'a> {
    /// The criterion that is not met.
    pub criterion: Criterion,
    /// The pattern against it.
    pub pattern: &'a Pattern,
    /// The guarantee that its stale read breaks, if it shows one.
    pub broken: Option<Guarantee>,
}
