//! The answers of a board about a case.

use model_history::OpId;
use pattern_check::Kind;

/// What a board answers about a case.
#[derive(Clone, Copy, Debug, PartialEq, Eq)]
pub enum Answer {
    /// Every row has a verdict, and each explains its operation.
    Yes,
    /// A pattern of this kind was accepted.
    No(Kind),
    /// Every row has a verdict, and this is the first operation that its verdict does not explain; or `None` if the case
    /// has no certificate.
    Unknown(Option<OpId>),
    /// So many rows have no verdict.
    Open(u32),
}
