//! How much of what shows a finding is kept.

/// How much of what shows a finding is kept.
#[derive(Clone, Copy, Debug, PartialEq, Eq)]
pub enum Kept {
    /// Nothing: answers alone are wanted.
    Answers,
    /// Patterns.
    Patterns,
    /// Patterns, and the certificate that does not explain an operation.
    Reasons,
    /// Patterns, and a certificate of each criterion that is met. Causal memory may have none.
    Certificates,
}
