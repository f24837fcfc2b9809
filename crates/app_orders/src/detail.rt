//! How much the program says of a refused input.

/// How much the program says of a refused input.
#[derive(Clone, Copy, Debug, PartialEq, Eq)]
pub enum Detail {
    /// One line, with the number of the refusal.
    Number,
    /// A second line too: what is wrong, where, and what is wanted.
    Reason,
}
