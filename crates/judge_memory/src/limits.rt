//! The limit on numbers of operations.

/// The most operations that a history has, and the most sessions: with one more, their numbers still fit 32 bits.
pub const MAX_NUMBERS: usize = 4_294_967_293;
