//! Limits of what is read.

/// The most bytes of a line of a log.
pub const MAX_LINE_BYTES: usize = 1_000_000;
