//! The greatest number of workers.

/// The most workers that work side by side.
pub const MAX_WORKERS: usize = 16;
