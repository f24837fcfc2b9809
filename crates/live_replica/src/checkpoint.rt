//! A state that an object had, with the number of updates it had applied.

/// A state that an object had, and how many updates it had applied.
#[derive(Drop)]
pub(crate) struct Checkpoint<Z> {
    pub(crate) object: Z,
    pub(crate) applied: usize,
}
