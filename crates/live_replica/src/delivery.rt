//! The delivery of updates: a replica delivers each at once, or when all that it depends on was delivered.

/// When a replica takes an update in.
#[derive(Clone, Copy, Debug, PartialEq, Eq)]
pub enum Delivery {
    /// When all that the update depends on was delivered; it is held until then.
    Causal,
    /// At once.
    Eager,
}
