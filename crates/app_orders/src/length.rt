//! How long a history may be.

/// How long a history may be.
#[derive(Clone, Copy, Debug, PartialEq, Eq)]
pub enum Length {
    /// At most 16 sessions of at most 256 operations each, of any object.
    Limited,
    /// Any number of sessions and operations, of a memory alone.
    Any,
}
