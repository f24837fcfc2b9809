//! What a null read saw.

/// What a read saw that got nothing, of a key that some delete names.
#[derive(Clone, Copy, Debug, PartialEq, Eq)]
pub enum Seen {
    /// The key as it was before the first call.
    Start,
    /// The delete that began at this place among the events of the log, from 0.
    Delete(u32),
}
