//! What the beginning of an input shows of its form.

/// What the beginning of an input shows of its form.
#[derive(Clone, Copy, Debug, PartialEq, Eq)]
pub enum Sight {
    /// Nobody looked at it: the words alone say which form it has.
    Unseen,
    /// It looks like a log of events.
    Log,
    /// It looks like a memory history, which may have any length.
    Memory,
    /// It looks like something else.
    Other,
}
