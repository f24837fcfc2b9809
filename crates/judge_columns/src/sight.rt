//! What a read shows of a session's writes.

/// What a read shows of the last write of a session, of its variable, in its past.
#[derive(Clone, Copy, Debug, PartialEq, Eq)]
pub enum Sight {
    /// Nothing: there is no such write, or the read returned it or one after it.
    Nothing,
    /// The read returned the initial value, which the write overwrote.
    OverwrittenStart,
    /// The read returned another write, which is in the past of this one.
    OverwrittenRead,
    /// The write (the first number) has to come before the read's source (the second), and CO does not say so.
    Conflict(u32, u32),
}
