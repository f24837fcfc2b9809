//! Events of the clients of a memory.

/// What a client calls. Keys and values are numbers, by which a log names them.
#[derive(Clone, Copy, Debug, PartialEq, Eq)]
pub enum ClientCall {
    /// A write to a key, of a value.
    WriteTo(u32, u32),
    /// A read of a key.
    ReadOf(u32),
    /// A delete of a key.
    DeleteOf(u32),
}

/// How a call ends.
#[derive(Clone, Copy, Debug, PartialEq, Eq)]
pub enum Ending {
    /// The write or the delete was answered.
    Answered,
    /// The read got this value.
    Got(u32),
    /// The read found that the key holds nothing.
    GotNothing,
    /// The call had no effect for certain.
    Failed,
    /// No answer came: whether and when the call takes effect is open.
    Lost,
}

/// A line of a log.
#[derive(Clone, Copy, Debug, PartialEq, Eq)]
pub enum Event {
    /// The key holds the value before the first call.
    Starts(u32, u32),
    /// The client is about to call this.
    Begins(u32, ClientCall),
    /// The pending call of the client ended so.
    Ends(u32, Ending),
}
