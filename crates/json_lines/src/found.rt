//! What a reader of lines finds.

/// What comes next in a stream of lines.
#[derive(Clone, Copy, Debug, PartialEq, Eq)]
pub enum Found {
    /// A line that a line feed ends.
    Line,
    /// Bytes that no line feed ends, and then the end of the stream.
    Rest,
    /// A line of more bytes than are read of one.
    TooLong,
    /// The end of the stream.
    End,
}
