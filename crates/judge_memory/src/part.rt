//! What is known of one operation.

/// What is known of an operation, beside its variable.
#[derive(Clone, Copy, Debug, PartialEq, Eq)]
pub enum Part {
    /// A write, whether its return is known or not.
    Write,
    /// A known read of a value that is not the initial one, with the number of the write that it read from.
    SourcedRead(u32),
    /// A known read of its variable's initial value.
    InitialRead,
    /// A known read of a value that is not the initial one and that nobody writes.
    ThinAirRead,
    /// A read whose return is not known.
    UnknownRead,
}
