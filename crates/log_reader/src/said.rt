//! Events as a line says them, by names.

use crate::name_value::NameValue;

/// What a client calls.
#[derive(Clone, Copy)]
pub(crate) enum SaidCall<'a> {
    /// A write to a key, of a value.
    Write(NameValue<'a>, NameValue<'a>),
    /// A read of a key.
    Read(NameValue<'a>),
    /// A delete of a key.
    Delete(NameValue<'a>),
}

/// How a call ends.
#[derive(Clone, Copy)]
pub(crate) enum SaidEnding<'a> {
    /// A value, or `"ok"`, was answered.
    Answer(NameValue<'a>),
    /// Null was answered.
    Nothing,
    /// It failed.
    Failed,
    /// It is lost.
    Lost,
}

/// An event, or the order of time.
#[derive(Clone, Copy)]
pub(crate) enum Said<'a> {
    /// The key holds the value before the first call.
    Start(NameValue<'a>, NameValue<'a>),
    /// The client is about to call this.
    Begin(NameValue<'a>, SaidCall<'a>),
    /// The pending call of the client ended so.
    End(NameValue<'a>, SaidEnding<'a>),
    /// The lines of the log stand in the order of time.
    Ordered,
}
