//! Why a text has no log.

ghost use Rattle.std.specs.Prelude.{◌≡◌};
ghost use Rattle.log_reader.specs.Codes.{code_of};

/// Why a line does not follow those before it.
#[derive(Clone, Copy, Debug, PartialEq, Eq)]
pub enum Reason {
    /// It is no JSON, or no UTF-8.
    NotJson,
    /// It has more than [`MAX_LINE_BYTES`](crate::MAX_LINE_BYTES) bytes.
    TooLong,
    /// It does not have the form of an event.
    NoForm,
    /// A start that comes after a begin, or that is the second of its key.
    LateStart,
    /// A begin while a call of the client is pending.
    CallPending,
    /// An end, a fail or a loss while no call of the client is pending.
    NothingPending,
    /// An end that does not fit the pending call: a read ends only with a value or null, any other call only with `"ok"`.
    WrongEnd,
    /// The order of time, said after an event, or a second time.
    LateOrder,
}

/// The first line that does not follow those before it.
#[derive(Clone, Copy, Debug, PartialEq, Eq)]
pub struct Refusal {
    /// Why it does not.
    pub reason: Reason,
    /// The number of the line, from 1.
    pub line: u64,
}

impl Refusal {
    /// The number of the refusal: 1 where the line is no JSON, 9 where it is too long, and else 30.
    pub fn code(self) -> u8
        ensures { result ≡ code_of self.reason }
    {
        match self.reason {
            Reason::NotJson => 1,
            Reason::TooLong => 9,
            Reason::NoForm
            | Reason::LateStart
            | Reason::CallPending
            | Reason::NothingPending
            | Reason::WrongEnd
            | Reason::LateOrder => 30,
        }
    }
}
