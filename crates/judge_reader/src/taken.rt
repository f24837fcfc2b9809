//! What became of an operation that was read.

ghost use Rattle.std.specs.Prelude.{◌≡◌};
ghost use Rattle.judge_reader.specs.Steps.Taking.{is_unknown as says_unknown, refusal_as};

use json_histories::{OpId, ReadError};

/// What became of an operation that was read: it is pushed, or it is refused.
#[derive(Clone, Copy)]
pub(crate) enum Taken {
    /// It is pushed, with a known return.
    Known,
    /// It is pushed, and its return is not known.
    Unknown,
    /// It has a known return, and it comes after an operation whose return is not known.
    Late,
    /// It is no operation.
    NoForm,
}

impl Taken {
    /// The refusal of the operation at the place `op`, if it is refused.
    #[inline(always)]
    pub(crate) fn refusal(self, op: OpId) -> Option<ReadError>
        ensures { result ≡ refusal_as self op }
    {
        match self {
            Taken::Known | Taken::Unknown => None,
            Taken::Late => Some(ReadError::ReturnAfterUnknown(op)),
            Taken::NoForm => Some(ReadError::BadOp(op)),
        }
    }

    /// Whether it is pushed, and its return is not known.
    #[inline(always)]
    pub(crate) fn is_unknown(self) -> bool
        ensures { result ≡ says_unknown self }
    {
        match self {
            Taken::Unknown => true,
            Taken::Known | Taken::Late | Taken::NoForm => false,
        }
    }
}
