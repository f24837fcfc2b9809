//! Numbers in the lists of a certificate: counts of vectors, and session numbers.

ghost use Rattle.std.specs.Prelude.{◌<◌, ◌^◌, ℕ, length, IfOk, IfErr, OnOk};
ghost use Rattle.json_bounded.specs.Steps.Reading.{IsRefused};
ghost use Rattle.json_histories.specs.Reads.{number_form, IsReadWithin};
ghost use Rattle.json_tokens.specs.Tokens.{IsValue};

use json::Reader;
use json_bounded::TextError;
use json_tokens::next_whole_number;
use model_history::MAX_SESSIONS;
use std::alloc::Global;

/// A number in the lists of a certificate: a count of a vector, or a session number.
pub(crate) trait Number: Copy {
    /// The whole number that it is.
    ghost whole: { Self → ℕ };

    /// It is in range.
    ghost fits: { Self → Type 0 };

    /// The number, where it is in range.
    fn of(number: u64) -> Option<Self>
        ensures { IsReadWithin fits (λ n. number_form (Self.whole n)) (number_form number) result };
}

/// A count.
impl Number for u16 {
    ghost whole = { λ n. n };

    ghost fits = { λ n. n < 2 ^ 16 };

    fn of(number: u64) -> Option<u16> {
        u16::try_from(number).ok()
    }
}

/// A session number.
impl Number for u8 {
    ghost use Rattle.model_history.specs.declared.limits.TheConstants.{MAX_SESSIONS};

    ghost whole = { λ n. n };

    ghost fits = { λ n. n < MAX_SESSIONS };

    fn of(number: u64) -> Option<u8> {
        let session = u8::try_from(number).ok()?;
        if usize::from(session) < MAX_SESSIONS {
            Some(session)
        } else {
            None
        }
    }
}

/// The number that comes next, or none where the next value is the form of none in range. It passes the value.
#[inline]
pub(crate) fn next_number<T: Number>(
    alloc: Global,
    reader: &mut Reader<'_>,
    depth: usize,
) -> Result<Option<T>, TextError>
    ensures read { IfOk result
        (λ number. IsValue (λ d. IsReadWithin T.fits (λ n. number_form (T.whole n)) d number) depth reader.old reader.new) }
    ensures shorter { OnOk result (length reader.new < length reader.old) }
    ensures refused { IfErr result (IsRefused depth reader.old) }
{
    match next_whole_number(alloc, reader, depth)? {
        Some(number) => Ok(T::of(number)),
        None => Ok(None),
    }
}
