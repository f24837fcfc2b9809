//! Numbers in the lists of a certificate, and how they are read: counts of vectors, and session numbers.

ghost use Rattle.std.specs.Prelude.{ℕ, ◌<◌, ◌^◌};
ghost use Rattle.serde_json.specs.View.{view};
ghost use Rattle.json_histories.specs.Reads.{number_form, IsReadWithin};

use model_history::MAX_SESSIONS;
use serde_json::Value;

/// A number in the lists of a certificate: a count of a vector, or a session number.
pub(crate) trait Number: Copy {
    /// The whole number that it is.
    ghost whole: { Self → ℕ };

    /// It is in range.
    ghost fits: { Self → Type 0 };

    fn of(number: u64) -> Option<Self>
        ensures { IsReadWithin fits (λ n. number_form (Self.whole n)) (number_form number) result };
}

/// A count.
impl Number for u16 {
    ghost whole = { λ n. n };

    ghost fits = { λ n. n < 2 ^ 16 };

    fn of(number: u64) -> Option<u16> {
        u16::try_from(number).ok()
    }
}

/// A session number.
impl Number for u8 {
    ghost use Rattle.model_history.specs.declared.limits.TheConstants.{MAX_SESSIONS};

    ghost whole = { λ n. n };

    ghost fits = { λ n. n < MAX_SESSIONS };

    fn of(number: u64) -> Option<u8> {
        let session = u8::try_from(number).ok()?;
        if usize::from(session) < MAX_SESSIONS {
            Some(session)
        } else {
            None
        }
    }
}

/// The number whose form a value is.
pub(crate) fn read_number<T: Number>(value: &Value) -> Option<T>
    ensures { IsReadWithin T.fits (λ n. number_form (T.whole n)) (view value.now) result }
{
    match value.as_u64() {
        Some(number) => T::of(number),
        None => None,
    }
}
