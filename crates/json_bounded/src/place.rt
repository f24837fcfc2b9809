//! The trait of a place in a form: how many elements of a list are kept there, and where each one is.

ghost use Rattle.std.specs.Prelude.{◌≡◌, ℕ, Option};

/// A place in a form: how many elements of a list are kept there, and the place of each.
///
/// A form is read as itself if its lists have fewer elements than `limit` at their places. So a limit is one more than
/// the most that a form can have, and a reader of the value notices a list that is too long. There is no limit where a form's
/// lists may have any length, and the limit is 0 where no form has a list.
pub trait Place: Copy + Drop {
    /// How many elements of a list are kept here: this many, or all of them if there is no limit.
    ghost limit: { Self → Option ℕ };

    /// The place of the element with this index, in a list at this place.
    ghost inside: { Self → ℕ → Self };

    /// How many elements of a list are kept here: this many, or all of them if there is no limit.
    fn limit(self) -> Option<usize>
        ensures { result ≡ limit self };

    /// The place of the element with this index, in a list at this place.
    fn inside(self, index: usize) -> Self
        ensures { result ≡ inside self index };
}
