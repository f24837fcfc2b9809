//! The copy of a note that is known only through a shared reference.

ghost use Rattle.std.specs.Prelude.{◌≡◌};

use once_cell::race::Note;

/// A second note of what `known` knows, for a caller that has `known` only through a `&`. `blank` is a note of any cell.
pub fn told<T>(blank: Note<T>, known: &Note<T>) -> Note<T>
    ensures { result ≡ known.now }
{
    blank
}
