//! Marks, by which a board knows case files without keeping them.

ghost use Rattle.std.specs.Prelude.{◌≡◌, ℕ};

/// Says which case file a case has: a place of the file, in a list or on a shelf.
///
/// A board compares the places of marks and nothing else. The caller makes sure that marks of one place name one
/// file, and that no two filed cases have one place.
pub trait Mark: Drop {
    /// The place that a mark names.
    ghost place: { Self → ℕ };

    /// Its place.
    fn place(&self) -> usize
        ensures { result ≡ place self.now };
}
