//! Notes of cells that are found full.

ghost use Rattle.std.specs.Prelude.{◌≡◌};

use live_recorder::told;
use once_cell::race::Note;
use std::marker::Model;

/// A note of a cell that was found full.
#[derive(Drop)]
pub(crate) struct Found<T> {
    note: Note<T>,
}

impl<T> Model for Found<T> {
    ghost use Rattle.std.specs.Prelude.{ℕ, Option};

    ghost Value = { ℕ × Option T };

    ghost view = { λ f. (f.note.cell, f.note.known) };
}

impl<T> Found<T> {
    pub(crate) fn of(note: Note<T>) -> Found<T>
        ensures { result ≡ (note.cell, note.known) }
    {
        Found { note }
    }

    /// A second note. `blank` is a note of any cell.
    pub(crate) fn again(&self, blank: Note<T>) -> Note<T>
        ensures { (result.cell, result.known) ≡ self.now }
    {
        told(blank, &self.note)
    }
}
