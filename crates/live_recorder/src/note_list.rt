//! The notes of the cells of one lane, in order.

ghost use Rattle.std.specs.Prelude.{◌≡◌, ◌∷◌, ◌++◌, ◌<◌, ◌≤◌, ℕ, List, [], Option, length, map, slice_get};
ghost use Rattle.std.specs.Prelude.{IfOk, Some, vec_len, vec_capacity};

use crate::note_copy::told;
use model_history::MAX_OPERATIONS;
use once_cell::race::Note;
use std::alloc::{AllocError, Global};
use std::marker::Model;

/// Notes of the cells of one lane, in order. They take no bytes.
#[derive(Drop)]
pub struct NoteList<T> {
    notes: Vec<Note<T>>,
}

impl<T> Model for NoteList<T> {
    ghost use Rattle.std.specs.Prelude.{◌-◌, List, ℕ, Option, map, vec_len, vec_capacity};
    ghost use Rattle.live_recorder.specs.Lanes.{Notes};

    ghost Value = { Notes T };

    ghost view = { λ l. record { list = map (λ n. (n.cell, n.known)) l.notes.items; room = vec_capacity l.notes - vec_len l.notes } };
}

impl<T> NoteList<T> {
    /// No notes, and no room for one.
    pub fn new(alloc: Global) -> NoteList<T>
        ensures { result.list ≡ [] }
    {
        NoteList {
            notes: Vec::new(alloc),
        }
    }

    /// How many notes there are.
    pub fn len(&self) -> usize
        ensures { result ≡ length self.now.list }
    {
        self.notes.len()
    }

    /// Makes room for one more note.
    pub fn reserve(&mut self) -> Result<(), AllocError>
        ensures list { self.new.list ≡ self.old.list }
        ensures room { IfOk result (λ _. 0 < self.new.room) }
    {
        self.notes.reserve(1)
    }

    /// Adds a note after the others.
    pub fn push(&mut self, note: Note<T>)
        requires { 0 < self.old.room }
        ensures { self.new.list ≡ self.old.list ++ (note.cell, note.known) ∷ [] }
    {
        self.notes.push_reserved(note);
    }

    /// A second note of what the note at this place knows. `blank` is a note of any cell.
    pub fn told(&self, at: usize, blank: Note<T>) -> Note<T>
        requires { at < length self.now.list }
        ensures { slice_get self.now.list at ≡ Some (result.cell, result.known) }
    {
        told(blank, &self.notes[at])
    }

    /// A list that knows the same, with room for one more note.
    pub(crate) fn again(&mut self, alloc: Global) -> Result<NoteList<T>, AllocError>
        requires { length self.old.list ≤ MAX_OPERATIONS }
        ensures list { self.new.list ≡ self.old.list }
        ensures room { self.new.room ≡ self.old.room }
        ensures copy { IfOk result (λ l. l.list ≡ self.old.list) }
        ensures copy_room { IfOk result (λ l. 0 < l.room) }
    {
        let notes = copies(alloc, &mut self.notes)?;
        Ok(NoteList { notes })
    }
}

fn copies<T>(alloc: Global, notes: &mut Vec<Note<T>>) -> Result<Vec<Note<T>>, AllocError>
    requires { length notes.old.items ≤ MAX_OPERATIONS }
    ensures items { notes.new.items ≡ notes.old.items }
    ensures capacity { vec_capacity notes.new ≡ vec_capacity notes.old }
    ensures copied { IfOk result (λ v. v.items ≡ notes.old.items) }
    ensures room { IfOk result (λ v. vec_len v < vec_capacity v) }
{
    let many = notes.len();
    let mut copied = Vec::with_capacity(alloc, many + 1)?;
    for i in 0..many {
        let note = &mut notes[i];
        copied.push_reserved(note.again());
    }
    Ok(copied)
}
