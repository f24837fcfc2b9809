//! A table of initial values by key, for the start of a keyed object.

ghost use Rattle.std.specs.Prelude.{◌≡◌, ◌↔◌, ◌++◌, ◌∷◌, [], ℕ, List, length, IsTrue, IfOk, OnOk, OnErr};
ghost use Rattle.std.specs.Option.{option_copied};
ghost use Rattle.model_objects.specs.Table.{IsRising, value_at};

use std::alloc::{AllocError, Global};
use std::marker::Model;

/// The most entries that the start of a keyed object may have.
pub const MAX_ENTRIES: usize = 4096;

/// Initial values by key: a list of entries.
#[derive(Debug, Drop)]
pub struct Table<S> {
    entries: Vec<(u32, S)>,
}

impl<S> Model for Table<S> {
    ghost Value = { List (ℕ × S) };

    ghost view = { λ table. table.entries.items };
}

impl<S> Table<S> {
    /// A table with no entries.
    pub fn new(alloc: Global) -> Table<S>
        ensures { result ≡ [] }
    {
        Table {
            entries: Vec::new(alloc),
        }
    }

    /// The entries in the order in which they were pushed.
    pub fn entries(&self) -> &[(u32, S)]
        ensures { result.now ≡ self.now }
    {
        self.entries.as_slice()
    }

    /// How many entries the table has.
    pub fn len(&self) -> usize
        ensures { result ≡ length self.now }
    {
        self.entries.len()
    }

    /// Whether the table has no entry.
    pub fn is_empty(&self) -> bool
        ensures { IsTrue result ↔ (self.now ≡ []) }
    {
        self.entries.is_empty()
    }

    /// The value at a key, where the keys rise. O(log n) for n entries.
    pub fn get(&self, key: u32) -> Option<&S>
        requires { IsRising self.now }
        ensures { option_copied result ≡ value_at self.now key }
    {
        match self.entries.binary_search_by_key(&key, |entry| entry.0) {
            Ok(place) => Some(&self.entries[place].1),
            Err(_) => None,
        }
    }
}

impl<S: Drop> Table<S> {
    /// A table with one entry.
    pub(crate) fn of_entry(alloc: Global, key: u32, start: S) -> Result<Table<S>, AllocError>
        ensures { IfOk result (λ table. table ≡ (key, start) ∷ []) }
    {
        let mut table = Table::new(alloc);
        table.push(key, start)?;
        Ok(table)
    }

    /// Appends an entry.
    ///
    /// Fails for want of memory alone, and the table is then as it was. O(1), on average.
    pub fn push(&mut self, key: u32, start: S) -> Result<(), AllocError>
        ensures ok { OnOk result (self.new ≡ self.old ++ (key, start) ∷ []) }
        ensures err { OnErr result (self.new ≡ self.old) }
    {
        self.entries.push((key, start))?;
        Ok(())
    }
}
