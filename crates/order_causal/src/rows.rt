//! Lists in one vector, one after the other.

ghost use Rattle.std.specs.Prelude.{◌≡◌, ◌∷◌, ◌++◌, ◌<◌, ◌≤◌, List, [], length, IfOk, OnOk, OnErr, slice_index, slice_index_or, slice_set};
ghost use Rattle.order_causal.specs.Steps.FlatRows.{cut, start_of, RisesTo};

use std::alloc::{AllocError, Global};
use std::marker::Model;

/// Lists, one after the other: all their items in one vector, and where each list ends.
#[derive(Debug, Drop)]
pub struct Rows<T> {
    items: Vec<T>,
    ends: Vec<usize>,
}

impl<T> Model for Rows<T> {
    ghost Value = { List (List T) };

    ghost view = { λ rows. cut rows.items.items 0 rows.ends.items };

    ghost invariant = { λ rows. RisesTo 0 rows.ends.items (length rows.items.items) };
}

impl<T> Rows<T> {
    /// No lists.
    pub fn new(alloc: Global) -> Rows<T>
        ensures { result ≡ [] }
    {
        Rows {
            items: Vec::new(alloc),
            ends: Vec::new(alloc),
        }
    }

    /// The lists that these items make, one after the other, where each ends at the place that is given for it. O(1).
    pub fn of(items: Vec<T>, ends: Vec<usize>) -> Rows<T>
        requires rises { RisesTo 0 ends.items (length items.items) }
        ensures { result ≡ cut items.items 0 ends.items }
    {
        Rows { items, ends }
    }

    /// How many lists there are.
    pub fn len(&self) -> usize
        ensures { result ≡ length self.now }
    {
        self.ends.len()
    }

    /// The list numbered `i`. O(1).
    pub fn get(&self, i: usize) -> &[T]
        requires { i < length self.now }
        ensures { result.now ≡ slice_index_or self.now i [] }
    {
        part(&self.items, &self.ends, i)
    }
}

/// The part of the items that ends at the i-th of these places.
fn part<'a, T>(items: &'a [T], ends: &[usize], i: usize) -> &'a [T]
    requires exists { i < length ends.now }
    requires rises { RisesTo 0 ends.now (length items.now) }
    ensures { result.now ≡ slice_index_or (cut items.now 0 ends.now) i [] }
{
    let range = range_of(items.len(), ends, i);
    &items[range.0..range.1]
}

/// Where the i-th part of so many items begins and ends.
fn range_of(len: usize, ends: &[usize], i: usize) -> (usize, usize)
    requires exists { i < length ends.now }
    requires rises { RisesTo 0 ends.now len }
    ensures start { result.0 ≡ start_of 0 ends.now i }
    ensures end { result.1 ≡ slice_index ends.now i }
    ensures ordered { result.0 ≤ result.1 }
    ensures inside { result.1 ≤ len }
{
    let start = if i == 0 { 0 } else { ends[i - 1] };
    (start, ends[i])
}

impl<T: Copy> Rows<T> {
    /// Adds a copy of a list after the others.
    ///
    /// Fails for want of memory alone, and the lists are then as they were. O(m) for m items, on average.
    pub fn push(&mut self, row: &[T]) -> Result<(), AllocError>
        ensures ok { OnOk result (self.new ≡ self.old ++ row.now ∷ []) }
        ensures err { OnErr result (self.new ≡ self.old) }
    {
        self.ends.reserve(1)?;
        self.items.extend_from_slice(row)?;
        self.ends.push(self.items.len())?;
        Ok(())
    }

    /// Puts an item at the place `j` of the list numbered `i`. O(1).
    pub fn set(&mut self, i: usize, j: usize, item: T)
        requires exists { i < length self.old }
        requires inside { j < length (slice_index_or self.old i []) }
        ensures { self.new ≡ slice_set self.old i (slice_set (slice_index_or self.old i []) j item) }
    {
        let range = range_of(self.items.len(), &self.ends, i);
        self.items[range.0 + j] = item;
    }

    /// A copy of all lists.
    ///
    /// Fails for want of memory alone. O(m) for m items and lists.
    pub fn copy(&self, alloc: Global) -> Result<Rows<T>, AllocError>
        ensures { IfOk result (λ copy. copy ≡ self.now) }
    {
        let items = Vec::from_slice(alloc, &self.items)?;
        let ends = Vec::from_slice(alloc, &self.ends)?;
        Ok(Rows { items, ends })
    }
}
