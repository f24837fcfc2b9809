//! One list for each operation of some sessions, and the vectors, which are lists of counts.

ghost use Rattle.std.specs.Prelude.{◌≡◌, ◌∷◌, ◌++◌, ◌<◌, ◌↔◌, ℕ, List, [], length, slice_set, IfOk, IsTrue, OnOk, OnErr, slice_index_or};
ghost use Rattle.order_causal.specs.Vectors.{IsListed, list_of, with_item};

use crate::rows::Rows;
use model_history::OpId;
use std::alloc::{AllocError, Global};
use std::marker::Model;

/// One list for each operation of some sessions.
#[derive(Debug, Drop)]
pub struct ByOperation<T> {
    sessions: Vec<Rows<T>>,
    alloc: Global,
}

/// For each operation a count of each session: how many operations of the session are in the past of the operation, itself
/// included, unless a comment says otherwise.
pub type Vectors = ByOperation<u16>;

impl<T> Model for ByOperation<T> {
    ghost Value = { List (List (List T)) };

    ghost view = { λ lists. lists.sessions.items };
}

impl<T> ByOperation<T> {
    /// No sessions.
    pub fn new(alloc: Global) -> ByOperation<T>
        ensures { result ≡ [] }
    {
        ByOperation {
            sessions: Vec::new(alloc),
            alloc,
        }
    }

    /// How many sessions there are.
    pub fn sessions(&self) -> usize
        ensures { result ≡ length self.now }
    {
        self.sessions.len()
    }

    /// How many operations a session has.
    pub fn operations(&self, session: usize) -> usize
        requires { session < length self.now }
        ensures { result ≡ length (slice_index_or self.now session []) }
    {
        self.sessions[session].len()
    }

    /// Whether the operation has a list.
    pub fn contains(&self, op: OpId) -> bool
        ensures { IsTrue result ↔ IsListed self.now op }
    {
        let session = op.session_place();
        session < self.sessions() && op.place() < self.operations(session)
    }

    /// The list of an operation.
    pub fn get(&self, op: OpId) -> &[T]
        requires session { op.session < length self.now }
        requires index { op.index < length (slice_index_or self.now op.session []) }
        ensures { result.now ≡ list_of self.now op }
    {
        self.sessions[op.session_place()].get(op.place())
    }
}

impl<T: Copy> ByOperation<T> {
    /// Adds a session with no operations after the others.
    ///
    /// Fails for want of memory alone, and the sessions are then as they were. O(1), on average.
    pub fn push_session(&mut self) -> Result<(), AllocError>
        ensures ok { OnOk result (self.new ≡ self.old ++ [] ∷ []) }
        ensures err { OnErr result (self.new ≡ self.old) }
    {
        self.push_rows(Rows::new(self.alloc))
    }

    /// Adds a session after the others. Its operations have these lists.
    ///
    /// Fails for want of memory alone, and the sessions are then as they were. O(1), on average.
    pub fn push_rows(&mut self, rows: Rows<T>) -> Result<(), AllocError>
        ensures ok { OnOk result (self.new ≡ self.old ++ rows ∷ []) }
        ensures err { OnErr result (self.new ≡ self.old) }
    {
        self.sessions.push(rows)?;
        Ok(())
    }

    /// Adds the list of one more operation after those of its session.
    ///
    /// Fails for want of memory alone, and the lists are then as they were. O(m) for m items, on average.
    pub fn push(&mut self, session: usize, list: &[T]) -> Result<(), AllocError>
        requires { session < length self.old }
        ensures ok { OnOk result (self.new ≡ slice_set self.old session (slice_index_or self.old session [] ++ list.now ∷ [])) }
        ensures err { OnErr result (self.new ≡ self.old) }
    {
        self.sessions[session].push(list)
    }

    /// Puts an item at a place of the list of an operation. O(1).
    pub fn set(&mut self, op: OpId, place: usize, item: T)
        requires listed { IsListed self.old op }
        requires inside { place < length (list_of self.old op) }
        ensures { self.new ≡ with_item self.old op place item }
    {
        self.sessions[op.session_place()].set(op.place(), place, item);
    }

    /// A copy of all lists.
    ///
    /// Fails for want of memory alone. O(m) for m items and operations.
    pub fn copy(&self, alloc: Global) -> Result<ByOperation<T>, AllocError>
        ensures { IfOk result (λ copy. copy ≡ self.now) }
    {
        let mut sessions = Vec::new(alloc);
        for rows in &self.sessions {
            sessions.push(rows.copy(alloc)?)?;
        }
        Ok(ByOperation { sessions, alloc })
    }
}
