//! A history: the calls of each session on one object, in order, with the returns that are known.

ghost use Rattle.std.specs.Prelude.{◌≡◌, ◌<◌, ◌≤◌, ◌↔◌, ℕ, length, option_map, IfOk, IsTrue, Some, map, slice_index_or};
ghost use Rattle.model_history.specs.History.{IsHistory, IsSession, IsOp, entry, session};

use crate::limits::{MAX_OPERATIONS, MAX_SESSIONS};
use crate::op_id::OpId;
use model_object_trait::SeqObject;
use std::alloc::{AllocError, Global};
use std::marker::Model;

/// What each session called on an object, in order, each call with its return, if that is known.
///
/// A history has at most [`MAX_SESSIONS`] sessions of at most [`MAX_OPERATIONS`] operations. In each session the known
/// returns come first, and each fits its call. The start is what the object held before.
#[derive(Drop)]
pub struct History<O: SeqObject> {
    start: O::Start,
    sessions: Vec<Vec<(O::Call, Option<O::Ret>)>>,
}

impl<O: SeqObject> Model for History<O> {
    ghost use Rattle.std.specs.Prelude.{List, Option, map};
    ghost use Rattle.model_history.specs.History.{IsHistory};

    ghost Value = { O.Start × List (List (O.Call × Option O.Ret)) };

    ghost view = { λ h. (h.start, map (λ s. s.items) h.sessions.items) };

    ghost invariant = { λ h. IsHistory O.is_start O.matches (h.start, map (λ s. s.items) h.sessions.items) };
}

/// Equal sessions.
fn copy_sessions<E: Copy>(alloc: Global, sessions: &[Vec<E>]) -> Result<Vec<Vec<E>>, AllocError>
    ensures { IfOk result (λ copies. map (λ s. s.items) copies.items ≡ map (λ s. s.items) sessions.now) }
{
    let mut copies = Vec::new(alloc);
    for operations in sessions {
        copies.push(Vec::from_slice(alloc, operations)?)?;
    }
    Ok(copies)
}

impl<O: SeqObject> History<O> {
    /// The history with this start and these sessions.
    pub fn of(start: O::Start, sessions: Vec<Vec<(O::Call, Option<O::Ret>)>>) -> History<O>
        requires { IsHistory O.is_start O.matches (start, map (λ s. s.items) sessions.items) }
        ensures { result ≡ (start, map (λ s. s.items) sessions.items) }
    {
        History { start, sessions }
    }

    /// What the object held before the first call.
    pub fn start(&self) -> &O::Start
        ensures start { result.now ≡ self.now.0 }
        ensures is_start { O.is_start result.now }
    {
        &self.start
    }

    /// The invariant of the type: the value is a history. The method does nothing: its contract is the law.
    pub fn value_is_history(&self)
        ensures { IsHistory O.is_start O.matches self.now }
    {
        let _sessions = &self.sessions;
    }

    /// How many sessions there are: at most 16.
    pub fn sessions(&self) -> usize
        ensures count { result ≡ length self.now.1 }
        ensures few { result ≤ MAX_SESSIONS }
    {
        self.sessions.len()
    }

    /// The operations of a session, in order: at most 256.
    pub fn session(&self, s: usize) -> &[(O::Call, Option<O::Ret>)]
        requires { s < length self.now.1 }
        ensures operations { result.now ≡ session self.now s }
        ensures is_session { IsSession O.matches result.now }
    {
        &self.sessions[s]
    }

    /// How many operations a session has: at most 256, and 0 where there is no such session.
    pub fn len(&self, s: usize) -> usize
        ensures count { result ≡ length (session self.now s) }
        ensures short { result ≤ MAX_OPERATIONS }
    {
        if s < self.sessions() {
            self.session(s).len()
        } else {
            0
        }
    }

    /// Whether the operation is one of this history.
    pub fn contains(&self, op: OpId) -> bool
        ensures { IsTrue result ↔ IsOp self.now op }
    {
        op.place() < self.len(op.session_place())
    }

    /// The call of an operation.
    pub fn call(&self, op: OpId) -> O::Call
        requires { IsOp self.now op }
        ensures { option_map (λ e. e.0) (entry self.now op) ≡ Some result }
    {
        self.session(op.session_place())[op.place()].0
    }

    /// The return of an operation, where it is known.
    pub fn ret(&self, op: OpId) -> Option<O::Ret>
        requires { IsOp self.now op }
        ensures { option_map (λ e. e.1) (entry self.now op) ≡ Some result }
    {
        self.session(op.session_place())[op.place()].1
    }

    /// An equal history.
    ///
    /// O(n) for n operations.
    pub fn copy(&self, alloc: Global) -> Result<History<O>, AllocError>
        ensures { IfOk result (λ h. h ≡ self.now) }
    {
        let start = O::copy_start(alloc, &self.start)?;
        let sessions = copy_sessions(alloc, &self.sessions)?;
        Ok(History { start, sessions })
    }
}
