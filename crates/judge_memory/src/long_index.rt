//! The type of an index.

ghost use Rattle.std.specs.Prelude.{◌≡◌, ◌<◌, ◌≤◌, ◌+◌, length, slice_index_or, ℕ, IfOk, IfSome, MatchOption};
ghost use Rattle.model_history.specs.declared.op_id.OpId.{OpId as Operation};
ghost use Rattle.model_history.specs.History.{IsOp, many_before, number};
ghost use Rattle.order_memory.specs.Memory.{IsDifferentiated};
ghost use Rattle.order_memory.specs.Relations.{ReadsFrom};
ghost use Rattle.judge_memory.specs.LongHistories.{IsLongHistory};
ghost use Rattle.judge_memory.specs.Steps.{IsNext, many};
ghost use Rattle.judge_memory.specs.Lists.{ListsEach, ListsStarts};
ghost use Rattle.judge_memory.specs.Parts.{AreVariables, IsNumberOf, IsPart};
ghost use Rattle.judge_memory.specs.declared.part.Part.TheVariants.{SourcedRead};

use crate::part::Part;
use crate::reads::parts;
use crate::sessions::{sessions, starts};
use crate::variables::Variables;
use crate::writes::{are_distinct, sorted_writes};
use crate::{LongHistory, MAX_NUMBERS};
use std::alloc::{AllocError, Global};
use std::marker::Model;

/// A long history with distinct values, and what is known of its operations, by their numbers.
#[derive(Drop)]
pub struct LongIndex<'a> {
    history: &'a LongHistory,
    /// The number of the first operation of each session, and at last the number of all operations.
    starts: Vec<u32>,
    /// The session of each operation.
    sessions: Vec<u32>,
    /// The variable of each operation.
    variables: Vec<u32>,
    /// What is known of each operation.
    parts: Vec<Part>,
    /// Each variable's number is below this.
    bound: u32,
}

impl<'a> Model for LongIndex<'a> {
    ghost use Rattle.judge_memory.specs.Indexed.{Indexed, IsIndex};

    ghost Value = { Indexed };

    ghost view = { λ index. record { history = index.history.now; variables = index.variables.items; bound = index.bound } };

    ghost invariant = { λ index.
        IsIndex index.history.now index.starts.items index.sessions.items index.variables.items index.parts.items index.bound };
}

/// What is known of each operation of a history, or none where its values are not distinct.
///
/// Fails for want of memory alone. The sorted writes are freed when it returns.
fn parts_if_distinct(
    alloc: Global,
    h: &LongHistory,
    starts: &[u32],
) -> Result<Option<Vec<Part>>, AllocError>
    requires { ListsStarts h.now (length h.now.1) starts.now }
    ensures distinct { IfOk result (λ found. MatchOption found (¬ IsDifferentiated h.now) (λ _. IsDifferentiated h.now)) }
    ensures parts { IfOk result (λ found. IfSome found (λ parts. ListsEach h.now (IsPart h.now) (many h.now) parts.items)) }
{
    let writes = sorted_writes(alloc, h)?;
    if !are_distinct(h, &writes) {
        return Ok(None);
    }
    Ok(Some(parts(alloc, h, starts, &writes)?))
}

impl<'a> LongIndex<'a> {
    /// What is known of a history, or none where its values are not distinct.
    ///
    /// Fails for want of memory alone. O(n log n + k) for n operations in k sessions. It takes at most 48 bytes an operation, of which it
    /// keeps 16, and 4 a session.
    // A function of its own keeps its loops in registers.
    #[inline(never)]
    pub fn of(alloc: Global, h: &'a LongHistory) -> Result<Option<LongIndex<'a>>, AllocError>
        ensures { IfOk result (λ found. MatchOption found (¬ IsDifferentiated h.now) (λ index. index.history ≡ h.now)) }
    {
        let variables = Variables::of(alloc, h)?;
        let starts = starts(alloc, h)?;
        let Some(parts) = parts_if_distinct(alloc, h, &starts)? else {
            return Ok(None);
        };
        let sessions = sessions(alloc, h)?;
        Ok(Some(LongIndex {
            history: h,
            starts,
            sessions,
            variables: variables.by_number,
            parts,
            bound: variables.bound,
        }))
    }

    /// The history.
    pub fn history(&self) -> &'a LongHistory
        ensures { result.now ≡ self.now.history }
    {
        self.history
    }

    /// Its values are distinct, and its variables are numbered by key. The method does nothing: what it ensures are the laws.
    pub fn value_is_indexed(&self)
        ensures history { IsLongHistory self.now.history }
        ensures distinct { IsDifferentiated self.now.history }
        ensures variables { AreVariables self.now.history self.now.variables }
    {
        self.history.value_is_history();
    }

    /// How many sessions there are.
    pub fn sessions(&self) -> u32
        ensures count { result ≡ length self.now.history.1 }
        ensures few { result ≤ MAX_NUMBERS }
    {
        self.history.sessions() as u32
    }

    /// How many operations there are: each has a number below this.
    pub fn operations(&self) -> u32
        ensures count { result ≡ many self.now.history }
        ensures few { result ≤ MAX_NUMBERS }
    {
        self.history.operations() as u32
    }

    /// Each variable's number is below this.
    pub fn variables(&self) -> u32
        ensures bound { result ≡ self.now.bound }
        ensures few { result ≤ many self.now.history }
    {
        self.bound
    }

    /// The number of the session's first operation; if it has none, that of the next session's. O(1).
    pub fn start(&self, session: u32) -> u32
        requires { session < length self.now.history.1 }
        ensures number { result ≡ many_before self.now.history session }
        ensures within { result ≤ many self.now.history }
    {
        self.starts[session as usize]
    }

    /// The number after that of the last operation of a session. O(1).
    pub fn end(&self, session: u32) -> u32
        requires { session < length self.now.history.1 }
        ensures number { result ≡ many_before self.now.history (session + 1) }
        ensures within { result ≤ many self.now.history }
    {
        self.starts[session as usize + 1]
    }

    /// The session of an operation. O(1).
    pub fn session_of(&self, operation: u32) -> u32
        requires { operation < many self.now.history }
        ensures below { result < length self.now.history.1 }
        ensures session { (o : Operation) → IsOp self.now.history o → number self.now.history o ≡ operation → result ≡ o.session }
    {
        self.sessions[operation as usize]
    }

    /// The operation before it in its session, where it is not the first. O(1).
    pub fn before(&self, operation: u32) -> Option<u32>
        requires { operation < many self.now.history }
        ensures below { IfSome result (λ n. n < many self.now.history) }
        ensures before { (o : Operation) → IsOp self.now.history o → number self.now.history o ≡ operation
            → IsNumberOf self.now.history (IsNext self.now.history) o result }
    {
        if operation == self.start(self.session_of(operation)) {
            None
        } else {
            Some(operation - 1)
        }
    }

    /// What is known of an operation. O(1).
    pub fn part(&self, operation: u32) -> Part
        requires { operation < many self.now.history }
        ensures below { (n : ℕ) → result ≡ SourcedRead n → n < many self.now.history }
        ensures part { (o : Operation) → IsOp self.now.history o → number self.now.history o ≡ operation
            → IsPart self.now.history o result }
    {
        self.parts[operation as usize]
    }

    /// The write that an operation read from, where it is a known read of a written value. O(1).
    pub fn source(&self, operation: u32) -> Option<u32>
        requires { operation < many self.now.history }
        ensures below { IfSome result (λ n. n < many self.now.history) }
        ensures source { (o : Operation) → IsOp self.now.history o → number self.now.history o ≡ operation
            → IsNumberOf self.now.history (ReadsFrom self.now.history) o result }
    {
        match self.part(operation) {
            Part::SourcedRead(source) => Some(source),
            Part::Write | Part::InitialRead | Part::ThinAirRead | Part::UnknownRead => None,
        }
    }

    /// The number of an operation's variable. Its meaning holds for writes and known reads alone. O(1).
    pub fn variable(&self, operation: u32) -> u32
        requires { operation < many self.now.history }
        ensures below { result < self.now.bound }
        ensures variable { result ≡ slice_index_or self.now.variables operation 0 }
    {
        self.variables[operation as usize]
    }
}
