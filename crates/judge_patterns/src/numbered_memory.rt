//! An indexed history, which answers what a test of a pattern asks.

ghost use Rattle.std.specs.Prelude.{◌≡◌, ◌<◌, IfSome, MatchOption};
ghost use Rattle.model_history.specs.declared.op_id.OpId.{OpId as Operation};
ghost use Rattle.model_history.specs.History.{IsOp, number};
ghost use Rattle.judge_memory.specs.Steps.{many};

use judge_memory::LongIndex;
use model_history::OpId;
use model_objects::{KeyedCall, RegisterCall, RegisterRet};
use pattern_check::KnownMemory;

/// A long history, whose operations have numbers in an index.
#[derive(Clone, Copy)]
pub(crate) struct NumberedMemory<'a, 'h> {
    pub(crate) index: &'a LongIndex<'h>,
}

impl<'a, 'h> KnownMemory for NumberedMemory<'a, 'h> {
    ghost history = { λ memory. memory.index.now.history };

    /// O(1).
    fn entry(&self, op: OpId) -> Option<(KeyedCall<RegisterCall>, Option<RegisterRet>)> {
        let h = self.index.history();
        if op.session_place() >= h.sessions() {
            return None;
        }
        h.session(op.session_place()).get(op.place()).copied()
    }

    /// O(log n) for a table of n initial values.
    fn initial_value(&self, key: u32) -> u64 {
        let h = self.index.history();
        h.value_is_history();
        h.start().get(key).copied().unwrap_or(0)
    }

    /// O(1).
    fn source(&self, read: OpId) -> Option<OpId> {
        self.index.value_is_indexed();
        let Some(operation) = number_of(self.index, read) else {
            return None;
        };
        let Some(source) = self.index.source(operation) else {
            return None;
        };
        Some(operation_of(self.index, source))
    }
}

/// The number of an operation, where it is one of the history. O(1).
#[tactic(auto, using(crate::proofs::Places::more_before, crate::proofs::Places::session_below))]
fn number_of(index: &LongIndex, op: OpId) -> Option<u32>
    ensures number { MatchOption result (¬ IsOp index.now.history op)
        (λ n. IsOp index.now.history op × (number index.now.history op ≡ n)) }
    ensures below { IfSome result (λ n. n < many index.now.history) }
{
    if op.session >= u64::from(index.sessions()) {
        return None;
    }
    let session = op.session as u32;
    let start = index.start(session);
    let length = index.end(session) - start;
    if op.index >= u64::from(length) {
        return None;
    }
    Some(start + op.index as u32)
}

/// The operation of a number. O(1).
fn operation_of(index: &LongIndex, operation: u32) -> OpId
    requires { operation < many index.now.history }
    ensures { (o : Operation) → IsOp index.now.history o → number index.now.history o ≡ operation → result ≡ o }
{
    let session = index.session_of(operation);
    let place = operation - index.start(session);
    OpId {
        session: u64::from(session),
        index: u64::from(place),
    }
}
