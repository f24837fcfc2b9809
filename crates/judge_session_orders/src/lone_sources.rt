//! Sessions that have an order for certain: each of their known reads read from the only write of its variable.

ghost use Rattle.std.specs.Prelude.{◌≡◌, ◌+◌, ◌<◌, ◌≤◌, ℕ, length, IfOk, IsTrue};
ghost use Rattle.model_history.specs.declared.op_id.OpId.{OpId as Operation};
ghost use Rattle.model_history.specs.History.{IsOp, number};
ghost use Rattle.judge_memory.specs.Steps.{many};
ghost use Rattle.judge_session_orders.specs.LoneSources.{CountsWrites, HasLoneSources, IsLone};

use crate::numbers::add_one;
use judge_memory::{LongIndex, MAX_NUMBERS, Part};
use std::alloc::{AllocError, Global};

/// How many writes of each variable there are. Fails for want of memory alone. O(n) for n operations.
pub(crate) fn count_writes(alloc: Global, index: &LongIndex) -> Result<Vec<u32>, AllocError>
    ensures size { IfOk result (λ counts. length counts.items ≡ index.now.bound) }
    ensures counts { IfOk result (λ counts. CountsWrites index.now.history index.now.variables (many index.now.history) counts.items) }
{
    let mut counts = vec![in alloc; 0; index.variables() as usize]?;
    for operation in 0..index.operations() {
        count_write(index, operation, &mut counts);
    }
    Ok(counts)
}

/// Counts an operation if it writes; those with lower numbers are counted already.
fn count_write(index: &LongIndex, operation: u32, counts: &mut Vec<u32>)
    requires operation { operation < many index.now.history }
    requires few { many index.now.history ≤ MAX_NUMBERS }
    requires size { length counts.old.items ≡ index.now.bound }
    requires counts { CountsWrites index.now.history index.now.variables operation counts.old.items }
    ensures size { length counts.new.items ≡ index.now.bound }
    ensures counts { CountsWrites index.now.history index.now.variables (operation + 1) counts.new.items }
{
    if let Part::Write = index.part(operation) {
        add_one(counts, index.variable(operation));
    }
}

/// Whether a session may have no order: one of its reads returned an initial value, or the value of one of several writes.
///
/// O(m) for m operations of the session.
pub(crate) fn may_lack_order(index: &LongIndex, counts: &[u32], session: u32) -> bool
    requires session { session < length index.now.history.1 }
    requires size { length counts.now ≡ index.now.bound }
    requires counts { CountsWrites index.now.history index.now.variables (many index.now.history) counts.now }
    ensures { ¬ IsTrue result → HasLoneSources index.now.history session }
{
    for operation in index.start(session)..index.end(session) {
        if asks(index, counts, operation) {
            return true;
        }
    }
    false
}

/// Whether an operation is such a read.
fn asks(index: &LongIndex, counts: &[u32], operation: u32) -> bool
    requires operation { operation < many index.now.history }
    requires size { length counts.now ≡ index.now.bound }
    requires counts { CountsWrites index.now.history index.now.variables (many index.now.history) counts.now }
    ensures { ¬ IsTrue result → (o : Operation) → IsOp index.now.history o → number index.now.history o ≡ operation
        → IsLone index.now.history o }
{
    index.value_is_indexed();
    match index.part(operation) {
        Part::InitialRead => true,
        Part::SourcedRead(_) => counts[index.variable(operation) as usize] > 1,
        Part::Write | Part::ThinAirRead | Part::UnknownRead => false,
    }
}
