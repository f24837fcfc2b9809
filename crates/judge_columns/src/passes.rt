//! The column of a session, by one pass along an order and one back.

ghost use Rattle.std.specs.Prelude.{◌≡◌, ◌≢◌, ◌+◌, ◌<◌, ℕ, [], length, slice_index_or, slice_set, IfSome, IsTrue};
ghost use Rattle.model_history.specs.declared.op_id.OpId.{OpId as Operation};
ghost use Rattle.model_history.specs.History.{IsOp, number};
ghost use Rattle.judge_memory.specs.Steps.{IsOrderBy, many};
ghost use Rattle.judge_columns.specs.Columns.{AreFirsts, ArePastEnds, AreWithinSession, IsLowered, IsNextEnd};
ghost use Rattle.judge_columns.specs.Visits.{IsGreater, IsLoweredTo, IsRaisedTo};

use judge_memory::LongIndex;

/// Finds where the past of each operation ends in a session: the number after that of the session's last operation in the past, or the
/// session's first number where there is none.
///
/// The order is one that [`judge_memory::order_causal`] gives. O(n) for n operations.
pub fn find_past_ends(index: &LongIndex, order: &[u32], session: u32, ends: &mut Vec<u32>)
    requires session { session < length index.now.history.1 }
    requires order { IsOrderBy index.now.history [] order.now }
    requires size { length ends.old.items ≡ many index.now.history }
    ensures size { length ends.new.items ≡ many index.now.history }
    ensures ends { ArePastEnds index.now.history session (λ n. slice_index_or ends.new.items n 0) }
    ensures within { AreWithinSession index.now.history session (λ n. slice_index_or ends.new.items n 0) }
{
    for &operation in order {
        let end = end_for(index, ends, session, operation);
        put(ends, operation, end);
    }
}

/// The end for an operation, by those for the operation before it and for its source.
fn end_for(index: &LongIndex, ends: &[u32], session: u32, operation: u32) -> u32
    requires session { session < length index.now.history.1 }
    requires operation { operation < many index.now.history }
    requires size { length ends.now ≡ many index.now.history }
    ensures { (o : Operation) → IsOp index.now.history o → number index.now.history o ≡ operation
        → IsNextEnd index.now.history session (λ n. slice_index_or ends.now n 0) o result }
{
    index.value_is_indexed();
    if index.session_of(operation) == session {
        return number_after(index, operation);
    }
    let before = raised(ends, index.start(session), index.before(operation));
    raised(ends, before, index.source(operation))
}

/// A number, raised to the end for an operation, if there is one.
fn raised(ends: &[u32], end: u32, operation: Option<u32>) -> u32
    requires { IfSome operation (λ n. n < length ends.now) }
    ensures { IsRaisedTo (λ n. slice_index_or ends.now n 0) end operation result }
{
    match operation {
        Some(operation) => greater(end, ends[operation as usize]),
        None => end,
    }
}

/// The greater of two numbers.
pub(crate) fn greater(a: u32, b: u32) -> u32
    ensures { IsGreater a b result }
{
    if a < b { b } else { a }
}

/// The number after that of an operation.
pub(crate) fn number_after(index: &LongIndex, operation: u32) -> u32
    requires { operation < many index.now.history }
    ensures { result ≡ operation + 1 }
{
    let is_one = operation < index.operations();
    prove!(is_one);
    operation + 1
}

/// Puts a number in the place of an operation or a variable.
pub(crate) fn put(numbers: &mut Vec<u32>, place: u32, number: u32)
    requires { place < length numbers.old.items }
    ensures { numbers.new.items ≡ slice_set numbers.old.items place number }
{
    numbers[place as usize] = number;
}

/// Finds for each operation the first one of a session that has it in its past: the number after that of the session's last operation
/// where none has.
///
/// The order is one that [`judge_memory::order_causal`] gives. O(n) for n operations.
pub fn find_firsts(index: &LongIndex, order: &[u32], session: u32, firsts: &mut Vec<u32>)
    requires session { session < length index.now.history.1 }
    requires order { IsOrderBy index.now.history [] order.now }
    requires size { length firsts.old.items ≡ many index.now.history }
    ensures size { length firsts.new.items ≡ many index.now.history }
    ensures firsts { AreFirsts index.now.history session (λ n. slice_index_or firsts.new.items n 0) }
{
    fill(firsts, index.end(session));
    for i in (0..order.len()).rev() {
        lower_steps(index, session, order[i], firsts);
    }
}

/// Puts a number in each place. O(n) for n places.
pub fn fill(numbers: &mut Vec<u32>, number: u32)
    ensures size { length numbers.new.items ≡ length numbers.old.items }
    ensures each { (n : ℕ) → n < length numbers.old.items → slice_index_or numbers.new.items n 0 ≡ number }
{
    for i in 0..numbers.len() {
        numbers[i] = number;
    }
}

/// Gives an operation its own number, if it is of the session, and the operations that step to it at most what it has.
fn lower_steps(index: &LongIndex, session: u32, operation: u32, firsts: &mut Vec<u32>)
    requires operation { operation < many index.now.history }
    requires size { length firsts.old.items ≡ many index.now.history }
    ensures size { length firsts.new.items ≡ many index.now.history }
    ensures lowered { (o : Operation) → IsOp index.now.history o → number index.now.history o ≡ operation
        → IsLowered index.now.history session (λ n. slice_index_or firsts.old.items n 0) o (λ n. slice_index_or firsts.new.items n 0) }
{
    index.value_is_indexed();
    put_own(firsts, operation, index.session_of(operation) == session);
    let first = firsts[operation as usize];
    lower(firsts, index.before(operation), first);
    lower(firsts, index.source(operation), first);
}

fn put_own(firsts: &mut Vec<u32>, operation: u32, is_own: bool)
    requires { operation < length firsts.old.items }
    ensures size { length firsts.new.items ≡ length firsts.old.items }
    ensures own { IsTrue is_own → slice_index_or firsts.new.items operation 0 ≡ operation }
    ensures other { ¬ IsTrue is_own → slice_index_or firsts.new.items operation 0 ≡ slice_index_or firsts.old.items operation 0 }
    ensures others { (n : ℕ) → n ≢ operation → slice_index_or firsts.new.items n 0 ≡ slice_index_or firsts.old.items n 0 }
{
    if is_own {
        firsts[operation as usize] = operation;
    }
}

fn lower(firsts: &mut Vec<u32>, operation: Option<u32>, first: u32)
    requires { IfSome operation (λ n. n < length firsts.old.items) }
    ensures size { length firsts.new.items ≡ length firsts.old.items }
    ensures lowered { IsLoweredTo (λ n. slice_index_or firsts.old.items n 0) operation first (λ n. slice_index_or firsts.new.items n 0) }
{
    if let Some(operation) = operation {
        if first < firsts[operation as usize] {
            firsts[operation as usize] = first;
        }
    }
}
