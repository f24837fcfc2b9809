//! The last writes of a variable.

ghost use Rattle.std.specs.Prelude.{◌≡◌, ◌<◌, ◌↔◌, ℕ, IfSome, IsPermutation};
ghost use Rattle.order_memory.specs.Steps.Indexed.{end_of};
ghost use Rattle.order_memory.specs.Steps.Written.{AreByVariable, IsBelowWrite};

use crate::writes::Write;
use model_history::OpId;

/// Sorts writes by variable and operation.
pub(crate) fn sort_by_variable(writes: &mut Vec<Write>)
    ensures same { IsPermutation writes.old.items writes.new.items }
    ensures sorted { AreByVariable writes.new.items }
{
    writes.sort_unstable_by_key(|write| (write.key, write.op));
}

/// The last write of a variable before `end` in the session of `end`.
///
/// The writes are those of a history, by variable and operation. O(log n) for n writes.
pub(crate) fn last_write_before(writes: &[Write], key: u32, end: OpId) -> Option<OpId>
    requires { AreByVariable writes.now }
    ensures session { IfSome result (λ w. w.session ≡ end.session) }
    ensures last { (i : ℕ) → (i < end_of result) ↔ IsBelowWrite writes.now key end.session end.index i }
{
    let at = writes.partition_point(|write| (write.key, write.op) < (key, end));
    if at == 0 {
        return None;
    }
    let last = &writes[at - 1];
    if last.key == key && last.op.session == end.session {
        Some(last.op)
    } else {
        None
    }
}

/// How many operations of a session come up to the last write of a variable among the first `count` of them: 0 where none
/// of these writes it.
///
/// The writes are those of a history, by variable and operation. O(log n) for n writes.
pub(crate) fn end_of_writes(writes: &[Write], key: u32, session: usize, count: u16) -> u16
    requires { AreByVariable writes.now }
    ensures { (i : ℕ) → (i < result) ↔ IsBelowWrite writes.now key session count i }
{
    let end = OpId::at(session, usize::from(count));
    match last_write_before(writes, key, end) {
        Some(last) => last.index as u16 + 1,
        None => 0,
    }
}
