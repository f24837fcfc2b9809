//! Pairs of a happened-before relation that show a pattern.

ghost use Rattle.std.specs.Prelude.{◌≡◌, ◌<◌, ◌↔◌, ℕ, length, IfSome, IsTrue, MatchOption};
ghost use Rattle.model_history.specs.declared.op_id.OpId.{OpId as Operation};
ghost use Rattle.pattern_search.specs.Steps.Relations.{IsRelation, IsStartOverwritten, IsWriteHappened};
ghost use Rattle.order_memory.specs.Memory.{IsDifferentiated};
ghost use Rattle.order_causal.specs.Orders.{op as operation};
ghost use Rattle.order_memory.specs.Relations.{HB};
ghost use Rattle.order_memory.specs.Steps.Indexed.{IsKnownRead};

use crate::search::relations::Relation;
use model_history::OpId;
use order_memory::{CausalOrder, KnownRead};
use pattern_check::Pair;

/// A write, and a read of the initial value of its variable that the relation puts after it: the first such read of the
/// session up to the operation of the relation. There is none exactly where there is no such read.
///
/// O(n k log n) for n operations of k sessions.
pub fn overwritten_start_in(order: &CausalOrder, relation: &Relation) -> Option<Pair>
    requires { IsRelation order.now relation.now }
    ensures { MatchOption result ((w r : Operation) → ¬ IsStartOverwritten order.now relation.now.0 w r)
        (λ pair. IsStartOverwritten order.now relation.now.0 pair.0 pair.1) }
{
    let reads = order.reads();
    for read in reads {
        if let Some(write) = write_before(order, relation, read) {
            return Some((write, read.op));
        }
    }
    None
}

/// A write of the variable of a read of the initial value that the relation puts before the read, where the read is the
/// operation of the relation or before it in program order.
fn write_before(order: &CausalOrder, relation: &Relation, read: &KnownRead) -> Option<OpId>
    requires relation { IsRelation order.now relation.now }
    requires known { IsKnownRead order.now read.now }
    ensures { MatchOption result ((w : Operation) → ¬ IsWriteHappened order.now relation.now.0 read.now w)
        (IsWriteHappened order.now relation.now.0 read.now) }
{
    if read.source.is_some() || !read.op.is_in_program_past_of(relation.op()) {
        return None;
    }
    for session in 0..order.sessions() {
        let end = OpId::at(session, relation.count(read.op, session));
        if let Some(write) = order.memory().last_write_before(read.key, end) {
            return Some(write);
        }
    }
    None
}

/// An operation, twice, that the relation puts before itself: there is none exactly where there is no such operation.
///
/// It is the one that came to be before itself first. O(m + n) for m raises and n operations.
pub fn cycle_in(order: &CausalOrder, relation: &Relation) -> Option<Pair>
    requires distinct { IsDifferentiated order.now }
    requires relation { IsRelation order.now relation.now }
    ensures { MatchOption result ((a : Operation) → ¬ HB order.now relation.now.0 a a)
        (λ pair. (pair.0 ≡ pair.1) × HB order.now relation.now.0 pair.0 pair.1) }
{
    if let Some(op) = first_raised(order, relation) {
        return Some((op, op));
    }
    let op = least_before_itself(order, relation)?;
    Some((op, op))
}

/// The operation that was raised to be before itself first.
fn first_raised(order: &CausalOrder, relation: &Relation) -> Option<OpId>
    requires distinct { IsDifferentiated order.now }
    requires relation { IsRelation order.now relation.now }
    ensures { IfSome result (λ a. HB order.now relation.now.0 a a) }
{
    for raise in relation.raises() {
        let is_own = raise.session == raise.op.session_place();
        if is_own
            && u64::from(raise.count) > raise.op.index
            && is_before_itself(order, relation, raise.op)
        {
            return Some(raise.op);
        }
    }
    None
}

/// The least operation, by session and index, that the relation puts before itself.
fn least_before_itself(order: &CausalOrder, relation: &Relation) -> Option<OpId>
    requires distinct { IsDifferentiated order.now }
    requires relation { IsRelation order.now relation.now }
    ensures { MatchOption result ((a : Operation) → ¬ HB order.now relation.now.0 a a) (λ a. HB order.now relation.now.0 a a) }
{
    for session in 0..order.sessions() {
        if let Some(op) = least_before_itself_of(order, relation, session) {
            return Some(op);
        }
    }
    None
}

/// The first operation of a session that the relation puts before itself.
fn least_before_itself_of(order: &CausalOrder, relation: &Relation, session: usize) -> Option<OpId>
    requires distinct { IsDifferentiated order.now }
    requires relation { IsRelation order.now relation.now }
    ensures { MatchOption result ((i : ℕ) → ¬ HB order.now relation.now.0 (operation session i) (operation session i))
        (λ a. HB order.now relation.now.0 a a) }
{
    for index in 0..order.history().len(session) {
        let op = OpId::at(session, index);
        if is_before_itself(order, relation, op) {
            return Some(op);
        }
    }
    None
}

/// Whether the relation puts an operation before itself. O(1).
fn is_before_itself(order: &CausalOrder, relation: &Relation, op: OpId) -> bool
    requires distinct { IsDifferentiated order.now }
    requires relation { IsRelation order.now relation.now }
    ensures { IsTrue result ↔ HB order.now relation.now.0 op op }
{
    order.has_in_past(relation.op(), op) && relation.count(op, op.session_place()) > op.place()
}
