//! Laws of the relations on the operations of a memory history. The functions do nothing: their contracts are the laws.

ghost use Rattle.std.specs.Prelude.{◌⊎◌, ◌↔◌};
ghost use Rattle.model_history.specs.declared.op_id.OpId.{OpId as Operation};
ghost use Rattle.model_history.specs.History.{IsOp};
ghost use Rattle.order_memory.specs.HappenedBeforeVectors.{IsHBVectors};
ghost use Rattle.order_memory.specs.Memory.{MemoryHistory, IsDifferentiated};
ghost use Rattle.order_memory.specs.Relations.{HB, HBWithin, IsPast};
ghost use Rattle.order_memory.specs.SourceOrder.{CountsCO, CountsSourceOrder, IsCyclic, LacksSource};
ghost use Rattle.order_memory.specs.Steps.Indexed.{IsUnordered};
ghost use Rattle.order_causal.specs.Vectors.{Counts};

/// If values are distinct, the order of program order and sources is the causal order: vectors that count the one count the
/// other, and there are none exactly if the causal order is cyclic or a known read has no source that it needs.
pub fn source_order_is_causal_order()
    ensures counted { (h : MemoryHistory) (v : Counts) → IsDifferentiated h → CountsSourceOrder h v → CountsCO h v }
    ensures acyclic { (h : MemoryHistory) (v : Counts) → IsDifferentiated h → CountsSourceOrder h v → ¬ IsCyclic h }
    ensures unordered { (h : MemoryHistory) → IsDifferentiated h → IsUnordered h → IsCyclic h ⊎ LacksSource h }
{}

/// The happened-before relation of an operation relates only operations of its past in the causal order, and stays the same if
/// the orders of its definition may relate no others.
///
/// This holds if values are distinct and vectors count the causal order, as those of `CausalOrder::vectors` do.
pub fn happened_before_is_on_the_past()
    ensures past { (h : MemoryHistory) (v : Counts) (o a b : Operation) → IsDifferentiated h → CountsSourceOrder h v
        → HB h o a b → IsPast h o a × IsPast h o b }
    ensures same { (h : MemoryHistory) (v : Counts) (o a b : Operation) → IsDifferentiated h → CountsSourceOrder h v
        → HB h o a b ↔ HBWithin h o a b }
{}

/// Each operation has vectors that count its happened-before relation.
///
/// This holds if values are distinct and vectors count the causal order, as those of `CausalOrder::vectors` do.
pub fn happened_before_has_vectors()
    ensures { (h : MemoryHistory) (v : Counts) (o : Operation) → IsDifferentiated h → CountsSourceOrder h v → IsOp h o
        → (now : Counts) × IsHBVectors h o now }
{}
