//! What histories that differ in their values alone meet. The function does nothing: what it ensures is the law.

ghost use Rattle.order_memory.specs.Memory.{MemoryHistory, memory_answer};
ghost use Rattle.cert_check.specs.Criteria.{Meets};
ghost use Rattle.judge_witnesses.specs.Renamed.{IsRenamed, Renaming};

use cert_check::Criterion;

/// A history meets what it meets with other values, from which its own are renamed: the same order and lists of operations explain each
/// known return. Two values may be renamed to one, so the history need not have distinct values.
pub fn renamed_histories_meet_what_they_were_renamed_from()
    ensures { (renaming : Renaming) (h other : MemoryHistory) → IsRenamed renaming h other → (criterion : Criterion)
        → Meets memory_answer h criterion → Meets memory_answer other criterion }
{}
