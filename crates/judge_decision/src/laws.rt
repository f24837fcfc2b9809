//! What decides whether a memory history meets a criterion. The function does nothing: what it ensures is the law.

ghost use Rattle.std.specs.Prelude.{◌↔◌};
ghost use Rattle.order_memory.specs.Memory.{IsDifferentiated, memory_answer};
ghost use Rattle.cert_check.specs.Criteria.{Meets};
ghost use Rattle.pattern_check.specs.Kinds.{IsFreeOf};

use cert_check::Criterion;
use model_history::History;
use model_objects::Memory;
use pattern_check::laws::present_kinds_exclude_criteria;

/// A memory history of distinct values meets a criterion exactly where no kind of bad pattern against the criterion is
/// present in it.
///
/// This is the theorem of Bouajjani, Enea, Guerraoui and Hamza, "On Verifying Causal Consistency" (POPL 2017), for
/// histories with any initial values and with unknown returns.
pub fn met_exactly_where_no_kind_is_present(h: &History<Memory>, criterion: Criterion)
    requires distinct { IsDifferentiated h.now }
    ensures { Meets memory_answer h.now criterion ↔ IsFreeOf h.now criterion }
{
    h.value_is_history();
    present_kinds_exclude_criteria();
}
