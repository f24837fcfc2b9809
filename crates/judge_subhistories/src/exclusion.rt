//! Whether a history is decided not to meet a criterion.

ghost use Rattle.std.specs.Prelude.{◌≢◌, IfOk, IfSome, IsTrue};
ghost use Rattle.judge_subhistories.specs.WithoutVariables.{IsExclusion};

use cert_check::Criterion;
use judge_decision::{Decision, decide};
use model_history::History;
use model_objects::Memory;
use order_memory::IndexedMemory;
use pattern_check::laws::bad_patterns_exclude_criteria;
use std::alloc::{AllocError, Global};

/// What is decided of a history that does not meet a criterion: none where it meets it, or where its values are not distinct.
///
/// Fails for want of memory alone. It costs what [`decide`] takes.
pub(crate) fn exclusion_of(
    alloc: Global,
    history: &History<Memory>,
    criterion: Criterion,
) -> Result<Option<Decision>, AllocError>
    ensures { IfOk result (λ found. IfSome found (IsExclusion history.now criterion)) }
{
    bad_patterns_exclude_criteria();
    let memory = IndexedMemory::of(alloc, history)?;
    let decided = decide(alloc, &memory, criterion);
    drop(memory);
    let decision = decided?;
    if is_exclusion(&decision) {
        Ok(Some(decision))
    } else {
        drop(decision);
        Ok(None)
    }
}

/// Whether a decision says that a history does not meet a criterion.
fn is_exclusion(decision: &Decision) -> bool
    ensures met { IsTrue result → decision.now ≢ Decision.Meets }
    ensures open { IsTrue result → decision.now ≢ Decision.Open }
{
    match decision {
        Decision::Excluded(_) | Decision::ExcludedBy(_) => true,
        Decision::Meets | Decision::Open => false,
    }
}
