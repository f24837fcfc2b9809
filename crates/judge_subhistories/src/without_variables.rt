//! Histories judged without some of their variables.

ghost use Rattle.std.specs.Prelude.{◌≡◌, IfOk, IfSome};
ghost use Rattle.order_memory.specs.Memory.{memory_answer};
ghost use Rattle.cert_check.specs.Criteria.{Meets};
ghost use Rattle.judge_subhistories.specs.WithoutVariables.{IsExclusion, without_variables};

use crate::exclusion::exclusion_of;
use crate::fewest::with_fewest_operations;
use cert_check::Criterion;
use cert_subhistories::laws::parts_at_keys_meet_what_the_whole_meets;
use cert_subhistories::{WithoutKeys, part_of};
use judge_decision::Decision;
use model_history::History;
use model_objects::{Memory, Register};
use std::alloc::{AllocError, Global};

/// A part of a history, and what shows that it does not meet a criterion.
#[derive(Drop)]
pub struct Excluded {
    /// The part.
    pub part: History<Memory>,
    /// What is decided of it.
    pub decision: Decision,
}

/// The history without some variables, if this part does not meet a criterion. Then the whole does not meet it either.
///
/// None where the part meets the criterion, or where values of other variables are not distinct. Fails for want of memory
/// alone. O(n m) for n operations and m variables, and what [`decide`](decision::decide) takes for the part.
pub fn excluded_without(
    alloc: Global,
    history: &History<Memory>,
    variables: &[u32],
    criterion: Criterion,
) -> Result<Option<Excluded>, AllocError>
    ensures part { IfOk result (λ found. IfSome found (λ shown. shown.part ≡ without_variables variables.now history.now)) }
    ensures excluded { IfOk result (λ found. IfSome found (λ shown. IsExclusion shown.part criterion shown.decision)) }
    ensures whole { IfOk result (λ found. IfSome found (λ _. ¬ Meets memory_answer history.now criterion)) }
{
    parts_at_keys_meet_what_the_whole_meets::<Register>();
    let part = part_of(alloc, history, &WithoutKeys(variables))?;
    match exclusion_of_fewest(alloc, &part, criterion)? {
        Some(decision) => Ok(Some(Excluded { part, decision })),
        None => Ok(None),
    }
}

/// What shows that a part does not meet a criterion, by the fewest operations that are found.
fn exclusion_of_fewest(
    alloc: Global,
    part: &History<Memory>,
    criterion: Criterion,
) -> Result<Option<Decision>, AllocError>
    ensures { IfOk result (λ found. IfSome found (IsExclusion part.now criterion)) }
{
    match exclusion_of(alloc, part, criterion)? {
        Some(decision) => Ok(Some(of_fewest(alloc, part, criterion, decision)?)),
        None => Ok(None),
    }
}

/// The decision with a pattern that has no operation that its kind can do without.
fn of_fewest(
    alloc: Global,
    part: &History<Memory>,
    criterion: Criterion,
    decision: Decision,
) -> Result<Decision, AllocError>
    requires { IsExclusion part.now criterion decision }
    ensures { IfOk result (IsExclusion part.now criterion) }
{
    match decision {
        Decision::Excluded(pattern) => Ok(Decision::Excluded(with_fewest_operations(
            alloc, part, criterion, pattern,
        )?)),
        other => Ok(other),
    }
}
