//! The answer on a history and a pattern of it.

ghost use Rattle.std.specs.Prelude.{◌↔◌, IfErr, IfOk, IsTrue, string_bytes};
ghost use Rattle.pattern_check.specs.Patterns.{kind_of};
ghost use Rattle.json_histories.specs.AnyForm.{IsAnyHistory, IsJson};
ghost use Rattle.app_findings.specs.Answers.{IsExcluded, IsPatternOf};
ghost use Rattle.app_engine.specs.Running.{IsOutput, IsOutputError};
ghost use Rattle.app_engine.specs.Refuting.{IsClaimError, claim_form};

use crate::failure::RunError;
use app_explanations::report_line;
use app_judging::Answer;
use app_orders::{Length, Order};
use cert_check::Criterion;
use json_histories::AnyHistory;
use pattern_check::{Pattern, check_pattern};
use pattern_json::{Claim as ClaimRead, read_claim};
use std::alloc::{AllocError, Global};

/// A claim: that the pattern shows that the history does not meet the criterion.
#[derive(Drop)]
struct Claim {
    history: AnyHistory,
    criterion: Criterion,
    pattern: Pattern,
}

/// The line on the claim in the input: a history, the name of a criterion and a pattern in one list.
pub fn refute(alloc: Global, input: &[u8]) -> Result<String, RunError>
    ensures output { IfOk result (λ text. IsOutput (Order.Refute Length.Limited) input.now (string_bytes text)) }
    ensures error { IfErr result (IsOutputError (Order.Refute Length.Limited) input.now) }
{
    let claim = claim_in(alloc, input)?;
    let is_shown = is_pattern_of(alloc, &claim.history, claim.criterion, &claim.pattern);
    let Claim {
        history,
        criterion,
        pattern,
    } = claim;
    history.discard();
    let answer = Answer::No(pattern.kind());
    drop(pattern);
    if is_shown? {
        Ok(report_line(alloc, criterion, answer)?)
    } else {
        Err(RunError::NotThatPattern)
    }
}

// Whether a pattern shows that a history does not meet a criterion. Only memories have known patterns.
fn is_pattern_of(
    alloc: Global,
    history: &AnyHistory,
    criterion: Criterion,
    pattern: &Pattern,
) -> Result<bool, AllocError>
    ensures exact { IfOk result (λ yes. IsTrue yes ↔ IsPatternOf history.now criterion pattern.now) }
    ensures excluded { IfOk result (λ yes. IsTrue yes → IsExcluded history.now criterion (kind_of pattern.now)) }
{
    match history.as_memory() {
        Some(history) => check_pattern(alloc, history, criterion, pattern),
        None => Ok(false),
    }
}

// The claim of an input.
#[tactic(auto, using(crate::proofs::Claims::refused_claims))]
fn claim_in(alloc: Global, input: &[u8]) -> Result<Claim, RunError>
    ensures history { IfOk result (λ claim. IsAnyHistory claim.history) }
    ensures read { IfOk result (λ claim. IsJson input.now (claim_form claim.history claim.criterion claim.pattern)) }
    ensures error { IfErr result (IsClaimError input.now) }
{
    let ClaimRead {
        history,
        criterion,
        pattern,
    } = read_claim(alloc, input)?;
    let Some(criterion) = criterion else {
        history.discard();
        drop(pattern);
        return Err(RunError::NotThatPattern);
    };
    match pattern {
        Some(pattern) => Ok(Claim {
            history,
            criterion,
            pattern,
        }),
        None => {
            history.discard();
            Err(RunError::NotThatPattern)
        }
    }
}
