//! The answer on a memory history of any length and a pattern of it.

ghost use Rattle.std.specs.Prelude.{IfErr, IfOk, string_bytes};
ghost use Rattle.app_engine.specs.Steps.LongClaims.{IsShownBy};
ghost use Rattle.app_orders.specs.declared.length.Length.TheVariants.{Any};
ghost use Rattle.judge_memory.specs.LongHistories.{IsLongHistory};
ghost use Rattle.json_histories.specs.AnyForm.{IsJson};
ghost use Rattle.app_engine.specs.Refuting.{IsClaimErrorAt, claim_form};
ghost use Rattle.app_engine.specs.Running.{IsOutput, IsOutputError};

use crate::failure::RunError;
use app_explanations::report_line;
use app_judging::Answer;
use app_orders::{Length, Order};
use cert_check::Criterion;
use json_bounded::TextError;
use json_histories::{AnyHistory, ReadError};
use judge_memory::LongHistory;
use judge_patterns::check_long_pattern;
use judge_reader::read_long_first;
use pattern_check::Pattern;
use pattern_json::{Violation, read_violation};
use std::alloc::Global;

/// A claim: that the pattern shows that the history does not meet the criterion.
#[derive(Drop)]
struct LongClaim {
    history: LongHistory,
    criterion: Criterion,
    pattern: Pattern,
}

/// The line on the claim in the input: a memory history of any length, the name of a criterion and a pattern in one list.
pub(crate) fn refute_long(alloc: Global, input: &[u8]) -> Result<String, RunError>
    ensures output { IfOk result (λ text. IsOutput (Order.Refute Length.Any) input.now (string_bytes text)) }
    ensures error { IfErr result (IsOutputError (Order.Refute Length.Any) input.now) }
{
    let claim = long_claim_in(alloc, input)?;
    let is_shown = check_long_pattern(alloc, &claim.history, claim.criterion, &claim.pattern);
    let criterion = claim.criterion;
    let answer = Answer::No(claim.pattern.kind());
    drop(claim);
    if is_shown? {
        Ok(report_line(alloc, criterion, answer)?)
    } else {
        Err(RunError::NotThatPattern)
    }
}

// The claim of an input. The text is read twice: once for what comes after the history, and once for the history.
fn long_claim_in(alloc: Global, input: &[u8]) -> Result<LongClaim, RunError>
    ensures history { IfOk result (λ claim. IsLongHistory claim.history) }
    ensures read { IfOk result (λ claim. IsJson input.now (claim_form (AnyHistory.Memory claim.history) claim.criterion claim.pattern)) }
    ensures error { IfErr result (IsClaimErrorAt Any input.now) }
{
    match read_violation(alloc, input) {
        Ok(Some(violation)) => claim_of(alloc, input, violation),
        Ok(None) => Err(RunError::History(ReadError::BadShape)),
        Err(TextError::NotJson) => Err(RunError::History(ReadError::NotJson)),
        Err(TextError::Memory) => Err(RunError::Memory),
    }
}

// The claim of an input, from what comes in it after the history.
fn claim_of(alloc: Global, input: &[u8], violation: Violation) -> Result<LongClaim, RunError>
    requires { IsShownBy input.now violation }
    ensures history { IfOk result (λ claim. IsLongHistory claim.history) }
    ensures read { IfOk result (λ claim. IsJson input.now (claim_form (AnyHistory.Memory claim.history) claim.criterion claim.pattern)) }
    ensures error { IfErr result (IsClaimErrorAt Any input.now) }
{
    let history = read_long_first(alloc, input)?;
    let Violation { criterion, pattern } = violation;
    let Some(criterion) = criterion else {
        return Err(RunError::NotThatPattern);
    };
    let Some(pattern) = pattern else {
        return Err(RunError::NotThatPattern);
    };
    Ok(LongClaim {
        history,
        criterion,
        pattern,
    })
}
