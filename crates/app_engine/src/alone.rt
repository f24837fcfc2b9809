//! Answers to inputs that are in memory, made by the calling thread alone.

ghost use Rattle.std.specs.Prelude.{◌≤◌, IfErr, IfOk, OnOk, Some, length, string_bytes};
ghost use Rattle.app_orders.specs.declared.form.Form.TheVariants.{Json};
ghost use Rattle.app_orders.specs.declared.length.Length.TheVariants.{Any};
ghost use Rattle.app_engine.specs.Alone.{judging_alone, judging_alone_at};
ghost use Rattle.app_engine.specs.Running.{Fails, IsOutput, IsOutputError};
ghost use Rattle.app_engine.specs.declared.input.TheConstants.{MAX_INPUT_BYTES, MAX_LONG_INPUT_BYTES};

use crate::checking::check;
use crate::expecting::report_on_input;
use crate::explaining::{explain_as, explain_long};
use crate::failure::RunError;
use crate::input::stay_within;
use crate::long_refuting::refute_long;
use crate::refuting::refute;
use app_explanations::report_text;
use app_orders::{Form, Length, LongForm, Order};
use json::Scratch;
use judge_workers::CallingThread;
use std::alloc::Global;

/// The answer that a run of `judge` writes for this input. It starts no thread.
///
/// Refuses what such a run refuses, and fails for want of memory. The cost is that of reading the input and of
/// [`report_on`](crate::report_on).
pub fn judge_alone(alloc: Global, input: &[u8]) -> Result<String, RunError>
    ensures within { OnOk result (length input.now ≤ MAX_INPUT_BYTES) }
    ensures output { IfOk result (λ text. IsOutput (Order.Judge judging_alone) input.now (string_bytes text)) }
    ensures error { IfErr result (Fails (Order.Judge judging_alone) (Some input.now)) }
{
    stay_within(input, Length::Limited)?;
    report_of(alloc, input, Length::Limited)
}

/// The answer that a run of `judge --long` writes for this input. It starts no thread.
///
/// Refuses what such a run refuses, and fails for want of memory. The cost is that of reading the input and of
/// [`report_on_long`](crate::report_on_long).
pub fn judge_long_alone(alloc: Global, input: &[u8]) -> Result<String, RunError>
    ensures within { OnOk result (length input.now ≤ MAX_LONG_INPUT_BYTES) }
    ensures output { IfOk result (λ text. IsOutput (Order.Judge (judging_alone_at Any)) input.now (string_bytes text)) }
    ensures error { IfErr result (Fails (Order.Judge (judging_alone_at Any)) (Some input.now)) }
{
    stay_within(input, Length::Any)?;
    report_of(alloc, input, Length::Any)
}

/// The answer that a run of `check` writes for this input. It starts no thread.
///
/// Refuses what such a run refuses, and fails for want of memory. The cost is that of reading the input and of
/// [`PieceWork::answer_of`](crate::PieceWork::answer_of).
pub fn check_alone(alloc: Global, input: &[u8]) -> Result<String, RunError>
    ensures within { OnOk result (length input.now ≤ MAX_INPUT_BYTES) }
    ensures output { IfOk result (λ text. IsOutput (Order.Check 1) input.now (string_bytes text)) }
    ensures error { IfErr result (Fails (Order.Check 1) (Some input.now)) }
{
    stay_within(input, Length::Limited)?;
    line_of(alloc, input)
}

/// The answer that a run of `explain --json` writes for this input. It starts no thread.
///
/// Refuses what such a run refuses, and fails for want of memory. The cost is that of reading the input and of
/// [`findings_of`](crate::findings_of).
pub fn explain_alone(alloc: Global, input: &[u8]) -> Result<String, RunError>
    ensures within { OnOk result (length input.now ≤ MAX_INPUT_BYTES) }
    ensures output { IfOk result (λ text. IsOutput (Order.Explain Json) input.now (string_bytes text)) }
    ensures error { IfErr result (Fails (Order.Explain Json) (Some input.now)) }
{
    explain_as_alone(alloc, input, Form::Json)
}

/// The answer that a run of `explain` in this form writes for this input. It starts no thread.
///
/// Refuses what such a run refuses, and fails for want of memory. The cost is that of reading the input, of
/// [`findings_of`](crate::findings_of) and of the form.
pub fn explain_as_alone(alloc: Global, input: &[u8], form: Form) -> Result<String, RunError>
    ensures within { OnOk result (length input.now ≤ MAX_INPUT_BYTES) }
    ensures output { IfOk result (λ text. IsOutput (Order.Explain form) input.now (string_bytes text)) }
    ensures error { IfErr result (Fails (Order.Explain form) (Some input.now)) }
{
    stay_within(input, Length::Limited)?;
    explain_as(&CallingThread, alloc, input, form)
}

/// The answer that a run of `explain --long` in this form writes for this input. It starts no thread.
///
/// Refuses what such a run refuses, and fails for want of memory. The cost is that of [`explain_long`].
pub fn explain_long_alone(alloc: Global, input: &[u8], form: LongForm) -> Result<String, RunError>
    ensures within { OnOk result (length input.now ≤ MAX_LONG_INPUT_BYTES) }
    ensures output { IfOk result (λ text. IsOutput (Order.ExplainLong form) input.now (string_bytes text)) }
    ensures error { IfErr result (Fails (Order.ExplainLong form) (Some input.now)) }
{
    stay_within(input, Length::Any)?;
    explain_long(&CallingThread, alloc, input, form)
}

/// The answer that a run of `refute` writes for this input. It starts no thread.
///
/// Refuses what such a run refuses, and fails for want of memory. The cost is that of reading the input and of testing its
/// pattern.
pub fn refute_alone(alloc: Global, input: &[u8]) -> Result<String, RunError>
    ensures within { OnOk result (length input.now ≤ MAX_INPUT_BYTES) }
    ensures output { IfOk result (λ text. IsOutput (Order.Refute Length.Limited) input.now (string_bytes text)) }
    ensures error { IfErr result (Fails (Order.Refute Length.Limited) (Some input.now)) }
{
    stay_within(input, Length::Limited)?;
    refute(alloc, input)
}

/// The answer that a run of `refute --long` writes for this input. It starts no thread.
///
/// Refuses what such a run refuses, and fails for want of memory. The cost is that of reading the input and of testing its
/// pattern.
pub fn refute_long_alone(alloc: Global, input: &[u8]) -> Result<String, RunError>
    ensures within { OnOk result (length input.now ≤ MAX_LONG_INPUT_BYTES) }
    ensures output { IfOk result (λ text. IsOutput (Order.Refute Length.Any) input.now (string_bytes text)) }
    ensures error { IfErr result (Fails (Order.Refute Length.Any) (Some input.now)) }
{
    stay_within(input, Length::Any)?;
    refute_long(alloc, input)
}

// The report on the history in the input, which may be that long.
#[tactic(auto, using(crate::proofs::Reported::error_judged))]
fn report_of(alloc: Global, input: &[u8], allowed: Length) -> Result<String, RunError>
    ensures output { IfOk result (λ text. IsOutput (Order.Judge (judging_alone_at allowed)) input.now (string_bytes text)) }
    ensures error { IfErr result (IsOutputError (Order.Judge (judging_alone_at allowed)) input.now) }
{
    let mut scratch = Scratch::new(alloc);
    let report = report_on_input(&CallingThread, alloc, &mut scratch, input, allowed)?;
    let text = report_text(alloc, &report);
    drop(report);
    Ok(text?)
}

// The line on the certificate in the input.
fn line_of(alloc: Global, input: &[u8]) -> Result<String, RunError>
    ensures output { IfOk result (λ text. IsOutput (Order.Check 1) input.now (string_bytes text)) }
    ensures error { IfErr result (IsOutputError (Order.Check 1) input.now) }
{
    check(&CallingThread, alloc, input)
}
