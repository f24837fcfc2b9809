//! Reading a step of a script, one element after the other.

ghost use Rattle.std.specs.Prelude.{◌<◌, ◌↔◌, List, length, IfOk, IfErr, IsTrue, OnOk};
ghost use Rattle.serde_json.specs.Data.{Data};
ghost use Rattle.json_bounded.specs.Steps.Reading.{IsRefused};
ghost use Rattle.live_script.specs.Steps.StepParts.{ArePartsOf, HasCounts, IsAnyStepIn, IsNextPart, IsStepIn};
ghost use Rattle.json_tokens.specs.Tokens.{IsValue};

use crate::arguments::next_argument;
use crate::step_forms::StepForms;
use crate::step_parts::{PartsOf, StepFor, StepParts};
use crate::written_step::WrittenStep;
use json::Reader;
use json_bounded::TextError;
use json_tokens::{Gather, next_list, pass_value};
use live_simulation::StepOf;
use std::alloc::Global;
use std::mem;

/// What was taken, with the element that comes next, or none where no step goes on so. It passes the element.
fn next_part<F: StepForms>(
    alloc: Global,
    reader: &mut Reader<'_>,
    depth: usize,
    parts: &PartsOf<F>,
) -> Result<Option<PartsOf<F>>, TextError>
    ensures read { IfOk result
        (λ next. IsValue (λ d. (ds : List Data) → ArePartsOf F.call_form F.return_form F.is_call parts.now ds
        → IsNextPart F.call_form F.return_form F.is_call next ds d) depth reader.old reader.new) }
    ensures shorter { OnOk result (length reader.new < length reader.old) }
    ensures refused { IfErr result (IsRefused depth reader.old) }
{
    let Some(kind) = parts.wanted() else {
        pass_value(alloc, reader, depth)?;
        return Ok(None);
    };
    match next_argument::<F>(alloc, reader, depth, kind) {
        Ok(Some(argument)) => Ok(parts.with_argument(argument)),
        Ok(None) => Ok(None),
        Err(error) => Err(error),
    }
}

/// A step of a script that is being read.
#[derive(Drop)]
struct StepReader<F: StepForms> {
    parts: PartsOf<F>,
}

impl<F: StepForms> Gather for StepReader<F> {
    ghost use Rattle.live_script.specs.Steps.StepParts.{AreNoStep, ArePartsOf};

    ghost is_of = { λ step ds. ArePartsOf F.call_form F.return_form F.is_call step.parts ds };

    ghost refuses = { AreNoStep F.call_form F.return_form F.is_call };

    fn take_next(
        &mut self,
        alloc: Global,
        reader: &mut Reader<'_>,
        depth: usize,
    ) -> Result<bool, TextError> {
        match next_part::<F>(alloc, reader, depth, &self.parts) {
            Ok(Some(next)) => {
                drop(mem::replace(&mut self.parts, next));
                Ok(true)
            }
            Ok(None) => Ok(false),
            Err(error) => Err(error),
        }
    }
}

/// Whether the step gives a sealer `k` counts, where it gives it any.
fn has_counts<C, R>(k: usize, step: &WrittenStep<C, R>) -> bool
    ensures { IsTrue result ↔ HasCounts k step.now }
{
    match step {
        WrittenStep::Once(StepOf::Start(told)) => told.counts().len() == k,
        _ => true,
    }
}

/// The step, where it is one for `k` sessions.
fn step_for<F: StepForms>(k: usize, step: StepFor<F>) -> Option<StepFor<F>>
    ensures { (d : Data) → IsAnyStepIn F.call_form F.return_form F.is_call d step
        → IsStepIn F.call_form F.return_form F.is_call k d result }
{
    if has_counts(k, &step) {
        Some(step)
    } else {
        drop(step);
        None
    }
}

/// The step of a script for `k` sessions that comes next, or none where the next value is the form of none. It passes the value.
///
/// The form is a list of a word and what the step names: `["begin",s,call]`, `["end",s,ret]`, `["start"]`, `["start",told]`,
/// `["look",z]`, `["look",z,n]`, `["show",z]`, `["file",z,certificate]`, `["file",z,criterion]`, `["take"]`,
/// `["work",c,s,i]`, `["put",c,v]`, `["refute",c,pattern]` or `["ask",c]`. The step may name what is not there. But `told` is
/// a list of `k` numbers from 0 to 256, and `n` is a number from 1 to 9,999.
pub(crate) fn next_step<F: StepForms>(
    alloc: Global,
    reader: &mut Reader<'_>,
    depth: usize,
    k: usize,
) -> Result<Option<StepFor<F>>, TextError>
    ensures read { IfOk result
        (λ step. IsValue (λ d. IsStepIn F.call_form F.return_form F.is_call k d step) depth reader.old reader.new) }
    ensures shorter { OnOk result (length reader.new < length reader.old) }
    ensures refused { IfErr result (IsRefused depth reader.old) }
{
    let mut step = StepReader::<F> {
        parts: StepParts::Nothing,
    };
    match next_list(alloc, reader, depth, &mut step) {
        Ok(true) => match step.parts.whole() {
            Some(step) => Ok(step_for::<F>(k, step)),
            None => Ok(None),
        },
        Ok(false) => {
            drop(step);
            Ok(None)
        }
        Err(error) => {
            drop(step);
            Err(error)
        }
    }
}
