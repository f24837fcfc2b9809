//! Reading what a step names, by its kind.

ghost use Rattle.std.specs.Prelude.{◌<◌, ◌≤◌, length, IfOk, IfErr, OnOk};
ghost use Rattle.json_bounded.specs.Steps.Reading.{IsRefused};
ghost use Rattle.json_histories.specs.Reads.{number_form, IsRead, IsReadWithin};
ghost use Rattle.live_script.specs.Steps.Arguments.{IsArgumentIn, IsPlainIn};
ghost use Rattle.live_script.specs.declared.written_step.TheConstants.{MAX_LOOKS as MOST};
ghost use Rattle.json_tokens.specs.Tokens.{IsValue};

use crate::counts::next_told;
use crate::filing::next_case;
use crate::step_argument::{Argument, ArgumentKind, Plain, PlainKind};
use crate::step_forms::StepForms;
use crate::step_word::StepWord;
use crate::written_step::MAX_LOOKS;
use json::Reader;
use json_bounded::TextError;
use json_histories::HistoryPlace;
use json_tokens::{next_value, next_whole_number};
use pattern_json::{next_pattern, next_word};
use std::alloc::Global;

/// The whole number that comes next, or none where the next value is none. It passes the value.
pub(crate) fn next_number(
    alloc: Global,
    reader: &mut Reader<'_>,
    depth: usize,
) -> Result<Option<usize>, TextError>
    ensures read { IfOk result (λ number. IsValue (λ d. IsRead number_form d number) depth reader.old reader.new) }
    ensures shorter { OnOk result (length reader.new < length reader.old) }
    ensures refused { IfErr result (IsRefused depth reader.old) }
{
    match next_whole_number(alloc, reader, depth)? {
        Some(number) => Ok(Some(number as usize)),
        None => Ok(None),
    }
}

/// The number of looks that comes next, or none where the next value is none. It passes the value.
fn next_times(
    alloc: Global,
    reader: &mut Reader<'_>,
    depth: usize,
) -> Result<Option<usize>, TextError>
    ensures read { IfOk result
        (λ times. IsValue (λ d. IsReadWithin (λ n. (0 < n) × (n ≤ MOST)) number_form d times) depth reader.old reader.new) }
    ensures shorter { OnOk result (length reader.new < length reader.old) }
    ensures refused { IfErr result (IsRefused depth reader.old) }
{
    let Some(times) = next_number(alloc, reader, depth)? else {
        return Ok(None);
    };
    if 0 < times && times <= MAX_LOOKS {
        Ok(Some(times))
    } else {
        Ok(None)
    }
}

/// The call whose form without its return comes next, or none where the next value is the form of none. It passes the value.
fn next_call<F: StepForms>(
    alloc: Global,
    reader: &mut Reader<'_>,
    depth: usize,
) -> Result<Option<F::Call>, TextError>
    ensures read { IfOk result (λ call. IsValue (λ d. IsReadWithin F.is_call F.call_form d call) depth reader.old reader.new) }
    ensures shorter { OnOk result (length reader.new < length reader.old) }
    ensures refused { IfErr result (IsRefused depth reader.old) }
{
    let value = next_value(alloc, reader, HistoryPlace::Operation, depth)?;
    let call = F::read_call(&value);
    drop(value);
    Ok(call)
}

/// The return whose form without its call comes next, or none where the next value is the form of none. It passes the value.
fn next_return<F: StepForms>(
    alloc: Global,
    reader: &mut Reader<'_>,
    depth: usize,
) -> Result<Option<F::Ret>, TextError>
    ensures read { IfOk result (λ ret. IsValue (λ d. IsRead F.return_form d ret) depth reader.old reader.new) }
    ensures shorter { OnOk result (length reader.new < length reader.old) }
    ensures refused { IfErr result (IsRefused depth reader.old) }
{
    let value = next_value(alloc, reader, HistoryPlace::Operation, depth)?;
    let ret = F::read_return(&value);
    drop(value);
    Ok(ret)
}

/// The argument of any object's steps, of this kind, that comes next, or none where the next value is none. It passes the value.
fn next_plain(
    alloc: Global,
    reader: &mut Reader<'_>,
    depth: usize,
    kind: PlainKind,
) -> Result<Option<Plain>, TextError>
    ensures read { IfOk result (λ plain. IsValue (λ d. IsPlainIn kind d plain) depth reader.old reader.new) }
    ensures shorter { OnOk result (length reader.new < length reader.old) }
    ensures refused { IfErr result (IsRefused depth reader.old) }
{
    match kind {
        PlainKind::Word => match next_word::<StepWord>(alloc, reader, depth)? {
            Some(word) => Ok(Some(Plain::Word(word))),
            None => Ok(None),
        },
        PlainKind::Number => match next_number(alloc, reader, depth)? {
            Some(number) => Ok(Some(Plain::Number(number))),
            None => Ok(None),
        },
        PlainKind::Times => match next_times(alloc, reader, depth)? {
            Some(times) => Ok(Some(Plain::Times(times))),
            None => Ok(None),
        },
        PlainKind::Counts => match next_told(alloc, reader, depth) {
            Ok(Some(counts)) => Ok(Some(Plain::Counts(counts))),
            Ok(None) => Ok(None),
            Err(error) => Err(error),
        },
        PlainKind::Case => match next_case(alloc, reader, depth) {
            Ok(Some((criterion, certificate))) => Ok(Some(Plain::Case(criterion, certificate))),
            Ok(None) => Ok(None),
            Err(error) => Err(error),
        },
        PlainKind::Pattern => match next_pattern(alloc, reader, depth) {
            Ok(Some(pattern)) => Ok(Some(Plain::Pattern(pattern))),
            Ok(None) => Ok(None),
            Err(error) => Err(error),
        },
    }
}

/// An argument of an object's steps.
pub(crate) type ArgumentOf<F> = Argument<<F as StepForms>::Call, <F as StepForms>::Ret>;

/// The argument of this kind that comes next, or none where the next value is none. It passes the value.
pub(crate) fn next_argument<F: StepForms>(
    alloc: Global,
    reader: &mut Reader<'_>,
    depth: usize,
    kind: ArgumentKind,
) -> Result<Option<ArgumentOf<F>>, TextError>
    ensures read { IfOk result
        (λ argument. IsValue (λ d. IsArgumentIn F.call_form F.return_form F.is_call kind d argument) depth reader.old reader.new) }
    ensures shorter { OnOk result (length reader.new < length reader.old) }
    ensures refused { IfErr result (IsRefused depth reader.old) }
{
    match kind {
        ArgumentKind::Call => match next_call::<F>(alloc, reader, depth) {
            Ok(Some(call)) => Ok(Some(Argument::Call(call))),
            Ok(None) => Ok(None),
            Err(error) => Err(error),
        },
        ArgumentKind::Return => match next_return::<F>(alloc, reader, depth) {
            Ok(Some(ret)) => Ok(Some(Argument::Return(ret))),
            Ok(None) => Ok(None),
            Err(error) => Err(error),
        },
        ArgumentKind::Plain(kind) => match next_plain(alloc, reader, depth, kind) {
            Ok(Some(plain)) => Ok(Some(Argument::Plain(plain))),
            Ok(None) => Ok(None),
            Err(error) => Err(error),
        },
    }
}
