//! Why the history in an input meets each criterion, or does not, in each form.

ghost use Rattle.std.specs.Prelude.{ℕ, List, IfErr, IfOk, string_bytes};
ghost use Rattle.json_histories.specs.AnyForm.{IsAnyHistory, IsJson, form_of};
ghost use Rattle.app_engine.specs.Running.{IsOutput, IsOutputError};

use crate::failure::RunError;
use app_explanations::{
    certified_json_of_history, drawing_of_history, explained_long, json_of_history,
    words_of_history,
};
use app_findings::PieceWork;
use app_orders::{Form, LongForm, Order};
use json_histories::{AnyHistory, read_history};
use judge_decision::SessionWork;
use judge_reader::read_long;
use show_words::OwnNames;
use std::alloc::{AllocError, Global};

/// Why the history in the input meets each criterion or does not, in a form.
///
/// Refuses what is no history, and fails for want of memory. It costs what [`findings_of`](crate::findings_of) and the form take, and O(n)
/// for n bytes that are read and written.
pub fn explain_as<W: PieceWork>(
    work: &W,
    alloc: Global,
    input: &[u8],
    form: Form,
) -> Result<String, RunError>
    requires { W.can_check work.now }
    ensures output { IfOk result (λ text. IsOutput (Order.Explain form) input.now (string_bytes text)) }
    ensures error { IfErr result (IsOutputError (Order.Explain form) input.now) }
{
    let history = read_history(alloc, input)?;
    let text = text_in(work, alloc, &history, form);
    history.discard();
    Ok(text?)
}

// What is found of a history, in a form. It is the answer to each input that holds the history.
fn text_in<W: PieceWork>(
    work: &W,
    alloc: Global,
    history: &AnyHistory,
    form: Form,
) -> Result<String, AllocError>
    requires { W.can_check work.now }
    ensures output { (input : List ℕ) → IsAnyHistory history.now → IsJson input (form_of history.now)
        → IfOk result (λ text. IsOutput (Order.Explain form) input (string_bytes text)) }
{
    match form {
        Form::Words => words_of_history(work, alloc, history),
        Form::Json => json_of_history(work, alloc, history),
        Form::Certificates => certified_json_of_history(work, alloc, history),
        Form::Picture => drawing_of_history(work, alloc, history, &OwnNames),
    }
}

/// Why the memory history in the input, of any length, meets each criterion or does not, in a form.
///
/// For a history within the limits of [`History`](operations::History) it is the text of `explain`, except for the words after a yes.
/// Refuses what is no such history, and fails for want of memory. The cost is that of reading it and of [`explained_long`].
pub fn explain_long<W: PieceWork + SessionWork>(
    work: &W,
    alloc: Global,
    input: &[u8],
    form: LongForm,
) -> Result<String, RunError>
    requires can_check { W.can_check work.now }
    requires can_work { W.can_work work.now }
    ensures output { IfOk result (λ text. IsOutput (Order.ExplainLong form) input.now (string_bytes text)) }
    ensures error { IfErr result (IsOutputError (Order.ExplainLong form) input.now) }
{
    let history = read_long(alloc, input)?;
    let text = explained_long(work, alloc, &history, form);
    drop(history);
    Ok(text?)
}
