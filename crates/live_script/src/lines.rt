//! The lines of replies.

ghost use Rattle.std.specs.Prelude.{◌≡◌, ◌++◌, codes, decimal, false, IfOk, string_bytes};
ghost use Rattle.serde_json.specs.View.{view};
ghost use Rattle.serde_json.specs.Written.{compact_text, has_float};
ghost use Rattle.json_histories.specs.Form.{history_form};
ghost use Rattle.pattern_check.specs.KindNames.{kind_name};
ghost use Rattle.live_script.specs.ReplyLines.{answer_text, line_for, operation_text, verdict_text};
ghost use Rattle.live_script.specs.Steps.Lines.{other_text};

use cert_check::Outcome;
use json_histories::{Named, write_parts};
use live_case_board::Answer;
use live_simulation::{Reply, ReplyOf};
use model_history::{History, OpId};
use pattern_check::Kind;
use serde_json::Value;
use std::alloc::{AllocError, Global};

/// The line of a reply, with its line feed.
///
/// `ok s.i` for an operation that began or ended, `ok n` for a sealer or a case, `seen` and `none` for a look, the compact
/// text of a history that is shown, `take c s.i` and `none` for a piece that is taken, `verdict n explained` and
/// `verdict n unexplained`, `ok` for what is accepted, `yes`, `no Kind`, `unknown`, `unknown s.i` and `open n` for the state of
/// a case, and `refused n`.
///
/// Fails for want of memory alone. O(n) for a history of n operations.
pub fn reply_line<O: Named>(alloc: Global, reply: &Reply<O>) -> Result<String, AllocError>
    ensures { IfOk result (λ text. string_bytes text ≡ line_for O.name O.operation_form O.start_form reply.now) }
{
    match reply {
        ReplyOf::Sealed(history) => history_line(alloc, history),
        _ => other_line(alloc, reply),
    }
}

/// The line of a reply that shows no history.
fn other_line<H>(alloc: Global, reply: &ReplyOf<H>) -> Result<String, AllocError>
    ensures { IfOk result (λ text. string_bytes text ≡ other_text reply.now) }
{
    match reply {
        ReplyOf::Done(op) => placed(alloc, "ok ", *op),
        ReplyOf::Sealer(number) | ReplyOf::Case(number) => numbered(alloc, "ok ", *number, "\n"),
        ReplyOf::Found(_, true) => String::from_str(alloc, "seen\n"),
        ReplyOf::Found(_, false) | ReplyOf::Taken(None) => String::from_str(alloc, "none\n"),
        ReplyOf::Taken(Some(piece)) => piece_line(alloc, piece.number, piece.op),
        ReplyOf::Verdict(number, outcome) => verdict_line(alloc, *number, *outcome),
        ReplyOf::Accepted => String::from_str(alloc, "ok\n"),
        ReplyOf::Answer(answer) => answer_line(alloc, *answer),
        ReplyOf::Refused(refusal) => {
            numbered(alloc, "refused ", refusal.number() as usize, "\n")
        }
        ReplyOf::Sealed(_) => Ok(String::new(alloc)),
    }
}

/// A number between two texts.
fn numbered(alloc: Global, before: &str, number: usize, after: &str) -> Result<String, AllocError>
    ensures { IfOk result (λ text. string_bytes text ≡ before.now ++ (decimal number ++ after.now)) }
{
    format!(in alloc; "{before}{number}{after}")
}

/// An operation after a text.
fn placed(alloc: Global, before: &str, op: OpId) -> Result<String, AllocError>
    ensures { IfOk result (λ text. string_bytes text ≡ before.now ++ operation_text op) }
{
    let OpId { session, index } = op;
    format!(in alloc; "{before}{session}.{index}\n")
}

/// The line of a piece of a case that is taken.
fn piece_line(alloc: Global, case: usize, op: OpId) -> Result<String, AllocError>
    ensures { IfOk result (λ text. string_bytes text ≡ codes "take " ++ (decimal case ++ (codes " " ++ operation_text op))) }
{
    let OpId { session, index } = op;
    format!(in alloc; "take {case} {session}.{index}\n")
}

/// The line of a history.
fn history_line<O: Named>(alloc: Global, history: &History<O>) -> Result<String, AllocError>
    ensures { IfOk result
        (λ text. string_bytes text ≡ compact_text (history_form O.name O.operation_form O.start_form history.now) ++ codes "\n") }
{
    let value = write_parts(alloc, history)?;
    let line = value_line(alloc, &value);
    drop(value);
    line
}

/// The line of a value that has no float: its compact text.
fn value_line(alloc: Global, value: &Value) -> Result<String, AllocError>
    ensures { IfOk result (λ text. has_float (view value.now) ≡ false
        → string_bytes text ≡ compact_text (view value.now) ++ codes "\n") }
{
    let mut text = value.to_string(alloc)?;
    text.push_str("\n")?;
    Ok(text)
}

/// The line of a verdict.
fn verdict_line(alloc: Global, number: usize, outcome: Outcome) -> Result<String, AllocError>
    ensures { IfOk result (λ text. string_bytes text ≡ verdict_text number outcome) }
{
    match outcome {
        Outcome::Explained => numbered(alloc, "verdict ", number, " explained\n"),
        Outcome::Unexplained => numbered(alloc, "verdict ", number, " unexplained\n"),
    }
}

/// The line of a case against which a pattern of this kind was accepted.
fn kind_line(alloc: Global, kind: Kind) -> Result<String, AllocError>
    ensures { IfOk result (λ text. string_bytes text ≡ codes "no " ++ (kind_name kind ++ codes "\n")) }
{
    let kind = kind.name();
    format!(in alloc; "no {kind}\n")
}

/// The line of the state of a case.
fn answer_line(alloc: Global, answer: Answer) -> Result<String, AllocError>
    ensures { IfOk result (λ text. string_bytes text ≡ answer_text answer) }
{
    match answer {
        Answer::Yes => String::from_str(alloc, "yes\n"),
        Answer::No(kind) => kind_line(alloc, kind),
        Answer::Unknown(None) => String::from_str(alloc, "unknown\n"),
        Answer::Unknown(Some(op)) => placed(alloc, "unknown ", op),
        Answer::Open(rows) => numbered(alloc, "open ", rows as usize, "\n"),
    }
}
