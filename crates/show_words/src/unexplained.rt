//! What a certificate does not explain, in words.

ghost use Rattle.model_history.specs.History.{IsOp};

use crate::forms::{Made, push_text, with_one, with_two};
use crate::naming::Names;
use crate::operation_words::{Worded, operation_words};
use crate::replayed::unlike_answer;
use cert_check::Certificate;
use model_history::{History, OpId};
use std::alloc::{AllocError, Global};

/// Adds lines, with no line feed, on what a certificate of a history does not explain: the answer that the operation got and, if
/// that differs, the answer that it would have got in the order of the certificate.
///
/// Fails for want of memory alone. O(n) for n operations, and one call of the object for each.
pub fn push_unexplained<O: Worded, N: Names>(
    alloc: Global,
    lines: &mut Vec<String>,
    h: &History<O>,
    names: &N,
    certificate: Option<&Certificate>,
    op: OpId,
) -> Result<(), AllocError> {
    push_text(lines, operation_words(alloc, h, names, op))?;
    push_text(lines, words_of_unexplained(alloc, names, op))?;
    match certificate {
        Some(certificate) => push_answer(alloc, lines, h, names, certificate, op),
        None => Ok(()),
    }
}

// Which operation the certificate does not explain.
fn words_of_unexplained<N: Names>(alloc: Global, names: &N, op: OpId) -> Made {
    let form = "The certificate that was made does not explain A.";
    with_one(alloc, form, names.operation(alloc, op))
}

// The answer in the order of a certificate, if it differs.
fn push_answer<O: Worded, N: Names>(
    alloc: Global,
    lines: &mut Vec<String>,
    h: &History<O>,
    names: &N,
    certificate: &Certificate,
    op: OpId,
) -> Result<(), AllocError> {
    let Some((unlike, answer)) = unlike_answer(alloc, h, certificate, op)? else {
        return Ok(());
    };
    if h.contains(unlike) {
        push_text(lines, words_of_answer(alloc, h, names, unlike, answer))
    } else {
        Ok(())
    }
}

// What an operation does in the order of a certificate, where it gets this answer.
fn words_of_answer<O: Worded, N: Names>(
    alloc: Global,
    h: &History<O>,
    names: &N,
    op: OpId,
    answer: O::Ret,
) -> Made
    requires { IsOp h.now op }
{
    let phrase = O::phrase(alloc, names, None, &h.call(op), Some(answer));
    with_two(
        alloc,
        "In its order A B.",
        names.operation(alloc, op),
        phrase,
    )
}
