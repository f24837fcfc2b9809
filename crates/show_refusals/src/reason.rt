//! The line that says what is wrong with an input.

ghost use Rattle.std.specs.Prelude.{IfOk, string_bytes};
ghost use Rattle.show_refusals.specs.Lines.{BeginsWith, IsPlain};
ghost use Rattle.show_refusals.specs.Fronts.{front_for};

use crate::claim_rest::claim_rest;
use crate::fronts::front;
use crate::plain::plain;
use crate::refusal::{InputForm, Refusal};
use crate::script_rest::step_rest;
use crate::second_rest::second_rest;
use crate::text_rest::text_rest;
use std::alloc::{AllocError, Global};

/// What is wrong with an input of this form that is refused, where, and what is wanted: one line, with no line feed at its end.
///
/// The line begins with what the refusal says by itself. The rest comes from the bytes of the input, which may be empty if they
/// were not kept. Bytes are counted from 0. The line shows texts of the input as JSON texts, cut after some 60 characters.
///
/// Fails for want of memory alone. O(n) for an input of n bytes, and for a text it takes as much memory as the text.
pub fn reason_for(
    alloc: Global,
    input: Option<&[u8]>,
    form: InputForm,
    refusal: Refusal,
) -> Result<String, AllocError>
    ensures begins { IfOk result (λ line. BeginsWith (front_for refusal) (string_bytes line)) }
    ensures plain { IfOk result (λ line. IsPlain (string_bytes line)) }
{
    let front = front(alloc, refusal)?;
    let rest = rest_in(alloc, input, form, refusal)?;
    let rest = plain(alloc, &rest)?;
    joined(alloc, &front, &rest)
}

// The beginning of the line and the rest.
#[tactic(auto, using(crate::proofs::PlainLines::joined_begins, crate::proofs::PlainLines::joined_plain))]
fn joined(alloc: Global, front: &str, rest: &str) -> Result<String, AllocError>
    requires front { IsPlain front.now }
    requires rest { IsPlain rest.now }
    ensures begins { IfOk result (λ line. BeginsWith front.now (string_bytes line)) }
    ensures plain { IfOk result (λ line. IsPlain (string_bytes line)) }
{
    format!(in alloc; "{front}{rest}")
}

// What is found in the input, where its bytes were kept.
fn rest_in(
    alloc: Global,
    input: Option<&[u8]>,
    form: InputForm,
    refusal: Refusal,
) -> Result<String, AllocError> {
    match input {
        Some(input) => rest_for(alloc, input, form, refusal),
        None => Ok(String::new(alloc)),
    }
}

fn rest_for(
    alloc: Global,
    input: &[u8],
    form: InputForm,
    refusal: Refusal,
) -> Result<String, AllocError> {
    match refusal {
        Refusal::Read(error) => text_rest(alloc, input, form, error),
        Refusal::BadStep(place) => step_rest(alloc, input, place),
        Refusal::NotThatPattern => claim_rest(alloc, input),
        Refusal::TooManySteps | Refusal::NoSession | Refusal::TooLong | Refusal::OverLong => Ok(
            String::new(alloc),
        ),
        Refusal::BadSessions
        | Refusal::BadCertificate
        | Refusal::ShapeMismatch
        | Refusal::NoSuchSession => second_rest(alloc, input, refusal),
    }
}
