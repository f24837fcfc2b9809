//! What a line begins with: what is wrong, whatever the input.

ghost use Rattle.std.specs.Prelude.{◌≡◌, ◌++◌, IfOk, codes, decimal, string_bytes};
ghost use Rattle.show_refusals.specs.Lines.{IsPlain};
ghost use Rattle.show_refusals.specs.Fronts.{front_for, text_front, place_front};

use crate::refusal::Refusal;
use json_histories::{OpId, ReadError};
use std::alloc::{AllocError, Global};

/// What the line on a refusal begins with. Fails for want of memory alone.
pub(crate) fn front(alloc: Global, refusal: Refusal) -> Result<String, AllocError>
    ensures front { IfOk result (λ front. string_bytes front ≡ front_for refusal) }
    ensures plain { IfOk result (λ front. IsPlain (string_bytes front)) }
{
    match refusal {
        Refusal::Read(error) => front_of_text(alloc, error),
        Refusal::BadSessions => words(alloc, "a script has from 1 to 16 sessions"),
        Refusal::BadStep(place) => front_of_step(alloc, place),
        Refusal::TooManySteps => {
            words(alloc, "the steps of the script stand for more than 65536")
        }
        Refusal::BadCertificate => words(alloc, "what comes after the history is no certificate"),
        Refusal::ShapeMismatch => words(
            alloc,
            "the certificate does not have the shape of the history",
        ),
        Refusal::NotThatPattern => {
            words(
                alloc,
                "what comes after the history does not show that it fails to meet a criterion",
            )
        }
        Refusal::NoSession => words(
            alloc,
            "the history has no session, so there is no client to drive",
        ),
        Refusal::NoSuchSession => words(
            alloc,
            "the history does not have the session that is to stop",
        ),
        Refusal::TooLong => words(alloc, "the input has more than 67108864 bytes"),
        Refusal::OverLong => words(alloc, "the input has more than 1073741824 bytes"),
    }
}

fn front_of_text(alloc: Global, error: ReadError) -> Result<String, AllocError>
    ensures front { IfOk result (λ front. string_bytes front ≡ text_front error) }
    ensures plain { IfOk result (λ front. IsPlain (string_bytes front)) }
{
    match error {
        ReadError::NotJson => words(alloc, "the text is no JSON"),
        ReadError::BadShape => words(alloc, "the input has a wrong shape"),
        ReadError::UnknownObject => words(alloc, "no such object"),
        ReadError::BadOp(op) => front_of_place(alloc, op),
        ReadError::ReturnAfterUnknown(op) => front_of_place(alloc, op),
        ReadError::TooManySessions => words(alloc, "the history has more than 16 sessions"),
        ReadError::TooManyOps => words(alloc, "a session has more than 256 operations"),
        ReadError::Memory => words(alloc, "memory ran out"),
        ReadError::BadInitial => { words(alloc, "what comes last is no table of initial values") }
    }
}

// Which operation it is.
fn front_of_place(alloc: Global, op: OpId) -> Result<String, AllocError>
    ensures front { IfOk result (λ front. string_bytes front ≡ place_front op) }
    ensures plain { IfOk result (λ front. IsPlain (string_bytes front)) }
{
    let OpId { session, index } = op;
    front_of_numbers(alloc, session, index)
}

// The same, from the numbers of its session and of itself.
fn front_of_numbers(alloc: Global, session: u64, index: u64) -> Result<String, AllocError>
    ensures front { IfOk result (λ front. string_bytes front
        ≡ codes "session " ++ (decimal session ++ (codes ", operation " ++ decimal index))) }
    ensures plain { IfOk result (λ front. IsPlain (string_bytes front)) }
{
    format!(in alloc; "session {session}, operation {index}")
}

// Which step it is.
#[tactic(auto, using(crate::proofs::PlainLines::step_is_plain))]
fn front_of_step(alloc: Global, place: usize) -> Result<String, AllocError>
    ensures front { IfOk result (λ front. string_bytes front ≡ codes "step " ++ decimal place) }
    ensures plain { IfOk result (λ front. IsPlain (string_bytes front)) }
{
    format!(in alloc; "step {place}")
}

// Words that are the same for each input.
fn words(alloc: Global, text: &str) -> Result<String, AllocError>
    requires { IsPlain text.now }
    ensures front { IfOk result (λ front. string_bytes front ≡ text.now) }
    ensures plain { IfOk result (λ front. IsPlain (string_bytes front)) }
{
    String::from_str(alloc, text)
}
