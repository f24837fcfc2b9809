//! What the line says of the second element of an input.

use crate::part::{Part, part_in};
use crate::placed::{length_words, place_words, shown_place};
use crate::refusal::Refusal;
use std::alloc::{AllocError, Global};

// What is wanted where a certificate has no form, and where it has another shape than its history.
const CERTIFICATES: &str =
    r#"; wanted is ["cc",VECTORS,SCHEDULES], ["cm",VECTORS,SCHEDULES] or ["ccv",VECTORS,LIST]"#;

const SHAPE: &str =
    "; wanted is a vector for each operation, with a count for each session, and a schedule for each \
        operation, or for ccv a list of all operations";

/// What the line says of the second element of an input, where the refusal is about it: the number of sessions of a script, a
/// certificate, or the sessions of a history to drive.
///
/// Fails for want of memory alone. O(n) for an input of n bytes.
pub(crate) fn second_rest(
    alloc: Global,
    input: &[u8],
    refusal: Refusal,
) -> Result<String, AllocError> {
    match part_in(alloc, input, &[1]) {
        Ok(Some(part)) => words_on(alloc, part, refusal),
        Ok(None) => Ok(String::new(alloc)),
        Err(error) => Err(error),
    }
}

fn words_on(alloc: Global, part: Part<'_>, refusal: Refusal) -> Result<String, AllocError> {
    match refusal {
        Refusal::BadSessions => shown_place(alloc, ", and not ", part, ""),
        Refusal::BadCertificate => place_words(alloc, "", part.byte, CERTIFICATES),
        Refusal::ShapeMismatch => place_words(alloc, "", part.byte, SHAPE),
        Refusal::NoSuchSession => length_words(alloc, part, ", numbered from 0"),
        _ => Ok(String::new(alloc)),
    }
}
