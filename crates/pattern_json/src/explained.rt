//! Reading what comes after the vectors in a certificate.

ghost use Rattle.std.specs.Prelude.{◌≡◌, ◌<◌, length, IfOk, IfErr, OnOk};
ghost use Rattle.json_bounded.specs.Steps.Reading.{IsRefused};
ghost use Rattle.pattern_json.specs.Steps.Parts.{certificate_of as joined_of, IsExplainedIn};
ghost use Rattle.json_tokens.specs.Tokens.{IsValue};

use crate::lists::next_lists;
use crate::numbers::read_numbers;
use cert_check::{Arbitration, Certificate, Criterion, Schedules};
use json::Reader;
use json_bounded::TextError;
use order_causal::Vectors;
use std::alloc::Global;

/// What a certificate has after its vectors.
#[derive(Drop)]
pub(crate) enum Explained {
    /// The schedules for causal consistency.
    Cc(Schedules),
    /// The schedules for causal memory.
    Cm(Schedules),
    /// The one list for causal convergence.
    Ccv(Arbitration),
}

/// What a certificate for this criterion has after its vectors, read from the value that comes next, or none where the value is the form
/// of nothing that it may have there. It passes the value.
pub(crate) fn next_explained(
    alloc: Global,
    reader: &mut Reader<'_>,
    depth: usize,
    criterion: Criterion,
) -> Result<Option<Explained>, TextError>
    ensures read { IfOk result (λ read. IsValue (λ d. IsExplainedIn criterion d read) depth reader.old reader.new) }
    ensures shorter { OnOk result (length reader.new < length reader.old) }
    ensures refused { IfErr result (IsRefused depth reader.old) }
{
    match criterion {
        Criterion::Cc => match next_lists::<u8>(alloc, reader, depth)? {
            Some(schedules) => Ok(Some(Explained::Cc(schedules))),
            None => Ok(None),
        },
        Criterion::Cm => match next_lists::<u8>(alloc, reader, depth)? {
            Some(schedules) => Ok(Some(Explained::Cm(schedules))),
            None => Ok(None),
        },
        Criterion::Ccv => match read_numbers::<u8>(alloc, reader, depth)? {
            Some(sessions) => Ok(Some(Explained::Ccv(Arbitration::of(sessions)))),
            None => Ok(None),
        },
    }
}

/// The certificate of these vectors and what comes after them.
pub(crate) fn certificate_of(vectors: Vectors, explained: Explained) -> Certificate
    ensures { result ≡ joined_of vectors explained }
{
    match explained {
        Explained::Cc(schedules) => Certificate::Cc(vectors, schedules),
        Explained::Cm(schedules) => Certificate::Cm(vectors, schedules),
        Explained::Ccv(arbitration) => Certificate::Ccv(vectors, arbitration),
    }
}
