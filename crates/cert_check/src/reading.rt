//! Reading a certificate from a JSON value.

ghost use Rattle.std.specs.Prelude.{◌∷◌, [], map, IfOk};
ghost use Rattle.serde_json.specs.View.{view};
ghost use Rattle.json_histories.specs.Reads.{worded, IsReadWithin};
ghost use Rattle.cert_check.specs.CriterionNames.{name_of};
ghost use Rattle.cert_check.specs.CertificateForm.{form_of, IsCertificate, IsReadAs};

use crate::arbitration::Arbitration;
use crate::cert_error::CertError;
use crate::certificate::Certificate;
use crate::criterion::Criterion;
use crate::reading_lists::{read_lists, read_numbers};
use json_histories::word_and_rest;
use serde_json::Value;
use std::alloc::{AllocError, Global};

/// The certificate whose form the value is.
///
/// The form is `["cc", vectors, schedules]`, `["cm", vectors, schedules]` or `["ccv", vectors, list]`. Vectors have for each
/// session, for each of its operations, one list of counts, each a whole number from 0 to 65,535; schedules likewise one list of
/// session numbers, each from 0 to 15; the list has such session numbers. A list may have any length: this function does not check
/// that a certificate has the shape of a history. `BadCertificate` for every other value, `Memory` only where an allocation was
/// refused. O(n) for n numbers.
pub fn read_certificate(alloc: Global, value: &Value) -> Result<Certificate, CertError>
    ensures { IsReadAs (view value.now) result }
{
    read_form(alloc, value)?.ok_or(CertError::BadCertificate)
}

/// The certificate that a value is the form of.
fn read_form(alloc: Global, value: &Value) -> Result<Option<Certificate>, AllocError>
    ensures { IfOk result (IsReadWithin IsCertificate form_of (view value.now)) }
{
    let Some((word, rest)) = word_and_rest(value) else {
        return Ok(None);
    };
    match Criterion::named(word) {
        Some(criterion) => read_parts(alloc, criterion, rest),
        None => Ok(None),
    }
}

/// The certificate for a criterion, read from the elements after its name.
fn read_parts(
    alloc: Global,
    criterion: Criterion,
    rest: &[Value],
) -> Result<Option<Certificate>, AllocError>
    ensures { IfOk result (IsReadWithin IsCertificate form_of (worded (name_of criterion) (map view rest.now))) }
{
    match rest {
        [vectors, explained] => read_vectors(alloc, criterion, vectors, explained),
        _ => Ok(None),
    }
}

/// The certificate for a criterion, read from the vectors and the elements after them.
fn read_vectors(
    alloc: Global,
    criterion: Criterion,
    vectors: &Value,
    explained: &Value,
) -> Result<Option<Certificate>, AllocError>
    ensures { IfOk result (IsReadWithin IsCertificate form_of (worded (name_of criterion)
        (view vectors.now ∷ view explained.now ∷ []))) }
{
    let Some(vectors) = read_lists::<u16>(alloc, vectors)? else {
        return Ok(None);
    };
    match criterion {
        Criterion::Cc => match read_lists::<u8>(alloc, explained)? {
            Some(schedules) => Ok(Some(Certificate::Cc(vectors, schedules))),
            None => Ok(None),
        },
        Criterion::Cm => match read_lists::<u8>(alloc, explained)? {
            Some(schedules) => Ok(Some(Certificate::Cm(vectors, schedules))),
            None => Ok(None),
        },
        Criterion::Ccv => match read_numbers::<u8>(alloc, explained)? {
            Some(sessions) => Ok(Some(Certificate::Ccv(vectors, Arbitration::of(sessions)))),
            None => Ok(None),
        },
    }
}
