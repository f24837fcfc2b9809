//! Writing a certificate as a JSON value.

ghost use Rattle.std.specs.Prelude.{◌≡◌, ◌<◌, [], IfOk, length, slice_index_or};
ghost use Rattle.serde_json.specs.View.{view};
ghost use Rattle.json_histories.specs.Reads.{list_form};
ghost use Rattle.cert_check.specs.CertificateForm.{form_of};

use crate::written::{Written, list_value, worded_both};
use cert_check::Certificate;
use model_history::OpId;
use order_causal::ByOperation;
use serde_json::Value;
use std::alloc::{AllocError, Global};

/// The form of a certificate, which [`read_certificate`](cert_check::read_certificate) reads as that certificate.
///
/// Fails for want of memory alone. O(n) for n numbers of the certificate.
pub fn certificate_value(alloc: Global, certificate: &Certificate) -> Result<Value, AllocError>
    ensures form { IfOk result (λ value. view value ≡ form_of certificate.now) }
{
    let name = certificate.criterion().name();
    match certificate {
        Certificate::Cc(vectors, schedules) | Certificate::Cm(vectors, schedules) => {
            worded_both(
                alloc,
                name,
                lists_value(alloc, vectors),
                lists_value(alloc, schedules),
            )
        }
        Certificate::Ccv(vectors, arbitration) => {
            let vectors = lists_value(alloc, vectors);
            worded_both(
                alloc,
                name,
                vectors,
                list_value(alloc, arbitration.sessions()),
            )
        }
    }
}

// The list of the sessions. Each session is the list of its operations, and each operation is the list of its forms.
fn lists_value<T: Written>(alloc: Global, lists: &ByOperation<T>) -> Result<Value, AllocError>
    ensures { IfOk result (λ value. view value ≡ list_form (list_form (list_form T.form)) lists.now) }
{
    let mut values = Vec::new(alloc);
    for session in 0..lists.sessions() {
        let value = session_value(alloc, lists, session)?;
        values.push(value)?;
    }
    Ok(Value::Array(values))
}

// The list of the operations of a session. Each operation is the list of its forms.
fn session_value<T: Written>(
    alloc: Global,
    lists: &ByOperation<T>,
    session: usize,
) -> Result<Value, AllocError>
    requires { session < length lists.now }
    ensures { IfOk result
        (λ value. view value ≡ list_form (list_form T.form) (slice_index_or lists.now session [])) }
{
    let mut values = Vec::new(alloc);
    for index in 0..lists.operations(session) {
        let value = list_value(alloc, lists.get(OpId::at(session, index)))?;
        values.push(value)?;
    }
    Ok(Value::Array(values))
}

// A count of a vector.
impl Written for u16 {
    ghost use Rattle.json_histories.specs.Reads.{number_form};

    ghost form = { number_form };

    fn value(&self, _alloc: Global) -> Result<Value, AllocError> {
        Ok(Value::from(u64::from(*self)))
    }
}

// The number of a session.
impl Written for u8 {
    ghost use Rattle.json_histories.specs.Reads.{number_form};

    ghost form = { number_form };

    fn value(&self, _alloc: Global) -> Result<Value, AllocError> {
        Ok(Value::from(u64::from(*self)))
    }
}
