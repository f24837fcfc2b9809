//! Reading what a case is filed with: the name of a criterion, or a certificate.

ghost use Rattle.std.specs.Prelude.{◌<◌, length, IfOk, IfErr, OnOk};
ghost use Rattle.serde_json.specs.Data.{Data, string};
ghost use Rattle.json_bounded.specs.Steps.Reading.{IsRefused};
ghost use Rattle.pattern_json.specs.Found.{IsShortenedIn};
ghost use Rattle.live_script.specs.Steps.Filing.{IsCaseIn, IsNoText};
ghost use Rattle.json_tokens.specs.Tokens.{IsValue};

use cert_check::{Certificate, Criterion};
use json::{Reader, Token};
use json_bounded::TextError;
use json_tokens::next_token;
use pattern_json::certificate_from;
use std::alloc::Global;

/// The criterion of a case, and its certificate where it has one.
pub(crate) type Case = (Criterion, Option<Certificate>);

/// The case of the criterion with this name, or none.
fn named_case(name: &str) -> Option<Case>
    ensures { IsCaseIn (string name.now) result }
{
    match Criterion::named(name) {
        Some(criterion) => Some((criterion, None)),
        None => None,
    }
}

/// The case of a certificate that was read, or none.
fn certified_case(read: Option<Certificate>) -> Option<Case>
    ensures { (d : Data) → IsNoText d → IsShortenedIn d read → IsCaseIn d result }
{
    match read {
        Some(certificate) => Some((certificate.criterion(), Some(certificate))),
        None => None,
    }
}

/// The criterion whose name comes next, or the certificate that comes next with its criterion. None where it is neither. It passes the
/// value.
///
/// Of a certificate it keeps what [`certificate_from`] keeps.
pub(crate) fn next_case(
    alloc: Global,
    reader: &mut Reader<'_>,
    depth: usize,
) -> Result<Option<Case>, TextError>
    ensures read { IfOk result (λ case. IsValue (λ d. IsCaseIn d case) depth reader.old reader.new) }
    ensures shorter { OnOk result (length reader.new < length reader.old) }
    ensures refused { IfErr result (IsRefused depth reader.old) }
{
    let token = next_token(reader)?;
    if let Token::String(name) = token {
        return Ok(named_case(name));
    }
    match certificate_from(alloc, token, reader, depth) {
        Ok(read) => Ok(certified_case(read)),
        Err(error) => Err(error),
    }
}
