//! Reading the certificate that comes next in a text.

ghost use Rattle.std.specs.Prelude.{◌≡◌, ◌∷◌, ◌<◌, ◌≤◌, length, IfOk, IfErr, OnOk};
ghost use Rattle.json.specs.Reads.{token_of};
ghost use Rattle.json_bounded.specs.Steps.Reading.{IsRefused};
ghost use Rattle.pattern_json.specs.Found.{IsShortenedIn};
ghost use Rattle.pattern_json.specs.Steps.Parts.{whole_of as whole_by};
ghost use Rattle.json_tokens.specs.Tokens.{IsValue};

use crate::parts::Parts;
use cert_check::Certificate;
use json::{Reader, Token};
use json_bounded::TextError;
use json_tokens::{gather_list, next_token};
use std::alloc::Global;

/// The certificate that the parts of a whole list are.
fn whole_of(parts: Parts) -> Option<Certificate>
    ensures { result ≡ whole_by parts }
{
    match parts {
        Parts::All(certificate) => Some(certificate),
        Parts::Begun | Parts::Named(_) | Parts::Vectors(_, _) => None,
    }
}

/// Reads the value that begins with a token as a certificate, as [`next_certificate`] reads the value that comes next.
///
/// It serves a caller that took the token to see whether a text or a list comes. `NotJson` exactly where the token begins no value, and
/// `Memory` only where an allocation was refused. O(n) for n bytes of the value.
pub fn certificate_from(
    alloc: Global,
    token: Token<'_>,
    reader: &mut Reader<'_>,
    depth: usize,
) -> Result<Option<Certificate>, TextError>
    ensures read { IfOk result (λ read. IsValue (λ d. IsShortenedIn d read) depth (token_of token.entry ∷ reader.old) reader.new) }
    ensures shorter { OnOk result (length reader.new ≤ length reader.old) }
    ensures refused { IfErr result (IsRefused depth (token_of token.entry ∷ reader.old)) }
{
    let mut parts = Parts::Begun;
    let gathered = gather_list(alloc, token, reader, depth, &mut parts);
    let whole = whole_of(parts);
    match gathered {
        Ok(true) => Ok(whole),
        Ok(false) => {
            drop(whole);
            Ok(None)
        }
        Err(error) => {
            drop(whole);
            Err(error)
        }
    }
}

/// Reads the value that comes next as a certificate, or none where it is the form of no certificate. It passes the value in any case.
///
/// [`read_certificate`](cert_check::read_certificate) describes the form. The certificate may lack the shape of a history. Of one with
/// vectors or schedules of more than 17 sessions it keeps those of the first 17. A history has at most 16, so neither the certificate nor
/// what is kept of it has the shape of one.
///
/// `NotJson` exactly where no value comes next, and `Memory` only where an allocation was refused. O(n) for n bytes of the value. It
/// takes some bytes for each list and each number that it keeps. Of what it does not keep it holds one session, or one text, at a time.
pub fn next_certificate(
    alloc: Global,
    reader: &mut Reader<'_>,
    depth: usize,
) -> Result<Option<Certificate>, TextError>
    ensures read { IfOk result (λ read. IsValue (λ d. IsShortenedIn d read) depth reader.old reader.new) }
    ensures shorter { OnOk result (length reader.new < length reader.old) }
    ensures refused { IfErr result (IsRefused depth reader.old) }
{
    let token = next_token(reader)?;
    certificate_from(alloc, token, reader, depth)
}
