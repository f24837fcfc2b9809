//! What is found of a certificate beside a history.

ghost use Rattle.std.specs.Prelude.{◌↔◌, IsTrue};
ghost use Rattle.serde_json.specs.Data.{Data};
ghost use Rattle.pattern_json.specs.Found.{IsFoundIn, IsShortenedIn};
ghost use Rattle.pattern_json.specs.Shortened.{IsTooLarge};

use cert_check::Certificate;
use model_history::MAX_SESSIONS;

/// What is read of a value as a certificate.
#[derive(Drop)]
pub enum FoundCertificate {
    /// The certificate whose form the value is.
    Certificate(Certificate),
    /// The value is the form of a certificate with more sessions than a history has. It was not kept whole.
    TooLarge,
    /// The value is the form of no certificate.
    NoForm,
}

/// Whether the certificate has vectors or schedules of more sessions than a history has.
fn is_too_large(certificate: &Certificate) -> bool
    ensures { IsTrue result ↔ IsTooLarge certificate.now }
{
    match certificate {
        Certificate::Cc(vectors, schedules) | Certificate::Cm(vectors, schedules) => {
            vectors.sessions() > MAX_SESSIONS || schedules.sessions() > MAX_SESSIONS
        }
        Certificate::Ccv(vectors, _) => vectors.sessions() > MAX_SESSIONS,
    }
}

/// What [`read_pair`](crate::read_pair) finds where this was read of the certificate.
pub(crate) fn found_of(read: Option<Certificate>) -> FoundCertificate
    ensures { (d : Data) → IsShortenedIn d read → IsFoundIn d result }
{
    match read {
        None => FoundCertificate::NoForm,
        Some(certificate) => if is_too_large(&certificate) {
            FoundCertificate::TooLarge
        } else {
            FoundCertificate::Certificate(certificate)
        },
    }
}
