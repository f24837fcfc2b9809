//! The answer on a history and a certificate of it.

ghost use Rattle.std.specs.Prelude.{ℕ, IfErr, IfOk, string_bytes};
ghost use Rattle.cert_check.specs.CertificateForm.{form_of as certificate_form, IsCertificate};
ghost use Rattle.json_histories.specs.AnyForm.{form_of, IsAnyHistory};
ghost use Rattle.app_engine.specs.Running.{IsOutputError};
ghost use Rattle.app_engine.specs.Checking.{IsCheckReport, IsPair, IsUnread};

use crate::failure::RunError;
use app_explanations::report_line;
use app_findings::PieceWork;
use app_orders::Order;
use cert_check::{Certificate, DeskError};
use json_histories::AnyHistory;
use pattern_json::{FoundCertificate, read_pair};
use std::alloc::Global;

/// The line on the certificate in the input, which comes there after its history. `work` checks its pieces.
///
/// Refuses what is no such pair, and fails for want of memory. It costs what reading the pair and [`PieceWork::answer_of`] take.
pub(crate) fn check<W: PieceWork>(work: &W, alloc: Global, input: &[u8]) -> Result<String, RunError>
    requires { W.can_check work.now }
    ensures output { IfOk result (λ text. IsCheckReport input.now (string_bytes text)) }
    ensures error { (workers : ℕ) → IfErr result (IsOutputError (Order.Check workers) input.now) }
{
    let (history, certificate) = pair_in(alloc, input)?;
    let criterion = certificate.criterion();
    match work.answer_of(alloc, history, certificate) {
        Ok(answer) => Ok(report_line(alloc, criterion, answer)?),
        Err(DeskError::ShapeMismatch) => Err(RunError::ShapeMismatch),
        Err(_no_memory) => Err(RunError::Memory),
    }
}

// The history and the certificate of an input.
#[tactic(auto, using(crate::proofs::Pairs::unread_pairs))]
fn pair_in(alloc: Global, input: &[u8]) -> Result<(AnyHistory, Certificate), RunError>
    ensures history { IfOk result (λ pair. IsAnyHistory pair.0) }
    ensures certificate { IfOk result (λ pair. IsCertificate pair.1) }
    ensures read { IfOk result (λ pair. IsPair input.now (form_of pair.0) (certificate_form pair.1)) }
    ensures error { IfErr result (IsUnread input.now) }
{
    let (history, found) = read_pair(alloc, input)?;
    match found {
        FoundCertificate::Certificate(certificate) => Ok((history, certificate)),
        FoundCertificate::TooLarge => {
            history.discard();
            drop(found);
            Err(RunError::ShapeMismatch)
        }
        FoundCertificate::NoForm => {
            history.discard();
            drop(found);
            Err(RunError::BadCertificate)
        }
    }
}
