//! From a certificate to an answer, by the calling thread alone.

ghost use Rattle.std.specs.Prelude.{◌≡◌, IfErr, IfOk};
ghost use Rattle.cert_check.specs.Criteria.{Meets};
ghost use Rattle.live_case_answers.specs.Shown.{IsSaidOfFile};
ghost use Rattle.app_judging.specs.Judgements.{IsFoundedByCertificate};

use cert_check::laws::explained_certificates_show_their_criterion;
use cert_check::{CaseFile, DeskError};
use live_case_answers::answer_of_pieces;
use live_case_desk::Answer;
use model_object_trait::SeqObject;
use std::alloc::Global;

/// What the certificate of a case file shows, as `judge_with` says it. The calling thread checks its pieces, one after the other,
/// and no thread is started.
///
/// Fails for want of memory alone. The cost is that of `first_unexplained`.
pub fn judge_alone_with<O: SeqObject>(
    alloc: Global,
    file: &CaseFile<O>,
) -> Result<Answer, DeskError>
    ensures said { IfOk result (IsSaidOfFile O.answer file.now) }
    ensures founded { IfOk result (IsFoundedByCertificate O.answer file.now.0 file.now.1) }
    ensures met { IfOk result (λ a. a ≡ Answer.Yes → Meets O.answer file.now.0 file.now.1) }
    ensures error { IfErr result (λ e. e ≡ DeskError.Memory) }
{
    explained_certificates_show_their_criterion::<O>();
    let _certificate = file.certificate();
    answer_alone(alloc, file)
}

// What the certificate of a case file shows, and unknown where it has none.
fn answer_alone<O: SeqObject>(alloc: Global, file: &CaseFile<O>) -> Result<Answer, DeskError>
    ensures said { IfOk result (IsSaidOfFile O.answer file.now) }
    ensures error { IfErr result (λ e. e ≡ DeskError.Memory) }
{
    if file.certificate().is_none() {
        return Ok(Answer::Unknown(None));
    }
    answer_of_pieces(alloc, file)
}
