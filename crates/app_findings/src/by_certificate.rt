//! What is found of a history and a criterion by a certificate.

ghost use Rattle.std.specs.Prelude.{◌≡◌, IfOk, IfSome};
ghost use Rattle.cert_check.specs.Certificates.{criterion_of};
ghost use Rattle.app_findings.specs.declared.kept.Kept.TheVariants.{Certificates};
ghost use Rattle.app_findings.specs.Findings.{KeepsCertificate};
ghost use Rattle.app_findings.specs.Pieces.{HasShape};
ghost use Rattle.app_findings.specs.Steps.FoundByCertificate.{IsFoundByCertificate, copy_for, finding_from, kept_of_met};
ghost use Rattle.app_findings.specs.Steps.FoundByCertificate.{kept_of_unexplained};

use crate::finding::Finding;
use crate::kept::Kept;
use crate::piece_work::PieceWork;
use app_judging::Answer;
use cert_check::{Certificate, Criterion};
use json_histories::AnyHistory;
use std::alloc::{AllocError, Global};

/// What the pieces of a certificate of a history show, if one was made. The certificate is copied before its check only where it may be
/// kept.
///
/// Fails for want of memory alone. The cost is that of [`PieceWork::answer_of`].
pub(crate) fn finding_by_certificate<W: PieceWork>(
    work: &W,
    alloc: Global,
    history: AnyHistory,
    criterion: Criterion,
    made: Option<Certificate>,
    kept: Kept,
) -> Result<Finding, AllocError>
    requires can_check { W.can_check work.now }
    requires criterion { IfSome made (λ c. criterion_of c ≡ criterion) }
    requires shape { IfSome made (HasShape history) }
    ensures found { IfOk result (IsFoundByCertificate history criterion) }
    ensures keeps { kept ≡ Certificates → IfOk result (KeepsCertificate history criterion) }
{
    match made {
        Some(certificate) => shown_by(work, alloc, history, criterion, certificate, kept),
        None => {
            history.discard();
            Ok(Finding::Unexplained(None, None))
        }
    }
}

// What the pieces of a certificate show.
fn shown_by<W: PieceWork>(
    work: &W,
    alloc: Global,
    history: AnyHistory,
    _criterion: Criterion,
    certificate: Certificate,
    kept: Kept,
) -> Result<Finding, AllocError>
    requires can_check { W.can_check work.now }
    requires criterion { criterion_of certificate ≡ _criterion }
    requires shape { HasShape history certificate }
    ensures found { IfOk result (IsFoundByCertificate history _criterion) }
    ensures keeps { kept ≡ Certificates → IfOk result (KeepsCertificate history _criterion) }
{
    match copied(alloc, &certificate, kept) {
        Ok(copy) => match work.answer_of(alloc, history, certificate) {
            Ok(answer) => Ok(finding_of(answer, copy, kept)),
            Err(_no_memory) => {
                drop(copy);
                Err(AllocError)
            }
        },
        Err(no_memory) => {
            history.discard();
            drop(certificate);
            Err(no_memory)
        }
    }
}

// The copy of a certificate that may be kept.
fn copied(
    alloc: Global,
    certificate: &Certificate,
    kept: Kept,
) -> Result<Option<Certificate>, AllocError>
    ensures { IfOk result (λ copy. copy ≡ copy_for kept certificate.now) }
{
    match kept {
        Kept::Answers | Kept::Patterns => Ok(None),
        Kept::Reasons | Kept::Certificates => Ok(Some(certificate.copy(alloc)?)),
    }
}

// The finding of what the pieces of a certificate show.
fn finding_of(answer: Answer, copy: Option<Certificate>, kept: Kept) -> Finding
    ensures { result ≡ finding_from kept answer copy }
{
    match answer {
        Answer::Yes => Finding::Met(kept_of_met(copy, kept)),
        Answer::No(kind) => {
            drop(copy);
            Finding::Present(kind)
        }
        Answer::Unknown(Some(op)) => {
            Finding::Unexplained(Some(op), kept_of_unexplained(copy, kept))
        }
        Answer::Unknown(None) | Answer::Open(_) => {
            drop(copy);
            Finding::Unexplained(None, None)
        }
    }
}

// What is kept of a certificate that shows that a criterion is met.
fn kept_of_met(copy: Option<Certificate>, kept: Kept) -> Option<Certificate>
    ensures { result ≡ kept_of_met kept copy }
{
    match kept {
        Kept::Certificates => copy,
        Kept::Answers | Kept::Patterns | Kept::Reasons => {
            drop(copy);
            None
        }
    }
}

// What is kept of a certificate that does not explain an operation.
fn kept_of_unexplained(copy: Option<Certificate>, kept: Kept) -> Option<Certificate>
    ensures { result ≡ kept_of_unexplained kept copy }
{
    match kept {
        Kept::Reasons => copy,
        Kept::Answers | Kept::Patterns | Kept::Certificates => {
            drop(copy);
            None
        }
    }
}
