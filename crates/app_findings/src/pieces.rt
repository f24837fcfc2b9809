//! What the pieces of a certificate show, and the certificate that is made, for a history of each of the eight objects.

ghost use Rattle.std.specs.Prelude.{◌≡◌, IfErr, IfOk, IfSome, Some};
ghost use Rattle.cert_check.specs.CertificateForm.{IsCertificate};
ghost use Rattle.cert_check.specs.Certificates.{HasShapeOf, criterion_of};
ghost use Rattle.cert_check.specs.Criteria.{Meets};
ghost use Rattle.live_case_answers.specs.Shown.{IsSaidOf};
ghost use Rattle.app_findings.specs.Answers.{IsTrueOf};
ghost use Rattle.app_findings.specs.Pieces.{HasShape, IsCheckError, IsShown};

use app_judging::{Answer, Judged, judge_alone_with, judge_with};
use cert_check::{CaseFile, Certificate, Criterion, DeskError};
use json_histories::{AnyHistory, PlainHistory};
use judge_workers::{OpenGate, Workers};
use model_history::{Advice, History};
use model_object_trait::SeqObject;
use std::alloc::{AllocError, Global};
use std::sync::Wait;
use std::thread::Threads;

/// The certificate that is made of a history and a criterion, if one is.
///
/// Fails for want of memory alone. It costs what [`Judged::make`] costs.
pub(crate) fn certificate_for(
    alloc: Global,
    history: &AnyHistory,
    advice: &[Option<Advice>],
    criterion: Criterion,
) -> Result<Option<Certificate>, AllocError>
    ensures criterion { IfOk result (λ made. IfSome made (λ c. criterion_of c ≡ criterion)) }
    ensures shape { IfOk result (λ made. IfSome made (HasShape history.now)) }
{
    match history {
        AnyHistory::Register(plain) => made(alloc, plain.history(), advice, criterion),
        AnyHistory::Counter(plain) => made(alloc, plain.history(), advice, criterion),
        AnyHistory::Set(plain) => made(alloc, plain.history(), advice, criterion),
        AnyHistory::Queue(plain) => made(alloc, plain.history(), advice, criterion),
        AnyHistory::Memory(history) => made(alloc, history, advice, criterion),
        AnyHistory::Counters(history) => made(alloc, history, advice, criterion),
        AnyHistory::Sets(history) => made(alloc, history, advice, criterion),
        AnyHistory::Queues(history) => made(alloc, history, advice, criterion),
    }
}

// The same for the histories of one object.
fn made<O: Judged>(
    alloc: Global,
    history: &History<O>,
    advice: &[Option<Advice>],
    criterion: Criterion,
) -> Result<Option<Certificate>, AllocError>
    ensures criterion { IfOk result (λ made. IfSome made (λ c. criterion_of c ≡ criterion)) }
    ensures shape { IfOk result (λ made. IfSome made (HasShapeOf history.now)) }
{
    O::make(alloc, history, advice, criterion)
}

/// An equal history.
///
/// Fails for want of memory alone. O(n) for n operations.
pub(crate) fn copy_of(alloc: Global, history: &AnyHistory) -> Result<AnyHistory, AllocError>
    ensures { IfOk result (λ copy. copy ≡ history.now) }
{
    match history {
        AnyHistory::Register(plain) => Ok(AnyHistory::Register(copy_of_plain(alloc, plain)?)),
        AnyHistory::Counter(plain) => Ok(AnyHistory::Counter(copy_of_plain(alloc, plain)?)),
        AnyHistory::Set(plain) => Ok(AnyHistory::Set(copy_of_plain(alloc, plain)?)),
        AnyHistory::Queue(plain) => Ok(AnyHistory::Queue(copy_of_plain(alloc, plain)?)),
        AnyHistory::Memory(history) => Ok(AnyHistory::Memory(history.copy(alloc)?)),
        AnyHistory::Counters(history) => Ok(AnyHistory::Counters(history.copy(alloc)?)),
        AnyHistory::Sets(history) => Ok(AnyHistory::Sets(history.copy(alloc)?)),
        AnyHistory::Queues(history) => Ok(AnyHistory::Queues(history.copy(alloc)?)),
    }
}

// The same for a history that begins from the plain start of its object.
fn copy_of_plain<O: SeqObject>(
    alloc: Global,
    plain: &PlainHistory<O>,
) -> Result<PlainHistory<O>, AllocError>
    ensures { IfOk result (λ copy. copy ≡ plain.now) }
{
    let copy = plain.history().copy(alloc)?;
    Ok(PlainHistory::of(copy))
}

/// What the pieces of a certificate of a history show. This many workers check them, in threads of the runtime.
pub(crate) fn answer_in_threads<T: Threads + Wait + Sync>(
    rt: &T,
    alloc: Global,
    history: AnyHistory,
    certificate: Certificate,
    workers: Workers,
) -> Result<Answer, DeskError>
    ensures shape { IfOk result (λ _. HasShape history certificate) }
    ensures shown { IfOk result (IsShown history certificate) }
    ensures truth { IfOk result (IsTrueOf history (criterion_of certificate)) }
    ensures range { IfOk result (λ answer. answer ≡ Answer.Yes → IsCertificate certificate) }
    ensures error { IfErr result (IsCheckError (HasShape history certificate)) }
{
    match history {
        AnyHistory::Register(plain) => {
            by_workers(rt, alloc, plain.into_history(), certificate, workers)
        }
        AnyHistory::Counter(plain) => {
            by_workers(rt, alloc, plain.into_history(), certificate, workers)
        }
        AnyHistory::Set(plain) => by_workers(rt, alloc, plain.into_history(), certificate, workers),
        AnyHistory::Queue(plain) => {
            by_workers(rt, alloc, plain.into_history(), certificate, workers)
        }
        AnyHistory::Memory(history) => by_workers(rt, alloc, history, certificate, workers),
        AnyHistory::Counters(history) => by_workers(rt, alloc, history, certificate, workers),
        AnyHistory::Sets(history) => by_workers(rt, alloc, history, certificate, workers),
        AnyHistory::Queues(history) => by_workers(rt, alloc, history, certificate, workers),
    }
}

// The same for the histories of one object.
#[tactic(auto, using(crate::proofs::JudgeErrors::memory_alone))]
fn by_workers<O: Judged + Send + Sync, T: Threads + Wait + Sync>(
    rt: &T,
    alloc: Global,
    history: History<O>,
    certificate: Certificate,
    workers: Workers,
) -> Result<Answer, DeskError>
    ensures shape { IfOk result (λ _. HasShapeOf history certificate) }
    ensures shown { IfOk result (IsSaidOf O.answer history certificate) }
    ensures truth { IfOk result (λ answer. answer ≡ Answer.Yes → Meets O.answer history (criterion_of certificate)) }
    ensures range { IfOk result (λ answer. answer ≡ Answer.Yes → IsCertificate certificate) }
    ensures error { IfErr result (IsCheckError (HasShapeOf history certificate)) }
{
    history.value_is_history();
    let file = file_of(history, certificate)?;
    match judge_with(rt, alloc, file, workers.count(), &OpenGate) {
        Ok(answer) => Ok(answer),
        Err(DeskError::Memory) => Err(DeskError::Memory),
        Err(_) => unreachable!(),
    }
}

/// What the pieces of a certificate of a history show. The calling thread checks them, and starts no thread.
pub(crate) fn answer_alone(
    alloc: Global,
    history: AnyHistory,
    certificate: Certificate,
) -> Result<Answer, DeskError>
    ensures shape { IfOk result (λ _. HasShape history certificate) }
    ensures shown { IfOk result (IsShown history certificate) }
    ensures truth { IfOk result (IsTrueOf history (criterion_of certificate)) }
    ensures range { IfOk result (λ answer. answer ≡ Answer.Yes → IsCertificate certificate) }
    ensures error { IfErr result (IsCheckError (HasShape history certificate)) }
{
    match history {
        AnyHistory::Register(plain) => by_caller(alloc, plain.into_history(), certificate),
        AnyHistory::Counter(plain) => by_caller(alloc, plain.into_history(), certificate),
        AnyHistory::Set(plain) => by_caller(alloc, plain.into_history(), certificate),
        AnyHistory::Queue(plain) => by_caller(alloc, plain.into_history(), certificate),
        AnyHistory::Memory(history) => by_caller(alloc, history, certificate),
        AnyHistory::Counters(history) => by_caller(alloc, history, certificate),
        AnyHistory::Sets(history) => by_caller(alloc, history, certificate),
        AnyHistory::Queues(history) => by_caller(alloc, history, certificate),
    }
}

// The same for the histories of one object.
fn by_caller<O: SeqObject>(
    alloc: Global,
    history: History<O>,
    certificate: Certificate,
) -> Result<Answer, DeskError>
    ensures shape { IfOk result (λ _. HasShapeOf history certificate) }
    ensures shown { IfOk result (IsSaidOf O.answer history certificate) }
    ensures truth { IfOk result (λ answer. answer ≡ Answer.Yes → Meets O.answer history (criterion_of certificate)) }
    ensures range { IfOk result (λ answer. answer ≡ Answer.Yes → IsCertificate certificate) }
    ensures error { IfErr result (IsCheckError (HasShapeOf history certificate)) }
{
    history.value_is_history();
    let file = file_of(history, certificate)?;
    judge_alone_with(alloc, &file)
}

// The case file of a history and a certificate.
fn file_of<O: SeqObject>(
    history: History<O>,
    certificate: Certificate,
) -> Result<CaseFile<O>, DeskError>
    ensures file { IfOk result (λ file. file ≡ (history, criterion_of certificate, Some certificate)) }
    ensures shape { IfOk result (λ _. HasShapeOf history certificate) }
    ensures error { IfErr result (IsCheckError (HasShapeOf history certificate)) }
{
    let criterion = certificate.criterion();
    CaseFile::new(history, criterion, Some(certificate))
}
