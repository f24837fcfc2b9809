//! From a history to an answer.

ghost use Rattle.std.specs.Prelude.{◌≡◌, ◌↔◌, IfErr, IfOk, IsTrue};
ghost use Rattle.pattern_check.specs.declared.kind.Kind.{Kind as AnyKind};
ghost use Rattle.cert_check.specs.Criteria.{Meets};
ghost use Rattle.judge_workers.specs.Workers.{AreWorkers};
ghost use Rattle.live_case_answers.specs.Shown.{IsSaidOfFile};
ghost use Rattle.app_judging.specs.Judgements.{IsFounded, IsFoundedByCertificate, IsJudgeError, IsKnown, IsUnexplainedOf};

use crate::judged::Judged;
use crate::making::made_file;
use cert_check::laws::explained_certificates_show_their_criterion;
use cert_check::{CaseFile, Criterion, DeskError};
use judge_decision::Decision;
use judge_workers::{Gate, MAX_WORKERS};
use live_case_answers::answer_of_file;
use live_case_desk::Answer;
use model_history::{Advice, History};
use std::alloc::Global;
use std::sync::Wait;
use std::thread::Threads;

/// What is known of a history and a criterion.
///
/// It decides the history first: `Yes` where it meets the criterion, and `No` with a kind that excludes the criterion where it
/// does not. Each history of a memory with distinct values is decided, and its kind is the first that is present. A history
/// that is not decided gets a certificate, whose pieces are checked as `judge_with` does: `Yes` where every piece explains its
/// operation, and `Unknown` with the first operation whose piece does not. `Unknown` with no operation where no certificate is
/// made. It is never `Open`.
///
/// The advice is what a store reported of each operation, in order; empty advice is none. It can help to make a certificate,
/// and nobody trusts it: the answer is correct whatever the advice says.
///
/// `BadWorkers` where `workers` is not 1 to 16, and then nothing else happens; else `Memory`. The cost is that of `decide`, and
/// where that leaves the history open also that of `make` and of `judge_with`.
#[tactic(auto, using(crate::proofs::JudgedLaws::memory_alone))]
pub fn judge<O: Judged + Send + Sync, R: Threads + Wait + Sync, G: Gate>(
    rt: &R,
    alloc: Global,
    h: History<O>,
    advice: &[Option<Advice>],
    criterion: Criterion,
    workers: usize,
    gate: &G,
) -> Result<Answer, DeskError>
    ensures founded { IfOk result (IsFounded (Meets O.answer h criterion) (O.excluded h criterion) (IsUnexplainedOf O.answer h criterion)) }
    ensures not_met { IfOk result (λ a. (kind : AnyKind) → a ≡ Answer.No kind → ¬ Meets O.answer h criterion) }
    ensures kind { IfOk result (λ a. (kind : AnyKind) → a ≡ Answer.No kind → O.finds h criterion kind) }
    ensures first { IfOk result (λ a. (kind : AnyKind) → a ≡ Answer.No kind → O.names h criterion kind) }
    ensures decided { O.decides h criterion → IfOk result IsKnown }
    ensures resolved { O.resolves h → IfOk result IsKnown }
    ensures workers { IfOk result (λ _. AreWorkers workers) }
    ensures error { IfErr result (IsJudgeError workers) }
{
    if !are_workers(workers) {
        return Err(DeskError::BadWorkers);
    }
    let decision = O::decide(alloc, &h, criterion)?;
    match decision {
        Decision::Meets => Ok(Answer::Yes),
        Decision::Excluded(pattern) => {
            let kind = pattern.kind();
            drop(pattern);
            Ok(Answer::No(kind))
        }
        Decision::ExcludedBy(kind) => Ok(Answer::No(kind)),
        Decision::Open => judge_by_certificate(rt, alloc, h, advice, criterion, workers, gate),
    }
}

/// What is known of a history that is not decided: what the pieces of a certificate show, where one is made.
fn judge_by_certificate<O: Judged + Send + Sync, R: Threads + Wait + Sync, G: Gate>(
    rt: &R,
    alloc: Global,
    h: History<O>,
    advice: &[Option<Advice>],
    criterion: Criterion,
    workers: usize,
    gate: &G,
) -> Result<Answer, DeskError>
    ensures founded { IfOk result (IsFoundedByCertificate O.answer h criterion) }
    ensures decided { O.decides h criterion → Meets O.answer h criterion → IfOk result IsKnown }
    ensures error { IfErr result (λ e. e ≡ DeskError.Memory) }
{
    let file = made_file(alloc, h, advice, criterion)?;
    judge_file(rt, alloc, file, workers, gate)
}

/// What the certificate of a case file shows.
fn judge_file<O: Judged + Send + Sync, R: Threads + Wait + Sync, G: Gate>(
    rt: &R,
    alloc: Global,
    file: CaseFile<O>,
    workers: usize,
    gate: &G,
) -> Result<Answer, DeskError>
    ensures said { IfOk result (IsSaidOfFile O.answer file) }
    ensures founded { IfOk result (IsFoundedByCertificate O.answer file.0 file.1) }
    ensures error { IfErr result (λ e. e ≡ DeskError.Memory) }
{
    explained_certificates_show_their_criterion::<O>();
    let _certificate = file.certificate();
    answer_of_file(rt, alloc, file, workers, gate)
}

/// What the certificate of a case file shows.
///
/// `Yes` where every piece explains its operation, and then the history meets the criterion; else `Unknown` with the first
/// operation whose piece does not. `Unknown` with no operation where there is no certificate. The workers are threads that
/// take pieces from a desk of their own, and each of their checks is between `enter` and `leave` of the gate. The calling
/// thread checks what they leave, and calls the gate for none of that.
///
/// `BadWorkers` where `workers` is not 1 to 16, and then nothing else happens; else `Memory`. The cost is that of
/// `first_unexplained`.
#[tactic(auto, using(crate::proofs::JudgedLaws::memory_alone))]
pub fn judge_with<O: Judged + Send + Sync, R: Threads + Wait + Sync, G: Gate>(
    rt: &R,
    alloc: Global,
    file: CaseFile<O>,
    workers: usize,
    gate: &G,
) -> Result<Answer, DeskError>
    ensures said { IfOk result (IsSaidOfFile O.answer file) }
    ensures met { IfOk result (λ a. a ≡ Answer.Yes → Meets O.answer file.0 file.1) }
    ensures workers { IfOk result (λ _. AreWorkers workers) }
    ensures error { IfErr result (IsJudgeError workers) }
{
    if !are_workers(workers) {
        drop(file);
        return Err(DeskError::BadWorkers);
    }
    judge_file(rt, alloc, file, workers, gate)
}

/// Whether there may be so many workers.
fn are_workers(workers: usize) -> bool
    ensures { IsTrue result ↔ AreWorkers workers }
{
    1 <= workers && workers <= MAX_WORKERS
}
