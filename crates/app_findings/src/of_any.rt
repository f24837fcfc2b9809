//! What is known of a history of any object, for each criterion.

ghost use Rattle.std.specs.Prelude.{◌≡◌, IfOk};
ghost use Rattle.app_findings.specs.declared.kept.Kept.TheVariants.{Answers};
ghost use Rattle.app_findings.specs.Answers.{LacksDistinctValues};
ghost use Rattle.app_findings.specs.Findings.{EachIsFound, IsFound};

use crate::by_certificate::finding_by_certificate;
use crate::finding::{Finding, Findings};
use crate::kept::Kept;
use crate::of_memory::{findings_of_memory, report_on_memory};
use crate::piece_work::PieceWork;
use crate::pieces::{certificate_for, copy_of};
use cert_check::Criterion;
use json_histories::AnyHistory;
use model_history::Advice;
use order_memory::IndexedMemory;
use std::alloc::{AllocError, Global};

/// The answers on a history, with nothing that shows them.
///
/// A memory history is decided first: `Met` where it meets the criterion, and `Present` with the first kind of bad pattern that is
/// present where it does not. Where that is open, and for the other objects, a certificate is made, and `work` checks
/// its pieces: `Met` if every piece explains its operation, and `Unexplained` with the first operation whose piece does not.
/// `Unexplained` with no operation if no certificate is made. What is known of a memory history is made once for all
/// criteria, and the certificates for the three are made, checked and dropped one after the other.
///
/// The advice is what a store reported for each operation, in order; if it is empty, there is none. If there is advice, a
/// certificate is made from it. Nobody trusts the advice: whatever it says, each answer is true of the history.
///
/// Fails for want of memory alone. O(n (n + p k + k^2)) for n operations with pasts of p operations in k sessions, and what
/// the search for patterns and the makers of certificates take.
pub fn report_on<W: PieceWork>(
    work: &W,
    alloc: Global,
    history: &AnyHistory,
    advice: &[Option<Advice>],
) -> Result<Findings, AllocError>
    requires { W.can_check work.now }
    ensures { IfOk result (EachIsFound Answers history.now) }
{
    match history.as_memory() {
        Some(memory) => report_on_memory(work, alloc, memory, advice),
        None => findings_of_object(work, alloc, history, advice, Kept::Answers),
    }
}

/// What is known of a history, for each criterion, with what shows it.
///
/// It judges as [`report_on`] does without advice, and keeps what is wanted: a pattern with the fewest operations that its kind takes, and
/// certificates. Where those of what is met are wanted, a memory history that is decided to meet a criterion gets the one that its sources
/// give, which explains every known return. There is none for causal memory where a happened-before relation has more than 100,000 pairs
/// that the causal order doesn't have.
///
/// Fails for want of memory alone. It costs what [`report_on`] takes, the index of a memory, what [`with_fewest_operations`] takes for each
/// pattern, and the certificates that are kept. Up to three of these are held at once.
///
/// [`with_fewest_operations`]: judge_subhistories::with_fewest_operations
pub fn findings_of<W: PieceWork>(
    work: &W,
    alloc: Global,
    history: &AnyHistory,
    kept: Kept,
) -> Result<Findings, AllocError>
    requires { W.can_check work.now }
    ensures { IfOk result (EachIsFound kept history.now) }
{
    match history.as_memory() {
        Some(memory) => {
            let memory = IndexedMemory::of(alloc, memory)?;
            findings_of_memory(work, alloc, &memory, kept)
        }
        None => findings_of_object(work, alloc, history, &[], kept),
    }
}

// The same where nothing is decided without a certificate.
#[tactic(auto, using(crate::proofs::Each::each_found))]
fn findings_of_object<W: PieceWork>(
    work: &W,
    alloc: Global,
    history: &AnyHistory,
    advice: &[Option<Advice>],
    kept: Kept,
) -> Result<Findings, AllocError>
    requires can_check { W.can_check work.now }
    requires open { LacksDistinctValues history.now }
    ensures { IfOk result (EachIsFound kept history.now) }
{
    let cc = finding_of_object(work, alloc, history, advice, Criterion::Cc, kept);
    let cm = finding_of_object(work, alloc, history, advice, Criterion::Cm, kept);
    let ccv = finding_of_object(work, alloc, history, advice, Criterion::Ccv, kept);
    Findings::together(cc, cm, ccv)
}

// What is found of one criterion.
fn finding_of_object<W: PieceWork>(
    work: &W,
    alloc: Global,
    history: &AnyHistory,
    advice: &[Option<Advice>],
    criterion: Criterion,
    kept: Kept,
) -> Result<Finding, AllocError>
    requires can_check { W.can_check work.now }
    requires open { LacksDistinctValues history.now }
    ensures { IfOk result (IsFound kept history.now criterion) }
{
    let made = certificate_for(alloc, history, advice, criterion)?;
    match copy_of(alloc, history) {
        Ok(copy) => finding_by_certificate(work, alloc, copy, criterion, made, kept),
        Err(no_memory) => {
            drop(made);
            Err(no_memory)
        }
    }
}
