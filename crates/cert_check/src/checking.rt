//! The check of one piece of a case file's certificate, and the first operation whose piece explains nothing.

ghost use Rattle.std.specs.Prelude.{◌≡◌, ◌↔◌, IfOk, IsNone, IsSome, MatchOption, Some};
ghost use Rattle.model_history.specs.History.{IsOp};
ghost use Rattle.cert_check.specs.Criteria.{Meets};
ghost use Rattle.cert_check.specs.declared.certificate.Certificate.{Certificate as AnyCertificate};
ghost use Rattle.cert_check.specs.Certificates.{IsExplainedIn, IsExplainedPiece, IsExplainedThroughout};
ghost use Rattle.cert_check.specs.Certificates.{IsFirstUnexplained};
ghost use Rattle.cert_check.specs.Steps.Firsts.{IsFirstOfSession};

use crate::case_file::CaseFile;
use crate::laws::explained_certificates_show_their_criterion;
use crate::piece_checker::PieceChecker;
use model_history::OpId;
use model_object_trait::SeqObject;
use std::alloc::{AllocError, Global};

/// The result of the check of one piece of a certificate.
#[derive(Clone, Copy, Debug, PartialEq, Eq)]
pub enum Outcome {
    /// The piece explains its operation.
    Explained,
    /// It does not.
    Unexplained,
}

/// Whether the certificate of a case file has a piece that explains an operation.
///
/// Fails for want of memory alone. O(p k + k^2) for k sessions and a schedule of p operations, or O(n + k^2) for one
/// list of n; at most one call of the object for each of these operations.
pub fn check_piece<O: SeqObject>(
    alloc: Global,
    file: &CaseFile<O>,
    op: OpId,
) -> Result<Outcome, AllocError>
    requires certificate { IsSome file.now.2 }
    requires is_op { IsOp file.now.0 op }
    ensures { IfOk result (λ outcome. (outcome ≡ Outcome.Explained) ↔ IsExplainedIn O.answer file.now op) }
{
    let mut checker = PieceChecker::of_one(alloc, file)?;
    let outcome = checker.check(alloc, op);
    drop(checker);
    outcome
}

/// The first operation, by session and then by index, that the certificate's piece does not explain.
///
/// Where there is none, the history meets the criterion of the case file.
///
/// Fails for want of memory alone. The cost is that of `check_piece` at each operation.
pub fn first_unexplained<O: SeqObject>(
    alloc: Global,
    file: &CaseFile<O>,
) -> Result<Option<OpId>, AllocError>
    requires { IsSome file.now.2 }
    ensures first { (certificate : AnyCertificate) → file.now.2 ≡ Some certificate → IfOk result (λ first. MatchOption first
        (IsExplainedThroughout O.answer file.now.0 certificate) (IsFirstUnexplained O.answer file.now.0 certificate)) }
    ensures meets { IfOk result (λ first. IsNone first → Meets O.answer file.now.0 file.now.1) }
{
    explained_certificates_show_their_criterion::<O>();
    let _is_case_file = file.certificate();
    let mut checker = PieceChecker::new(alloc, file)?;
    let first = first_of_history(alloc, &mut checker);
    drop(checker);
    first
}

/// The first operation of the history that the certificate's piece does not explain.
fn first_of_history<'a, O: SeqObject>(
    alloc: Global,
    checker: &mut PieceChecker<'a, O>,
) -> Result<Option<OpId>, AllocError>
    ensures { IfOk result (λ first. (c : AnyCertificate) → checker.old.2 ≡ Some c → MatchOption first
        (IsExplainedThroughout O.answer checker.old.0 c) (IsFirstUnexplained O.answer checker.old.0 c)) }
{
    for session in 0..checker.history().sessions() {
        let found = first_of_session(alloc, checker, session)?;
        if found.is_some() {
            return Ok(found);
        }
    }
    Ok(None)
}

/// The first operation of a session that the certificate's piece does not explain.
fn first_of_session<'a, O: SeqObject>(
    alloc: Global,
    checker: &mut PieceChecker<'a, O>,
    session: usize,
) -> Result<Option<OpId>, AllocError>
    ensures first { IfOk result (λ first. (c : AnyCertificate) → checker.old.2 ≡ Some c
        → IsFirstOfSession checker.old.0 (IsExplainedPiece O.answer checker.old.0 c) session first) }
    ensures same { checker.new ≡ checker.old }
{
    let h = checker.history();
    for index in 0..h.len(session) {
        let op = OpId::at(session, index);
        if !checker.is_explained(alloc, op)? {
            return Ok(Some(op));
        }
    }
    Ok(None)
}
