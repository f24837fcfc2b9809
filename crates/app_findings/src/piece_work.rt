//! Who checks the pieces of certificates: the calling thread alone, or workers in threads of a runtime.

ghost use Rattle.std.specs.Prelude.{◌≡◌, IfErr, IfOk};
ghost use denote.Param.Send.{IsSync};
ghost use Rattle.cert_check.specs.CertificateForm.{IsCertificate};
ghost use Rattle.cert_check.specs.Certificates.{criterion_of};
ghost use Rattle.app_findings.specs.Answers.{IsTrueOf};
ghost use Rattle.app_findings.specs.Pieces.{HasShape, IsCheckError, IsShown};

use crate::pieces::{answer_alone, answer_in_threads};
use app_judging::Answer;
use cert_check::{Certificate, DeskError};
use json_histories::AnyHistory;
use judge_workers::{CallingThread, WorkerThreads};
use std::alloc::Global;
use std::sync::Wait;
use std::thread::Threads;

/// Checks the pieces of certificates, which workers share.
pub trait PieceWork {
    /// It can do this work: threads may share the runtime.
    ghost can_check: { Self → Type 0 };

    /// What the pieces of a certificate of a history show. It takes both, and drops them.
    ///
    /// `Yes` if every piece explains its operation, and then the history meets the certificate's criterion; else `Unknown` with the first
    /// operation whose piece doesn't. `ShapeMismatch` where the certificate does not have the shape of the history, and `Memory` where an
    /// allocation was refused. O(n k (p + k)) for n operations with pasts of p operations in k sessions, or O(n (n + k^2)) where the
    /// certificate has one list, shared by the workers.
    fn answer_of(
        &self,
        alloc: Global,
        history: AnyHistory,
        certificate: Certificate,
    ) -> Result<Answer, DeskError>
        requires { can_check self.now }
        ensures shape { IfOk result (λ _. HasShape history certificate) }
        ensures shown { IfOk result (IsShown history certificate) }
        ensures truth { IfOk result (IsTrueOf history (criterion_of certificate)) }
        ensures range { IfOk result (λ answer. answer ≡ Answer.Yes → IsCertificate certificate) }
        ensures error { IfErr result (IsCheckError (HasShape history certificate)) };
}

impl PieceWork for CallingThread {
    ghost can_check = { λ _. Unit {0} };

    fn answer_of(
        &self,
        alloc: Global,
        history: AnyHistory,
        certificate: Certificate,
    ) -> Result<Answer, DeskError> {
        answer_alone(alloc, history, certificate)
    }
}

impl<'a, T: Threads + Wait + Sync> PieceWork for WorkerThreads<'a, T> {
    ghost can_check = { λ _. IsSync T.row };

    fn answer_of(
        &self,
        alloc: Global,
        history: AnyHistory,
        certificate: Certificate,
    ) -> Result<Answer, DeskError> {
        answer_in_threads(self.rt(), alloc, history, certificate, self.workers())
    }
}
