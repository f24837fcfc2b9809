//! Certificates for each criterion: the past of each operation as a vector, with schedules or one list.

ghost use Rattle.std.specs.Prelude.{◌≡◌, IfOk};
ghost use Rattle.cert_check.specs.Certificates.{criterion_of, vectors_of};

use crate::arbitration::Arbitration;
use crate::criterion::Criterion;
use order_causal::{ByOperation, Vectors};
use std::alloc::{AllocError, Global};

/// For each operation, a list of session numbers, each of which names that session's next operation.
pub type Schedules = ByOperation<u8>;

/// An offered proof that a history meets a criterion: the past of each operation as a vector, and the order in which the calls
/// explain the known returns.
///
/// Nothing is taken on trust: a certificate proves something only if each of its pieces has been checked.
#[derive(Debug, Drop)]
pub enum Certificate {
    /// For causal consistency: for each operation a schedule of its past.
    Cc(Vectors, Schedules),
    /// For causal memory: the same.
    Cm(Vectors, Schedules),
    /// For causal convergence: one list of all operations.
    Ccv(Vectors, Arbitration),
}

impl Certificate {
    /// The criterion that it is for.
    pub fn criterion(&self) -> Criterion
        ensures { result ≡ criterion_of self.now }
    {
        match self {
            Certificate::Cc(_, _) => Criterion::Cc,
            Certificate::Cm(_, _) => Criterion::Cm,
            Certificate::Ccv(_, _) => Criterion::Ccv,
        }
    }

    /// An equal certificate.
    ///
    /// Fails for want of memory alone. O(m) for m counts and session numbers.
    pub fn copy(&self, alloc: Global) -> Result<Certificate, AllocError>
        ensures { IfOk result (λ copy. copy ≡ self.now) }
    {
        match self {
            Certificate::Cc(vectors, schedules) => {
                Ok(Certificate::Cc(vectors.copy(alloc)?, schedules.copy(alloc)?))
            }
            Certificate::Cm(vectors, schedules) => {
                Ok(Certificate::Cm(vectors.copy(alloc)?, schedules.copy(alloc)?))
            }
            Certificate::Ccv(vectors, arbitration) => {
                Ok(Certificate::Ccv(vectors.copy(alloc)?, arbitration.copy(alloc)?))
            }
        }
    }

    /// The vectors of the pasts of all operations.
    pub fn vectors(&self) -> &Vectors
        ensures { result.now ≡ vectors_of self.now }
    {
        match self {
            Certificate::Cc(v, _) | Certificate::Cm(v, _) | Certificate::Ccv(v, _) => v,
        }
    }
}
