//! Copies of certificates, which steps only lend. Each fails for want of memory alone, and takes as long as what is copied.

ghost use Rattle.std.specs.Prelude.{◌≡◌, IfOk};

use cert_check::Certificate;
use std::alloc::{AllocError, Global};

/// An equal certificate, where there is one.
pub(crate) fn copy_of(
    alloc: Global,
    certificate: &Option<Certificate>,
) -> Result<Option<Certificate>, AllocError>
    ensures { IfOk result (λ copy. copy ≡ certificate.now) }
{
    match certificate {
        None => Ok(None),
        Some(offered) => Ok(Some(offered.copy(alloc)?)),
    }
}
