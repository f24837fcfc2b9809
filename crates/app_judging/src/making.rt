//! The case file of a history with the certificate that is made of it.

ghost use Rattle.std.specs.Prelude.{◌≡◌, IfErr, IfOk, IsSomeAnd};
ghost use Rattle.cert_check.specs.Certificates.{IsExplainedThroughout};
ghost use Rattle.cert_check.specs.Criteria.{Meets};

use crate::judged::Judged;
use cert_check::{CaseFile, Criterion, DeskError};
use model_history::{Advice, History};
use std::alloc::Global;

/// The case file of a history and a criterion, with the certificate that is made of them, where one is made.
///
/// Fails for want of memory alone. The cost is that of `make`.
pub fn made_file<O: Judged>(
    alloc: Global,
    h: History<O>,
    advice: &[Option<Advice>],
    criterion: Criterion,
) -> Result<CaseFile<O>, DeskError>
    ensures file { IfOk result (λ file. file ≡ (h, criterion, file.2)) }
    ensures decided { O.decides h criterion → Meets O.answer h criterion
        → IfOk result (λ file. IsSomeAnd file.2 (IsExplainedThroughout O.answer h)) }
    ensures error { IfErr result (λ e. e ≡ DeskError.Memory) }
{
    let made = O::make(alloc, &h, advice, criterion)?;
    let file = CaseFile::new(h, criterion, made)?;
    Ok(file)
}
