//! Case files: a history, the criterion by which it is judged, and optionally a certificate of its shape.

ghost use Rattle.std.specs.Prelude.{◌≡◌, ◌↔◌, Option, IfErr, IfOk, IsTrue, option_copied};
ghost use Rattle.cert_check.specs.Certificates.{criterion_of, HasShapeOf, IsCaseFile};

use crate::certificate::Certificate;
use crate::criterion::Criterion;
use crate::desk_error::DeskError;
use crate::shape::shape_ok;
use model_history::History;
use model_object_trait::SeqObject;
use std::marker::Model;

/// A history, the criterion by which to judge it and optionally a certificate of it.
///
/// The certificate is for that criterion and has the shape of the history. Nothing else is known of it.
#[derive(Drop)]
pub struct CaseFile<O: SeqObject> {
    history: History<O>,
    criterion: Criterion,
    certificate: Option<Certificate>,
}

impl<O: SeqObject> Model for CaseFile<O> {
    ghost use Rattle.std.specs.Prelude.{List, Option};
    ghost use Rattle.cert_check.specs.declared.criterion.Criterion.{Criterion};
    ghost use Rattle.cert_check.specs.declared.certificate.Certificate.{Certificate};
    ghost use Rattle.cert_check.specs.Certificates.{IsCaseFile};

    ghost Value = { (O.Start × List (List (O.Call × Option O.Ret))) × Criterion × Option Certificate };

    ghost view = { λ file. (file.history, file.criterion, file.certificate) };

    ghost invariant = { λ file. IsCaseFile (file.history, file.criterion, file.certificate) };
}

impl<O: SeqObject> CaseFile<O> {
    /// The case file of a history, a criterion and a certificate or none.
    ///
    /// `ShapeMismatch` if there is a certificate and it is for another criterion or does not have the shape of the history. O(n)
    /// for n operations, and O(n k) for one list and k sessions.
    pub fn new(
        history: History<O>,
        criterion: Criterion,
        certificate: Option<Certificate>,
    ) -> Result<CaseFile<O>, DeskError>
        ensures made { IfOk result (λ file. file ≡ (history, criterion, certificate)) }
        ensures refused { IfErr result (λ e. (e ≡ DeskError.ShapeMismatch) × ¬ IsCaseFile (history, criterion, certificate)) }
    {
        if let Some(offered) = &certificate {
            if !is_for(&history, criterion, offered) {
                return Err(DeskError::ShapeMismatch);
            }
        }
        Ok(CaseFile {
            history,
            criterion,
            certificate,
        })
    }

    /// The history.
    pub fn history(&self) -> &History<O>
        ensures { result.now ≡ self.now.0 }
    {
        &self.history
    }

    /// The criterion.
    pub fn criterion(&self) -> Criterion
        ensures { result ≡ self.now.1 }
    {
        self.criterion
    }

    /// The certificate, where there is one. It is for the criterion and has the shape of the history.
    pub fn certificate(&self) -> Option<&Certificate>
        ensures certificate { option_copied result ≡ self.now.2 }
        ensures is_case_file { IsCaseFile self.now }
    {
        self.certificate.as_ref()
    }
}

/// Whether a certificate is for a criterion and has the shape of a history.
fn is_for<O: SeqObject>(
    history: &History<O>,
    criterion: Criterion,
    certificate: &Certificate,
) -> bool
    ensures { IsTrue result ↔ ((criterion_of certificate.now ≡ criterion) × HasShapeOf history.now certificate.now) }
{
    certificate.criterion() == criterion && shape_ok(history, certificate)
}
