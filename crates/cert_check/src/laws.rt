//! What holds of the criteria for every object, and of certificates. The functions do nothing: what they ensure is the law.

ghost use Rattle.std.specs.Prelude.{◌≡◌, ◌↔◌};
ghost use Rattle.model_history.specs.History.{HistoryValue, IsHistory};
ghost use Rattle.cert_check.specs.CertificateForm.{form_of, IsCertificate};
ghost use Rattle.cert_check.specs.Certificates.{criterion_of, Certifies, HasShapeOf, IsExplainedThroughout};
ghost use Rattle.cert_check.specs.Criteria.{Meets};
ghost use Rattle.cert_check.specs.Witnesses.{IsWitness};

use crate::certificate::Certificate;
use crate::criterion::Criterion;
use model_object_trait::SeqObject;

/// A causal memory history is causally consistent.
pub fn causal_memory_is_causally_consistent<O: SeqObject>()
    ensures { (h : HistoryValue O.Start O.Call O.Ret) → Meets O.answer h Criterion.Cm → Meets O.answer h Criterion.Cc }
{}

/// A causally convergent history is causally consistent.
pub fn causal_convergence_is_causally_consistent<O: SeqObject>()
    ensures { (h : HistoryValue O.Start O.Call O.Ret) → Meets O.answer h Criterion.Ccv → Meets O.answer h Criterion.Cc }
{}

/// If a certificate fits a history and every piece explains its operation, the history meets the certificate's criterion.
pub fn explained_certificates_show_their_criterion<O: SeqObject>()
    ensures { (h : HistoryValue O.Start O.Call O.Ret) (c : Certificate) → HasShapeOf h c
        → IsExplainedThroughout O.answer h c → Meets O.answer h (criterion_of c) }
{}

/// If a certificate fits a history and every piece explains its operation, it names what shows its criterion: one operation is
/// before another in the causal order if the vector of the other counts it, the schedule of an operation or the one list cut to its
/// past is a linearization of this past, and the one list is the arbitration.
pub fn explained_certificates_are_witnesses<O: SeqObject>()
    ensures { (h : HistoryValue O.Start O.Call O.Ret) (c : Certificate) → HasShapeOf h c
        → IsExplainedThroughout O.answer h c → IsWitness O.answer h c }
{}

/// A history meets a criterion exactly where some certificate of that criterion certifies it.
pub fn met_exactly_where_certified<O: SeqObject>()
    ensures { (h : HistoryValue O.Start O.Call O.Ret) (criterion : Criterion) → IsHistory O.is_start O.matches h
        → Meets O.answer h criterion ↔ ((c : Certificate) × IsCertificate c × Certifies O.answer h criterion c) }
{}

/// A value is the form of one certificate at most.
pub fn certificates_have_distinct_forms()
    ensures { (c d : Certificate) → form_of c ≡ form_of d → c ≡ d }
{}
