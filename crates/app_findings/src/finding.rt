//! What is known of a history and a criterion, and what shows it.

ghost use Rattle.std.specs.Prelude.{◌≡◌, IfOk, IsOk, Ok};
ghost use Rattle.app_findings.specs.Findings.{answer_for, answer_of, finding_for};

use app_judging::Answer;
use cert_check::{Certificate, Criterion};
use model_history::OpId;
use pattern_check::{Kind, Pattern};
use std::alloc::AllocError;

/// What is known of a history and a criterion, and what shows it.
#[derive(Debug, Drop)]
pub enum Finding {
    /// An order explains every known return: the history meets the criterion. With a certificate that shows it, if one is kept.
    Met(Option<Certificate>),
    /// This pattern is in the history: the history does not meet the criterion.
    Shown(Pattern),
    /// A pattern of this kind is in the history, which does not meet the criterion. The pattern is not at hand, or too long to write.
    Present(Kind),
    /// Whether the history meets the criterion is not known. With the first operation that the certificate does not explain, if one was
    /// made, and that certificate, if it is kept.
    Unexplained(Option<OpId>, Option<Certificate>),
}

impl Finding {
    /// The answer that it gives.
    pub fn answer(&self) -> Answer
        ensures { result ≡ answer_of self.now }
    {
        match self {
            Finding::Met(_) => Answer::Yes,
            Finding::Shown(pattern) => Answer::No(pattern.kind()),
            Finding::Present(kind) => Answer::No(*kind),
            Finding::Unexplained(place, _) => Answer::Unknown(*place),
        }
    }
}

/// What is known of a history, for each criterion.
#[derive(Debug, Drop)]
pub struct Findings {
    /// For causal consistency.
    pub cc: Finding,
    /// For causal memory.
    pub cm: Finding,
    /// For causal convergence.
    pub ccv: Finding,
}

impl Findings {
    /// The findings for the three criteria. Fails exactly where one of them is missing for want of memory. O(1).
    pub fn together(
        cc: Result<Finding, AllocError>,
        cm: Result<Finding, AllocError>,
        ccv: Result<Finding, AllocError>,
    ) -> Result<Findings, AllocError>
        ensures cc { IfOk result (λ findings. cc ≡ Ok findings.cc) }
        ensures cm { IfOk result (λ findings. cm ≡ Ok findings.cm) }
        ensures ccv { IfOk result (λ findings. ccv ≡ Ok findings.ccv) }
        ensures all { IsOk cc → IsOk cm → IsOk ccv → IsOk result }
    {
        match both(both(cc, cm), ccv) {
            Ok(three) => {
                let ((cc, cm), ccv) = three;
                Ok(Findings { cc, cm, ccv })
            }
            Err(no_memory) => Err(no_memory),
        }
    }

    /// The finding for a criterion.
    pub fn finding(&self, criterion: Criterion) -> &Finding
        ensures { result.now ≡ finding_for self.now criterion }
    {
        match criterion {
            Criterion::Cc => &self.cc,
            Criterion::Cm => &self.cm,
            Criterion::Ccv => &self.ccv,
        }
    }

    /// The answer for a criterion.
    pub fn answer(&self, criterion: Criterion) -> Answer
        ensures { result ≡ answer_for self.now criterion }
    {
        self.finding(criterion).answer()
    }
}

// Both values, where memory ran out for none of them.
fn both<A: Drop, B: Drop>(
    first: Result<A, AllocError>,
    second: Result<B, AllocError>,
) -> Result<(A, B), AllocError>
    ensures first { IfOk result (λ values. first ≡ Ok values.0) }
    ensures second { IfOk result (λ values. second ≡ Ok values.1) }
    ensures all { IsOk first → IsOk second → IsOk result }
{
    match first {
        Ok(first) => match second {
            Ok(second) => Ok((first, second)),
            Err(no_memory) => {
                drop(first);
                Err(no_memory)
            }
        },
        Err(no_memory) => {
            drop(second);
            Err(no_memory)
        }
    }
}
