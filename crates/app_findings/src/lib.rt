//! What is known of a history, for each criterion, and what shows it.
//!
//! It gives [`Findings`] with [`Finding`], one for each criterion: a pattern, a certificate, or why it is not known.
//! [`findings_of`] makes them, and keeps as much of what shows them as [`Kept`] says; [`report_on`] and [`report_on_long`] give
//! answers alone. [`PieceWork`] says who checks the pieces of a certificate: the calling thread, or workers. It uses
//! judge_decision, app_judging, judge_subhistories and the makers of certificates. How something is found may change: callers
//! rest on the contracts, which say what is true of each finding.
#![tactic(auto)]

mod by_certificate;
mod finding;
mod kept;
mod made_certificates;
mod of_any;
mod of_long;
mod of_memory;
mod piece_work;
mod pieces;

pub use finding::{Finding, Findings};
pub use kept::Kept;
pub use of_any::{findings_of, report_on};
pub use of_long::report_on_long;
pub use of_memory::{findings_of_memory, report_decided};
pub use piece_work::PieceWork;
