//! Certificates that a history meets a criterion, and their checker: the three criteria of causal consistency, what the pieces of a
//! certificate show of them, and how the criteria relate to one another.
//!
//! It gives [`Criterion`], [`Certificate`], [`CaseFile`], [`PieceChecker`], [`check_piece`] and [`read_certificate`]. It uses
//! model_object_trait, model_history, json_histories, order_causal, serde_json and thiserror. How a piece is checked may change, and
//! how lists are walked: callers rest on the contracts alone, with the form of a certificate and the numbers of errors in them.
#![tactic(auto)]

mod arbitrated;
mod arbitration;
mod asked_back;
mod case_file;
mod cert_error;
mod certificate;
mod checking;
mod considered;
mod criterion;
mod desk_error;
mod kept;
pub mod laws;
mod list_walk;
mod naming;
mod need;
mod number;
mod own_answers;
mod past_replay;
mod piece_checker;
mod reading;
mod reading_lists;
mod replay;
mod schedule_walk;
mod scheduled;
mod shape;

pub use arbitration::Arbitration;
pub use case_file::CaseFile;
pub use cert_error::CertError;
pub use certificate::{Certificate, Schedules};
pub use checking::{Outcome, check_piece, first_unexplained};
pub use criterion::Criterion;
pub use desk_error::DeskError;
pub use kept::Kept;
pub use piece_checker::PieceChecker;
pub use reading::read_certificate;
pub use shape::{names_all, shape_ok};
