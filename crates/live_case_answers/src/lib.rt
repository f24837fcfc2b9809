//! What the certificate of one case file shows.
//!
//! [`answer_of_file`] has the pieces of the certificate checked by threads, at a desk that is made for the file alone, and
//! [`answer_of_pieces`] checks them in the calling thread. It uses live_case_desk and cert_check, and app_judging uses it. It has
//! a must-fail edit, for which the gate proves it once more: so it is apart from app_judging. How pieces are shared among threads
//! may change.
#![tactic(auto)]

mod pieces_at_desk;

pub use pieces_at_desk::{answer_of_file, answer_of_pieces};
