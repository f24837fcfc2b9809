//! From a history to an answer: how the histories of each object are judged.
//!
//! [`judge`] and [`judge_with`] check the pieces in threads, and [`judge_alone_with`] starts none. [`Judged`] says what an object
//! gives for it. It uses judge_decision, live_case_answers, pattern_search, and cert_make_cc, cert_make_cm and cert_make_ccv.
//! Callers rest on the contracts alone, and nobody trusts advice.
#![tactic(auto)]

mod as_advised;
mod by_sources;
mod judged;
mod judging;
mod judging_alone;
mod making;

pub use judge_workers::{Gate, MAX_WORKERS, OpenGate};
pub use judged::Judged;
pub use judging::{judge, judge_with};
pub use judging_alone::judge_alone_with;
pub use live_case_desk::Answer;
