//! The engine of the program `causal_judge`: from an order and the bytes of an input to the bytes of an answer.
//!
//! It gives [`run`], which carries out an order over any source and writer, answers to inputs in memory by the calling thread alone, as
//! [`judge_alone`], and [`laws`] of runs. It uses app_findings for what is known of a history, app_explanations for how that is shown, and
//! the crates that read and drive. Their order may change: callers rest on the contracts.
#![tactic(auto)]

mod alone;
mod answered;
mod checking;
mod drivable;
mod driving;
mod expecting;
mod explaining;
mod failure;
mod input;
pub mod laws;
mod line_answers;
mod line_judge;
mod listing_faults;
mod long_judging;
mod long_refuting;
mod output;
mod read_call;
mod reading;
mod refuting;
mod replaying;
mod running;

pub use alone::{
    check_alone, explain_alone, explain_as_alone, explain_long_alone, judge_alone,
    judge_long_alone, refute_alone, refute_long_alone,
};
pub use answered::Answered;
pub use app_explanations::{explained_as, list_in_long, report_line, report_text};
pub use app_findings::{
    Finding, Findings, Kept, PieceWork, findings_of, findings_of_memory, report_on, report_on_long,
};
pub use app_judging::Answer;
pub use app_orders::{
    BlankLines, Delivery, Drive, Expected, Form, Judging, Length, LineJudging, ListForm, Listing,
    LongForm, MAX_LISTED, MAX_SEALS, Order, Store,
};
pub use drivable::Drivable;
pub use driving::drive_with;
pub use expecting::outcome_of;
pub use explaining::{explain_as, explain_long};
pub use failure::{RunError, fault_line, status_of};
pub use input::{
    MAX_INPUT_BYTES, MAX_LONG_INPUT_BYTES, read_input, read_input_for, read_long_input, stay_within,
};
pub use json_lines::{MAX_READ_CALLS, MAX_WRITE_CALLS, Outcome, Sink, Source};
pub use judge_decision::SessionWork;
pub use judge_workers::{CallingThread, Gate, OpenGate, WorkerThreads, Workers};
pub use line_answers::joined_text;
pub use line_judge::judge_lines;
pub use listing_faults::list_faults;
pub use output::write_output;
pub use running::{answer_to, run, run_keeping};
