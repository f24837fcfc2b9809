//! Answers to logs of events: the history of a log, judged, explained or written. That is its history by what is forced of its null reads.
//!
//! It gives [`follow_log`], which carries out an order on a log, event by event as it is read, [`LoggedRun`], a log that was read once and
//! answers any number of orders, and [`LogError`], why a log has no answer. The engine gives the answers on a history; log_events,
//! log_choices and log_reader define which history a log has.
#![tactic(auto)]

mod alone;
mod answering;
mod failure;
mod following;
mod forced_history;
mod judging;
mod late_writes;
pub mod laws;
mod line_numbers;
mod logged_run;
mod noting;
mod null_read_counts;
mod reading;
mod tables;
mod telling;
mod text_lists;
mod turn;
mod watching;
mod witnesses;
mod writing;

pub use alone::{answer_log_alone, judging_once, run_in_memory};
pub use failure::{LogError, error_lines, status_of_error};
pub use following::{Followed, Rest, follow_log};
pub use judging::report_on_log;
pub use late_writes::LateWrite;
pub use logged_run::LoggedRun;
pub use null_read_counts::NullReadCounts;
