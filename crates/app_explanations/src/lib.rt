//! What is found of a history, as people and programs read it: the lines of a report, words, JSON, a picture, and the list of faults.
//!
//! It gives [`report_text`] for findings that are there; [`words_of_history`], [`json_of_history`], [`certified_json_of_history`]
//! and [`drawing_of_history`], which find them too; and [`explained_long`], [`explained_as`], [`listed_long`] and
//! [`list_in_long`] for histories of any length. It uses app_findings for what is known of a history, and show_words,
//! show_pictures, pattern_json, judge_cores and show_faults for how that is shown. The words and what a picture shows may change:
//! callers rest on the contracts, which say where the lines of a report are, and what JSON is written.
#![tactic(auto)]

mod broken;
mod clients;
mod core_names;
mod examined;
mod explained;
mod fault_lists;
mod finding_forms;
mod finding_lines;
mod finding_text;
mod found;
mod history_forms;
mod history_words;
pub mod laws;
mod lines;
mod long_explaining;
mod long_picturing;
mod long_repeated;
mod long_words;
mod part_lines;
mod picturing;
mod remarks;
mod report;
mod three_findings;
mod written;

pub use clients::Clients;
pub use explained::{explained_as, explained_long};
pub use fault_lists::{FaultReport, list_in_limited, list_in_long, listed_long};
pub use history_forms::{certified_json_of_history, drawing_of_history, json_of_history};
pub use history_words::words_of_history;
pub use remarks::{Remark, Remarks};
pub use report::{report_line, report_text};
