//! The process of the program `causal_judge`: its words, its files and streams, and its exit status.
//!
//! It gives [`status_of_process`], which does what the words order, over the engine for inputs and the engine for logs of events; and
//! [`status_of_words`], which does the same with any files ([`Open`]), any reader, writer and place for what is said beside
//! ([`Say`]), and says what comes of it.
#![tactic(auto)]

mod answer_writer;
mod asked_input;
mod build_record;
mod choices;
mod counted;
mod counting;
mod file_inputs;
mod file_opening;
mod files;
mod first_bytes;
mod keeping;
mod line_process;
mod log_process;
mod noticing;
mod order_process;
mod page_process;
mod painting;
mod place;
mod program;
mod progress;
mod progress_view;
mod read_ahead;
mod refused;
mod reporting;
mod saving;
mod saying;
mod showing;
mod summary;
mod terminals;
mod usage;
mod waiting;

pub use files::Open;
pub use program::{status_of_process, status_of_words};
pub use saying::Say;
pub use terminals::Terminals;
