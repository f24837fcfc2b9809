//! Reading a log of events, line by line.
//!
//! [`EventReader`] reads lines from a source until so many events are there, or to the end: each line is read, its event kept in a few
//! words, and the line let go. Clients, keys and values have numbers, in the order in which they were first met, and [`Names`] gives their
//! names. A text has one log or one [`Refusal`], as `specs/Logs` says, and [`texts_have_one_log`] states as a law.
#![tactic(auto)]

mod book;
mod content;
mod event_reader;
mod forms;
mod laws;
mod limits;
mod log_fault;
mod name_value;
mod names;
mod notes;
mod progress;
mod quick;
mod refusal;
mod said;
mod shown;
mod taking;
mod word;

pub use event_reader::EventReader;
pub use laws::{
    first_lines_say_order, lines_say_events, names_tell_values, notes_say_nothing,
    texts_have_one_log, texts_tell_names,
};
pub use limits::MAX_LINE_BYTES;
pub use log_fault::LogFault;
pub use names::Names;
pub use notes::Note;
pub use progress::Progress;
pub use refusal::{Reason, Refusal};
