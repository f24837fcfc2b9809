//! Operations and histories of replicated objects, and their JSON form.
//!
//! It gives [`read_history`] and [`write_history`] with [`AnyHistory`] and [`ReadError`], the traits [`Named`] and [`Spelled`], and
//! the laws of the form. It uses model_object_trait, model_objects, model_history, json_bounded, serde_json and thiserror.
//! How a text is read and written may change: callers rest on the contracts and laws, which also fix the form and the errors.
#![tactic(auto)]

mod any_history;
mod counters;
mod history_place;
mod json;
mod keyed_form;
mod keys;
pub mod laws;
mod lone;
mod named;
mod object_name;
mod parts;
mod plain_form;
mod plain_history;
mod queues;
mod read_error;
mod reader;
mod reading;
mod registers;
mod sets;
mod spelled;
mod spelled_start;
mod unknown;
mod words;
mod writing;

pub use any_history::AnyHistory;
pub use history_place::HistoryPlace;
pub use json::elements_of;
pub use model_history::{Advice, Delivered, History, OpId};
pub use named::Named;
pub use object_name::{ObjectName, object_named};
pub use plain_history::PlainHistory;
pub use read_error::ReadError;
pub use reader::{history_of, read_history, value_of, write_history};
pub use spelled::Spelled;
pub use spelled_start::SpelledStart;
pub use words::word_and_rest;
pub use writing::write_parts;
