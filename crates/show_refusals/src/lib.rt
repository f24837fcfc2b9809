//! What is wrong with an input that was refused: one line that says what, where, and what is wanted.
//!
//! [`reason_for`] makes it of the refusal and of the bytes of the input, in which it looks for the place. Bytes are counted from 0.
//! [`no_json_rest`] and [`no_event_rest`] say what is wrong with a line of a log, and [`client_of`] finds its client.
#![tactic(auto)]

mod beginnings;
mod call_form;
mod calls;
mod claim_rest;
mod comma;
mod element;
mod event_client;
mod fronts;
mod guesses;
mod json_fault;
mod json_rest;
mod json_walk;
mod line_rest;
mod no_token;
mod object_words;
mod operation_fault;
mod operation_words;
mod part;
mod placed;
mod plain;
mod reason;
mod refusal;
mod script_rest;
mod second_rest;
mod sessions;
mod shape;
mod shown;
mod step_forms;
mod text_place;
mod text_rest;

pub use event_client::{client_of, client_shown};
pub use line_rest::{no_event_rest, no_json_rest};
pub use reason::reason_for;
pub use refusal::{InputForm, Refusal};
