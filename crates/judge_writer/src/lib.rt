//! Writing a long history as its JSON text.
//!
//! [`write_long`] writes the text of a memory history with any number of sessions and operations, token by token, and builds no value of
//! it. judge_reader reads that text as the same history.
#![tactic(auto)]

mod operation;
mod session;
mod start;
mod writer;

pub use writer::write_long;
