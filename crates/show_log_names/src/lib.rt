//! The operations of a history that represents a log of events, by the names that the log has and the numbers of its lines.
//!
//! It gives [`LogNames`] over a [`LogTables`], which says what each operation represents and what the log calls its clients, keys and
//! values, and [`Witnesses`], what is known of reads that the history leaves out. An operation is named by the line on which its call begins.
//! No clause restricts the other texts.
#![tactic(auto)]

mod lacking_words;
mod left_out_words;
mod log_names;
mod log_tables;
mod notes;
mod phrases;
mod shortening;
mod witnesses;

pub use log_names::LogNames;
pub use log_tables::{CallNote, LogTables, StoodFor};
pub use witnesses::{Witness, Witnesses};
