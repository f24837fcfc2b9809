//! Logs of events of the clients of a memory, and the memory histories that they represent.
//!
//! It gives [`Event`], with its [`ClientCall`] and [`Ending`], and in [`laws`] what holds of logs and of their histories.
//! `specs/Events` says which lists of events are logs, and `specs/Histories` which history a log represents. An [`EventLog`]
//! takes one event after the other, each where it may come next and no other. It keeps the calls of the run and not the events,
//! and gives the history that its events represent, for each operation of it the call, and the reads that the history leaves out.
//! [`write_of`], [`read_of`] and [`tally_of`] make operations and counts. It uses judge_memory and cert_subhistories.
#![tactic(auto)]

mod chains;
mod deleted_keys;
mod entries;
mod event;
mod event_log;
pub mod laws;
mod limits;
mod logged_call;
mod origins;
mod outcomes;
mod past_events;
mod push_error;
mod returned_values;
mod sessions;
mod tallies;

pub use entries::{read_of, write_of};
pub use event::{ClientCall, Ending, Event};
pub use event_log::EventLog;
pub use limits::{MAX_EVENTS, MAX_NAME};
pub use logged_call::LoggedCall;
pub use push_error::PushError;
pub use tallies::tally_of;
