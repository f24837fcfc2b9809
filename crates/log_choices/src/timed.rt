//! A log, with whether its lines stand in the order of time.

use log_events::EventLog;

/// A log, with whether its lines stand in the order of time.
#[derive(Clone, Copy)]
pub(crate) struct Timed<'a> {
    pub(crate) log: &'a EventLog,
    pub(crate) in_time: bool,
}
