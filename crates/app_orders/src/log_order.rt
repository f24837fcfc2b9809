//! What the program does with a log of events.

use crate::expected::Expected;
use crate::form::{ListForm, LongForm};
use judge_workers::Workers;

/// The most events after which a log may be judged again.
pub const MAX_EVERY: u32 = 2_147_483_647;

/// What the program does with a log of events, which has one event a line.
#[derive(Clone, Copy, Debug, PartialEq, Eq)]
pub enum LogOrder {
    /// Judges the run that the log records.
    Judge(LogJudging),
    /// Says in this form why each criterion is met or not met.
    Explain(LongForm),
    /// Lists at most so many reads that show a fault, in this form.
    ListFaults(u32, ListForm),
    /// Writes the log as a history, in the form that `judge` reads.
    WriteHistory,
    /// Writes the clients, keys and values of the log, in the order of their numbers.
    WriteNames,
    /// Writes the notes of the log's calls, each with the number of its line.
    WriteNotes,
}

/// How a log is judged.
#[derive(Clone, Copy, Debug, PartialEq, Eq)]
pub struct LogJudging {
    /// How many threads judge.
    pub workers: Workers,
    /// The criteria that are expected to be met.
    pub expected: Expected,
    /// The log so far is judged after every so many events, where a number is given.
    pub every: Option<u32>,
}
