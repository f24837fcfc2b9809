//! What a command line asks for.

use crate::detail::Detail;
use crate::drive::Drive;
use crate::form::{Form, LongForm};
use crate::judging::Judging;
use crate::length::Length;
use crate::line_judging::LineJudging;
use crate::listing::Listing;
use crate::log_order::LogOrder;
use crate::page::Page;
use judge_workers::Workers;

/// What a command line asks for.
#[derive(Clone, Copy, Debug, PartialEq, Eq)]
pub enum Task {
    /// An order on an input, which is read whole, or line by line; and how much the program says if the input is refused.
    OfInput(Order, Detail),
    /// A page on an input or on a log of events; and how much the program says if the input is refused.
    OfPage(Page, Detail),
    /// An order on a log of events, which is read event by event.
    OfLog(LogOrder),
}

/// A command on an input, with its options.
#[derive(Clone, Copy, Debug, PartialEq, Eq)]
pub enum Order {
    /// Judges the history in the input.
    Judge(Judging),
    /// Judges the history in each line of the input.
    JudgeLines(LineJudging),
    /// Checks the certificate in the input against the history in it, by so many workers.
    Check(Workers),
    /// Says in this form why each criterion is met or not met by the history in the input, or why that is unknown.
    Explain(Form),
    /// Says the same of the memory history in the input, which may have any length.
    ExplainLong(LongForm),
    /// Says it too, and lists reads of the history in the input that show a fault.
    ListFaults(Listing),
    /// Checks that the pattern in the input shows that the history in it, which may be that long, does not meet a criterion.
    Refute(Length),
    /// Runs the script in the input.
    Replay,
    /// Drives a store with the calls of the history in the input.
    Drive(Drive),
}
