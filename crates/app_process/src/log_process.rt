//! A log of events as the input.

ghost use Rattle.std.specs.Prelude.{Option, ℕ, List, ◌≡◌, is_some};
ghost use Rattle.std.specs.Io.KnownBytes.{Appends};
ghost use Rattle.std.specs.Option.{option_copied};
ghost use Rattle.app_logs.specs.LogAnswers.{every_in};
ghost use Rattle.app_process.specs.Faults.{Blames, ReadingFails, WritingFails};
ghost use Rattle.app_process.specs.Endings.{EndsLog, IsLateRemark, SaysCounts, SaysRemarks, TellsOfLog, cut_remark, is_excluded};
ghost use Rattle.app_process.specs.Endings.{torn_remark};
ghost use Rattle.app_process.specs.Statuses.{status_after, wants_counts};

use crate::counting::counts_of_log;
use crate::keeping::Keeping;
use crate::place::Place;
use crate::saying::Say;
use crate::summary::{status_by_counts, wants_counts};
use app_logs::{Followed, LateWrite, LogError, Rest, error_lines, follow_log, status_of_error};
use app_orders::{LogOrder, Manner};
use json_lines::{Outcome, Sink, Source};
use std::sync::Wait;
use std::thread::Threads;

// The status after a run for which memory was short.
const MEMORY_STATUS: u8 = 4;

/// What is said of a last line that is not whole.
const TORN: &str = "last line is not whole: passed over";

// How to see why the last cut is not as expected.
const EXPLAINED_CUT: &str =
    "the last line begins with a number of events: head -n NUMBER FILE | causal_judge explain - says why";

/// Does what is ordered of a log, and returns the exit status.
///
/// What is wrong goes to standard error: the lines of a log that had no answer, that a last line is not whole, and that a cut comes between
/// a read and the write that it read.
#[tactic(auto, using(crate::proofs::EndLaws::answers_log, crate::proofs::EndLaws::refuses_log))]
pub(crate) fn status_of_log<
    P: Threads + Wait + Sync + AllocGlobal + Eprint,
    R: Source + Drop,
    W: Sink,
    E: Say,
>(
    place: &Place<'_, P>,
    reader: R,
    writer: &mut W,
    errors: &mut E,
    order: LogOrder,
    manner: &Manner,
    rest: Rest,
) -> u8
    ensures { EndsLog (Blames (ReadingFails 0 R.called) (WritingFails W.called))
        (option_copied place.now.label) order manner.now (R.remaining reader) (W.contents writer.old) (W.contents writer.new)
        (E.said errors.old) (E.said errors.new) result }
{
    let mut source = Keeping::of(place.rt.alloc(), reader, wants_counts(manner));
    let mut told = String::new(place.rt.alloc());
    match follow_log(place.rt, &mut source, writer, &order, rest, &mut told) {
        Ok(followed) => {
            say_of_log(place, errors, order, &followed);
            status_counted(
                place,
                errors,
                order,
                manner,
                source.kept(),
                followed.outcome.status(),
            )
        }
        Err(error) => report_error(place, errors, &error, told.as_str()),
    }
}

// The status after an answer with this one, once it was said how much the run asks, where that is wanted and the log was kept.
#[tactic(auto, using(crate::proofs::EndLaws::no_counts, crate::proofs::EndLaws::some_counts))]
fn status_counted<P: AllocGlobal + Eprint + Wait, E: Say>(
    place: &Place<'_, P>,
    errors: &mut E,
    order: LogOrder,
    manner: &Manner,
    kept: Option<&[u8]>,
    status: u8,
) -> u8
    ensures status { (reads : Option ℕ) × (result ≡ status_after manner.now.least_reads reads status) }
    ensures said { SaysCounts (wants_counts manner.now) (E.said errors.old) (E.said errors.new) }
{
    if !wants_counts(manner) {
        return status;
    }
    let counts = match kept {
        Some(bytes) => counts_of_log(place.rt.alloc(), bytes, is_watched(order)),
        None => None,
    };
    status_by_counts(place, errors, manner, counts, status)
}

// Says what is to be said of a log that was followed.
#[tactic(auto, using(crate::proofs::EndLaws::says_remarks))]
fn say_of_log<P: AllocGlobal + Eprint + Wait, E: Say>(
    place: &Place<'_, P>,
    errors: &mut E,
    order: LogOrder,
    followed: &Followed,
)
    ensures { SaysRemarks (option_copied place.now.label) order followed.now (E.said errors.old) (E.said errors.new) }
{
    say_cut(place, errors, order, followed.outcome);
    say_late(place, errors, followed.late);
    say_torn(place, errors, followed.torn);
}

// Says how to see why the last cut is not as expected, where it is not.
#[tactic(auto, using(crate::proofs::SaidLaws::appends_nothing))]
fn say_cut<P: AllocGlobal + Eprint + Wait, E: Say>(
    place: &Place<'_, P>,
    errors: &mut E,
    order: LogOrder,
    outcome: Outcome,
)
    ensures { Appends (E.said errors.old) (E.said errors.new) (cut_remark (option_copied place.now.label) order outcome) }
{
    if is_watched(order) && is_excluded(outcome) {
        place.say(errors, EXPLAINED_CUT);
    }
}

// Whether a log is judged while it is read.
fn is_watched(order: LogOrder) -> bool
    ensures { result ≡ is_some (every_in order) }
{
    match order {
        LogOrder::Judge(judging) => judging.every.is_some(),
        LogOrder::Explain(_)
        | LogOrder::ListFaults(_, _)
        | LogOrder::WriteHistory
        | LogOrder::WriteNames
        | LogOrder::WriteNotes => false,
    }
}

fn is_excluded(outcome: Outcome) -> bool
    ensures { result ≡ is_excluded outcome }
{
    match outcome {
        Outcome::Excluded => true,
        Outcome::Met | Outcome::Unknown | Outcome::Refused => false,
    }
}

// Says on which lines a read and the write that it read are, where a cut comes between them.
#[tactic(auto, using(crate::proofs::EndLaws::no_late))]
fn say_late<P: AllocGlobal + Eprint + Wait, E: Say>(
    place: &Place<'_, P>,
    errors: &mut E,
    late: Option<LateWrite>,
)
    ensures { (text : List ℕ) × IsLateRemark (option_copied place.now.label) late text
        × Appends (E.said errors.old) (E.said errors.new) text }
{
    let Some(late) = late else {
        return;
    };
    let LateWrite { read, write } = late;
    if let Ok(line) = format!(in place.rt.alloc();
        "line {read} reads a value whose write begins on line {write}: this log is not in the order of time"
    ) {
        place.say(errors, line.as_str());
    }
}

/// Says that the last line of a log is not whole, where it is not.
#[tactic(auto, using(crate::proofs::SaidLaws::appends_nothing))]
pub(crate) fn say_torn<P: AllocGlobal + Eprint + Wait, E: Say>(
    place: &Place<'_, P>,
    errors: &mut E,
    torn: bool,
)
    ensures { Appends (E.said errors.old) (E.said errors.new) (torn_remark (option_copied place.now.label) torn) }
{
    if torn {
        place.say(errors, TORN);
    }
}

/// Says why a log has no answer, in numbers and in words, and returns the exit status. If there is no memory for these lines, it returns
/// the status for want of memory.
pub(crate) fn report_error<P: AllocGlobal + Eprint + Wait, E: Say>(
    place: &Place<'_, P>,
    errors: &mut E,
    error: &LogError,
    told: &str,
) -> u8
    ensures { TellsOfLog (option_copied place.now.label) error.now (E.said errors.old) (E.said errors.new) result }
{
    let Ok(lines) = error_lines(place.rt.alloc(), error, told) else {
        place.say(errors, "no memory");
        return MEMORY_STATUS;
    };
    place.say(errors, lines.as_str());
    status_of_error(error)
}
