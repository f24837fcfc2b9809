//! Work whose progress is shown.

ghost use Rattle.std.specs.Option.{option_copied};
ghost use Rattle.app_process.specs.Faults.{ReadingFails, WritingFails};
ghost use Rattle.app_process.specs.Process.{EndsAsked};

use crate::asked_input::{Given, status_said};
use crate::progress::Progress;
use crate::progress_view::ProgressView;
use crate::saying::Say;
use app_orders::{Asked, LogOrder, Order, Task};
use json_lines::{Sink, Source};
use std::rt::{Env, Files};
use std::sync::Wait;
use std::thread::Threads;
use std::time::Clock;
use std::{fs, thread};

// Where the system has standard input among its files.
const STANDARD_INPUT_PATH: &str = "/dev/stdin";

/// What is said of how far the work is, where that was asked for or somebody may look at a terminal and does not type the input there.
pub(crate) fn view_of<'a, P: Files>(
    given: &Given<'a, P>,
    asked: &Asked,
) -> Option<ProgressView<'a>> {
    let terminals = given.terminals;
    let is_typed = terminals.input && given.input.is_none();
    if !asked.manner.progress && (!terminals.error || is_typed) {
        return None;
    }
    Some(ProgressView {
        label: given.place.label,
        work: work_of(&asked.task),
        is_gradual: is_gradual(&asked.task),
        size: size_of(given.place.rt, given.input),
        is_asked_for: asked.manner.progress,
        is_terminal: terminals.error,
        shares_terminal: terminals.error && terminals.output,
    })
}

/// Does what is asked for on an input that a reader has, while another thread shows how far that is. Returns the writer, what was said,
/// and the exit status.
pub(crate) fn status_shown<
    P: Env + Files + Threads + Wait + Sync + AllocGlobal + Eprint + Clock,
    R: Source + Drop + Send,
    W: Sink + Drop + Send,
    E: Say + Drop + Send,
>(
    given: &Given<'_, P>,
    view: ProgressView<'_>,
    reader: R,
    writer: W,
    errors: E,
    asked: &Asked,
) -> (W, E, u8)
    ensures { EndsAsked (ReadingFails 0 R.called) (WritingFails W.called) (option_copied given.now.place.label) given.now.place.is_terminal
        given.now.terminals.output asked.now
        (R.remaining reader) (W.contents writer) (W.contents result.0) (E.said errors) (E.said result.1) result.2 }
{
    let rt = given.place.rt;
    let progress = Progress::of(rt, view);
    progress.show(rt);
    let seen = given.with_progress(&progress);
    let (_, ended) = thread::join(
        rt,
        || progress.watch(rt),
        || -> (W, E, u8)
            ensures { EndsAsked (ReadingFails 0 R.called) (WritingFails W.called)
                (option_copied seen.entry.place.label) seen.entry.place.is_terminal
                seen.entry.terminals.output asked.entry.now
                (R.remaining reader) (W.contents writer) (W.contents result.0) (E.said errors) (E.said result.1) result.2 }
        {
            let ended = status_said(&seen, reader, writer, errors, asked);
            progress.end(rt);
            ended
        },
    );
    ended
}

// How many bytes an input has, where it is a plain file.
fn size_of<P: Files>(rt: &P, input: Option<&str>) -> Option<u64> {
    match fs::metadata(rt, input.unwrap_or(STANDARD_INPUT_PATH)) {
        Ok(found) if found.is_file() => Some(found.len()),
        _ => None,
    }
}

// What is done with an input once it is read.
fn work_of(task: &Task) -> &'static str {
    match task {
        Task::OfInput(order, _) => work_of_order(order),
        Task::OfPage(_, _) => "explaining",
        Task::OfLog(order) => work_of_log(order),
    }
}

fn work_of_order(order: &Order) -> &'static str {
    match order {
        Order::Judge(_) | Order::JudgeLines(_) => "judging",
        Order::Check(_) | Order::Refute(_) => "checking",
        Order::Explain(_) | Order::ExplainLong(_) | Order::ListFaults(_) => "explaining",
        Order::Replay => "replaying",
        Order::Drive(_) => "driving",
    }
}

fn work_of_log(order: &LogOrder) -> &'static str {
    match order {
        LogOrder::Judge(_) => "judging",
        LogOrder::Explain(_) | LogOrder::ListFaults(_, _) => "explaining",
        LogOrder::WriteHistory | LogOrder::WriteNames | LogOrder::WriteNotes => "writing",
    }
}

// Whether that is done while the input is read.
fn is_gradual(task: &Task) -> bool {
    match task {
        Task::OfInput(Order::JudgeLines(_), _) => true,
        Task::OfLog(LogOrder::Judge(judging)) => judging.every.is_some(),
        _ => false,
    }
}
