//! What is asked for on one input.

ghost use Rattle.std.specs.Prelude.{◌≡◌, ◌≢◌, ◌⊎◌, ⊤, [], None, Some, false, true};
ghost use Rattle.std.specs.Option.{option_copied};
ghost use Rattle.app_process.specs.Faults.{Blames, ReadingFails, WritingFails};
ghost use Rattle.app_process.specs.Dressing.{IsPainted, is_plain};
ghost use Rattle.app_process.specs.Endings.{EndsInput, EndsTask};
ghost use Rattle.app_process.specs.Process.{EndsAsked, GoesToFile, GoesToOutput};
ghost use Rattle.app_process.specs.Saying.{SaysSome};

use crate::answer_writer::{AnswerWriter, Dress, DressedWriter};
use crate::counted::counted_at;
use crate::line_process::judge_lines_of_process;
use crate::log_process::status_of_log;
use crate::order_process::status_of_order;
use crate::page_process::write_page_of_process;
use crate::painting::is_in_words;
use crate::place::Place;
use crate::progress::Progress;
use crate::saving::save;
use crate::saying::Say;
use crate::showing::{status_shown, view_of};
use crate::terminals::Terminals;
use app_command_line::output_file;
use app_logs::Rest;
use app_orders::{Asked, Coloring, Detail, Manner, Order, Task};
use json_lines::{Sink, Source};
use std::env;
use std::rt::{Env, Files};
use std::sync::Wait;
use std::thread::Threads;
use std::time::Clock;

// The status after an answer that could not be written.
const UNWRITTEN_STATUS: u8 = 3;

/// What is known of an input beside what is asked for.
#[derive(Clone, Copy)]
pub(crate) struct Given<'a, P> {
    /// Where what is said of it goes.
    pub place: Place<'a, P>,
    /// Which streams are terminals.
    pub terminals: Terminals,
    /// The words of the process.
    pub words: &'a [String],
    /// The name of the input's file; none of standard input.
    pub input: Option<&'a str>,
    /// Whether the rest of a log is read where its judging ends early.
    pub rest: Rest,
}

impl<'a, P> Given<'a, P> {
    /// What the words and the terminals say of an input, the rest of which is not read. The label is its name, where there are several.
    pub(crate) fn of(
        rt: &'a P,
        terminals: Terminals,
        words: &'a [String],
        label: Option<&'a str>,
        input: Option<&'a str>,
    ) -> Given<'a, P>
        ensures label { result.place.label ≡ label.entry }
        ensures terminal { result.place.is_terminal ≡ terminals.error }
        ensures terminals { result.terminals ≡ terminals }
        ensures words { result.words ≡ words.entry }
    {
        Given {
            place: Place {
                rt,
                label,
                is_terminal: terminals.error,
                progress: None,
            },
            terminals,
            words,
            input,
            rest: Rest::Unread,
        }
    }

    /// The same, where it is shown how far the work is.
    pub(crate) fn with_progress<'b>(&self, progress: &'b Progress<'b>) -> Given<'b, P>
    where
        'a: 'b,
        ensures label { result.place.label ≡ self.now.place.label }
        ensures terminal { result.place.is_terminal ≡ self.now.place.is_terminal }
        ensures terminals { result.terminals ≡ self.now.terminals }
        ensures words { result.words ≡ self.now.words }
    {
        Given {
            place: self.place.with(progress),
            terminals: self.terminals,
            words: self.words,
            input: self.input,
            rest: self.rest,
        }
    }

    /// The same, where the rest of a log is read or not.
    pub(crate) fn with_rest(&self, rest: Rest) -> Given<'a, P>
        ensures label { result.place.label ≡ self.now.place.label }
        ensures terminal { result.place.is_terminal ≡ self.now.place.is_terminal }
        ensures terminals { result.terminals ≡ self.now.terminals }
        ensures words { result.words ≡ self.now.words }
    {
        Given {
            place: Place {
                rt: self.place.rt,
                label: self.place.label,
                is_terminal: self.place.is_terminal,
                progress: self.place.progress,
            },
            terminals: self.terminals,
            words: self.words,
            input: self.input,
            rest,
        }
    }
}

/// Does what is asked for on an input that a reader has, and returns the writer, what was said, and the exit status.
pub(crate) fn status_of_asked<
    P: Env + Files + Threads + Wait + Sync + AllocGlobal + Eprint + Clock,
    R: Source + Drop + Send,
    W: Sink + Drop + Send,
    E: Say + Drop + Send,
>(given: &Given<'_, P>, reader: R, writer: W, errors: E, asked: &Asked) -> (W, E, u8)
    ensures { EndsAsked (ReadingFails 0 R.called) (WritingFails W.called)
        (option_copied given.now.place.label) given.now.place.is_terminal given.now.terminals.output asked.now
        (R.remaining reader) (W.contents writer) (W.contents result.0) (E.said errors) (E.said result.1) result.2 }
{
    match view_of(given, asked) {
        Some(view) => status_shown(given, view, reader, writer, errors, asked),
        None => status_said(given, reader, writer, errors, asked),
    }
}

/// The same, where another thread may show how far the work is.
pub(crate) fn status_said<
    P: Env + Files + Threads + Wait + Sync + AllocGlobal + Eprint + Clock,
    R: Source + Drop + Send,
    W: Sink + Drop + Send,
    E: Say,
>(given: &Given<'_, P>, reader: R, writer: W, errors: E, asked: &Asked) -> (W, E, u8)
    ensures { EndsAsked (ReadingFails 0 R.called) (WritingFails W.called)
        (option_copied given.now.place.label) given.now.place.is_terminal given.now.terminals.output asked.now
        (R.remaining reader) (W.contents writer) (W.contents result.0) (E.said errors) (E.said result.1) result.2 }
{
    let mut errors = errors;
    let (writer, status) = status_by(given, reader, writer, &mut errors, asked);
    (writer, errors, status)
}

// The same, with what is said as it is.
#[tactic(auto, using(crate::proofs::AskedLaws::to_output, crate::proofs::AskedLaws::to_file))]
fn status_by<
    P: Env + Files + Threads + Wait + Sync + AllocGlobal + Eprint + Clock,
    R: Source + Drop + Send,
    W: Sink + Drop + Send,
    E: Say,
>(given: &Given<'_, P>, reader: R, writer: W, errors: &mut E, asked: &Asked) -> (W, u8)
    ensures { EndsAsked (ReadingFails 0 R.called) (WritingFails W.called)
        (option_copied given.now.place.label) given.now.place.is_terminal given.now.terminals.output asked.now
        (R.remaining reader) (W.contents writer) (W.contents result.0) (E.said errors.old) (E.said errors.new) result.1 }
{
    if asked.manner.to_file {
        let status = status_with_file(given, reader, errors, asked);
        return (writer, status);
    }
    status_with_output(given, reader, writer, errors, asked)
}

// The same, where the answer goes to the output.
#[tactic(auto, using(crate::proofs::AskedLaws::output_as_it_is, crate::proofs::AskedLaws::output_dressed))]
fn status_with_output<
    P: Env + Files + Threads + Wait + Sync + AllocGlobal + Eprint + Clock,
    R: Source + Drop + Send,
    W: Sink + Drop + Send,
    E: Say,
>(given: &Given<'_, P>, reader: R, writer: W, errors: &mut E, asked: &Asked) -> (W, u8)
    ensures { GoesToOutput (ReadingFails 0 R.called) (WritingFails W.called)
        (option_copied given.now.place.label) given.now.place.is_terminal given.now.terminals.output asked.now
        (R.remaining reader) (W.contents writer) (W.contents result.0) (E.said errors.old) (E.said errors.new) result.1 }
{
    let is_painted = is_painted(given, &asked.task, asked.manner.coloring);
    if is_plain(given.place.label, is_painted) {
        answer_plainly(given, reader, writer, errors, asked)
    } else {
        answer_dressed(given, reader, writer, errors, asked, is_painted)
    }
}

// Whether the lines of an answer are written as they are.
fn is_plain(label: Option<&str>, is_painted: bool) -> bool
    ensures { result ≡ is_plain (option_copied label.entry) is_painted }
{
    match label {
        None => !is_painted,
        Some(_) => false,
    }
}

// Writes what is asked for as it is.
fn answer_plainly<
    P: Threads + Wait + Sync + AllocGlobal + Eprint + Clock,
    R: Source + Drop + Send,
    W: Sink + Drop + Send,
    E: Say,
>(given: &Given<'_, P>, reader: R, writer: W, errors: &mut E, asked: &Asked) -> (W, u8)
    ensures { EndsTask (Blames (ReadingFails 0 R.called) (WritingFails W.called))
        (option_copied given.now.place.label) given.now.place.is_terminal asked.now.task asked.now.manner
        (R.remaining reader) (W.contents writer) (W.contents result.0) (E.said errors.old) (E.said errors.new) result.1 }
{
    let writer = AnswerWriter::of(&given.place, writer);
    let (writer, status) = answer_by(given, reader, writer, errors, asked);
    (writer.into_inner(), status)
}

// Writes what is asked for with its lines dressed.
fn answer_dressed<
    P: Threads + Wait + Sync + AllocGlobal + Eprint + Clock,
    R: Source + Drop + Send,
    W: Sink + Drop + Send,
    E: Say,
>(
    given: &Given<'_, P>,
    reader: R,
    writer: W,
    errors: &mut E,
    asked: &Asked,
    is_painted: bool,
) -> (W, u8)
    ensures { EndsTask (Blames (ReadingFails 0 R.called) ⊤)
        (option_copied given.now.place.label) given.now.place.is_terminal asked.now.task asked.now.manner
        (R.remaining reader) None None (E.said errors.old) (E.said errors.new) result.1 }
{
    let dress = Dress {
        label: given.place.label,
        is_painted,
    };
    let writer = DressedWriter::of(&given.place, dress, writer);
    let (writer, status) = answer_by(given, reader, writer, errors, asked);
    (writer.into_inner(), status)
}

// The same, where the answer goes to a file.
#[tactic(auto, using(crate::proofs::AskedLaws::is_saved, crate::proofs::AskedLaws::not_saved))]
fn status_with_file<
    P: Env + Files + Threads + Wait + Sync + AllocGlobal + Eprint + Clock,
    R: Source + Drop + Send,
    E: Say,
>(given: &Given<'_, P>, reader: R, errors: &mut E, asked: &Asked) -> u8
    ensures { GoesToFile (ReadingFails 0 R.called)
        (option_copied given.now.place.label) given.now.place.is_terminal given.now.terminals.output asked.now
        (R.remaining reader) None None (E.said errors.old) (E.said errors.new) result }
{
    let (answer, status) = answer_in_memory(given, reader, errors, asked);
    if status != 0 {
        return status;
    }
    status_saved(given, errors, answer.as_slice())
}

// Writes an answer to the file that the words name for it, and returns the status.
#[tactic(auto, using(crate::proofs::SaidLaws::says_no_more))]
fn status_saved<P: Files + AllocGlobal + Eprint + Wait, E: Say>(
    given: &Given<'_, P>,
    errors: &mut E,
    answer: &[u8],
) -> u8
    ensures { ((result ≡ 0) × (E.said errors.new ≡ E.said errors.old))
        ⊎ ((result ≡ 3) × SaysSome (E.said errors.old) (E.said errors.new)) }
{
    match output_file(given.words) {
        Some(name) => {
            if save(&given.place, errors, name, answer) {
                0
            } else {
                UNWRITTEN_STATUS
            }
        }
        None => UNWRITTEN_STATUS,
    }
}

// Makes the answer, which is what is asked for.
fn answer_in_memory<
    P: Threads + Wait + Sync + AllocGlobal + Eprint + Clock,
    R: Source + Drop + Send,
    E: Say,
>(given: &Given<'_, P>, reader: R, errors: &mut E, asked: &Asked) -> (Vec<u8>, u8)
    ensures { EndsTask (Blames (ReadingFails 0 R.called) ⊤) (option_copied given.now.place.label) given.now.place.is_terminal
        asked.now.task asked.now.manner (R.remaining reader) (Some []) (Some result.0.items)
        (E.said errors.old) (E.said errors.new) result.1 }
{
    let answer = Vec::new(given.place.rt.alloc());
    answer_by(given, reader, answer, errors, asked)
}

// Whether the words of an answer are coloured.
fn is_painted<P: Env + AllocGlobal>(given: &Given<'_, P>, task: &Task, coloring: Coloring) -> bool
    ensures { IsPainted task.now coloring given.now.terminals.output result }
{
    match coloring {
        Coloring::Always => is_in_words(task),
        Coloring::Never => false,
        Coloring::Auto => {
            (is_in_words(task) & given.terminals.output)
                && env::var(given.place.rt, "NO_COLOR").is_err()
        }
    }
}

// Writes what is asked for, and returns the writer and the exit status.
fn answer_by<
    P: Threads + Wait + Sync + AllocGlobal + Eprint + Clock,
    R: Source + Drop + Send,
    W: Sink + Drop + Send,
    E: Say,
>(given: &Given<'_, P>, reader: R, writer: W, errors: &mut E, asked: &Asked) -> (W, u8)
    ensures { EndsTask (Blames (ReadingFails 0 R.called) (WritingFails W.called))
        (option_copied given.now.place.label) given.now.place.is_terminal asked.now.task asked.now.manner
        (R.remaining reader) (W.contents writer) (W.contents result.0) (E.said errors.old) (E.said errors.new) result.1 }
{
    let reader = counted_at(&given.place, reader);
    answer_from(given, reader, writer, errors, asked)
}

// The same, where the reader tells how much was read.
fn answer_from<
    P: Threads + Wait + Sync + AllocGlobal + Eprint + Clock,
    R: Source + Drop + Send,
    W: Sink + Drop + Send,
    E: Say,
>(given: &Given<'_, P>, reader: R, writer: W, errors: &mut E, asked: &Asked) -> (W, u8)
    ensures { EndsTask (Blames (ReadingFails 0 R.called) (WritingFails W.called))
        (option_copied given.now.place.label) given.now.place.is_terminal
        asked.now.task asked.now.manner (R.remaining reader) (W.contents writer) (W.contents result.0)
        (E.said errors.old) (E.said errors.new) result.1 }
{
    let mut writer = writer;
    let place = &given.place;
    let manner = &asked.manner;
    match asked.task {
        Task::OfInput(order, detail) => {
            answer_input(place, reader, writer, errors, &order, detail, manner)
        }
        Task::OfLog(order) => {
            let rest = given.rest;
            let status = status_of_log(place, reader, &mut writer, errors, order, manner, rest);
            (writer, status)
        }
        Task::OfPage(page, detail) => {
            let status = write_page_of_process(place, reader, &mut writer, errors, page, detail);
            (writer, status)
        }
    }
}

// Does what is ordered of an input, read whole or line by line.
#[tactic(auto, using(crate::proofs::AskedLaws::by_lines, crate::proofs::AskedLaws::as_whole))]
fn answer_input<
    P: Threads + Wait + Sync + AllocGlobal + Eprint,
    R: Source + Drop + Send,
    W: Sink + Drop + Send,
    E: Say,
>(
    place: &Place<'_, P>,
    reader: R,
    writer: W,
    errors: &mut E,
    order: &Order,
    detail: Detail,
    manner: &Manner,
) -> (W, u8)
    ensures { EndsInput (Blames (ReadingFails 0 R.called) (WritingFails W.called))
        (option_copied place.now.label) place.now.is_terminal order.now detail manner.now
        (R.remaining reader) (W.contents writer) (W.contents result.0) (E.said errors.old) (E.said errors.new) result.1 }
{
    if let Order::JudgeLines(judging) = order {
        return judge_lines_of_process(place, reader, writer, errors, *judging);
    }
    let mut writer = writer;
    let status = status_of_order(place, reader, &mut writer, errors, order, detail, manner);
    (writer, status)
}
