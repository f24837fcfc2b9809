//! Inputs that are files.

ghost use Rattle.std.specs.Prelude.{◌≡◌, MatchOption, map, string_bytes, true};
ghost use Rattle.std.specs.Io.KnownBytes.{prepend_known};
ghost use Rattle.std.specs.Option.{option_copied};
ghost use Rattle.app_command_line.specs.CommandLine.{AsksNothing, IsCommandLine};
ghost use Rattle.app_process.specs.Faults.{ReadingFails, WritingFails, most_ahead};
ghost use Rattle.app_process.specs.Process.{EndAll, EndsFile, EndsFiles, EndsInputOf, EndsMisuse, IsOfOne, NameSeveral, SaysSeveral};
ghost use Rattle.app_process.specs.Process.{AskForLook, is_seen, judges_lines, label_of, reads_lines};
ghost use Rattle.app_process.specs.Statuses.{rank, worse};
ghost use Rattle.app_process.specs.Steps.Choices.{AreChoices};
ghost use Rattle.app_process.specs.Steps.Readings.{EndsUnlooked};

use crate::asked_input::{Given, status_of_asked};
use crate::choices::Choices;
use crate::file_opening::say_of_file;
use crate::files::{Open, STANDARD_INPUT};
use crate::first_bytes::{FirstBytes, look};
use crate::place::Place;
use crate::read_ahead::ReadAhead;
use crate::saying::Say;
use crate::terminals::Terminals;
use crate::usage::{USAGE_STATUS, report_usage};
use crate::waiting::Waiting;
use app_command_line::{Sight, command_of, next_file, usage_fault};
use app_orders::{Asked, Order, Task};
use json_lines::{Fault, Sink, Source};
use std::rt::{Env, Files};
use std::sync::Wait;
use std::thread::Threads;
use std::time::Clock;

// The status after a file that could not be read.
const UNREAD_STATUS: u8 = 3;

// The status after a run for which memory was short.
const MEMORY_STATUS: u8 = 4;

/// Does what the words order on each of the files that they name, one after the other, and returns the writer, what was said, and the worst
/// status.
///
/// Where there are several, each line has the name of its file before it. The form of each is found by its first text, but where each
/// line holds a history. A file that can't be opened is named on standard error.
#[tactic(auto, using(crate::proofs::FileLaws::each_ends, crate::proofs::FileLaws::misuse_ends, crate::proofs::FileLaws::several_ends, crate::proofs::FileLaws::none_unseen))]
pub(crate) fn status_on_files<
    P: Env + Files + Threads + Wait + Sync + AllocGlobal + Eprint + Clock,
    F: Open,
    W: Sink + Drop + Send,
    E: Say + Drop + Send,
>(
    rt: &P,
    files: &F,
    terminals: Terminals,
    words: &[String],
    further: &[String],
    writer: W,
    errors: E,
) -> (W, E, u8)
    ensures { EndsFiles (F.opens files.now) (F.lacks files.now) (ReadingFails most_ahead F.File.called) (WritingFails W.called)
        (map string_bytes words.now) terminals (map string_bytes further.now)
        (W.contents writer) (W.contents result.0) (E.said errors) (E.said result.1) result.2 }
{
    let mut writer = writer;
    let mut errors = errors;
    let choices = Choices::of(words);
    let Some(asked) = choices.any(words) else {
        let status = status_of_usage(rt, words, Sight::Unseen, &mut writer, &mut errors);
        return (writer, errors, status);
    };
    let is_many = has_several(further);
    if is_many && is_of_one(&asked) {
        say_several(rt, &mut errors);
        return (writer, errors, USAGE_STATUS);
    }
    let all = Inputs {
        rt,
        files,
        terminals,
        words,
        is_many,
    };
    status_of_each(&all, &choices, further, writer, errors)
}

/// What is known of all files.
#[derive(Clone, Copy)]
struct Inputs<'a, P, F> {
    rt: &'a P,
    files: &'a F,
    terminals: Terminals,
    words: &'a [String],
    /// Whether there are several.
    is_many: bool,
}

// Does what the words order on each file that further words name, and returns the worst status.
#[tactic(auto, using(crate::proofs::FileLaws::so_far_none, crate::proofs::FileLaws::so_far_more, crate::proofs::FileLaws::so_far_all))]
fn status_of_each<
    P: Env + Files + Threads + Wait + Sync + AllocGlobal + Eprint + Clock,
    F: Open,
    W: Sink + Drop + Send,
    E: Say + Drop + Send,
>(all: &Inputs<'_, P, F>, choices: &Choices, further: &[String], writer: W, errors: E) -> (W, E, u8)
    requires choices { AreChoices (map string_bytes all.now.words.now) choices.now }
    requires several { NameSeveral (map string_bytes further.now) all.now.is_many }
    ensures { EndAll (F.opens all.now.files.now) (F.lacks all.now.files.now) (ReadingFails most_ahead F.File.called) (WritingFails W.called)
        (map string_bytes all.now.words.now) all.now.terminals (map string_bytes further.now)
        (W.contents writer) (W.contents result.0) (E.said errors) (E.said result.1) result.2 }
{
    let mut writer = writer;
    let mut errors = errors;
    let mut worst = 0;
    let mut rest = further;
    'files: for _ in all.rt.forever() {
        let Some((name, later)) = next_file(rest) else {
            return (writer, errors, worst);
        };
        let (written, said, status) = status_on_file(all, choices, name, writer, errors);
        writer = written;
        errors = said;
        worst = worse(worst, status);
        rest = later;
    }
    unreachable!()
}

// The name that comes before each line, where there are several files.
fn label_for<'a>(is_many: bool, name: &'a str) -> Option<&'a str>
    ensures { option_copied result ≡ label_of is_many name.now }
{
    if is_many { Some(name) } else { None }
}

// The file of this name; none for standard input.
fn file_named(name: &str) -> Option<&str> {
    if name == STANDARD_INPUT {
        None
    } else {
        Some(name)
    }
}

// Whether words name more than one file.
#[tactic(auto, using(crate::proofs::NamedFiles::names_none))]
fn has_several(further: &[String]) -> bool
    ensures { NameSeveral (map string_bytes further.now) result }
{
    match next_file(further) {
        Some((_, later)) => match next_file(later) {
            Some(_) => true,
            None => false,
        },
        None => false,
    }
}

// Whether an answer is of one input: a page, or one that goes to a file.
fn is_of_one(asked: &Asked) -> bool
    ensures { result ≡ true → IsOfOne asked.now }
{
    match asked.task {
        Task::OfPage(_, _) => true,
        Task::OfInput(_, _) | Task::OfLog(_) => asked.manner.to_file,
    }
}

// Writes what is wrong with words that ask for nothing on an input that looks so.
fn status_of_usage<P: Files + AllocGlobal + Eprint + Wait, W: Sink, E: Say>(
    rt: &P,
    words: &[String],
    sight: Sight,
    writer: &mut W,
    errors: &mut E,
) -> u8
    requires { AsksNothing sight (map string_bytes words.now) }
    ensures { EndsMisuse (WritingFails W.called) sight (map string_bytes words.now) (W.contents writer.old) (W.contents writer.new)
        (E.said errors.old) (E.said errors.new) result }
{
    match command_of(rt.alloc(), words, sight) {
        Ok(_) => USAGE_STATUS,
        Err(usage) => report_usage(rt, writer, errors, usage),
    }
}

// Says that an answer of this form is of one file.
fn say_several<P: AllocGlobal, E: Say>(rt: &P, errors: &mut E)
    ensures { SaysSeveral (E.said errors.old) (E.said errors.new) }
{
    let fault = "'-o' and '--html' take one FILE: each file has an answer of its own";
    if let Ok(text) = usage_fault(rt.alloc(), fault, "explain [OPTIONS] <FILE>") {
        errors.say(text.as_str());
    }
}

// Does what the words order on one file.
#[tactic(auto, using(crate::proofs::FileLaws::unread_ends))]
fn status_on_file<
    P: Env + Files + Threads + Wait + Sync + AllocGlobal + Eprint + Clock,
    F: Open,
    W: Sink + Drop + Send,
    E: Say + Drop + Send,
>(all: &Inputs<'_, P, F>, choices: &Choices, name: &str, writer: W, errors: E) -> (W, E, u8)
    requires { AreChoices (map string_bytes all.now.words.now) choices.now }
    ensures { EndsFile (F.opens all.now.files.now) (F.lacks all.now.files.now) (ReadingFails most_ahead F.File.called)
        (WritingFails W.called)
        (map string_bytes all.now.words.now) all.now.terminals name.now (label_of all.now.is_many name.now)
        (W.contents writer) (W.contents result.0) (E.said errors) (E.said result.1) result.2 }
{
    let label = label_for(all.is_many, name);
    let given = Given::of(all.rt, all.terminals, all.words, label, file_named(name));
    match all.files.open(name) {
        Ok(file) => {
            let given = given.with_rest(all.files.rest_of(&file));
            status_on_reader(&given, choices, name, file, writer, errors)
        }
        Err(fault) => {
            let mut errors = errors;
            say_of_file(&mut errors, name, fault);
            (writer, errors, UNREAD_STATUS)
        }
    }
}

// Does what the words order on the input that a reader has.
#[tactic(auto, using(crate::proofs::FileLaws::lines_end))]
fn status_on_reader<
    P: Env + Files + Threads + Wait + Sync + AllocGlobal + Eprint + Clock,
    R: Source + Drop + Send,
    W: Sink + Drop + Send,
    E: Say + Drop + Send,
>(
    given: &Given<'_, P>,
    choices: &Choices,
    name: &str,
    reader: R,
    writer: W,
    errors: E,
) -> (W, E, u8)
    requires choices { AreChoices (map string_bytes given.now.words.now) choices.now }
    requires terminal { given.now.place.is_terminal ≡ given.now.terminals.error }
    ensures { EndsInputOf (ReadingFails most_ahead R.called) (WritingFails W.called)
        (map string_bytes given.now.words.now) given.now.terminals (option_copied given.now.place.label)
        (R.remaining reader) (W.contents writer) (W.contents result.0) (E.said errors) (E.said result.1) result.2 }
{
    match asked_of_lines(choices, given.words) {
        Some(asked) => status_of_asked(given, reader, writer, errors, &asked),
        None => status_by_look(given, choices, name, reader, writer, errors),
    }
}

// What the words alone ask for, where that is to judge the lines of an input.
#[tactic(auto, using(crate::proofs::FileLaws::ask_for_other, crate::proofs::FileLaws::ask_for_nothing))]
fn asked_of_lines(choices: &Choices, words: &[String]) -> Option<Asked>
    requires { AreChoices (map string_bytes words.now) choices.now }
    ensures { MatchOption result (AskForLook (map string_bytes words.now))
        (λ asked. IsCommandLine Sight.Unseen asked (map string_bytes words.now) × (reads_lines asked.task ≡ true)) }
{
    match choices.on(words, Sight::Unseen) {
        Some(asked) => {
            if reads_lines(&asked) {
                Some(asked)
            } else {
                None
            }
        }
        None => None,
    }
}

// The same, by how the input looks.
#[tactic(auto, using(crate::proofs::FileLaws::read_again))]
fn status_by_look<
    P: Env + Files + Threads + Wait + Sync + AllocGlobal + Eprint + Clock,
    R: Source + Drop + Send,
    W: Sink + Drop + Send,
    E: Say + Drop + Send,
>(
    given: &Given<'_, P>,
    choices: &Choices,
    name: &str,
    reader: R,
    writer: W,
    errors: E,
) -> (W, E, u8)
    requires choices { AreChoices (map string_bytes given.now.words.now) choices.now }
    requires looks { AskForLook (map string_bytes given.now.words.now) }
    requires terminal { given.now.place.is_terminal ≡ given.now.terminals.error }
    ensures { EndsInputOf (ReadingFails most_ahead R.called) (WritingFails W.called)
        (map string_bytes given.now.words.now) given.now.terminals (option_copied given.now.place.label)
        (R.remaining reader) (W.contents writer) (W.contents result.0) (E.said errors) (E.said result.1) result.2 }
{
    let mut reader = Waiting::by(given.place.rt, reader);
    match look(given.place.rt.alloc(), &mut reader) {
        Ok(first) => status_after(given, choices, first, reader, writer, errors),
        Err(fault) => {
            let mut errors = errors;
            let status = say_unlooked(&given.place, name, &mut errors, fault);
            (writer, errors, status)
        }
    }
}

// Says why it was not found how an input looks, and returns the status.
#[tactic(auto, using(crate::proofs::FileLaws::lacks_memory, crate::proofs::FileLaws::is_unread))]
fn say_unlooked<P: Eprint + Wait, E: Say>(
    place: &Place<'_, P>,
    name: &str,
    errors: &mut E,
    fault: Fault,
) -> u8
    ensures { EndsUnlooked (option_copied place.now.label) fault (E.said errors.old) (E.said errors.new) result }
{
    match fault {
        Fault::Memory => {
            place.say(errors, "no memory");
            MEMORY_STATUS
        }
        Fault::Read | Fault::Write => {
            say_of_file(errors, name, "it can't be read");
            UNREAD_STATUS
        }
    }
}

// Whether each line of the input holds a history.
fn reads_lines(asked: &Asked) -> bool
    ensures { result ≡ reads_lines asked.now.task }
{
    match asked.task {
        Task::OfInput(order, _) => judges_lines(&order),
        Task::OfLog(_) | Task::OfPage(_, _) => false,
    }
}

fn judges_lines(order: &Order) -> bool
    ensures { result ≡ judges_lines order.now }
{
    match order {
        Order::JudgeLines(_) => true,
        Order::Judge(_)
        | Order::Check(_)
        | Order::Explain(_)
        | Order::ExplainLong(_)
        | Order::ListFaults(_)
        | Order::Refute(_)
        | Order::Replay
        | Order::Drive(_) => false,
    }
}

// Does what the words order on an input whose first bytes were read.
fn status_after<
    P: Env + Files + Threads + Wait + Sync + AllocGlobal + Eprint + Clock,
    R: Source + Drop + Send,
    W: Sink + Drop + Send,
    E: Say + Drop + Send,
>(
    given: &Given<'_, P>,
    choices: &Choices,
    first: FirstBytes,
    reader: R,
    writer: W,
    errors: E,
) -> (W, E, u8)
    requires choices { AreChoices (map string_bytes given.now.words.now) choices.now }
    requires looks { AskForLook (map string_bytes given.now.words.now) }
    requires seen { is_seen first.sight ≡ true }
    requires terminal { given.now.place.is_terminal ≡ given.now.terminals.error }
    ensures { EndsInputOf (ReadingFails most_ahead R.called) (WritingFails W.called)
        (map string_bytes given.now.words.now) given.now.terminals (option_copied given.now.place.label)
        (prepend_known first.bytes.items (R.remaining reader))
        (W.contents writer) (W.contents result.0) (E.said errors) (E.said result.1) result.2 }
{
    match choices.on(given.words, first.sight) {
        Some(asked) => {
            let reader = ReadAhead::of(first.bytes.as_slice(), reader);
            status_of_asked(given, reader, writer, errors, &asked)
        }
        None => {
            let mut writer = writer;
            let mut errors = errors;
            let rt = given.place.rt;
            let status = status_of_usage(rt, given.words, first.sight, &mut writer, &mut errors);
            (writer, errors, status)
        }
    }
}

// The worse of two statuses: wrong words, then a fault of reading, writing or memory, then a refusal, then a criterion that is not met, and
// then one of which nothing is known.
fn worse(one: u8, other: u8) -> u8
    ensures { result ≡ worse one other }
{
    if rank(one) < rank(other) { other } else { one }
}

fn rank(status: u8) -> u8
    ensures { result ≡ rank status }
{
    match status {
        0 => 0,
        6 => 1,
        5 => 2,
        1 => 3,
        3 => 4,
        4 => 5,
        _ => 6,
    }
}
