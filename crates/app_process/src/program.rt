//! The process: its words, its streams and its exit status.

ghost use Rattle.std.specs.Prelude.{◌≤◌, IfSome, MatchOption, map, string_bytes};
ghost use Rattle.app_process.specs.Faults.{ReadingFails, WritingFails, most_ahead};
ghost use Rattle.app_process.specs.Process.{EndsRun, EndsWords, IsAfterCommand, NamesNoFile};

use crate::asked_input::{Given, status_of_asked};
use crate::file_inputs::status_on_files;
use crate::files::{Open, ProcessFiles};
use crate::saying::{Say, StandardError};
use crate::terminals::Terminals;
use crate::usage::report_usage;
use app_command_line::{Sight, Usage, command_of, fault_with, next_file};
use json_lines::{Sink, Source};
use std::rt::{Env, Files};
use std::sync::Wait;
use std::thread::Threads;
use std::time::Clock;
use std::{env, io};

/// Does what the process's words order, and returns its exit status.
///
/// It gives [`status_of_words`] the words and the streams of the process: an answer or the help goes to standard output, and what is
/// wrong to standard error. Words that are no text have status 2. If an input has nothing yet and does not wait for it, like a
/// pipe that must not block, it is read again a millisecond later, and each time counts as a read call that gave no byte.
#[tactic(auto, using(crate::proofs::FewLaws::few_of_usage))]
pub fn status_of_process<
    P: Env + Files + Threads + Wait + Sync + AllocGlobal + Input + Print + Eprint + Clock,
>(rt: &P, terminals: Terminals) -> u8
where
    P::Reader: Send,
    P::File: Send,
    ensures { result ≤ 6 }
{
    let mut writer = io::writer(rt);
    let mut errors = StandardError::of(rt);
    match words_of_process(rt) {
        Ok(words) => {
            let reader = rt.reader();
            let words = words.as_slice();
            let files = ProcessFiles::of(rt);
            let (_, _, status) = status_of_words(
                rt, &files, terminals, words, reader, writer, errors,
            );
            status
        }
        Err(usage) => report_usage(rt, &mut writer, &mut errors, usage),
    }
}

/// Does what some words order, on the files that they name, or where they name none on the input that a reader has. Returns the writer
/// with the answer, what was said beside it, and the exit status.
///
/// The clause says which command the words are, what the answer is and which status it has; and for each failure what stays unwritten,
/// what is said and which status it has: 1 where the input is refused, 3 where the reader or the writer failed, and 4 where memory ran
/// out. Words that are no command line have status 2, and help and the version 0. Of several files the status is the worst. Of the text
/// of an answer whose lines have colours or the names of files the clause says nothing.
/// The cost is that of [`run_keeping`](app_engine::run_keeping), [`judge_lines`](app_engine::judge_lines),
/// [`follow_log`](app_logs::follow_log) or the functions of app_pages.
#[tactic(auto, using(crate::proofs::AskedLaws::run_on_files, crate::proofs::AskedLaws::run_on_input))]
pub fn status_of_words<
    'w,
    P: Env + Files + Threads + Wait + Sync + AllocGlobal + Eprint + Clock,
    F: Open,
    R: Source + Drop + Send,
    W: Sink + Drop + Send,
    E: Say + Drop + Send,
>(
    rt: &'w P,
    files: &'w F,
    terminals: Terminals,
    words: &'w [String],
    reader: R,
    writer: W,
    errors: E,
) -> (W, E, u8)
    ensures { EndsRun (F.opens files.now) (F.lacks files.now) (ReadingFails most_ahead F.File.called) (ReadingFails 0 R.called)
        (WritingFails W.called) (map string_bytes words.now) terminals (R.remaining reader)
        (W.contents writer) (W.contents result.0) (E.said errors) (E.said result.1) result.2 }
{
    match words_with_files(words) {
        Some(further) => status_on_files(rt, files, terminals, words, further, writer, errors),
        None => status_on_input(rt, terminals, words, reader, writer, errors),
    }
}

// The words after that of a command, where they name a file.
#[tactic(auto, using(crate::proofs::AskedLaws::after_command, crate::proofs::AskedLaws::no_file, crate::proofs::AskedLaws::few_words))]
fn words_with_files<'w>(words: &'w [String]) -> Option<&'w [String]>
    ensures further { MatchOption result (NamesNoFile (map string_bytes words.now))
        (λ further. IsAfterCommand (map string_bytes words.now) (map string_bytes further.now)) }
    ensures some { IfSome result (λ _. ¬ NamesNoFile (map string_bytes words.now)) }
{
    let [_, _, further @ ..] = words else {
        return None;
    };
    match next_file(further) {
        Some(_) => Some(further),
        None => None,
    }
}

// Does what words that name no file order.
#[tactic(auto, using(crate::proofs::AskedLaws::words_asked, crate::proofs::AskedLaws::words_misused))]
fn status_on_input<
    'w,
    P: Env + Files + Threads + Wait + Sync + AllocGlobal + Eprint + Clock,
    R: Source + Drop + Send,
    W: Sink + Drop + Send,
    E: Say + Drop + Send,
>(
    rt: &'w P,
    terminals: Terminals,
    words: &'w [String],
    reader: R,
    writer: W,
    errors: E,
) -> (W, E, u8)
    ensures { EndsWords (ReadingFails 0 R.called) (WritingFails W.called) (map string_bytes words.now) terminals (R.remaining reader)
        (W.contents writer) (W.contents result.0) (E.said errors) (E.said result.1) result.2 }
{
    match command_of(rt.alloc(), words, Sight::Unseen) {
        Ok(asked) => {
            let given = Given::of(rt, terminals, words, None, None);
            status_of_asked(&given, reader, writer, errors, &asked)
        }
        Err(usage) => {
            let mut writer = writer;
            let mut errors = errors;
            let status = report_usage(rt, &mut writer, &mut errors, usage);
            (writer, errors, status)
        }
    }
}

fn words_of_process<P: Env + AllocGlobal>(rt: &P) -> Result<Vec<String>, Usage> {
    match env::args(rt) {
        Ok(words) => words.collect(rt.alloc()).map_err(|_| Usage::Memory),
        Err(error) if error.kind() == io::ErrorKind::OutOfMemory => Err(Usage::Memory),
        Err(_) => Err(fault_with(rt.alloc(), BAD_WORDS)),
    }
}

// The fault of words that are no text.
const BAD_WORDS: &str =
    "error: invalid UTF-8 was detected in one or more arguments\n\nFor more information, try '--help'.\n";
