//! What a command line asks for, or why it asks for nothing.
ghost use Rattle.std.specs.Prelude.{◌≡◌, [], IfErr, IfOk, MatchOption, MatchResult, map, string_bytes};
ghost use Rattle.clap.specs.Words.{HasKind, fault_of, kind_of};
ghost use Rattle.app_command_line.specs.CommandLine.{AsksNothing, IsCommandLine, IsFault, IsUsageBy, IsUsageFor, IsUsageOf};
ghost use Rattle.app_command_line.specs.CommandLine.{IsFaultWith, command_line};
ghost use Rattle.app_command_line.specs.Misuses.{IsMisuse};
ghost use Rattle.app_command_line.specs.Shown.{IsHelpFor, version_text};

use crate::misuse_text::text_of_misuse;
use crate::options::asked_of;
use crate::program::program;
use crate::shown::{help_for, version_of};
use crate::sight::Sight;
use crate::topics::topic_in;
use app_orders::Asked;
use clap::error::ErrorKind;
use clap::{ArgMatches, Error};
use std::alloc::{AllocError, Global};
use std::convert::AsStr;

/// Why a command line gives no task.
#[derive(Debug, Drop)]
pub enum Usage {
    /// It is no command line of this program: what is wrong with it, and how the program is used.
    Fault(String),
    /// It asks for help, or for the version: the text to show.
    Help(String),
    /// Memory ran out.
    Memory,
}

/// What a command line asks for on an input that looks so. A command line is the program's name, the word of a command, and then what the
/// command takes, in any order and each at most once.
///
/// - `judge` takes `--workers N` for a number from 1 to 16, or nothing for 2; and `--expect LIST`, where the list is one or more of
///   `cc`, `cm` and `ccv`, each at most once, joined by commas; and `--lines`, and then `--skip-blank`; and `--long`; and without
///   `--lines`, `--events`, and then `--every N` for a number from 1 to 2,147,483,647; and without `--lines`, `--summary`, and
///   `--at-least-reads N` for such a number.
/// - `check` takes `--workers N`.
/// - `explain` takes nothing, `--json`, `--json` and `--certificates`, `--svg`, or `--html`. With `--long` or `--events` it does not take
///   `--certificates`, and with `--all N`, for a number from 1 to 1,000,000, neither `--certificates` nor `--svg`. It takes `-o FILE`.
/// - `refute` takes `--long`, and `events` takes `--names` or `--notes`.
/// - `drive` takes `causal` or `lamport`, which can't be left out, `--eager`, `--seals N` for a number from 0 to 8, or nothing for 0,
///   `--workers N`, and `--stop S` for a number from 0 to 15.
/// - `judge` without `--lines`, `check`, `explain`, `refute`, `replay` and `drive` take `--why`.
/// - `judge` and `explain` take `--color WHEN`, for `auto`, `always` or `never`.
/// - Every command takes `--progress`.
///
/// An option and its value are two words, or one as in `--workers=N`. Every command takes any number of files: words that begin with no
/// hyphen, or are a hyphen. A file named `causal` or `lamport` is written `./causal`.
///
/// On an input that looks like a log, `--events` counts as said; on one that looks like a memory history, `--long` does, but with
/// `--certificates`; and on each input that was looked at, `--why`.
///
/// Any other words give a `Usage`. It is `Help` with the text of the topic for `help forms` and `help refusals`. Where `clap` finds a
/// request for the version, it is `Help` with the version, and where it finds one for help, `Help` on the command that the second word
/// names, or after `help` the third, or else on the program. It is `Fault` for all else: an unknown command, option or further word, no
/// command, or a number or list that is missing or that the option doesn't take. If memory ran out, it is `Memory` instead of either.
pub fn command_of<S: AsStr>(alloc: Global, words: &[S], sight: Sight) -> Result<Asked, Usage>
    ensures asked { MatchResult result (λ asked. IsCommandLine sight asked (map S.text words.now))
        (λ _. AsksNothing sight (map S.text words.now)) }
    ensures usage { IfErr result (IsUsageFor (fault_of command_line (map S.text words.now)) (map S.text words.now)) }
{
    match asked_in(words, sight) {
        Some(asked) => Ok(asked),
        None => match topic_in(words) {
            Some(topic) => Err(shown(String::from_str(alloc, topic))),
            None => Err(usage_of(alloc, words)),
        },
    }
}

/// What a command line asks for on an input that looks so, where it is one.
pub fn asked_in<S: AsStr>(words: &[S], sight: Sight) -> Option<Asked>
    ensures { MatchOption result (AsksNothing sight (map S.text words.now)) (λ asked. IsCommandLine sight asked (map S.text words.now)) }
{
    let [_, word, further @ ..] = words else {
        return None;
    };
    asked_of(sight, word.as_str(), further)
}

// What the program says of words that give no task and ask for no topic. `clap` would take a few of them, as `judge --`.
fn usage_of<S: AsStr>(alloc: Global, words: &[S]) -> Usage
    ensures { IsUsageBy (fault_of command_line (map S.text words.now)) (map S.text words.now) result }
{
    match matches_of(alloc, words) {
        Ok(_) => fault_of_misuse(alloc, words),
        Err(error) => usage_by(alloc, words, &error),
    }
}

// The text that is shown, where there was memory for it.
fn shown(text: Result<String, AllocError>) -> Usage
    ensures { MatchResult text (λ help. result ≡ Usage.Help help) (λ _. result ≡ Usage.Memory) }
{
    match text {
        Ok(text) => Usage::Help(text),
        Err(_) => Usage::Memory,
    }
}

// What the program says of words that `clap` takes but that give no task.
fn fault_of_misuse<S: AsStr>(alloc: Global, words: &[S]) -> Usage
    ensures { IsMisuse (map S.text words.now) result }
{
    match text_of_misuse(alloc, words) {
        Ok(text) => Usage::Fault(text),
        Err(_) => Usage::Memory,
    }
}

/// The fault that this text describes, or `Memory`.
pub fn fault_with(alloc: Global, text: &str) -> Usage
    ensures { IsFaultWith text.now result }
{
    match String::from_str(alloc, text) {
        Ok(text) => Usage::Fault(text),
        Err(_) => Usage::Memory,
    }
}

// What `clap` makes of the words.
fn matches_of<'a, S: AsStr>(alloc: Global, words: &'a [S]) -> Result<ArgMatches<'a>, Error>
    ensures accepted { IfOk result (λ _. fault_of command_line (map S.text words.entry.now) ≡ []) }
    ensures refused { IfErr result (HasKind (fault_of command_line (map S.text words.entry.now))) }
{
    program(alloc)?.try_get_matches_from(words)
}

// A fault as `clap` words it, without its advice to pass an option as a value after `--`, which no command takes.
fn fault_without_tip(alloc: Global, text: &str) -> Usage
    ensures { IsFault result }
{
    match text_without_tip(alloc, text) {
        Ok(text) => Usage::Fault(text),
        Err(_) => Usage::Memory,
    }
}

fn text_without_tip(alloc: Global, text: &str) -> Result<String, AllocError> {
    let mut kept = String::new(alloc);
    let mut is_after_tip = false;
    for line in text.split_inclusive('\n') {
        let is_tip = line.starts_with("  tip: to pass '");
        if !is_tip && !is_after_tip {
            kept.push_str(line)?;
        }
        is_after_tip = is_tip;
    }
    Ok(kept)
}

// What the program says of an error that `clap` finds in words.
fn usage_by<S: AsStr>(alloc: Global, words: &[S], error: &Error) -> Usage
    ensures { IsUsageOf (kind_of error.now) (map S.text words.now) result }
{
    match error.kind() {
        ErrorKind::OutOfMemory => Usage::Memory,
        ErrorKind::DisplayHelp => shown(help_by(alloc, words, error)),
        ErrorKind::DisplayVersion => shown(version_of(alloc)),
        _ => fault_by(alloc, error),
    }
}

// The help that words ask for, where `clap` finds that they do.
fn help_by<S: AsStr>(alloc: Global, words: &[S], error: &Error) -> Result<String, AllocError>
    ensures { IfOk result (λ help. IsHelpFor (map S.text words.now) (string_bytes help)) }
{
    let text = error.to_string(alloc)?;
    help_for(alloc, words, &text)
}

// What the program says of an error of `clap` that is a fault.
fn fault_by(alloc: Global, error: &Error) -> Usage
    ensures { IsFault result }
{
    match error.to_string(alloc) {
        Ok(text) => fault_without_tip(alloc, &text),
        Err(_) => Usage::Memory,
    }
}
