//! The page on which words ask for help.

ghost use Rattle.std.specs.Prelude.{◌≡◌, map, option_map, slice_get};
ghost use Rattle.app_command_line.specs.Shown.{AsksForPage, Names, about_of, manual_of};

use crate::settings::{CommandName, command_named};
use crate::{abouts, manuals};
use std::convert::AsStr;

/// A page of help.
#[derive(Clone, Copy)]
pub enum HelpPage {
    /// On the program.
    Program,
    /// On `help`.
    Help,
    /// On a command.
    Command(CommandName),
}

impl HelpPage {
    /// What the page says first.
    pub fn about(self) -> &'static str
        ensures { result.now ≡ about_of self }
    {
        match self {
            HelpPage::Program => abouts::PROGRAM,
            HelpPage::Help => abouts::HELP,
            HelpPage::Command(command) => match command {
                CommandName::Judge => abouts::JUDGE,
                CommandName::Check => abouts::CHECK,
                CommandName::Explain => abouts::EXPLAIN,
                CommandName::Refute => abouts::REFUTE,
                CommandName::Replay => abouts::REPLAY,
                CommandName::Drive => abouts::DRIVE,
                CommandName::Events => abouts::EVENTS,
            },
        }
    }

    /// What the page says last.
    pub fn manual(self) -> &'static str
        ensures { result.now ≡ manual_of self }
    {
        match self {
            HelpPage::Program => manuals::PROGRAM,
            HelpPage::Help => manuals::HELP,
            HelpPage::Command(command) => match command {
                CommandName::Judge => manuals::JUDGE,
                CommandName::Check => manuals::CHECK,
                CommandName::Explain => manuals::EXPLAIN,
                CommandName::Refute => manuals::REFUTE,
                CommandName::Replay => manuals::REPLAY,
                CommandName::Drive => manuals::DRIVE,
                CommandName::Events => manuals::EVENTS,
            },
        }
    }
}

/// The page on which words ask for help, where they do: that of the command that comes first or after `help`.
pub fn page_in<S: AsStr>(words: &[S]) -> HelpPage
    ensures { AsksForPage (map S.text words.now) result }
{
    match page_named(word_at(words, 1)) {
        HelpPage::Help => page_named(word_at(words, 2)),
        HelpPage::Program => HelpPage::Program,
        HelpPage::Command(command) => HelpPage::Command(command),
    }
}

// The page that a word names: that of the program where it names no other.
fn page_named(word: Option<&str>) -> HelpPage
    ensures { Names (option_map (λ w. w.now) word.entry) result }
{
    match word {
        Some(word) => page_of(word),
        None => HelpPage::Program,
    }
}

// The same where there is a word.
fn page_of(word: &str) -> HelpPage
    ensures { Names (Some word.now) result }
{
    match command_named(word) {
        Some(command) => HelpPage::Command(command),
        None => match word {
            "help" => HelpPage::Help,
            _ => HelpPage::Program,
        },
    }
}

// The word at a place, if there is one.
#[tactic(auto, using(crate::proofs::Words::word_there))]
fn word_at<S: AsStr>(words: &[S], at: usize) -> Option<&str>
    ensures { option_map (λ w. w.now) result ≡ slice_get (map S.text words.now) at }
{
    match words.get(at) {
        Some(word) => Some(word.as_str()),
        None => None,
    }
}
