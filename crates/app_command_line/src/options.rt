//! The words after a command.

ghost use Rattle.std.specs.Prelude.{MatchOption, None, Some, map};
ghost use Rattle.app_command_line.specs.Options.{AddsAlone, AddsTogether, IsAsked, Say};

use crate::operands::after_files;
use crate::said::Said;
use crate::settings::{command_named, setting_alone, setting_together};
use crate::sight::Sight;
use app_orders::Asked;
use std::convert::AsStr;

/// What the word of a command and the words after it ask for on an input that looks so. O(n) for n words that name files: it stops at
/// the first thing that is said twice.
#[tactic(auto, using(crate::proofs::Saying::task_given, crate::proofs::Saying::nothing_said, crate::proofs::Saying::no_command))]
pub fn asked_of<S: AsStr>(sight: Sight, word: &str, words: &[S]) -> Option<Asked>
    ensures { MatchOption result ((asked : Asked) → ¬ IsAsked sight asked word.now (map S.text words.now))
        (λ asked. IsAsked sight asked word.now (map S.text words.now)) }
{
    match command_named(word) {
        Some(command) => match said_in(&Said::nothing(command), words) {
            Some(said) => said.asked(sight),
            None => None,
        },
        None => None,
    }
}

// All that is said after these words.
#[cycle(said)]
#[tactic(auto, using(crate::proofs::Saying::say_next, crate::proofs::Saying::say_later))]
fn said_in<S: AsStr>(before: &Said, words: &[S]) -> Option<Said>
    ensures { MatchOption result ((after : Said) → ¬ Say before.now None (map S.text words.now) after)
        (Say before.now None (map S.text words.now)) }
{
    let rest = after_files(words);
    match rest {
        [] => Some(*before),
        [word, later @ ..] => match said_alone(before, word.as_str()) {
            Some(said) => said_in(&said, later),
            None => said_with_value(before, word.as_str(), later),
        },
    }
}

// All that is said after this word, which is the name of an option, and the words after it.
#[cycle(said)]
fn said_with_value<S: AsStr>(before: &Said, word: &str, later: &[S]) -> Option<Said>
    ensures { MatchOption result ((after : Said) → ¬ Say before.now (Some word.now) (map S.text later.now) after)
        (Say before.now (Some word.now) (map S.text later.now)) }
{
    match later {
        [] => None,
        [value, further @ ..] => match said_together(before, word, value.as_str()) {
            Some(said) => said_in(&said, further),
            None => None,
        },
    }
}

// All that is said after this word.
#[tactic(auto, using(crate::proofs::Saying::added_alone, crate::proofs::Saying::none_alone))]
fn said_alone(before: &Said, word: &str) -> Option<Said>
    ensures { MatchOption result ((after : Said) → ¬ AddsAlone before.now word.now after) (AddsAlone before.now word.now) }
{
    match setting_alone(word) {
        Some(setting) => before.and_also(&setting),
        None => None,
    }
}

// All that is said after these two words.
#[tactic(auto, using(crate::proofs::Saying::added_together, crate::proofs::Saying::none_together))]
fn said_together(before: &Said, word: &str, value: &str) -> Option<Said>
    ensures { MatchOption result ((after : Said) → ¬ AddsTogether before.now word.now value.now after)
        (AddsTogether before.now word.now value.now) }
{
    match setting_together(word, value) {
        Some(setting) => before.and_also(&setting),
        None => None,
    }
}
