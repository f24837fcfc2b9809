//! The word of `drive` that is to name a store.

ghost use Rattle.std.specs.Prelude.{◌≡◌, map, option_copied};
ghost use Rattle.app_command_line.specs.Misuses.{is_option, is_store, store_of, takes_value, unknown_store};

use std::convert::AsStr;

/// The first word after `drive` that is no option, no value of one, and no store. O(n) for n words.
pub fn store_of<'a, S: AsStr>(words: &'a [S]) -> Option<&'a str>
    ensures { option_copied result ≡ store_of (map S.text words.now) }
{
    match words {
        [_, command, further @ ..] => {
            if command.as_str() == "drive" {
                unknown_store(false, further)
            } else {
                None
            }
        }
        _ => None,
    }
}

// The first of these words that is no option, no value of one, and no store. The first of them may be the value of an option.
fn unknown_store<'a, S: AsStr>(is_value: bool, words: &'a [S]) -> Option<&'a str>
    ensures { option_copied result ≡ unknown_store is_value (map S.text words.now) }
{
    match words {
        [] => None,
        [word, later @ ..] => {
            let word = word.as_str();
            if is_value || is_option(word) || is_store(word) {
                unknown_store(takes_value(word), later)
            } else {
                Some(word)
            }
        }
    }
}

// Whether a word begins with a hyphen.
fn is_option(word: &str) -> bool
    ensures { result ≡ is_option word.now }
{
    match word.as_bytes() {
        [] => false,
        [first, ..] => *first == b'-',
    }
}

// Whether a word names a store.
fn is_store(word: &str) -> bool
    ensures { result ≡ is_store word.now }
{
    word == "causal" || word == "lamport"
}

// Whether the word after this one is the value of an option of `drive`.
fn takes_value(word: &str) -> bool
    ensures { result ≡ takes_value word.now }
{
    word == "--seals" || word == "--workers" || word == "--stop"
}
