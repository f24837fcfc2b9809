//! The files that the words after a command name.

ghost use Rattle.std.specs.Prelude.{◌≡◌, ◌≤◌, [], ◌∷◌, List, MatchOption, length, true, false, map};
ghost use Rattle.clap.specs.Words.{Text};
ghost use Rattle.app_command_line.specs.Options.{AreFiles, is_bare};
ghost use Rattle.app_command_line.specs.Steps.Files.{BeginsWithFile, BeginsWithNoFile, SaySame};

use crate::settings::setting_alone;
use std::convert::AsStr;

/// Whether a word is a hyphen, or begins with none.
pub fn is_bare(word: &str) -> bool
    ensures { result ≡ is_bare word.now }
{
    match word.as_bytes() {
        [] => false,
        [_] => true,
        [first, ..] => *first != b'-',
    }
}

/// The words from the first one on that names no file. O(n) for n words that name files.
pub fn after_files<'a, S: AsStr>(words: &'a [S]) -> &'a [S]
    ensures same { SaySame (map S.text words.now) (map S.text result.now) }
    ensures first { BeginsWithNoFile (map S.text result.now) }
    ensures shorter { length result.now ≤ length words.now }
{
    let mut rest = words;
    'files: while let [_, later @ ..] = rest {
        if !names_file_first(rest) {
            return rest;
        }
        rest = later;
    }
    rest
}

// Whether the first of some words names a file.
fn names_file_first<S: AsStr>(words: &[S]) -> bool
    ensures yes { result ≡ true → BeginsWithFile (map S.text words.now) }
    ensures no { result ≡ false → BeginsWithNoFile (map S.text words.now) }
{
    match words {
        [] => false,
        [word, ..] => is_bare(word.as_str()) && setting_alone(word.as_str()).is_none(),
    }
}

/// The first file that the words after a command name, and the words after it. O(n) for n words before it.
#[cycle(files)]
pub fn next_file<'a, S: AsStr>(words: &'a [S]) -> Option<(&'a str, &'a [S])>
    ensures { MatchOption result (AreFiles false (map S.text words.now) [])
        (λ found. (later : List Text) → AreFiles false (map S.text found.1.now) later
        → AreFiles false (map S.text words.now) (found.0.now ∷ later)) }
{
    match words {
        [] => None,
        [word, later @ ..] => match setting_alone(word.as_str()) {
            Some(_) => next_file(later),
            None => {
                if is_bare(word.as_str()) {
                    Some((word.as_str(), later))
                } else {
                    next_file_after_value(later)
                }
            }
        },
    }
}

// The same, where the first of the words is the value of an option.
#[cycle(files)]
fn next_file_after_value<'a, S: AsStr>(words: &'a [S]) -> Option<(&'a str, &'a [S])>
    ensures { MatchOption result (AreFiles true (map S.text words.now) [])
        (λ found. (later : List Text) → AreFiles false (map S.text found.1.now) later
        → AreFiles true (map S.text words.now) (found.0.now ∷ later)) }
{
    match words {
        [] => None,
        [_, later @ ..] => next_file(later),
    }
}
