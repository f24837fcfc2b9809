//! What is among the words of a command line: a word, or the value of an option.

ghost use Rattle.std.specs.Prelude.{◌≡◌, ◌++◌, codes, map, option_copied, slice_get};
ghost use Rattle.app_command_line.specs.Misuses.{after_front, gives, has, value_of};

use std::convert::AsStr;

/// Whether one of the words is this one. O(n) for n words.
pub fn has<S: AsStr>(words: &[S], wanted: &str) -> bool
    ensures { result ≡ has wanted.now (map S.text words.now) }
{
    match words {
        [] => false,
        [word, later @ ..] => {
            if word.as_str() == wanted {
                true
            } else {
                has(later, wanted)
            }
        }
    }
}

/// Whether words give the option of this name a value.
pub fn gives<S: AsStr>(words: &[S], name: &str, front: &str) -> bool
    requires { front.now ≡ name.now ++ codes "=" }
    ensures { result ≡ gives name.now (map S.text words.now) }
{
    match value_of(words, name, front) {
        Some(_) => true,
        None => false,
    }
}

/// The value that words give the option of this name: the word after the name, or what follows the name and an equals sign in one word,
/// which is the front of such a word. O(n) for n words.
pub fn value_of<'a, S: AsStr>(words: &'a [S], name: &str, front: &str) -> Option<&'a str>
    requires { front.now ≡ name.now ++ codes "=" }
    ensures { option_copied result ≡ value_of name.now (map S.text words.now) }
{
    match words {
        [] => None,
        [word, later @ ..] => {
            if word.as_str() == name {
                first_of(later)
            } else {
                match after_front(word.as_str(), front) {
                    Some(value) => Some(value),
                    None => value_of(later, name, front),
                }
            }
        }
    }
}

// The first word.
fn first_of<'a, S: AsStr>(words: &'a [S]) -> Option<&'a str>
    ensures { option_copied result ≡ slice_get (map S.text words.now) 0 }
{
    match words {
        [] => None,
        [word, ..] => Some(word.as_str()),
    }
}

// What follows this front in a word.
fn after_front<'a>(word: &'a str, front: &str) -> Option<&'a str>
    ensures { option_copied result ≡ after_front front.now word.now }
{
    match word.strip_prefix(front) {
        Some(rest) => Some(rest),
        None => None,
    }
}
