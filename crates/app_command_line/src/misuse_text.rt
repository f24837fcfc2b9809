//! What the program says of words that `clap` takes but that give no task.

ghost use Rattle.std.specs.Prelude.{◌≡◌, IfOk, MatchOption, codes, map, option_copied, string_bytes};
ghost use Rattle.clap.specs.Words.{Text};
ghost use Rattle.app_command_line.specs.Misuses.{IsColorText, IsMisuseText, IsNoColor, IsNoList, IsValueText, color_text, fault_text};
ghost use Rattle.app_command_line.specs.Misuses.{last_text, list_text, misuse_text, names_store, store_of, store_text, value_of};

use crate::coloring::coloring_in;
use crate::expected::expected_in;
use crate::given::{has, value_of};
use crate::misuse::{Misuse, misuse_in};
use crate::named_store::store_of;
use std::alloc::{AllocError, Global};
use std::convert::AsStr;

/// What the program says of words that `clap` takes but that give no task: which of them are at fault, and what was possible.
///
/// Fails for want of memory alone. O(n) for n words.
pub(crate) fn text_of_misuse<S: AsStr>(alloc: Global, words: &[S]) -> Result<String, AllocError>
    ensures { IfOk result (λ text. IsMisuseText (map S.text words.now) (string_bytes text)) }
{
    match misuse_in(words) {
        Some(misuse) => misuse.text(alloc),
        None => text_of_values(alloc, words),
    }
}

/// The fault of words that give a task that can't be carried out so: what is wrong, and how the command is used.
pub fn usage_fault(alloc: Global, fault: &str, usage: &str) -> Result<String, AllocError>
    ensures { IfOk result (λ text. string_bytes text ≡ fault_text fault.now usage.now) }
{
    format!(in alloc;
        "error: {fault}\n\nUsage: causal_judge {usage}\n\nFor more information, try '--help'.\n"
    )
}

impl Misuse {
    fn text(self, alloc: Global) -> Result<String, AllocError>
        ensures { IfOk result (λ text. string_bytes text ≡ misuse_text self) }
    {
        usage_fault(alloc, self.fault(), self.usage())
    }
}

// What is said of a value that an option does not take, or of a store.
fn text_of_values<S: AsStr>(alloc: Global, words: &[S]) -> Result<String, AllocError>
    ensures { IfOk result (λ text. IsValueText (map S.text words.now) (string_bytes text)) }
{
    match bad_list(words) {
        Some(list) => text_of_list(alloc, list),
        None => text_of_coloring_or_store(alloc, words),
    }
}

fn text_of_coloring_or_store<S: AsStr>(alloc: Global, words: &[S]) -> Result<String, AllocError>
    ensures { IfOk result (λ text. IsColorText (map S.text words.now) (string_bytes text)) }
{
    match bad_coloring(words) {
        Some(word) => text_of_coloring(alloc, word),
        None => text_of_last(alloc, store_of(words), names_store(words)),
    }
}

// The value of `--expect`, where it is no list of criteria.
#[tactic(auto, using(crate::proofs::Misuses::no_list, crate::proofs::Misuses::is_list, crate::proofs::Misuses::lacks_list))]
fn bad_list<'a, S: AsStr>(words: &'a [S]) -> Option<&'a str>
    ensures { MatchOption result ((list : Text) → ¬ IsNoList (map S.text words.now) list)
        (λ list. IsNoList (map S.text words.now) list.now) }
{
    match value_of(words, "--expect", "--expect=") {
        Some(list) => match expected_in(list) {
            Some(_) => None,
            None => Some(list),
        },
        None => None,
    }
}

// The value of `--color`, where it names no colouring.
#[tactic(auto, using(crate::proofs::Misuses::no_color, crate::proofs::Misuses::is_color, crate::proofs::Misuses::lacks_color))]
fn bad_coloring<'a, S: AsStr>(words: &'a [S]) -> Option<&'a str>
    ensures { MatchOption result ((word : Text) → ¬ IsNoColor (map S.text words.now) word)
        (λ word. IsNoColor (map S.text words.now) word.now) }
{
    match value_of(words, "--color", "--color=") {
        Some(word) => match coloring_in(word) {
            Some(_) => None,
            None => Some(word),
        },
        None => None,
    }
}

// Whether a word names a store.
fn names_store<S: AsStr>(words: &[S]) -> bool
    ensures { result ≡ names_store (map S.text words.now) }
{
    has(words, "causal") || has(words, "lamport")
}

fn text_of_list(alloc: Global, list: &str) -> Result<String, AllocError>
    ensures { IfOk result (λ text. string_bytes text ≡ list_text list.now) }
{
    let fault = format!(in alloc;
        "'--expect' takes one or more of cc, cm and ccv, each once, joined by commas, and not '{list}'"
    )?;
    usage_fault(alloc, &fault, "judge --expect <LIST>")
}

fn text_of_coloring(alloc: Global, word: &str) -> Result<String, AllocError>
    ensures { IfOk result (λ text. string_bytes text ≡ color_text word.now) }
{
    let fault = format!(in alloc; "'--color' takes auto, always or never, and not '{word}'")?;
    usage_fault(alloc, &fault, "<judge|explain> --color <WHEN>")
}

fn text_of_store(alloc: Global, store: &str) -> Result<String, AllocError>
    ensures { IfOk result (λ text. string_bytes text ≡ store_text store.now) }
{
    let fault = format!(in alloc; "there is no store '{store}': STORE is 'causal' or 'lamport'")?;
    usage_fault(alloc, &fault, "drive [OPTIONS] <STORE>")
}

// What is said of words with whose options nothing is wrong, by the word that names no store, and whether one names a store.
fn text_of_last(alloc: Global, store: Option<&str>, names_store: bool) -> Result<String, AllocError>
    ensures { IfOk result (λ text. string_bytes text ≡ last_text (option_copied store.entry) names_store) }
{
    match store {
        Some(store) => text_of_store(alloc, store),
        None => {
            if names_store {
                Misuse::StoreNamed.text(alloc)
            } else {
                Misuse::Unexpected.text(alloc)
            }
        }
    }
}

/// The file that the answer goes to: the word after `-o`, or what follows `-o=`.
pub fn output_file<'a, S: AsStr>(words: &'a [S]) -> Option<&'a str>
    ensures { option_copied result ≡ value_of (codes "-o") (map S.text words.now) }
{
    value_of(words, "-o", "-o=")
}
