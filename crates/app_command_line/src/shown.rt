//! The texts of help and of the version.

ghost use Rattle.std.specs.Prelude.{◌≡◌, IfOk, map, string_bytes};
ghost use Rattle.app_command_line.specs.Shown.{IsHelpFor, IsHelpOn, version_text};

use crate::help::VERSION;
use crate::help_page::{HelpPage, page_in};
use std::alloc::{AllocError, Global};
use std::convert::AsStr;

/// The help that words ask for, where `clap` words it so.
///
/// The page says first what it is on, and last its manual. Between them are the usage and the options, as `clap` writes them.
pub fn help_for<S: AsStr>(alloc: Global, words: &[S], text: &str) -> Result<String, AllocError>
    ensures { IfOk result (λ help. IsHelpFor (map S.text words.now) (string_bytes help)) }
{
    help_on(alloc, page_in(words), without_first_line(text))
}

/// The text for `--version`.
pub fn version_of(alloc: Global) -> Result<String, AllocError>
    ensures { IfOk result (λ text. string_bytes text ≡ version_text) }
{
    format!(in alloc; "causal_judge {VERSION}\n")
}

// A page of help, with this usage.
fn help_on(alloc: Global, page: HelpPage, usage: &str) -> Result<String, AllocError>
    ensures { IfOk result (λ help. IsHelpOn page (string_bytes help)) }
{
    let about = page.about();
    let manual = page.manual();
    format!(in alloc; "{about}\n{usage}{manual}")
}

// What comes after the first line of a text.
fn without_first_line(text: &str) -> &str {
    match text.split_once('\n') {
        Some((_, rest)) => rest,
        None => text,
    }
}
