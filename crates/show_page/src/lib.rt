//! The page of a history: an HTML document in one file that shows the history, and why it meets the criteria or does not.
//!
//! It gives [`page_of`], which puts [`PageTexts`], as the JSON texts of a history and of a report on it, into a frame of fixed markup,
//! style and script, and [`said_of`], the part of a page that says the same where no script runs.
#![tactic(auto)]

mod drawing;
mod escaping;
mod frame;
mod hashes;
pub mod laws;
mod pages;
mod script;
mod style;
mod zooming;

pub use frame::MOST_SAID;
pub use pages::{PageTexts, page_of, said_of};
