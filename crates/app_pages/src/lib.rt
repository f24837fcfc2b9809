//! Pages: what is said of an input or of a log, as a page that shows it.
//!
//! It gives [`page_of_input`] and [`page_of_log`], which read, ask the engines and write, and [`PageError`], why a log has no page. The
//! crate show_page says what a page is made of.
#![tactic(auto)]

mod alone;
mod counting;
mod failure;
mod inputs;
mod logs;

pub use alone::{input_page_alone, log_page_alone};
pub use failure::PageError;
pub use inputs::page_of_input;
pub use logs::{LogPage, page_of_log};
