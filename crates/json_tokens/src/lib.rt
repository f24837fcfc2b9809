//! Steps of readers that take a JSON text token by token, and keep no value of what they don't want.
//!
//! [`next_token`] and [`next_value`] take what comes next, and [`pass_value`] and [`pass_no_list`] pass it. [`gather_rest`] takes the
//! elements of a list into whatever is [`Gather`]: numbers, rows, or the parts of a form one after the other; [`next_list`] does so with
//! the list that comes next, [`gather_list`] with the one that begins with a token, and [`gather_text`] with the list that a whole text
//! is. Of elements that are not wanted it only sees that they are JSON. [`next_whole_number`] and [`next_history`] read what several forms
//! have in them, and [`whole_number`] a number of digits alone.
//!
//! It uses json_histories, json_bounded, json, serde_json and simdutf8. Callers rest on the contracts alone.
#![tactic(auto)]

mod digits;
mod gather;
mod histories;
mod number;
mod passing;
mod text;

pub use digits::whole_number;
pub use gather::{Gather, gather_list, gather_rest, next_list};
pub use histories::next_history;
pub use number::next_whole_number;
pub use passing::{next_token, next_value, pass_no_list, pass_value};
pub use text::gather_text;
