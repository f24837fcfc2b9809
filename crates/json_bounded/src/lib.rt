//! Reading JSON into a value that is cut to what a form can have.
//!
//! The [`Place`]s of a form say how many elements a list may have, and the place of each element. [`read_bounded`] reads
//! a text once, by `serde_json`'s own rule of what a text is. It keeps no more of each list than its place asks for, and
//! nothing of an object. So the form and the length of the text bound the memory, whatever the text nests.
//! [`read_value`] and [`walk_items`] are steps for a reader elsewhere, which takes a long text value by value.
//!
//! It uses json, serde_json, simdutf8, fast_float and thiserror. How a text is read and a value kept may change: callers rest on
//! the contracts alone.
#![tactic(auto)]

mod number;
mod place;
mod read;
mod text_error;
mod walk;

pub use place::Place;
pub use read::{MAX_DEPTH, read_bounded, read_value};
pub use text_error::TextError;
pub use walk::walk_items;
