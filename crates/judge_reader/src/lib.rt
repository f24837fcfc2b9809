//! Reading a long history from its JSON text.
//!
//! [`read_long`] reads the text of a memory history with any number of sessions and operations, once and token by token, and keeps the
//! operations alone; [`read_long_first`] reads the history that is the first element of a list. [`small`] copies a long history into a
//! `History`, where it fits the limits of that type.
#![tactic(auto)]

mod first;
mod limits;
mod operation;
mod parts;
mod reader;
mod scalar;
mod session;
mod sessions;
mod start;
mod taken;

pub use first::read_long_first;
pub use limits::{is_small, small};
pub use reader::{read_long, read_long_in};
