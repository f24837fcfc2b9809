//! Operations, and what each session called on an object.
//!
//! It gives [`History`], [`OpId`], the limits [`MAX_SESSIONS`] and [`MAX_OPERATIONS`], and the [`Advice`] of a store with
//! [`Delivered`]. It uses model_object_trait. How a history keeps its sessions may change: callers rest on the contracts alone. The crates
//! above rest on the limits too.
#![tactic(auto)]

mod advice;
mod history;
mod limits;
mod op_id;

pub use advice::{Advice, Delivered};
pub use history::History;
pub use limits::{MAX_OPERATIONS, MAX_SESSIONS};
pub use op_id::OpId;
