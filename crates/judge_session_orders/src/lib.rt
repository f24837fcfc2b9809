//! One order for each session of a long history: of what is before its last operation, so that the session reads what was last
//! written.
//!
//! It gives [`order_sessions`], which says whether each session has such an order, or why one has none. It uses judge_memory and
//! judge_workers, and takes an order of all operations that judge_memory makes. The decision of causal memory uses it.
#![tactic(auto)]

mod backward;
mod beginning;
mod free;
mod lone_sources;
mod numbers;
mod ordering;
mod parts;
mod pasts;
mod placement;
mod read_edges;
mod turns;

pub use ordering::SessionOrder;
pub use parts::{order_sessions, order_sessions_in_threads};
