//! Few operations of a long history that show a kind of bad pattern by themselves, as a history of their own with its pattern.
//!
//! It gives [`core_of_kind`], which gathers operations by shortest ways back in the causal order, and judges what it gathered by
//! itself. Nobody trusts how it gathers them. It builds on the index, the orders and the columns of long histories, and on the
//! search for bad patterns.
#![tactic(auto)]

mod asking;
mod finding;
mod gathering;
mod happened;
mod long_core;
mod overwriting;
mod part;
mod run;
mod searching;
mod stuck;

pub use finding::core_of_kind;
pub use long_core::{Gathered, LongCore};
