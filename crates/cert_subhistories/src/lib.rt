//! Parts of histories: some operations of each session in their order. The parts of a history at some keys meet what it meets,
//! and so do the parts of a memory history of distinct values that keep the sources of their reads.
//!
//! It gives [`part_of`], the trait [`Keeps`] with [`Listed`], [`AtKeys`] and [`WithoutKeys`], and in [`laws`] what parts meet.
//! The crate uses model_history, model_objects and cert_check. How a part is made may change: its contract says which history it is.
#![tactic(auto)]

mod keeps;
mod kept;
pub mod laws;
mod part;

pub use keeps::Keeps;
pub use kept::{AtKeys, Listed, WithoutKeys};
pub use part::part_of;
