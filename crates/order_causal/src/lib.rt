//! Orders on the operations of a history, vectors that count them, and the topological rule.
//!
//! It gives [`Vectors`] with their check [`vector_ok`], [`Waits`] with [`topological_sort`], and [`Walk`], which places
//! operations one by one. [`ByOperation`] and [`Rows`] are the lists under them. It uses model_object_trait and model_history.
//! How lists are kept and how a cycle is found may change: callers rest on the contracts alone.
#![tactic(auto)]

mod at_most;
mod by_operation;
mod limits;
mod program_vectors;
mod rows;
mod shape;
mod sorting;
mod topological;
mod vectors;
mod waiting_cycle;
mod waits;

pub use at_most::is_at_most;
pub use by_operation::{ByOperation, Vectors};
pub use program_vectors::program_order;
pub use rows::Rows;
pub use shape::{are_vectors_of, has_one_each};
pub use sorting::{OrderOrCycle, topological_sort};
pub use topological::{MAX_PLACED, Walk};
pub use vectors::{count_at, count_of, has_counted, has_counted_other, vector_ok};
pub use waits::Waits;
