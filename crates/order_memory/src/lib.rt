//! What is known of a memory history: its writes, the sources of its reads, its causal order and happened-before.
//!
//! It gives [`CausalOrder`], [`HappenedBefore`], [`IndexedMemory`], [`Sources`] and [`Write`], the functions that find them, and
//! the laws of these orders. It uses model_object_trait, model_objects, model_history and order_causal.
//! How writes are searched and orders are kept may change: callers rest on the contracts and laws alone.
#![tactic(auto)]

mod causal;
mod conflicts;
mod differentiation;
mod found_sources;
mod growing_order;
mod happened_before;
mod indexed;
mod known_reads;
mod last_writes;
pub mod laws;
mod memory_vectors;
mod order;
mod placed_writes;
mod placing;
mod reads;
mod source_waits;
mod strict;
mod writes;

pub use causal::CausalOrder;
pub use conflicts::waits_with_conflicts;
pub use differentiation::{are_distinct, are_once, is_differentiated};
pub use found_sources::found_source;
pub use growing_order::{Cause, Raise};
pub use happened_before::{HappenedBefore, MAX_PAIRS, Saturation};
pub use indexed::IndexedMemory;
pub use known_reads::KnownRead;
pub use memory_vectors::memory_order;
pub use placing::Sources;
pub use reads::{initial_value, known_read};
pub use source_waits::waits_for_sources;
pub use writes::{Write, is_written, least_write, sorted_writes};
