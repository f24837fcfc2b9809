//! The search for operations that show a pattern.
//!
//! The search finds cycles, overwritten reads and what happened-before relations show exactly where they are, with what shows them,
//! except for derivations that might be too long.

mod conflicts;
mod cycles;
mod derivations;
mod drafts;
mod happened;
mod needed;
mod reads;
mod reasons;
mod relations;
mod routes_back;

pub use conflicts::cycle_with_conflicts;
pub use cycles::cyclic_order;
pub use derivations::{MAX_RAISES, derivation_of};
pub use happened::{cycle_in, overwritten_start_in};
pub use reads::{overwritten_read, overwritten_start};
pub use relations::Relation;
