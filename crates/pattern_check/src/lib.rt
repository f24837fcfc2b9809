//! Bad patterns: what in a memory history shows that it does not meet a criterion.
//!
//! It gives [`Pattern`] and [`Kind`], the test [`check_pattern`], and [`Refutable`], which says of each object how a pattern
//! against its histories is tested. [`laws`] says that a pattern excludes its criteria. It uses model_object_trait,
//! model_objects, model_history, order_causal, order_memory and cert_check. How a pattern is tested may change: the contracts say
//! exactly which patterns pass, and the law of [`Refutable`] what a test that passes shows.
#![tactic(auto)]

mod checking;
mod copying;
mod cycle;
mod derivation;
mod derived_pairs;
mod edges;
mod happened_before;
mod kind;
mod known_memory;
pub mod laws;
mod link;
mod listed_memory;
mod path;
mod pattern;
mod patternless;
mod refutable;
mod refuted_memory;
mod routes;
mod thin_air;

pub use checking::{check_pattern, is_shown};
pub use derivation::{Derivation, Line};
pub use derived_pairs::{MAX_LINES, Pair};
pub use kind::Kind;
pub use known_memory::KnownMemory;
pub use link::{Link, Links};
pub use order_memory::is_differentiated;
pub use path::Path;
pub use pattern::Pattern;
pub use refutable::Refutable;
pub use thin_air::is_thin_air_read;
