//! The search for bad patterns. What it gives passes the test of `pattern_check::check_pattern`.
//!
//! [`find`] and [`find_in`] search for a pattern against a criterion, and [`search_happened_before`] says what happened-before relations
//! show ([`SearchedKinds`]). It uses pattern_check, order_memory.
//! How the search goes may change: callers rest on the contracts alone.
#![tactic(auto)]

mod finding;
mod finding_happened_before;
mod search;
mod searched;

pub use finding::{find, find_in};
pub use finding_happened_before::search_happened_before;
pub use searched::{Searched, SearchedKinds};
