//! Texts about histories: why a pattern excludes a criterion, and why nothing is known. The crate also gives the pairs of
//! operations that a pattern names, and the names of a part's operations in the whole, to callers that draw a pattern.
//!
//! Nobody trusts these texts: the pattern shows that a criterion is not met, and the certificate shows that it is met. The texts
//! say something of any pattern, certificate and history, even if these don't belong together.
#![tactic(auto)]

mod derivation_steps;
mod derived_pairs;
mod forms;
mod gathering;
mod guarantees;
mod listing;
mod long_histories;
mod naming;
mod operation_words;
mod pattern_words;
mod repeated_values;
mod replayed;
mod sentences;
mod sorting;
mod step;
mod steps;
mod unexplained;

pub use derived_pairs::{DerivedPairs, ends_of};
pub use guarantees::Guarantee;
pub use listing::listed;
pub use long_histories::{words_of_kept, words_of_long_yes, words_of_operations, words_of_places};
pub use naming::{Names, OwnNames, counted, name_of};
pub use operation_words::{Worded, read_of};
pub use pattern_words::words_of_pattern;
pub use repeated_values::{repeated_variables, words_of_repeated_values, words_without_variables};
pub use unexplained::push_unexplained;
