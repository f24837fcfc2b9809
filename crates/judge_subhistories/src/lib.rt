//! Parts of a memory history that are judged by themselves, with what they show of the whole.
//!
//! [`core_of`] gives operations that do not meet a criterion alone, [`with_fewest_operations`] a bad pattern of the same kind, of
//! few operations, and [`excluded_without`] the history without some variables, where it does not meet the criterion. It uses
//! cert_subhistories, pattern_check and judge_decision. How it chooses what to leave out may change: each result is judged or checked anew.
#![tactic(auto)]

mod cores;
mod exclusion;
mod fewest;
mod gathering;
mod places;
mod renaming;
mod without_variables;

pub use cores::{core_of, core_text};
pub use fewest::{MAX_LEFT_OUT, with_fewest_operations};
pub use gathering::ops_with_sources;
pub use places::Places;
pub use renaming::{pattern_in_whole, renamed};
pub use without_variables::{Excluded, excluded_without};
