//! Tests of bad patterns in long histories.
//!
//! It gives [`check_long_pattern`] and [`is_shown_in_long`]. It depends on pattern_check, whose tests it calls, and on judge_memory, with
//! which it answers what these ask.
#![tactic(auto)]

mod checking;
mod numbered_memory;

pub use checking::{check_long_pattern, is_shown_in_long};
