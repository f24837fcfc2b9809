//! The order in which a sealer looks at the cells of a recorder: all return cells before all call cells.
//!
//! It gives [`CutPlan`], which names the [`Cell`] that is looked at next, takes in whether it was full, and counts what was found.
//! It uses model_history. How a plan keeps its looks may change: callers rest on the contracts and on `specs/Plans` alone.
#![tactic(auto)]

mod cell;
mod cut_plan;
mod lane_plan;

pub use cell::Cell;
pub use cut_plan::CutPlan;
