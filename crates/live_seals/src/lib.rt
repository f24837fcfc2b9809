//! Seals of what a recorder holds: what a sealer finds where it looks at the cells that a plan names.
//!
//! [`seal`] gives a [`Sealed`], [`meet`] says how far it and a session hold the same, and [`laws`] has what holds of every run.
//! [`walk`] follows a [`CutPlan`] of live_cut_plan with any [`Looker`]. It uses model_object_trait, model_history, live_recorder,
//! live_cut_plan, once_cell and thiserror. How finds are kept in tables and how receipts are compared may change: callers rest on
//! the contracts alone.
#![tactic(auto)]

mod comparing;
mod finding;
mod found;
mod lane_looker;
mod lane_table;
pub mod laws;
mod longest;
mod looker;
mod meeting;
mod sealed;
mod sealed_lane;
mod sealing;
mod sealing_lane;
mod walking;

pub use lane_looker::LaneLooker;
pub use live_cut_plan::{Cell, CutPlan};
pub use looker::Looker;
pub use meeting::{Met, meet};
pub use sealed::Sealed;
pub use sealing::seal;
pub use walking::walk;
