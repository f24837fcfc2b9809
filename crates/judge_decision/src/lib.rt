//! Whether a memory history meets the three criteria.
//!
//! [`decide_long`] decides it for a history of any length. For one within the limits of `History`, [`decide`] gives the
//! [`Decision`] for one criterion, [`decide_all`] the [`Decisions`] for each, and [`laws`] has the law that kinds of patterns
//! decide. The answers of both ways mean the same. It uses judge_columns and judge_session_orders to decide, and pattern_search
//! to find the pattern that shows a `no`. How it decides may change: the contracts say only what a decision means.
#![tactic(auto)]

mod deciding;
mod deciding_limited;
mod decisions;
pub mod laws;
mod lengthened;
mod session_work;
mod thin_air;

pub use deciding::{decide_indexed, decide_long};
pub use deciding_limited::{Decision, Decisions, decide, decide_all, decide_kinds, decide_whether};
pub use decisions::{LongDecision, LongDecisions};
pub use session_work::SessionWork;
