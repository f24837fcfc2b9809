//! Witnesses for memory histories whose values repeat.
//!
//! [`witnessed_by`] finds, for some criteria, an order that explains each known return: it picks what each read saw, gives each write a value
//! of its own, and has the history of distinct values decided. [`laws`] has the law that this shows what the history meets. It uses
//! judge_decision. What is picked may change: no contract says that a witness is found.
#![tactic(auto)]

pub mod laws;
mod pasts;
mod places;
mod plan;
mod relabelled;
mod rounds;
mod walk;
mod witnessed;

pub use witnessed::{Witnessed, witnessed_by};
