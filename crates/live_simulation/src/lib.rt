//! The world: sessions, sealers, cases and verdicts of one recorder and one desk, step by step, with no thread.
//!
//! [`World::run`] gives the [`Reply`] to each [`Step`]; the steps and replies before each reply determine it. [`laws`] says what
//! holds in every run: seals are consistent cuts, each yes and each no is true. It uses model_history, live_seals, cert_check,
//! pattern_check and live_case_board. How it keeps its state may change: the contract of a run is about steps and replies alone.
#![tactic(auto)]

mod cases;
mod copying;
mod given_verdict;
mod lane;
pub mod laws;
mod place;
mod recording;
mod refusal;
mod reply;
mod step;
mod told;
mod world;

pub use cases::Cases;
pub use recording::Recording;
pub use refusal::Refusal;
pub use reply::{Reply, ReplyOf};
pub use step::{Step, StepOf};
pub use told::Told;
pub use world::World;
