//! Clients that call a replicated store, recorded and sealed while they run.
//!
//! It gives [`drive`], which follows a [`DrivePlan`] and returns seals or a [`DriveError`]; steps of a run, such as [`play`] and
//! [`seals_of`], are public too. The crate uses live_recorder, live_seals, live_replica and judge_workers. No contract states
//! which updates come through [`Mailboxes`]: how they are sent may change, and so may the threads of the clients, while the
//! contract of [`drive`] holds.
#![tactic(auto)]

mod client;
mod drive_error;
mod driving;
mod first_calls;
mod gathering;
mod input;
mod mailboxes;
mod plan;
mod played;
mod playing;
mod recording;
mod run;
mod run_name;
mod sealing;
mod sealing_progress;
mod seat;
mod seated;
mod seating;
mod steps;
mod taking_in;

pub use drive_error::DriveError;
pub use driving::drive;
pub use input::{calls_in, check_input};
pub use mailboxes::Mailboxes;
pub use plan::DrivePlan;
pub use played::Played;
pub use playing::play;
pub use recording::recorder_for;
pub use run::Run;
pub use sealing::seals_of;
pub use sealing_progress::SealingProgress;
