//! What the reads of a log that found nothing may have seen, and which histories the log gives.
//!
//! A read that found nothing, of a key that some delete names, may have seen the start or a delete. `specs/Choices` says which, and
//! `specs/ChosenHistories` which history a log has for each choice. A log meets a criterion where its history does by some choice
//! (`specs/ChosenCriteria`). `specs/Forced` says what holds by each such choice. In [`laws`] is what follows.
//!
//! At run time a choice is a table of what null reads saw, each [`Seen`], by the places of their begins (`specs/ChoiceTables`). By it
//! [`history_by`] gives the history, [`origins_by`] for each operation of it the call, and [`left_out_by`] the reads that it leaves out.
//! [`forced_reads`] finds what null reads saw that are left with one candidate: where the history by this choice does not meet a criterion,
//! the log does not. [`walked_choice`] looks for a whole choice: where the history by that meets a criterion, the log does. The crate uses
//! log_events and pattern_check.
#![tactic(auto)]

mod checked_choice;
mod chosen_calls;
mod chosen_history;
mod client_calls;
mod entries;
mod exclusions;
mod forced;
mod forced_kept;
mod forced_lacking;
mod forced_looks;
mod forced_pass;
mod forced_pasts;
mod forced_plan;
mod growing_order;
pub mod laws;
mod left_out;
mod lost_calls;
mod null_reads;
mod origins;
mod seen;
mod sessions;
mod timed;
mod walk;
mod walk_candidates;
mod walk_map;
mod walk_pasts;
mod walk_turns;
mod walking;

pub use chosen_history::{history_by, no_choice_leaves_null_reads_out, origins_by};
pub use exclusions::{Exclusion, LackingRead, Reason};
pub use forced::{ForcedReads, forced_reads};
pub use left_out::left_out_by;
pub use seen::Seen;
pub use walk::{WALKS, Walk, walked_choice};
