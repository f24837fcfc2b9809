//! Which operations of a session are before and after each operation in the causal order, and what that shows.
//!
//! [`sweep`] makes a column for each session that writes, two numbers an operation and four columns at once, or two bits for each of
//! 128 sessions with one write. It finds from them which writes overwrote what reads after them returned, and which writes conflict;
//! [`is_convergent`] says whether the conflicts make a cycle. Both serve to decide causal consistency and causal convergence of long
//! histories. To list all faulty reads, [`find_past_ends`] and [`find_firsts`] make the columns alone, without a sweep, and [`look`], with
//! the table of last writes that [`advance`] moves, says what a read shows of one column. The crate uses judge_memory and judge_workers.
#![tactic(auto)]

mod convergence;
mod fork_groups;
mod forks;
mod fours;
mod lanes;
mod parts;
mod passes;
mod rows;
mod shares;
mod sight;
mod some;
mod sweeping;
mod swept;
mod words;

pub use convergence::is_convergent;
pub use parts::{sweep, sweep_in_threads};
pub use passes::{fill, find_firsts, find_past_ends};
pub use sight::Sight;
pub use sweeping::{advance, look};
pub use swept::{Swept, writing_sessions};
