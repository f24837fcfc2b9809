//! All reads of a long history that show a fault, each with the write that it missed.
//!
//! It gives [`find_faults`], which lists some of them and counts all, by kind, by session and by the guarantee that a stale read breaks,
//! and the same in words and as JSON. Where judge_decision says that a kind is present, this says which reads show it. The crate uses
//! judge_columns and pattern_check.
#![tactic(auto)]

mod broken;
mod counts;
mod direct_reads;
mod fault;
mod finding;
mod lines;
mod missed;
mod tally;
mod value;

pub use broken::{Breaks, Broken, GuaranteeCounts};
pub use counts::{FaultCounts, SessionFaults};
pub use fault::Fault;
pub use finding::find_faults;
pub use lines::{count_lines, fault_line};
pub use tally::Faults;
pub use value::faults_value;
