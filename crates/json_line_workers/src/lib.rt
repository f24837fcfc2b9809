//! Answering a stream line by line: each line that is read is answered by a line that is written, in order, by workers that live as
//! long as the stream. Each takes the lines that come next, answers them, and hands the answers over to be written in their turn.
//! It uses json_lines, whose handlers, sources, outcomes and faults it takes, and which says what it is for lines to be answered.
//! Everything but [`answer_lines`] and its contract may be changed without asking above.
#![tactic(auto)]

mod held;
mod intake;
mod job;
mod outlet;
mod piece;
mod place;
mod reading;
mod running;

pub use running::answer_lines;
