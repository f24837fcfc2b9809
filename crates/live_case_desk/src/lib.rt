//! A desk: case files on a shelf, and a lock round the board that says what is known of them. Threads take pieces, check them outside
//! the lock and put verdicts, and what the desk answers of a case is true of its file.
//!
//! It gives [`Desk`], [`Shelf`] with [`ShelfName`], [`Ticket`], [`Verdict`] and [`Answer`]. It uses live_case_board, pattern_check, boxcar,
//! cert_check and judge_workers. How a worker goes from piece to piece may change: callers rest on the contracts alone.
#![tactic(auto)]

mod case_checker;
mod cases;
mod desk;
mod file_rows;
mod shelf;
mod shelf_name;
mod ticket;
mod token;
mod verdict;
mod working;

pub use desk::Desk;
pub use live_case_board::Answer;
pub use shelf::Shelf;
pub use shelf_name::ShelfName;
pub use ticket::Ticket;
pub use verdict::Verdict;
