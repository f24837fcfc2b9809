//! The board of a desk: for each case what is known of its pieces, and the five events that change or read it.
//!
//! It gives [`Board`], with [`CaseRows`] to file, and [`Piece`], [`Answer`] and [`BoardError`]. It keeps a [`Mark`] for each case
//! file, no file, and waits for nobody. It uses model_history, cert_check and pattern_check.
//! How cases and rows are kept may change: callers rest on the contracts, which also say which piece is handed out next.
#![tactic(auto)]

mod answer;
mod board;
mod board_error;
mod case_pieces;
mod case_rows;
mod case_session;
mod filed_case;
pub mod laws;
mod mark;
mod piece;

pub use answer::Answer;
pub use board::{Board, MAX_CASES};
pub use board_error::BoardError;
pub use case_pieces::has_piece;
pub use case_rows::CaseRows;
pub use mark::Mark;
pub use piece::Piece;
