//! Tests of what no clause says and no table of cases can say: that what is done at a desk stays there, that workers check pieces side by
//! side, what a look finds in a cell, that full recorders are sealed, and how long that takes, that a checker goes on from a piece of its
//! own session alone, and that the assertions of tests refuse other values.
//!
//! The tables of `tests/cases` test what the words of a command line and an input give.
#![tactic(auto)]

#[cfg(test)]
mod case_files;
#[cfg(test)]
mod desks;
#[cfg(test)]
mod expected;
#[cfg(test)]
mod held_workers;
#[cfg(test)]
mod recorders;
#[cfg(test)]
mod replayed_pieces;
