//! How histories in lines are judged.

use crate::judging::Judging;

/// How the history in each line is judged.
#[derive(Clone, Copy, Debug, PartialEq, Eq)]
pub struct LineJudging {
    /// How each history is judged.
    pub judging: Judging,
    /// What becomes of blank lines.
    pub blank: BlankLines,
}

/// What becomes of blank lines.
#[derive(Clone, Copy, Debug, PartialEq, Eq)]
pub enum BlankLines {
    /// They are refused, as lines that hold no history.
    Refused,
    /// They are skipped: a blank line answers each.
    Skipped,
}
