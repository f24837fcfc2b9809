//! How a task is carried out, whatever it is.

use crate::coloring::Coloring;
use crate::order::Task;

/// The most reads that may be asked for.
pub const MAX_LEAST_READS: u32 = 2_147_483_647;

/// What a command line asks for, and how.
#[derive(Clone, Copy, Debug, PartialEq, Eq)]
pub struct Asked {
    /// What it asks for.
    pub task: Task,
    /// How that is carried out.
    pub manner: Manner,
}

/// How a task is carried out.
#[derive(Clone, Copy, Debug, PartialEq, Eq)]
pub struct Manner {
    /// Whether the answer goes to a file.
    pub to_file: bool,
    /// Whether standard error gets how much the run asked.
    pub summary: bool,
    /// How many reads are to be answered at least, if a number is given.
    pub least_reads: Option<u32>,
    /// Whether the lines of the answer are coloured.
    pub coloring: Coloring,
    /// Whether standard error says from the start how far the work is, also where it is no terminal.
    pub progress: bool,
}
