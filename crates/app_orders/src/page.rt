//! What a page says.

use crate::length::Length;

/// How many reads a page lists at most, if no number is given.
pub const USUAL_LISTED: u32 = 10_000;

/// A page to open in a browser, which says why each criterion is met or not met, and lists reads that show a fault.
#[derive(Clone, Copy, Debug, PartialEq, Eq)]
pub struct Page {
    /// At most so many reads are listed.
    pub most: u32,
    /// What the page is of.
    pub of: PageOf,
}

/// What a page is of.
#[derive(Clone, Copy, Debug, PartialEq, Eq)]
pub enum PageOf {
    /// The history in the input, which may be that long.
    Input(Length),
    /// The history that the log in the input records.
    Log,
}
