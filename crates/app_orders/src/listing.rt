//! How reads that show a fault are listed.

use crate::form::ListForm;
use crate::length::Length;

/// The most reads that may be asked for.
pub const MAX_LISTED: u32 = 1_000_000;

/// How reads that show a fault are listed.
#[derive(Clone, Copy, Debug, PartialEq, Eq)]
pub struct Listing {
    /// At most so many are listed.
    pub most: u32,
    /// How long a history may be.
    pub length: Length,
    /// In which form they are listed.
    pub form: ListForm,
}
