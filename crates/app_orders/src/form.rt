//! In which form a reason is given.

/// In which form a reason is given.
#[derive(Clone, Copy, Debug, PartialEq, Eq)]
pub enum Form {
    /// In words.
    Words,
    /// As JSON.
    Json,
    /// As JSON, with the certificate of each criterion that is met.
    Certificates,
    /// As a picture in SVG.
    Picture,
}

/// In which form a reason on a history of any length is given.
#[derive(Clone, Copy, Debug, PartialEq, Eq)]
pub enum LongForm {
    /// In words.
    Words,
    /// As JSON.
    Json,
    /// As a picture in SVG.
    Picture,
}

/// In which form reads that show a fault are listed.
#[derive(Clone, Copy, Debug, PartialEq, Eq)]
pub enum ListForm {
    /// In words.
    Words,
    /// As JSON.
    Json,
}
