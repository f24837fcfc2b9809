//! How far a log was read.

/// How far a log was read.
#[derive(Clone, Copy, Debug, PartialEq, Eq)]
pub enum Progress {
    /// It has as many events as were asked for.
    More,
    /// To its end.
    End {
        /// The last line has no line feed and is no JSON: it is torn, and was passed over.
        torn: bool,
    },
}
