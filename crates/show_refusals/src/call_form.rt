//! The form of one call of an object.

/// What a call returns.
#[derive(Clone, Copy)]
pub(crate) enum Returned {
    /// No more than that it is done.
    Nothing,
    /// A whole number below 2^64.
    Number,
    /// Whether an element is there.
    Truth,
    /// A whole number below 2^64, or null.
    NumberOrNull,
}

impl Returned {
    /// The words for what a wrong return is not.
    pub(crate) fn words(self) -> &'static str {
        match self {
            Returned::Nothing => r#"is not "?""#,
            Returned::Number => r#"is neither "?" nor a whole number below 18446744073709551616"#,
            Returned::Truth => r#"is none of true, false and "?""#,
            Returned::NumberOrNull => {
                r#"is none of null, "?" and a whole number below 18446744073709551616"#
            }
        }
    }
}

/// A call after its word: what it takes, if anything, and what it returns.
#[derive(Clone, Copy)]
pub(crate) struct CallForm {
    pub(crate) argument: Option<&'static str>,
    pub(crate) returned: Returned,
}
