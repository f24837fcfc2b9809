//! Which streams of the process are terminals.

/// Which streams of the process are terminals.
#[derive(Clone, Copy, Debug)]
pub struct Terminals {
    /// Whether standard input is one.
    pub input: bool,
    /// Whether standard output is one.
    pub output: bool,
    /// Whether standard error is one.
    pub error: bool,
}
