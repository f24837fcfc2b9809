//! What is said of how far the work on an input is.

use std::alloc::{AllocError, Global};
use std::path::Path;

/// What is said of how far the work on an input is, and where.
#[derive(Clone, Copy)]
pub(crate) struct ProgressView<'a> {
    /// The name of the file, where there are several.
    pub label: Option<&'a str>,
    /// What is done with what was read.
    pub work: &'a str,
    /// Whether that is done while the input is read.
    pub is_gradual: bool,
    /// How many bytes the input has, where that is known.
    pub size: Option<u64>,
    /// Whether it is said from the start on.
    pub is_asked_for: bool,
    /// Whether standard error is a terminal.
    pub is_terminal: bool,
    /// Whether the answer goes to a terminal too.
    pub shares_terminal: bool,
}

impl ProgressView<'_> {
    /// What is said after some bytes were read.
    pub(crate) fn said(
        &self,
        alloc: Global,
        read: u64,
        is_read: bool,
        is_answered: bool,
    ) -> Result<String, AllocError> {
        let phase = self.phase(is_read, is_answered);
        let mut said = String::new(alloc);
        if let Some(label) = self.label {
            said.push_str(Path::new(label).file_name().unwrap_or(label))?;
            said.push_str(": ")?;
        }
        said.push_str(phase)?;
        said.push_str(": ")?;
        match self.size {
            Some(size) if size > 0 && !is_read => {
                let percent = (read.saturating_mul(100) / size).min(100);
                said.push_str(format!(in alloc; "{read} of {size} bytes, {percent}%")?.as_str())?;
            }
            _ => said.push_str(format!(in alloc; "{read} bytes read")?.as_str())?,
        }
        Ok(said)
    }

    // What is done now.
    fn phase(&self, is_read: bool, is_answered: bool) -> &str {
        if self.is_gradual {
            self.work
        } else if is_answered {
            "writing"
        } else if is_read {
            self.work
        } else {
            "reading"
        }
    }
}
