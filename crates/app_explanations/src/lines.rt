//! The lines on a finding, and the core that they hold.

ghost use Rattle.std.specs.Prelude.{◌≡◌, IfOk, None};

use std::alloc::{AllocError, Global};

/// The lines on a finding.
#[derive(Drop)]
pub(crate) struct Lines {
    /// Words.
    pub words: Vec<String>,
    /// The text of a core, if they hold one.
    pub core: Option<String>,
    /// The words after it.
    pub after: Vec<String>,
}

impl Lines {
    /// Words without a core.
    pub(crate) fn of_words(alloc: Global, words: Vec<String>) -> Lines
        ensures { result.core ≡ None }
    {
        Lines {
            words,
            core: None,
            after: Vec::new(alloc),
        }
    }

    /// No lines.
    pub(crate) fn none(alloc: Global) -> Lines
        ensures { result.core ≡ None }
    {
        Lines::of_words(alloc, Vec::new(alloc))
    }

    /// One line of words.
    ///
    /// Fails for want of memory alone.
    pub(crate) fn of_line(alloc: Global, line: String) -> Result<Lines, AllocError>
        ensures { IfOk result (λ lines. lines.core ≡ None) }
    {
        let mut words = Vec::new(alloc);
        words.push(line)?;
        Ok(Lines::of_words(alloc, words))
    }

    /// Whether there are fewer than two.
    pub(crate) fn are_short(&self) -> bool {
        match (self.words.len(), self.after.len()) {
            (0 | 1, 0) | (0, 1) => self.core.is_none(),
            _ => false,
        }
    }

    /// Whether they are the same as others.
    pub(crate) fn are(&self, others: &Lines) -> bool {
        are_same(&self.words, &others.words)
            && is_same(self.core.as_ref(), others.core.as_ref())
            && are_same(&self.after, &others.after)
    }
}

// Whether two lists of lines are the same.
fn are_same(lines: &[String], others: &[String]) -> bool {
    if lines.len() != others.len() {
        return false;
    }
    for (line, other) in lines.iter().zip(others) {
        if line.as_str() != other.as_str() {
            return false;
        }
    }
    true
}

// Whether two texts are the same, or both lack.
fn is_same(text: Option<&String>, other: Option<&String>) -> bool {
    match (text, other) {
        (Some(text), Some(other)) => text.as_str() == other.as_str(),
        (None, None) => true,
        (Some(_), None) | (None, Some(_)) => false,
    }
}
