//! The names of the operations of a core, as the whole has them.

use json_histories::OpId;
use judge_cores::LongCore;
use show_words::Names;
use std::alloc::{AllocError, Global};

/// The names of the operations of a core.
#[derive(Clone, Copy)]
pub(crate) struct CoreNames<'a, N: Names> {
    pub core: &'a LongCore,
    /// How many sessions the whole has.
    pub sessions: usize,
    /// The names of the whole.
    pub whole: &'a N,
}

impl<'a, N: Names> Names for CoreNames<'a, N> {
    fn in_whole(&self, op: OpId) -> OpId {
        self.whole.in_whole(self.core.in_whole(op))
    }

    fn sessions(&self, _part: usize) -> usize {
        self.sessions
    }

    fn tells_more(&self) -> bool {
        self.whole.tells_more()
    }

    fn push_remarks(&self, alloc: Global, lines: &mut Vec<String>) -> Result<(), AllocError> {
        self.whole.push_remarks(alloc, lines)
    }

    fn place_words(&self) -> &'static str {
        self.whole.place_words()
    }

    fn session_word(&self) -> &'static str {
        self.whole.session_word()
    }

    fn sessions_words(&self, alloc: Global, count: usize) -> Result<String, AllocError> {
        self.whole.sessions_words(alloc, count)
    }

    fn goes_on(&self, from: OpId, to: OpId) -> bool {
        self.whole
            .goes_on(self.core.in_whole(from), self.core.in_whole(to))
    }

    fn operation(&self, alloc: Global, op: OpId) -> Result<String, AllocError> {
        self.whole.operation(alloc, self.core.in_whole(op))
    }

    fn session(&self, alloc: Global, op: OpId) -> Result<String, AllocError> {
        self.whole.session(alloc, self.core.in_whole(op))
    }

    fn phrase(&self, alloc: Global, op: OpId) -> Result<Option<String>, AllocError> {
        self.whole.phrase(alloc, self.core.in_whole(op))
    }

    fn label(&self, alloc: Global, op: OpId) -> Result<Option<String>, AllocError> {
        self.whole.label(alloc, self.core.in_whole(op))
    }

    fn variable(&self, alloc: Global, key: u32) -> Result<String, AllocError> {
        self.whole.variable(alloc, key)
    }

    fn variables(&self, alloc: Global, keys: &[u32]) -> Result<String, AllocError> {
        self.whole.variables(alloc, keys)
    }

    fn value(&self, alloc: Global, key: u32, value: u64) -> Result<String, AllocError> {
        self.whole.value(alloc, key, value)
    }

    fn initial_read_words(
        &self,
        alloc: Global,
        key: u32,
        value: u64,
    ) -> Result<String, AllocError> {
        self.whole.initial_read_words(alloc, key, value)
    }

    fn unwritten_read_words(
        &self,
        alloc: Global,
        key: u32,
        value: u64,
    ) -> Result<String, AllocError> {
        self.whole.unwritten_read_words(alloc, key, value)
    }

    fn unwritten_words(&self, key: u32, value: u64) -> &'static str {
        self.whole.unwritten_words(key, value)
    }

    fn write_words(&self, alloc: Global, key: u32, value: u64) -> Result<String, AllocError> {
        self.whole.write_words(alloc, key, value)
    }

    fn initial_words(&self, alloc: Global, key: u32, value: u64) -> Result<String, AllocError> {
        self.whole.initial_words(alloc, key, value)
    }
}
