//! The names of operations, sessions, variables and values, as texts have them.

use crate::forms::{Made, numbered, push_text, with_one, with_two};
use crate::listing::listed;
use model_history::OpId;
use std::alloc::{AllocError, Global};

/// How many variables a text names.
pub(crate) const MAX_VARIABLES: usize = 8;

/// The names of a history's operations, and what else its texts say. Operations of a part of a longer history have their names in
/// the whole. The default methods name things by numbers.
///
/// Any answer is allowed: other names only make other texts. No line that is shown has a name with a line feed. Each call fails for
/// want of memory alone.
pub trait Names {
    /// The operation of the whole that an operation of the part is.
    fn in_whole(&self, op: OpId) -> OpId;

    /// How many sessions the whole has: as many as the part, unless the implementation says otherwise.
    fn sessions(&self, part: usize) -> usize {
        part
    }

    /// Whether the texts say more than those of numbered histories: where the operations of a small history's core are, and which
    /// writes of a long history are of one value.
    fn tells_more(&self) -> bool {
        false
    }

    /// Puts remarks on the whole after the lines of all reasons.
    fn push_remarks(&self, _alloc: Global, _lines: &mut Vec<String>) -> Result<(), AllocError> {
        Ok(())
    }

    /// Where the operations of the whole are, at the beginning of a sentence.
    fn place_words(&self) -> &'static str {
        "In the whole history"
    }

    /// The word for a session that reads.
    fn session_word(&self) -> &'static str {
        "session"
    }

    /// A number of sessions of the whole, in words.
    fn sessions_words(&self, alloc: Global, count: usize) -> Result<String, AllocError> {
        counted(alloc, count, self.session_word())
    }

    /// Whether an operation of the part comes after another one in its client's session.
    fn goes_on(&self, from: OpId, to: OpId) -> bool {
        from.session == to.session && from.index < to.index
    }

    /// The name of an operation of the part.
    fn operation(&self, alloc: Global, op: OpId) -> Result<String, AllocError> {
        name_of(alloc, self.in_whole(op))
    }

    /// The name of the session of an operation of the part.
    fn session(&self, alloc: Global, op: OpId) -> Result<String, AllocError> {
        numbered(alloc, "session ", self.in_whole(op).session)
    }

    /// Who does what by an operation of the part, and what is known of its return, after the operation's name and a colon. None if
    /// its call and its return say it.
    fn phrase(&self, _alloc: Global, _op: OpId) -> Result<Option<String>, AllocError> {
        Ok(None)
    }

    /// The label of an operation of the part in a picture. None if its call and its return make it.
    fn label(&self, _alloc: Global, _op: OpId) -> Result<Option<String>, AllocError> {
        Ok(None)
    }

    /// The name of a variable.
    fn variable(&self, alloc: Global, key: u32) -> Result<String, AllocError> {
        numbered(alloc, "variable ", u64::from(key))
    }

    /// The names of variables: the first 8, and how many more there are.
    fn variables(&self, alloc: Global, keys: &[u32]) -> Result<String, AllocError> {
        words_of_variables(alloc, keys)
    }

    /// The text of a value of a variable.
    fn value(&self, alloc: Global, _key: u32, value: u64) -> Result<String, AllocError> {
        numbered(alloc, "", value)
    }

    /// What a read did that got the initial value of a variable, in the past tense.
    fn initial_read_words(
        &self,
        alloc: Global,
        key: u32,
        value: u64,
    ) -> Result<String, AllocError> {
        let value = self.value(alloc, key, value);
        with_two(
            alloc,
            "read A, the initial value of B",
            value,
            self.variable(alloc, key),
        )
    }

    /// What a read did that got a value of a variable which nobody wrote, in the past tense.
    fn unwritten_read_words(
        &self,
        alloc: Global,
        key: u32,
        value: u64,
    ) -> Result<String, AllocError> {
        let value = self.value(alloc, key, value);
        with_two(
            alloc,
            "read A, which nobody wrote to B",
            value,
            self.variable(alloc, key),
        )
    }

    /// What is wrong with such a read, after what it did.
    fn unwritten_words(&self, _key: u32, _value: u64) -> &'static str {
        "which nobody wrote"
    }

    /// What a write of a value did to its variable, in the past tense.
    fn write_words(&self, alloc: Global, key: u32, value: u64) -> Result<String, AllocError> {
        with_one(alloc, "wrote A to it", self.value(alloc, key, value))
    }

    /// What a variable held before the first call.
    fn initial_words(&self, alloc: Global, key: u32, value: u64) -> Result<String, AllocError> {
        with_one(
            alloc,
            "its initial value is A",
            self.value(alloc, key, value),
        )
    }
}

/// The names of a history that is the whole: each operation has its own.
#[derive(Clone, Copy)]
pub struct OwnNames;

impl Names for OwnNames {
    fn in_whole(&self, op: OpId) -> OpId {
        op
    }
}

/// The name of an operation: its session, a point and its index. Fails for want of memory alone.
pub fn name_of(alloc: Global, op: OpId) -> Result<String, AllocError> {
    let OpId { session, index } = op;
    format!(in alloc; "{session}.{index}")
}

/// A number, and the noun that it counts. Fails for want of memory alone.
pub fn counted(alloc: Global, number: usize, one: &'static str) -> Result<String, AllocError> {
    let plural = if number == 1 { "" } else { "s" };
    format!(in alloc; "{number} {one}{plural}")
}

// The words for variables by their numbers.
fn words_of_variables(alloc: Global, keys: &[u32]) -> Made {
    let form = if keys.len() == 1 {
        "variable A"
    } else {
        "variables A"
    };
    with_one(alloc, form, listed_numbers(alloc, keys))
}

// The first 8 numbers, and how many more there are.
fn listed_numbers(alloc: Global, numbers: &[u32]) -> Made {
    let mut named = Vec::new(alloc);
    for number in numbers.iter().take(MAX_VARIABLES) {
        push_text(&mut named, numbered(alloc, "", u64::from(*number)))?;
    }
    listed(alloc, &named, numbers.len().saturating_sub(MAX_VARIABLES))
}
