//! The type of a core.

ghost use Rattle.std.specs.Prelude.{◌≡◌};

use judge_subhistories::{Places, renamed};
use model_history::{History, OpId};
use model_objects::Memory;
use pattern_check::Pattern;
use std::alloc::{AllocError, Global};
use std::marker::Model;

/// A part of a long history that shows a kind of bad pattern by itself, as a history of its own, with the place of each of its
/// operations in the whole.
#[derive(Drop)]
pub struct LongCore {
    pub(crate) history: History<Memory>,
    /// It is in the numbers of the part.
    pub(crate) pattern: Pattern,
    pub(crate) places: Places,
}

impl Model for LongCore {
    ghost use Rattle.judge_cores.specs.Cores.{CoreValue};

    ghost Value = { CoreValue };

    ghost view = { λ core. record { history = core.history; pattern = core.pattern } };
}

impl LongCore {
    /// The operations as a history, whose sessions are those of the whole that have some of them, in order.
    pub fn history(&self) -> &History<Memory>
        ensures { result.now ≡ self.now.history }
    {
        &self.history
    }

    /// A bad pattern of this history. It numbers the operations as this history does.
    pub fn pattern(&self) -> &Pattern
        ensures { result.now ≡ self.now.pattern }
    {
        &self.pattern
    }

    /// The operation of the whole that an operation of the part is. An operation that is not of the part stays itself. O(1).
    pub fn in_whole(&self, op: OpId) -> OpId {
        self.places.in_whole(op)
    }

    /// The pattern, with the operations as the whole numbers them. What they name is no promise: the pattern is shown in the part.
    ///
    /// Fails for want of memory alone. O(l) for a pattern of l operations and lines.
    pub fn pattern_in_whole(&self, alloc: Global) -> Result<Pattern, AllocError> {
        renamed(alloc, &self.places, &self.pattern)
    }
}

/// What was gathered of a long history to show a kind of bad pattern.
#[derive(Drop)]
pub enum Gathered {
    /// Operations that show it by themselves.
    Core(LongCore),
    /// Operations of the whole, in order and each once, that do not fit a history of at most 16 sessions of 256 operations, or that
    /// do not show the kind by themselves. Empty if none were found.
    Operations(Vec<OpId>),
}
