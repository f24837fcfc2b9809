//! The name of an operation in a history: its session, and its place there.

ghost use Rattle.std.specs.Prelude.{◌≡◌, ◌==◌, ◌&&◌, ◌+◌, ◌<◌, MatchOption, nat_le};

use crate::limits::MAX_OPERATIONS;

/// Names an operation of a history: the operation at `index` of `session`, both counted from 0.
///
/// Operations are ordered by session, then by index.
#[derive(Clone, Copy, Debug, PartialEq, Eq, PartialOrd, Ord, Hash)]
pub struct OpId {
    pub session: u64,
    pub index: u64,
}

impl OpId {
    /// The operation at an index of a session.
    pub fn at(session: usize, index: usize) -> OpId
        ensures { result ≡ record { session = session; index = index } }
    {
        OpId {
            session: session as u64,
            index: index as u64,
        }
    }

    /// The place of its session among the sessions.
    pub fn session_place(self) -> usize
        ensures { result ≡ self.session }
    {
        self.session as usize
    }

    /// Its place among the operations of its session.
    pub fn place(self) -> usize
        ensures { result ≡ self.index }
    {
        self.index as usize
    }

    /// How many operations its session has up to it, itself among them.
    pub fn number(self) -> u16
        requires { self.index < MAX_OPERATIONS }
        ensures { result ≡ self.index + 1 }
    {
        self.index as u16 + 1
    }

    /// The operation before it in its session, where it is not the first.
    pub fn before(self) -> Option<OpId>
        ensures { MatchOption result (self.index ≡ 0)
            (λ before. (before.session ≡ self.session) × (before.index + 1 ≡ self.index)) }
    {
        if self.index == 0 {
            return None;
        }
        Some(OpId {
            session: self.session,
            index: self.index - 1,
        })
    }

    /// Whether it is the other operation, or before it in program order.
    pub fn is_in_program_past_of(self, other: OpId) -> bool
        ensures { result ≡ ((self.session == other.session) && nat_le self.index other.index) }
    {
        self.session == other.session && self.index <= other.index
    }
}
