//! The one list of a certificate for causal convergence, which puts all operations in one order.

ghost use Rattle.std.specs.Prelude.{◌≡◌, List, ℕ, IfOk};

use std::alloc::{AllocError, Global};
use std::marker::Model;

/// One list of session numbers, each of which names that session's next operation.
#[derive(Debug, Drop)]
pub struct Arbitration {
    sessions: Vec<u8>,
}

impl Model for Arbitration {
    ghost Value = { List ℕ };

    ghost view = { λ arbitration. arbitration.sessions.items };
}

impl Arbitration {
    /// The list with these session numbers.
    pub fn of(sessions: Vec<u8>) -> Arbitration
        ensures { result ≡ sessions.items }
    {
        Arbitration { sessions }
    }

    /// An equal list.
    ///
    /// Fails for want of memory alone. O(n) for n numbers.
    pub fn copy(&self, alloc: Global) -> Result<Arbitration, AllocError>
        ensures { IfOk result (λ copy. copy ≡ self.now) }
    {
        Ok(Arbitration::of(Vec::from_slice(alloc, self.sessions())?))
    }

    /// The session numbers, in order.
    pub fn sessions(&self) -> &[u8]
        ensures { result.now ≡ self.now }
    {
        self.sessions.as_slice()
    }
}
