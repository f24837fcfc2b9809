//! The advice that a store gives with a return: counts by session, a stamp, and the order in which it took operations in.

ghost use Rattle.std.specs.Prelude.{◌≡◌, IfOk};

use crate::limits::MAX_SESSIONS;
use std::alloc::{AllocError, Global};
use std::marker::Model;

/// The sessions whose operations a store had taken in, in its order, each number for that session's next operation.
#[derive(Debug, Drop)]
pub struct Delivered {
    sessions: Vec<u8>,
}

impl Model for Delivered {
    ghost use Rattle.std.specs.Prelude.{List, ℕ};

    ghost Value = { List ℕ };

    ghost view = { λ o. o.sessions.items };
}

impl Delivered {
    /// These sessions, in this order.
    pub fn of(sessions: Vec<u8>) -> Delivered
        ensures { result ≡ sessions.items }
    {
        Delivered { sessions }
    }

    /// The sessions, in order.
    pub fn sessions(&self) -> &[u8]
        ensures { result.now ≡ self.now }
    {
        &self.sessions
    }

    /// An equal order. Fails for want of memory alone. O(n) for n operations.
    pub fn copy(&self, alloc: Global) -> Result<Delivered, AllocError>
        ensures { IfOk result (λ o. o ≡ self.now) }
    {
        let sessions = Vec::from_slice(alloc, &self.sessions)?;
        Ok(Delivered { sessions })
    }
}

/// What a store reported of one operation. Nobody trusts it: whoever uses it checks what follows.
#[derive(Debug, Drop)]
pub struct Advice {
    /// For each session, how many of its operations the store had taken in, the operation itself included.
    pub counts: [u16; MAX_SESSIONS],
    /// The store's clock.
    pub stamp: u64,
    /// What the store had taken in, in its order.
    pub order: Delivered,
}

impl Advice {
    /// Equal advice. Fails for want of memory alone. O(n) for n operations in its order.
    pub fn copy(&self, alloc: Global) -> Result<Advice, AllocError>
        ensures { IfOk result (λ a. a ≡ self.now) }
    {
        let order = self.order.copy(alloc)?;
        Ok(Advice {
            counts: self.counts,
            stamp: self.stamp,
            order,
        })
    }
}
