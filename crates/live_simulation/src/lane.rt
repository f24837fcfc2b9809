//! The record of one session, its calls and their returns.

ghost use Rattle.std.specs.Prelude.{◌≡◌, ◌∷◌, ◌++◌, [], length, take, slice_get, IfOk, OnErr, OnOk};
ghost use Rattle.live_seals.specs.Runs.{operations};

use std::alloc::{AllocError, Global};
use std::marker::Model;

/// What a session recorded: its calls, and the returns of the first of them.
#[derive(Drop)]
pub struct Lane<C, R> {
    calls: Vec<C>,
    returns: Vec<R>,
}

impl<C, R> Model for Lane<C, R> {
    ghost use Rattle.std.specs.Prelude.{List};

    ghost Value = { List C × List R };

    ghost view = { λ lane. (lane.calls.items, lane.returns.items) };
}

impl<C: Copy, R: Copy> Lane<C, R> {
    /// A session that recorded nothing yet.
    pub(crate) fn new(alloc: Global) -> Lane<C, R>
        ensures { result ≡ ([], []) }
    {
        Lane {
            calls: Vec::new(alloc),
            returns: Vec::new(alloc),
        }
    }

    /// How many calls it began.
    pub(crate) fn begun(&self) -> usize
        ensures { result ≡ length self.now.0 }
    {
        self.calls.len()
    }

    /// How many returns it was given.
    pub(crate) fn ended(&self) -> usize
        ensures { result ≡ length self.now.1 }
    {
        self.returns.len()
    }

    /// The call that it began and did not end.
    pub(crate) fn pending(&self) -> Option<C>
        ensures { result ≡ slice_get self.now.0 (length self.now.1) }
    {
        let n = self.returns.len();
        if n < self.calls.len() {
            Some(self.calls[n])
        } else {
            None
        }
    }

    /// Begins one more operation.
    pub(crate) fn push_call(&mut self, call: C) -> Result<(), AllocError>
        ensures begun { OnOk result (self.new ≡ (self.old.0 ++ call ∷ [], self.old.1)) }
        ensures refused { OnErr result (self.new ≡ self.old) }
    {
        self.calls.push(call)?;
        Ok(())
    }

    /// Ends the operation that is pending.
    pub(crate) fn push_return(&mut self, ret: R) -> Result<(), AllocError>
        ensures ended { OnOk result (self.new ≡ (self.old.0, self.old.1 ++ ret ∷ [])) }
        ensures refused { OnErr result (self.new ≡ self.old) }
    {
        self.returns.push(ret)?;
        Ok(())
    }

    /// The return at a place among the first `returns`.
    fn return_at(&self, i: usize, returns: usize) -> Option<R>
        ensures { result ≡ slice_get (take returns self.now.1) i }
    {
        if i < returns && i < self.returns.len() {
            Some(self.returns[i])
        } else {
            None
        }
    }

    /// The first operations: so many calls, and so many of their returns.
    pub(crate) fn operations(
        &self,
        alloc: Global,
        calls: usize,
        returns: usize,
    ) -> Result<Vec<(C, Option<R>)>, AllocError>
        ensures { IfOk result (λ ops. ops.items ≡ operations (take calls self.now.0) (take returns self.now.1)) }
    {
        let many = calls.min(self.calls.len());
        let mut ops = Vec::with_capacity(alloc, many)?;
        for i in 0..many {
            ops.push((self.calls[i], self.return_at(i, returns)))?;
        }
        Ok(ops)
    }
}
