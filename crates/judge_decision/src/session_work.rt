//! Who goes over the sessions of a long history: the calling thread alone, or threads of a runtime.

ghost use Rattle.std.specs.Prelude.{◌↔◌, [], ℕ, IfOk, IsTrue};
ghost use denote.Param.Send.{IsSync};
ghost use Rattle.order_memory.specs.OverwrittenReads.{HasOverwrittenRead, HasOverwrittenStart};
ghost use Rattle.order_memory.specs.SourceOrder.{LacksSource};
ghost use Rattle.judge_memory.specs.Steps.{IsListedEdge, IsOrderBy};
ghost use Rattle.judge_columns.specs.Conflicts.{IsReducedIn};
ghost use Rattle.judge_columns.specs.Swept.{AreEdgesOf};
ghost use Rattle.judge_session_orders.specs.SessionOrders.{AreOrdered};

use judge_columns::{Swept, sweep, sweep_in_threads};
use judge_memory::LongIndex;
use judge_session_orders::{SessionOrder, order_sessions, order_sessions_in_threads};
use judge_workers::{CallingThread, WorkerThreads};
use std::alloc::{AllocError, Global};
use std::sync::Wait;
use std::thread::Threads;

/// Goes over the sessions of a long history, which workers share.
pub trait SessionWork {
    /// It can do this work: threads may share the runtime.
    ghost can_work: { Self → Type 0 };

    /// Sweeps the columns of the sessions, as [`sweep`] does.
    fn sweep(&self, alloc: Global, index: &LongIndex, order: &[u32]) -> Result<Swept, AllocError>
        requires can_work { can_work self.now }
        requires order { IsOrderBy index.now.history [] order.now }
        ensures start { IfOk result (λ s. IsTrue s.has_overwritten_start ↔ HasOverwrittenStart index.now.history) }
        ensures read { IfOk result (λ s. IsTrue s.has_overwritten_read ↔ HasOverwrittenRead index.now.history) }
        ensures edges { IfOk result (λ s. ¬ IsTrue s.has_overwritten_read
            → (t : ℕ) → IsReducedIn index.now.history t (IsListedEdge index.now.history s.edges.items)) }
        ensures below { IfOk result (λ s. AreEdgesOf index.now.history s.edges.items) };

    /// Orders the sessions, as [`order_sessions`] does.
    fn order_sessions(
        &self,
        alloc: Global,
        index: &LongIndex,
        order: &[u32],
    ) -> Result<SessionOrder, AllocError>
        requires can_work { can_work self.now }
        requires order { IsOrderBy index.now.history [] order.now }
        requires sources { ¬ LacksSource index.now.history }
        ensures { IfOk result (AreOrdered index.now.history) };
}

impl SessionWork for CallingThread {
    ghost can_work = { λ _. Unit {0} };

    fn sweep(&self, alloc: Global, index: &LongIndex, order: &[u32]) -> Result<Swept, AllocError> {
        sweep(alloc, index, order)
    }

    fn order_sessions(
        &self,
        alloc: Global,
        index: &LongIndex,
        order: &[u32],
    ) -> Result<SessionOrder, AllocError> {
        order_sessions(alloc, index, order)
    }
}

impl<'a, T: Threads + Wait + Sync> SessionWork for WorkerThreads<'a, T> {
    ghost can_work = { λ _. IsSync T.row };

    fn sweep(&self, alloc: Global, index: &LongIndex, order: &[u32]) -> Result<Swept, AllocError> {
        sweep_in_threads(self.rt(), alloc, self.workers().count(), index, order)
    }

    fn order_sessions(
        &self,
        alloc: Global,
        index: &LongIndex,
        order: &[u32],
    ) -> Result<SessionOrder, AllocError> {
        order_sessions_in_threads(self.rt(), alloc, self.workers().count(), index, order)
    }
}
