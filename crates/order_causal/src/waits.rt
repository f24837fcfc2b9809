//! What operations wait for.

ghost use Rattle.std.specs.Prelude.{◌≡◌, ◌+◌, ◌<◌, ◌≤◌, ℕ, length, IfOk, OnOk};
ghost use Rattle.model_history.specs.declared.op_id.OpId.{OpId as Operation};
ghost use Rattle.model_history.specs.History.{session as operations_of};
ghost use Rattle.order_causal.specs.Vectors.{IsListed, count};
ghost use Rattle.order_causal.specs.Steps.Gathered.{AreGatheredBefore};
ghost use Rattle.order_causal.specs.Steps.Waiting.{AddsWait, AreZeros};
ghost use Rattle.order_causal.specs.Waits.{AreAlike, AreWaits};

use crate::by_operation::Vectors;
use model_history::{History, MAX_OPERATIONS, OpId};
use model_object_trait::SeqObject;
use std::alloc::{AllocError, Global};
use std::marker::Model;

/// For each operation, how many operations of each session have to come before it, besides those before it in its session.
///
/// An operation that is counted for itself doesn't wait for itself. There are at most 16 sessions of at most 256
/// operations, and none waits for an operation that is not there.
#[derive(Debug, Drop)]
pub struct Waits {
    counts: Vectors,
}

impl Model for Waits {
    ghost use Rattle.order_causal.specs.Vectors.{Counts};
    ghost use Rattle.order_causal.specs.Waits.{AreWaits};

    ghost Value = { Counts };

    ghost view = { λ waits. waits.counts };

    ghost invariant = { λ waits. AreWaits waits.counts };
}

impl Waits {
    /// No operation of a history waits for another.
    ///
    /// Fails for want of memory alone. O(n k) for n operations of k sessions.
    pub fn of<O: SeqObject>(alloc: Global, h: &History<O>) -> Result<Waits, AllocError>
        ensures alike { IfOk result (λ waits. AreAlike waits h.now.1) }
        ensures none { IfOk result (λ waits. (o : Operation) (s : ℕ) → count waits o s ≡ 0) }
    {
        let mut counts = Vectors::new(alloc);
        for session in 0..h.sessions() {
            push_zeros(alloc, h, session, &mut counts)?;
        }
        Ok(Waits { counts })
    }

    /// How many operations of each session have to come before each operation.
    pub fn counts(&self) -> &Vectors
        ensures counts { result.now ≡ self.now }
        ensures kept { AreWaits self.now }
    {
        &self.counts
    }

    /// Lets an operation wait for another one. O(1).
    pub fn add(&mut self, op: OpId, other: OpId)
        requires op { IsListed self.old op }
        requires other { IsListed self.old other }
        ensures { AddsWait op other self.old self.new }
    {
        let place = other.session_place();
        if u64::from(self.counts.get(op)[place]) <= other.index {
            self.counts.set(op, place, other.number());
        }
    }
}

/// Adds a session after the sessions before it. None of its operations waits.
fn push_zeros<O: SeqObject>(
    alloc: Global,
    h: &History<O>,
    session: usize,
    counts: &mut Vectors,
) -> Result<(), AllocError>
    requires exists { session < length h.now.1 }
    requires so_far { AreGatheredBefore h.now (λ _. AreZeros (length h.now.1)) session counts.old }
    ensures so_far { OnOk result (AreGatheredBefore h.now (λ _. AreZeros (length h.now.1)) (session + 1) counts.new) }
    ensures short { OnOk result (length (operations_of h.now session) ≤ MAX_OPERATIONS) }
{
    let zeros = vec![in alloc; 0; h.sessions()]?;
    counts.push_session()?;
    for _index in 0..h.len(session) {
        counts.push(session, &zeros)?;
    }
    Ok(())
}
