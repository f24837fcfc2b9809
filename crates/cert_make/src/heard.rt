//! Vectors as a store reported them.

ghost use Rattle.std.specs.Prelude.{◌≡◌, ◌<◌, ◌≤◌, [], length, take, IfOk};
ghost use Rattle.model_history.specs.declared.limits.TheConstants.{MAX_OPERATIONS as most_operations};
ghost use Rattle.order_causal.specs.Steps.Gathered.{AreListsOf};
ghost use Rattle.order_causal.specs.Vectors.{AreVectorsOf};
ghost use Rattle.cert_make.specs.Advice.{AreToldVectors, IsAdvised, IsToldVector, hear, heard_before};

use crate::advice::advice_in;
use model_history::{Advice, History, MAX_SESSIONS, OpId};
use model_object_trait::SeqObject;
use order_causal::{Rows, Vectors};
use std::alloc::{AllocError, Global};
use std::marker::Model;

/// What is known of an operation: how many operations of each session the store had taken in, and its clock.
#[derive(Drop)]
pub(crate) struct Heard {
    counts: [u16; MAX_SESSIONS],
    stamp: u64,
}

impl Model for Heard {
    ghost use Rattle.cert_make.specs.Advice.{Heard as Known};

    ghost Value = { Known };

    ghost view = { λ heard. (heard.counts, heard.stamp) };
}

impl Heard {
    /// What is known before the first operation of a session.
    pub(crate) fn nothing() -> Heard
        ensures { result ≡ heard_before [] 0 0 }
    {
        Heard {
            counts: [0; MAX_SESSIONS],
            stamp: 0,
        }
    }

    /// What is known of the next operation of the session.
    pub(crate) fn hear(&mut self, op: OpId, entry: &Option<Advice>)
        requires session { op.session < MAX_SESSIONS }
        requires index { op.index < most_operations }
        ensures { self.new ≡ hear op entry.now self.old }
    {
        match entry {
            Some(advice) => {
                self.counts = advice.counts;
                self.stamp = advice.stamp;
            }
            None => self.counts[op.session_place()] = op.number(),
        }
    }

    /// The counts of the first sessions.
    pub(crate) fn counts(&self, sessions: usize) -> &[u16]
        requires { sessions ≤ MAX_SESSIONS }
        ensures counts { result.now ≡ take sessions self.now.0 }
        ensures size { length result.now ≡ sessions }
    {
        &self.counts[..sessions]
    }

    /// The clock.
    pub(crate) fn stamp(&self) -> u64
        ensures { result ≡ self.now.1 }
    {
        self.stamp
    }
}

/// The vectors that a store reported: an operation without advice has the counts of the one before it, and counts itself.
///
/// Fails for want of memory alone. O(n k) for n operations of k sessions.
pub(crate) fn reported_vectors<O: SeqObject>(
    alloc: Global,
    h: &History<O>,
    advice: &[Option<Advice>],
) -> Result<Vectors, AllocError>
    requires { IsAdvised h.now advice.now }
    ensures shape { IfOk result (AreVectorsOf h.now) }
    ensures exact { IfOk result (AreToldVectors h.now advice.now) }
{
    let mut vectors = Vectors::new(alloc);
    for session in 0..h.sessions() {
        vectors.push_rows(vectors_of(alloc, h, advice, session)?)?;
    }
    Ok(vectors)
}

/// The vectors of the operations of a session.
fn vectors_of<O: SeqObject>(
    alloc: Global,
    h: &History<O>,
    advice: &[Option<Advice>],
    session: usize,
) -> Result<Rows<u16>, AllocError>
    requires advised { IsAdvised h.now advice.now }
    requires few { length h.now.1 ≤ MAX_SESSIONS }
    requires exists { session < length h.now.1 }
    ensures { IfOk result (AreListsOf h.now (IsToldVector h.now advice.now) session) }
{
    let reported = advice_in(h, advice, session);
    let mut heard = Heard::nothing();
    let mut vectors = Rows::new(alloc);
    for index in 0..h.len(session) {
        heard.hear(OpId::at(session, index), &reported[index]);
        vectors.push(heard.counts(h.sessions()))?;
    }
    Ok(vectors)
}
