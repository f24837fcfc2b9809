//! The reads of a memory history whose returns are known.

ghost use Rattle.std.specs.Prelude.{◌+◌, ◌<◌, ◌↔◌, length, IfOk, IsTrue, OnOk};
ghost use Rattle.order_causal.specs.Orders.{op as operation};
ghost use Rattle.order_memory.specs.SourceOrder.{LacksSource};
ghost use Rattle.order_memory.specs.Steps.Indexed.{IsSourceIfAny, LacksItsSource, ListsReads, ListsReadsBefore};
ghost use Rattle.order_memory.specs.Steps.Indexed.{ListsSourcesIfAny};

use crate::placing::Sources;
use crate::reads::{initial_value, known_read};
use model_history::{History, OpId};
use model_objects::Memory;
use std::alloc::{AllocError, Global};

/// A read whose return is known.
#[derive(Clone, Copy)]
pub struct KnownRead {
    pub op: OpId,
    pub key: u32,
    /// The first of the writes that it may have read from: none where it read the initial value, or a value that nobody
    /// writes.
    pub source: Option<OpId>,
}

/// The known reads of a history, in the order of operations, from the sources of its operations.
///
/// Fails for want of memory alone. O(n) for n operations.
pub(crate) fn known_reads(
    alloc: Global,
    h: &History<Memory>,
    sources: &Sources,
) -> Result<Vec<KnownRead>, AllocError>
    requires { ListsSourcesIfAny h.now sources.now }
    ensures { IfOk result (λ reads. ListsReads h.now reads.items) }
{
    let mut reads = Vec::new(alloc);
    for session in 0..h.sessions() {
        push_reads(h, sources, session, &mut reads)?;
    }
    Ok(reads)
}

/// Adds the known reads of a session after those of the sessions before it.
fn push_reads(
    h: &History<Memory>,
    sources: &Sources,
    session: usize,
    reads: &mut Vec<KnownRead>,
) -> Result<(), AllocError>
    requires sources { ListsSourcesIfAny h.now sources.now }
    requires exists { session < length h.now.1 }
    requires so_far { ListsReadsBefore h.now (operation session 0) reads.old.items }
    ensures { OnOk result (ListsReadsBefore h.now (operation (session + 1) 0) reads.new.items) }
{
    let of_session = sources.get(session);
    for index in 0..of_session.len() {
        let op = OpId {
            session: session as u64,
            index: index as u64,
        };
        push_read(h, op, of_session[index], reads)?;
    }
    Ok(())
}

/// Adds an operation after the reads before it, if it is a known read.
fn push_read(
    h: &History<Memory>,
    op: OpId,
    source: Option<OpId>,
    reads: &mut Vec<KnownRead>,
) -> Result<(), AllocError>
    requires source { IsSourceIfAny h.now op source }
    requires so_far { ListsReadsBefore h.now op reads.old.items }
    ensures { OnOk result (ListsReadsBefore h.now (operation op.session (op.index + 1)) reads.new.items) }
{
    let Some(read) = known_read(h, op) else {
        return Ok(());
    };
    reads.push(KnownRead {
        op,
        key: read.0,
        source,
    })?;
    Ok(())
}

/// Whether one of the known reads returned a value that is not the initial one and that nobody writes. O(n log n) for n
/// reads.
pub(crate) fn lacks_source(h: &History<Memory>, reads: &[KnownRead]) -> bool
    requires { ListsReads h.now reads.now }
    ensures { IsTrue result ↔ LacksSource h.now }
{
    for read in reads {
        if lacks_its_source(h, read) {
            return true;
        }
    }
    false
}

/// Whether a known read has no source and returned a value that is not the initial one.
fn lacks_its_source(h: &History<Memory>, read: &KnownRead) -> bool
    ensures { IsTrue result ↔ LacksItsSource h.now read.now }
{
    if read.source.is_some() {
        return false;
    }
    match known_read(h, read.op) {
        Some((key, value)) => value != initial_value(h, key),
        None => false,
    }
}
