//! The writes that the operations of a memory history read from.

ghost use Rattle.std.specs.Prelude.{◌<◌, length, IfOk};
ghost use Rattle.model_history.specs.History.{session as operations_of};
ghost use Rattle.order_memory.specs.Steps.Indexed.{IsSourceIfAny, ListsIfAnyBelow, ListsSourcesIfAny};
ghost use Rattle.order_memory.specs.Steps.Written.{AreInOrder, IsSorted, ListsWrites};

use crate::placing::Sources;
use crate::reads::{initial_value, known_read};
use crate::writes::{Write, least_write};
use model_history::{History, OpId};
use model_objects::Memory;
use order_causal::Rows;
use std::alloc::{AllocError, Global};

/// The source of each operation of a history, from its writes.
///
/// The source of a known read of a value that is not the initial one is the first write of that value to its variable.
/// Other operations have none, nor has a read of a value that nobody writes. Fails for want of memory alone. O(n log n)
/// for n operations.
pub(crate) fn found_sources(
    alloc: Global,
    h: &History<Memory>,
    writes: &[Write],
) -> Result<Sources, AllocError>
    requires writes { ListsWrites h.now writes.now }
    requires sorted { IsSorted writes.now }
    requires in_order { AreInOrder writes.now }
    ensures { IfOk result (ListsSourcesIfAny h.now) }
{
    let mut sources = Rows::new(alloc);
    for session in 0..h.sessions() {
        let of_session = sources_of_session(alloc, h, writes, session)?;
        sources.push(&of_session)?;
    }
    Ok(sources)
}

/// The source of each operation of a session.
fn sources_of_session(
    alloc: Global,
    h: &History<Memory>,
    writes: &[Write],
    session: usize,
) -> Result<Vec<Option<OpId>>, AllocError>
    requires writes { ListsWrites h.now writes.now }
    requires sorted { IsSorted writes.now }
    requires in_order { AreInOrder writes.now }
    ensures { IfOk result (λ sources. ListsIfAnyBelow h.now session (length (operations_of h.now session)) sources.items) }
{
    let mut sources = Vec::new(alloc);
    for index in 0..h.len(session) {
        let op = OpId::at(session, index);
        sources.push(found_source(h, writes, op))?;
    }
    Ok(sources)
}

/// The source of an operation, where it has one. O(log n) for n writes, besides the look-up of the initial value.
pub fn found_source(h: &History<Memory>, writes: &[Write], op: OpId) -> Option<OpId>
    requires writes { ListsWrites h.now writes.now }
    requires sorted { IsSorted writes.now }
    requires in_order { AreInOrder writes.now }
    ensures { IsSourceIfAny h.now op result }
{
    let read = known_read(h, op)?;
    if read.1 == initial_value(h, read.0) {
        return None;
    }
    least_write(writes, read.0, read.1)
}
