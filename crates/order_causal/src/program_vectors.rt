//! The vectors of program order.

ghost use Rattle.std.specs.Prelude.{◌<◌, length, IfOk};
ghost use Rattle.model_history.specs.History.{IsOp};
ghost use Rattle.model_history.specs.declared.op_id.OpId.{OpId as Operation};
ghost use Rattle.order_causal.specs.Steps.Gathered.{AreListsOf};
ghost use Rattle.order_causal.specs.ProgramOrder.{IsOwnVector};
ghost use Rattle.order_causal.specs.Vectors.{AreVectorsOf, list_of};

use crate::by_operation::Vectors;
use crate::rows::Rows;
use model_history::History;
use model_object_trait::SeqObject;
use std::alloc::{AllocError, Global};

/// The vectors of program order alone: each counts the operations of its own session, and none of another session.
///
/// Fails for want of memory alone. O(n k) for n operations of k sessions.
pub fn program_order<O: SeqObject>(alloc: Global, h: &History<O>) -> Result<Vectors, AllocError>
    ensures shape { IfOk result (AreVectorsOf h.now) }
    ensures exact { IfOk result (λ v. (o : Operation) → IsOp h.now o → IsOwnVector (length h.now.1) o (list_of v o)) }
{
    let mut vectors = Vectors::new(alloc);
    for session in 0..h.sessions() {
        vectors.push_rows(own_vectors(alloc, h, session)?)?;
    }
    Ok(vectors)
}

/// The vectors of the operations of a session.
fn own_vectors<O: SeqObject>(
    alloc: Global,
    h: &History<O>,
    session: usize,
) -> Result<Rows<u16>, AllocError>
    requires { session < length h.now.1 }
    ensures { IfOk result (AreListsOf h.now (IsOwnVector (length h.now.1)) session) }
{
    let mut counts = vec![in alloc; 0; h.sessions()]?;
    let mut vectors = Rows::new(alloc);
    for index in 0..h.len(session) {
        counts[session] = index as u16 + 1;
        vectors.push(&counts)?;
    }
    Ok(vectors)
}
