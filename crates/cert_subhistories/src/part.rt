//! The making of a part from a history and a choice of its operations.

ghost use Rattle.std.specs.Prelude.{◌≡◌, IfOk};
ghost use Rattle.cert_subhistories.specs.Parts.{kept_of_session, part_by};

use crate::keeps::Keeps;
use model_history::{History, OpId};
use model_object_trait::SeqObject;
use std::alloc::{AllocError, Global};

/// The part of a history that is kept: in each session the operations that are kept, in their order, from the same start.
///
/// Sessions keep their numbers: one of which nothing is kept is empty. Fails for want of memory alone. It asks once for
/// each operation, and takes O(n) for n operations besides that.
pub fn part_of<O: SeqObject, K: Keeps<O::Call>>(
    alloc: Global,
    history: &History<O>,
    kept: &K,
) -> Result<History<O>, AllocError>
    ensures { IfOk result (λ part. part ≡ part_by (K.kept kept.now) history.now) }
{
    let mut sessions = Vec::new(alloc);
    for s in 0..history.sessions() {
        sessions.push(kept_operations(alloc, s, history.session(s), kept)?)?;
    }
    let start = O::copy_start(alloc, history.start())?;
    history.value_is_history();
    Ok(History::of(start, sessions))
}

/// The operations of a session that are kept, with their returns.
fn kept_operations<C: Copy, R: Copy, K: Keeps<C>>(
    alloc: Global,
    session: usize,
    operations: &[(C, Option<R>)],
    kept: &K,
) -> Result<Vec<(C, Option<R>)>, AllocError>
    ensures { IfOk result (λ part. part.items ≡ kept_of_session (K.kept kept.now) session operations.now) }
{
    let mut part = Vec::new(alloc);
    for (index, operation) in operations.iter().enumerate() {
        if kept.keeps(OpId::at(session, index), &operation.0) {
            part.push(*operation)?;
        }
    }
    Ok(part)
}
