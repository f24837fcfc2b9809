//! Where the operations of a part are in the whole.

use model_history::{History, OpId};
use model_objects::Memory;
use std::alloc::{AllocError, Global};

/// The operations of the whole that each session of a part keeps, in order.
#[derive(Debug, Drop)]
pub struct Places {
    sessions: Vec<Vec<OpId>>,
}

impl Places {
    /// These operations of the whole for each session of a part. No contract says what they name: a part is judged by itself.
    pub fn of(sessions: Vec<Vec<OpId>>) -> Places {
        Places { sessions }
    }

    /// The places of the operations at all variables but some. Fails for want of memory alone. O(n m) for n operations and m variables.
    pub(crate) fn without(
        alloc: Global,
        history: &History<Memory>,
        variables: &[u32],
    ) -> Result<Places, AllocError> {
        let mut sessions = Vec::new(alloc);
        for session in 0..history.sessions() {
            sessions.push(kept_of_session(alloc, history, session, variables)?)?;
        }
        Ok(Places { sessions })
    }

    /// The places of the operations in a list in order, of a whole of so many sessions. Fails for want of memory alone. O(k m) for
    /// k sessions and m operations.
    pub(crate) fn listed(
        alloc: Global,
        sessions: usize,
        ops: &[OpId],
    ) -> Result<Places, AllocError> {
        let mut listed = Vec::new(alloc);
        for session in 0..sessions {
            listed.push(listed_of_session(alloc, ops, session)?)?;
        }
        Ok(Places { sessions: listed })
    }

    /// The operation of the whole that an operation of the part is. An operation that is not in the part is returned as it is.
    pub fn in_whole(&self, op: OpId) -> OpId {
        let kept = self.sessions.get(op.session_place());
        match kept.and_then(|kept| kept.get(op.place())) {
            Some(place) => *place,
            None => op,
        }
    }
}

// The operations of a session that are at no variable of a list.
fn kept_of_session(
    alloc: Global,
    history: &History<Memory>,
    session: usize,
    variables: &[u32],
) -> Result<Vec<OpId>, AllocError> {
    let mut kept = Vec::new(alloc);
    for index in 0..history.len(session) {
        let op = OpId::at(session, index);
        if history.contains(op) && !variables.contains(&history.call(op).key) {
            kept.push(op)?;
        }
    }
    Ok(kept)
}

// The operations of a session that a list names.
fn listed_of_session(alloc: Global, ops: &[OpId], session: usize) -> Result<Vec<OpId>, AllocError> {
    let mut listed = Vec::new(alloc);
    for op in ops {
        if op.session_place() == session {
            listed.push(*op)?;
        }
    }
    Ok(listed)
}
