//! Mailboxes by which the clients of a run send each other updates.

ghost use Rattle.std.specs.Prelude.{◌≡◌, IfErr};

use crate::drive_error::DriveError;
use crossbeam_queue::SegQueue;
use live_replica::UpdateOf;
use std::alloc::{AllocError, Global};
use std::sync::Wait;

/// A mailbox for each session, for the updates that it has not delivered. No contract states what comes through.
#[derive(Drop)]
pub struct Mailboxes<C: Copy> {
    boxes: Vec<SegQueue<UpdateOf<C>>>,
}

impl<C: Copy> Mailboxes<C> {
    /// So many empty mailboxes. Fails for want of memory alone. O(k) for k sessions.
    pub fn new(alloc: Global, sessions: usize) -> Result<Mailboxes<C>, AllocError> {
        let mut boxes = Vec::with_capacity(alloc, sessions)?;
        for _ in 0..sessions {
            boxes.push(SegQueue::new(alloc)?)?;
        }
        Ok(Mailboxes { boxes })
    }

    /// The oldest update in the mailbox of a session.
    pub(crate) fn take<R: Wait>(&self, rt: &R, session: usize) -> Option<UpdateOf<C>> {
        self.boxes.get(session)?.pop(rt)
    }

    /// Puts an update into each mailbox but its writer's.
    pub(crate) fn send<R: Wait>(&self, rt: &R, update: &UpdateOf<C>) -> Result<(), DriveError>
        ensures { IfErr result (λ e. e ≡ DriveError.Memory) }
    {
        for to in 0..self.boxes.len() {
            if to != usize::from(update.session) && self.boxes[to].push(rt, *update).is_err() {
                return Err(DriveError::Memory);
            }
        }
        Ok(())
    }
}
