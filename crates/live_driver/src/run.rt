//! A run: the input, the plan, and all else that its clients share.

use crate::mailboxes::Mailboxes;
use crate::plan::DrivePlan;
use crate::sealing_progress::SealingProgress;
use live_recorder::Lanes;
use model_history::History;
use model_object_trait::SeqObject;
use std::alloc::Global;

/// What the clients of one run share.
#[derive(Drop)]
pub struct Run<'a, O: SeqObject> {
    pub alloc: Global,
    pub input: &'a History<O>,
    pub plan: DrivePlan,
    pub lanes: &'a Lanes<O>,
    pub mailboxes: &'a Mailboxes<O::Call>,
    pub progress: &'a SealingProgress,
}
