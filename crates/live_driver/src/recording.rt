//! The recorder of a run, with room for the calls of its input.

ghost use Rattle.std.specs.Prelude.{◌≡◌, ◌<◌, length, IfErr, IfOk};
ghost use Rattle.std.specs.Arc.{arc_value};
ghost use Rattle.live_driver.specs.Clients.{AreFresh, IsGivenUp};

use crate::drive_error::DriveError;
use crate::input::most_calls;
use live_recorder::{Lanes, RecordError, Session, new_recorder};
use model_history::History;
use model_object_trait::SeqObject;
use std::alloc::Global;
use std::sync::Arc;

/// A recorder with a lane for each session of the input, and its start. Fails for want of memory alone. O(n) for n calls.
pub fn recorder_for<O: SeqObject>(
    alloc: Global,
    input: &History<O>,
) -> Result<(Arc<Lanes<O>>, Vec<Session<O>>), DriveError>
    requires { 0 < length input.now.1 }
    ensures start { IfOk result (λ r. (arc_value r.0).start ≡ input.now.0) }
    ensures lanes { IfOk result (λ r. length (arc_value r.0).cells ≡ length input.now.1) }
    ensures many { IfOk result (λ r. length r.1.items ≡ length input.now.1) }
    ensures fresh { IfOk result (λ r. AreFresh (arc_value r.0) input.now r.1.items) }
    ensures refused { IfErr result IsGivenUp }
{
    let start = O::copy_start(alloc, input.start())?;
    match new_recorder(alloc, input.sessions(), most_calls(input), start) {
        Ok(recorder) => Ok(recorder),
        Err(RecordError::Memory) => Err(DriveError::Memory),
        Err(_) => unreachable!(),
    }
}
