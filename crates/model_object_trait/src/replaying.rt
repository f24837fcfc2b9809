//! The state of an object after a list of calls.

ghost use Rattle.std.specs.Prelude.{IfOk};

use crate::seq_object::SeqObject;
use std::alloc::{AllocError, Global};

/// The state that represents these calls from this start.
///
/// Fails for want of memory alone. One `apply` a call.
pub fn replay<O: SeqObject>(
    alloc: Global,
    start: &O::Start,
    calls: &[O::Call],
) -> Result<O, AllocError>
    requires { O.is_start start.now }
    ensures { IfOk result (λ o. O.stands o start.now calls.now) }
{
    let mut object = O::fresh(alloc, start)?;
    for call in calls {
        object.apply(*call)?;
    }
    Ok(object)
}
