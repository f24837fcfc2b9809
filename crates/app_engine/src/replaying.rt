//! The answer to a script.

ghost use Rattle.std.specs.Prelude.{IfErr, IfOk, string_bytes};
ghost use Rattle.app_engine.specs.Running.{IsOutput, IsOutputError};

use crate::failure::RunError;
use app_orders::Order;
use std::alloc::Global;

/// The lines of the replies to the steps of the script in the input.
///
/// Refuses what is no script, and fails for want of memory. It costs what [`live_script::replay`] does.
pub fn replay(alloc: Global, input: &[u8]) -> Result<String, RunError>
    ensures output { IfOk result (λ text. IsOutput Order.Replay input.now (string_bytes text)) }
    ensures error { IfErr result (IsOutputError Order.Replay input.now) }
{
    Ok(live_script::replay(alloc, input)?)
}
