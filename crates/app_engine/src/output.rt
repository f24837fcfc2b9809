//! Writing the answer.
ghost use Rattle.std.specs.Prelude.{◌≡◌, IfErr, OnErr, OnOk};
ghost use Rattle.std.specs.Io.KnownBytes.{Appends};
ghost use Rattle.json_lines.specs.WriteCalls.{AppendsFront, FailsToTake, PassesOn};

use crate::failure::RunError;
use json_lines::{MAX_WRITE_CALLS, Sink, write_whole};

/// Writes the whole text, in as many calls as the writer needs, and has it passed on.
///
/// A writer that fails, or takes nothing, is a write fault: it then holds what it held and a beginning of the text. An interrupted call is
/// made again. O(n) for n bytes.
pub fn write_output<W: Sink>(writer: &mut W, text: &[u8]) -> Result<(), RunError>
    ensures written { OnOk result (Appends (W.contents writer.old) (W.contents writer.new) text.now) }
    ensures begun { OnErr result (AppendsFront (W.contents writer.old) (W.contents writer.new) text.now) }
    ensures error { IfErr result (λ e. e ≡ RunError.WriteFault) }

    // Whatever the writer reports of its calls.
    ensures passed_on { OnOk result (PassesOn W.called writer.old writer.new) }
    ensures fault { OnErr result (FailsToTake W.called MAX_WRITE_CALLS writer.old writer.new) }
{
    match write_whole(writer, text) {
        Ok(()) => Ok(()),
        Err(_) => Err(RunError::WriteFault),
    }
}
