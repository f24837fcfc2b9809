//! Single read calls.
ghost use Rattle.std.specs.Prelude.{◌≡◌, ◌<◌, IfErr, IfOk, OnErr, length};
ghost use Rattle.std.specs.Io.KnownBytes.{Keeps};
ghost use Rattle.json_lines.specs.ReadCalls.{CallOutcome};
ghost use Rattle.json_lines.specs.Steps.{CameTo, Gives};

use crate::fault::Fault;
use crate::source::Source;
use std::io::ErrorKind;

/// How many bytes a read call asks for.
pub(crate) const CHUNK_BYTES: usize = 65_536;

/// The most read calls in a row in which no line ends. Each call counts, an interrupted one too.
pub const MAX_READ_CALLS: u32 = 1_048_576;

/// Makes one read call. Returns how many bytes it gave, or `None` if it found the end. An interrupted call gave no bytes.
///
/// It fails where the call does, and then says that lines could not be read.
pub fn read_once<R: Source>(reader: &mut R, chunk: &mut [u8]) -> Result<Option<usize>, Fault>
    requires { 0 < length chunk.old }
    ensures given { IfOk result (Gives (R.remaining reader.old) (R.remaining reader.new) chunk.new) }
    ensures kept { OnErr result (Keeps (R.remaining reader.old) (R.remaining reader.new)) }
    ensures error { IfErr result (λ e. e ≡ Fault.Read) }
    ensures call { (outcome : CallOutcome) × R.called reader.old outcome reader.new × CameTo outcome result }
{
    match reader.call(chunk) {
        Ok(0) => Ok(None),
        Ok(count) => Ok(Some(count)),
        Err(error) if error.kind() == ErrorKind::Interrupted => Ok(Some(0)),
        Err(_) => Err(Fault::Read),
    }
}
