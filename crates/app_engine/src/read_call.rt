//! Single read calls of an input.
ghost use Rattle.std.specs.Prelude.{◌≡◌, ◌+◌, ◌++◌, ◌<◌, ◌≤◌, ◌⊎◌, ◌↔◌, Err, IfErr, IfOk, OnOk, length, vec_len};
ghost use Rattle.std.specs.Io.KnownBytes.{IsAtEnd};
ghost use Rattle.app_engine.specs.Failure.{IsInputError};
ghost use Rattle.json_lines.specs.ReadCalls.{CallOutcome};
ghost use Rattle.app_engine.specs.ReadCalls.{CameTo};
ghost use Rattle.app_engine.specs.Steps.Transfer.{Gives, GivesPast, MovesTo};

use crate::failure::RunError;
use json_lines::Source;
use std::alloc::Global;
use std::io::ErrorKind;

/// What a read call gave.
#[derive(Clone, Copy, Debug, PartialEq, Eq)]
pub(crate) enum Given {
    /// Some bytes.
    Bytes,
    /// Nothing: it was interrupted.
    Nothing,
    /// The end.
    End,
}

// How many bytes a read call asks for.
const CHUNK_BYTES: usize = 65_536;

/// What read calls write to.
pub(crate) fn chunk_of_zeros(alloc: Global) -> Result<Vec<u8>, RunError>
    ensures len { IfOk result (λ chunk. vec_len chunk ≡ CHUNK_BYTES) }
    ensures err { IfErr result (λ e. e ≡ RunError.Memory) }
{
    Ok(vec![in alloc; 0; CHUNK_BYTES]?)
}

/// Makes one read call, and appends what it gave, unless the input would have more bytes than `most`.
pub(crate) fn read_once<R: Source>(
    reader: &mut R,
    chunk: &mut [u8],
    input: &mut Vec<u8>,
    most: usize,
) -> Result<Given, RunError>
    requires room { 0 < length chunk.old }
    requires within { vec_len input.old ≤ most }
    ensures moved { OnOk result
        (MovesTo (R.remaining reader.old) (R.remaining reader.new) input.old.items input.new.items) }
    ensures end { IfOk result (λ given. given ≡ Given.End → IsAtEnd (R.remaining reader.new)) }
    ensures grows { IfOk result (λ given. given ≡ Given.Bytes → vec_len input.old < vec_len input.new) }
    ensures within { OnOk result ((vec_len input.old ≤ vec_len input.new) × (vec_len input.new ≤ most)) }

    ensures too_long { result ≡ Err RunError.TooLong
        → GivesPast (R.remaining reader.old) (R.remaining reader.new) input.old.items most }
    ensures errors { IfErr result IsInputError }
    ensures reader { Gives (R.remaining reader.old) (R.remaining reader.new) }
    ensures call { (outcome : CallOutcome) × R.called reader.old outcome reader.new × CameTo outcome result }
{
    match reader.call(chunk) {
        Ok(0) => Ok(Given::End),
        Ok(count) => {
            append(input, &chunk[..count], most)?;
            Ok(Given::Bytes)
        }
        Err(error) if error.kind() == ErrorKind::Interrupted => Ok(Given::Nothing),
        Err(_) => Err(RunError::ReadFault),
    }
}

// Appends what a read call gave, unless that would pass the limit.
fn append(input: &mut Vec<u8>, bytes: &[u8], most: usize) -> Result<(), RunError>
    requires { vec_len input.old ≤ most }
    ensures ok { OnOk result (input.new.items ≡ input.old.items ++ bytes.now) }
    ensures within { OnOk result (vec_len input.new ≤ most) }
    ensures too_long { (result ≡ Err RunError.TooLong) ↔ (most < vec_len input.old + length bytes.now) }
    ensures errors { IfErr result (λ e. (e ≡ RunError.TooLong) ⊎ (e ≡ RunError.Memory)) }
{
    if bytes.len() > most - input.len() {
        return Err(RunError::TooLong);
    }
    input.extend_from_slice(bytes)?;
    Ok(())
}
