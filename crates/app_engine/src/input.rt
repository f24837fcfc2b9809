//! Reading the input, within bounds.
ghost use Rattle.std.specs.Prelude.{◌≡◌, ◌<◌, ◌≤◌, Err, IfErr, IfOk, IfSome, OnOk, length, vec_len};
ghost use Rattle.std.specs.Io.KnownBytes.{IsAtEnd};
ghost use Rattle.app_engine.specs.Failure.{IsInputError};
ghost use Rattle.app_engine.specs.InputLengths.{CallsFor, EndsFor, FindsNoEndFor, most_bytes};
ghost use Rattle.json_lines.specs.ReadCalls.{CallsAtMost, EndsBy, FindsNoEnd, IsEnd};
ghost use Rattle.app_engine.specs.ReadCalls.{EndsIdle, FindsNoEndIdle, IdlesAtMost};
ghost use Rattle.app_engine.specs.Steps.Transfer.{Gives};

use crate::failure::RunError;
use crate::read_call::{Given, chunk_of_zeros, read_once};
use app_orders::Length;
use json_lines::{MAX_READ_CALLS, Source};
use std::alloc::Global;

/// The most bytes of an input, unless its history may have any length.
pub const MAX_INPUT_BYTES: usize = 67_108_864;

/// The most bytes of an input whose history may have any length.
pub const MAX_LONG_INPUT_BYTES: usize = 1_073_741_824;

/// Reads all that the source has.
///
/// It refuses more than [`MAX_INPUT_BYTES`], at the first read that passes them. It makes an interrupted read again.
/// Any other error of the source is a read fault, and so is a source that did not reach its end in
/// [`MAX_READ_CALLS`] calls. O(n) for n bytes.
pub fn read_input<R: Source>(alloc: Global, reader: &mut R) -> Result<Vec<u8>, RunError>
    ensures all { IfOk result (λ input. IfSome (R.remaining reader.old) (λ bytes. input.items ≡ bytes)) }
    ensures end { OnOk result (IsAtEnd (R.remaining reader.new)) }
    ensures within { IfOk result (λ input. vec_len input ≤ MAX_INPUT_BYTES) }

    ensures too_long { result ≡ Err RunError.TooLong
        → IfSome (R.remaining reader.old) (λ bytes. MAX_INPUT_BYTES < length bytes) }
    ensures errors { IfErr result IsInputError }
    ensures reader { Gives (R.remaining reader.old) (R.remaining reader.new) }

    // However often the source could be called, and whatever it reports of its calls.
    ensures calls { CallsAtMost R.called MAX_READ_CALLS reader.old reader.new }
    ensures end_found { OnOk result (EndsBy R.called MAX_READ_CALLS IsEnd reader.old reader.new) }
    ensures fault { result ≡ Err RunError.ReadFault → FindsNoEnd R.called MAX_READ_CALLS reader.old reader.new }
{
    let mut chunk = chunk_of_zeros(alloc)?;
    let mut input = Vec::new(alloc);
    for _ in 0..MAX_READ_CALLS {
        let given = read_once(reader, chunk.as_mut_slice(), &mut input, MAX_INPUT_BYTES)?;
        if given == Given::End {
            return Ok(input);
        }
    }
    Err(RunError::ReadFault)
}

/// Reads all that the source has, where a history may have any length.
///
/// It refuses more than [`MAX_LONG_INPUT_BYTES`], at the first read that passes them. A read call that gives a byte is not counted: a
/// read fault is a source that gave none in [`MAX_READ_CALLS`] calls in a row, or that failed and was not interrupted. O(n) for n bytes.
pub fn read_long_input<R: Source>(alloc: Global, reader: &mut R) -> Result<Vec<u8>, RunError>
    ensures all { IfOk result (λ input. IfSome (R.remaining reader.old) (λ bytes. input.items ≡ bytes)) }
    ensures end { OnOk result (IsAtEnd (R.remaining reader.new)) }
    ensures within { IfOk result (λ input. vec_len input ≤ MAX_LONG_INPUT_BYTES) }

    ensures too_long { result ≡ Err RunError.TooLong
        → IfSome (R.remaining reader.old) (λ bytes. MAX_LONG_INPUT_BYTES < length bytes) }
    ensures errors { IfErr result IsInputError }
    ensures reader { Gives (R.remaining reader.old) (R.remaining reader.new) }

    // However often the source could be called, and whatever it reports of its calls.
    ensures calls { IdlesAtMost R.called MAX_READ_CALLS reader.old reader.new }
    ensures end_found { OnOk result (EndsIdle R.called MAX_READ_CALLS IsEnd reader.old reader.new) }
    ensures fault { result ≡ Err RunError.ReadFault → FindsNoEndIdle R.called MAX_READ_CALLS reader.old reader.new }
{
    let mut chunk = chunk_of_zeros(alloc)?;
    let mut input = Vec::new(alloc);
    let mut idle = 0;
    'calls: while idle < MAX_READ_CALLS {
        match read_once(
            reader,
            chunk.as_mut_slice(),
            &mut input,
            MAX_LONG_INPUT_BYTES,
        )? {
            Given::End => return Ok(input),
            Given::Bytes => idle = 0,
            Given::Nothing => idle += 1,
        }
    }
    Err(RunError::ReadFault)
}

/// Reads all that the source has, where a history may have this length: as [`read_input`] or as [`read_long_input`] does,
/// with their errors. O(n) for n bytes.
pub fn read_input_for<R: Source>(
    alloc: Global,
    reader: &mut R,
    long: Length,
) -> Result<Vec<u8>, RunError>
    ensures all { IfOk result (λ input. IfSome (R.remaining reader.old) (λ bytes. input.items ≡ bytes)) }
    ensures end { OnOk result (IsAtEnd (R.remaining reader.new)) }
    ensures within { IfOk result (λ input. vec_len input ≤ most_bytes long) }

    ensures too_long { result ≡ Err RunError.TooLong
        → IfSome (R.remaining reader.old) (λ bytes. most_bytes long < length bytes) }
    ensures errors { IfErr result IsInputError }
    ensures reader { Gives (R.remaining reader.old) (R.remaining reader.new) }

    ensures calls { CallsFor R.called long MAX_READ_CALLS reader.old reader.new }
    ensures end_found { OnOk result (EndsFor R.called long MAX_READ_CALLS IsEnd reader.old reader.new) }
    ensures fault { result ≡ Err RunError.ReadFault → FindsNoEndFor R.called long MAX_READ_CALLS reader.old reader.new }
{
    match long {
        Length::Limited => read_input(alloc, reader),
        Length::Any => read_long_input(alloc, reader),
    }
}

/// Refuses an input in memory that is longer than what is read where a history may have this length.
pub fn stay_within(input: &[u8], long: Length) -> Result<(), RunError>
    ensures within { OnOk result (length input.now ≤ most_bytes long) }
    ensures error { IfErr result (λ e. (e ≡ RunError.TooLong) × (most_bytes long < length input.now)) }
{
    if input.len() > most_bytes_of(long) {
        return Err(RunError::TooLong);
    }
    Ok(())
}

// The most bytes of an input whose history may have this length.
fn most_bytes_of(long: Length) -> usize
    ensures { result ≡ most_bytes long }
{
    match long {
        Length::Limited => MAX_INPUT_BYTES,
        Length::Any => MAX_LONG_INPUT_BYTES,
    }
}
