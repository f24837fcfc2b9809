//! Reading a log to its end.

ghost use Rattle.std.specs.Prelude.{◌≡◌, ◌≢◌, [], IfErr, IfOk, IfSome, OnOk};
ghost use Rattle.std.specs.Io.KnownBytes.{IsAtEnd};
ghost use Rattle.json_lines.specs.ReadCalls.{IsFurther};
ghost use Rattle.log_reader.specs.Logs.{IsLogOf};
ghost use Rattle.log_reader.specs.Readings.{HasRead};
ghost use Rattle.app_logs.specs.LogAnswers.{IsLogError};
ghost use Rattle.app_logs.specs.ReadCalls.{ReadsWholeBy};

use crate::failure::LogError;
use crate::telling::tell;
use json_lines::Source;
use log_reader::{EventReader, Progress};
use std::alloc::Global;

/// A log that was read to its end.
#[derive(Drop)]
pub(crate) struct WholeLog {
    pub reader: EventReader,
    /// Whether its last line is incomplete, and was skipped.
    pub torn: bool,
}

/// Reads a log to its end, and keeps its notes only where they are to be shown.
///
/// Fails with the first line that is refused, and then appends its details; for want of memory; and where the reader fails. O(n) for n
/// bytes.
pub(crate) fn read_log<R: Source>(
    alloc: Global,
    source: &mut R,
    keeps_notes: bool,
    details: &mut String,
) -> Result<WholeLog, LogError>
    ensures whole { IfOk result (λ read. IfSome (R.remaining source.old) (λ bytes. IsLogOf bytes read.reader.log read.torn)) }
    ensures end { OnOk result (IsAtEnd (R.remaining source.new)) }
    ensures error { IfErr result (IsLogError (R.remaining source.old)) }
    ensures unwritten { IfErr result (λ e. e ≢ LogError.WriteFault) }
    ensures read_on { IsFurther (R.remaining source.old) (R.remaining source.new) }
    ensures calls { ReadsWholeBy R.called result source.old source.new }
{
    let mut reader = EventReader::keeping(alloc, keeps_notes)?;
    let read = read_whole(&mut reader, source);
    tell(alloc, &reader, &read, details);
    match read {
        Ok(torn) => Ok(WholeLog { reader, torn }),
        Err(error) => Err(error),
    }
}

// The same by a reader that has read nothing. Returns whether the last line is torn.
fn read_whole<R: Source>(reader: &mut EventReader, source: &mut R) -> Result<bool, LogError>
    requires { HasRead [] reader.old }
    ensures whole { IfOk result (λ torn. IfSome (R.remaining source.old) (λ bytes. IsLogOf bytes reader.new.log torn)) }
    ensures end { OnOk result (IsAtEnd (R.remaining source.new)) }
    ensures error { IfErr result (IsLogError (R.remaining source.old)) }
    ensures unwritten { IfErr result (λ e. e ≢ LogError.WriteFault) }
    ensures read_on { IsFurther (R.remaining source.old) (R.remaining source.new) }
    ensures calls { ReadsWholeBy R.called result source.old source.new }
{
    match reader.read(source, u32::MAX)? {
        Progress::End { torn } => Ok(torn),
        Progress::More => Err(LogError::Memory),
    }
}
