//! The form of an input, as far as its first bytes show it.

ghost use Rattle.std.specs.Prelude.{◌≡◌, ◌≢◌, IfErr, IfOk, IfSome, OnOk, true};
ghost use Rattle.std.specs.Io.KnownBytes.{Consumes};
ghost use Rattle.app_process.specs.Faults.{ReadingFails};
ghost use Rattle.app_process.specs.Process.{is_seen};
ghost use Rattle.app_process.specs.Steps.Readings.{Reads};

use app_command_line::Sight;
use json_lines::{Fault, Source};
use std::alloc::Global;
use std::io;

// How many bytes of an input are looked at, and by how many read calls.
const MOST_BYTES: usize = 4096;

const MOST_CALLS: usize = 65_536;

const CHUNK_BYTES: usize = 512;

/// The first bytes of an input, and what they show of its form.
#[derive(Drop)]
pub(crate) struct FirstBytes {
    /// The bytes.
    pub bytes: Vec<u8>,
    /// What they show.
    pub sight: Sight,
}

/// Reads as far as the first text of an input, which tells logs from histories, and gives the bytes that were read.
///
/// Where there is none within some first bytes, the form is [`Sight::Other`]. It fails where a read call does, or for want of memory.
#[tactic(auto, using(crate::proofs::ReadLaws::consumes_nothing, crate::proofs::ReadLaws::consumes_more))]
pub(crate) fn look<R: Source>(alloc: Global, reader: &mut R) -> Result<FirstBytes, Fault>
    ensures bytes { IfOk result (λ first. Consumes (R.remaining reader.old) (R.remaining reader.new) first.bytes.items) }
    ensures sight { IfOk result (λ first. is_seen first.sight ≡ true) }
    ensures fault { IfErr result (λ e. e ≢ Fault.Memory → ReadingFails 0 R.called) }
{
    let mut bytes = Vec::new(alloc);
    'calls: for _ in 0..MOST_CALLS {
        let goes_on = read_more(reader, &mut bytes)?;
        if let Some(sight) = sight_of(bytes.as_slice()) {
            return Ok(FirstBytes { bytes, sight });
        }
        if !goes_on || bytes.len() > MOST_BYTES {
            break;
        }
    }
    Ok(FirstBytes {
        bytes,
        sight: Sight::Other,
    })
}

// Makes one read call, appends what it gave, and returns whether there may be more.
#[tactic(auto, using(crate::proofs::ReadLaws::reads_nothing, crate::proofs::FaultLaws::read_call_fails))]
fn read_more<R: Source>(reader: &mut R, bytes: &mut Vec<u8>) -> Result<bool, Fault>
    ensures given { OnOk result (Reads (R.remaining reader.old) (R.remaining reader.new) bytes.old.items bytes.new.items) }
    ensures fault { IfErr result (λ e. e ≢ Fault.Memory → ReadingFails 0 R.called) }
{
    let mut chunk = [0u8; CHUNK_BYTES];
    match reader.call(&mut chunk) {
        Ok(count) => {
            bytes.extend_from_slice(&chunk[..count])?;
            Ok(count > 0)
        }
        Err(error) if error.kind() == io::ErrorKind::Interrupted => Ok(true),
        Err(_) => Err(Fault::Read),
    }
}

// What some first bytes show; none where they have no whole text yet.
fn sight_of(bytes: &[u8]) -> Option<Sight>
    ensures { IfSome result (λ sight. is_seen sight ≡ true) }
{
    for (place, byte) in bytes.iter().enumerate() {
        match byte {
            b'[' | b' ' | b'\t' | b'\r' | b'\n' => {}
            b'"' => return sight_by(&bytes[place + 1..]),
            _ => return Some(Sight::Other),
        }
    }
    None
}

// The texts that tell a log, with the quote after each.
const LOG_TEXTS: [&[u8]; 6] = [
    b"start\"", b"begin\"", b"end\"", b"fail\"", b"lost\"", b"order\"",
];

// The text that tells a memory history, with the quote after it.
const MEMORY_TEXT: &[u8] = b"memory\"";

// How many bytes the longest of them has.
const LONGEST_TEXT: usize = 7;

// What the first text shows, where these bytes begin with it; none where they may still become one of those that tell a form.
fn sight_by(text: &[u8]) -> Option<Sight>
    ensures { IfSome result (λ sight. is_seen sight ≡ true) }
{
    for known in LOG_TEXTS {
        if text.starts_with(known) {
            return Some(Sight::Log);
        }
    }
    if text.starts_with(MEMORY_TEXT) {
        return Some(Sight::Memory);
    }
    if text.len() < LONGEST_TEXT {
        None
    } else {
        Some(Sight::Other)
    }
}
