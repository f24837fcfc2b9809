//! Looking for the end of a line.
ghost use Rattle.std.specs.Prelude.{◌≡◌, ◌+◌, ◌<◌, ◌≤◌, ◌⊎◌, ℕ, List, Option, IfErr, IfOk, IfNone, IfSome, OnErr, length};
ghost use Rattle.json_lines.specs.Steps.{EndsIn, FindsEnd, IsBefore, IsFree, IsStreamOver, LooksBy, TakesSome};

use crate::fault::Fault;
use crate::read_call::{MAX_READ_CALLS, read_once};
use crate::source::Source;
use memchr::memchr;

/// Where the first line of some bytes ends.
#[derive(Clone, Copy, Debug, PartialEq, Eq)]
pub(crate) enum LineEnd {
    /// At the line feed with this index.
    Feed(usize),
    /// Nowhere: the line has more bytes than are read of one.
    TooLong,
    /// At the end of the stream.
    Stream,
}

// The line feed with this index ends a line of so many bytes at most.
fn end_at(index: usize, most: usize) -> LineEnd
    ensures feed { index ≤ most → result ≡ LineEnd.Feed index }
    ensures long { most < index → result ≡ LineEnd.TooLong }
    ensures within { (reader : Option (List ℕ)) → IsStreamOver reader result }
    ensures before { IsBefore result }
{
    if index <= most {
        LineEnd::Feed(index)
    } else {
        LineEnd::TooLong
    }
}

/// Where the first line of some bytes ends, if they show it. O(n) for a line of n bytes.
pub(crate) fn first_end(bytes: &[u8], most: usize) -> Option<LineEnd>
    ensures found { IfSome result (EndsIn most bytes.now) }
    ensures within { IfSome result (λ e. (reader : Option (List ℕ)) → IsStreamOver reader e) }
    ensures before { IfSome result IsBefore }
    ensures free { IfNone result (IsFree bytes.now) }
    ensures short { IfNone result (length bytes.now ≤ most) }
{
    match memchr(b'\n', bytes) {
        Some(index) => Some(end_at(index, most)),
        None => {
            if bytes.len() > most {
                Some(LineEnd::TooLong)
            } else {
                None
            }
        }
    }
}

/// Reads on until the line that begins with these bytes ends, or has more bytes than are read of one.
///
/// It fails if memory runs out, or the reader fails, or the line did not end in [`MAX_READ_CALLS`] calls.
pub(crate) fn read_to_end<R: Source>(
    reader: &mut R,
    chunk: &mut [u8],
    bytes: &mut Vec<u8>,
    most: usize,
) -> Result<LineEnd, Fault>
    requires room { 0 < length chunk.old }
    requires free { IsFree bytes.old.items }
    requires short { length bytes.old.items ≤ most }
    ensures found { IfOk result (FindsEnd most (R.remaining reader.old) (R.remaining reader.new) bytes.old.items bytes.new.items) }
    ensures kept { OnErr result (TakesSome (R.remaining reader.old) (R.remaining reader.new) bytes.old.items bytes.new.items) }
    ensures error { IfErr result (λ e. (e ≡ Fault.Memory) ⊎ (e ≡ Fault.Read)) }
    ensures few { length bytes.new.items ≤ most + length chunk.old }
    ensures calls { LooksBy R.called MAX_READ_CALLS result reader.old reader.new }
{
    for _ in 0..MAX_READ_CALLS {
        let Some(count) = read_once(reader, chunk)? else {
            return Ok(LineEnd::Stream);
        };
        let before = bytes.len();
        let more = &chunk[..count];
        bytes.extend_from_slice(more)?;
        if let Some(index) = memchr(b'\n', more) {
            return Ok(end_at(before + index, most));
        }
        if bytes.len() > most {
            return Ok(LineEnd::TooLong);
        }
    }
    Err(Fault::Read)
}
