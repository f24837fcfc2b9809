//! A reader that keeps what was read.

ghost use Rattle.std.specs.Prelude.{◌≡◌};

use json_lines::Source;
use std::alloc::Global;
use std::io;

/// A reader of the same bytes, which keeps them where that is wanted and memory suffices.
#[derive(Drop)]
pub(crate) struct Keeping<R> {
    reader: R,
    kept: Option<Vec<u8>>,
}

impl<R> Keeping<R> {
    /// A reader of the same bytes.
    pub(crate) fn of(alloc: Global, reader: R, is_wanted: bool) -> Keeping<R>
        ensures { result.reader ≡ reader }
    {
        Keeping {
            reader,
            kept: if is_wanted {
                Some(Vec::new(alloc))
            } else {
                None
            },
        }
    }

    /// What was read, where it was kept.
    pub(crate) fn kept(&self) -> Option<&[u8]> {
        match &self.kept {
            Some(kept) => Some(kept.as_slice()),
            None => None,
        }
    }
}

// Keeps some bytes more, or gives up for want of memory.
fn keep(kept: &mut Option<Vec<u8>>, bytes: &[u8]) {
    if let Some(text) = kept
        && text.extend_from_slice(bytes).is_err()
    {
        *kept = None;
    }
}

impl<R: Source> Source for Keeping<R> {
    ghost use Rattle.app_process.specs.Steps.Readers.{PassesRead};

    ghost remaining = { λ keeping. R.remaining keeping.reader };

    ghost called = { λ old outcome new. PassesRead R.called old.reader outcome new.reader };

    fn call(&mut self, buffer: &mut [u8]) -> io::Result<usize> {
        match self.reader.call(buffer) {
            Ok(count) => {
                keep(&mut self.kept, &buffer[..count]);
                Ok(count)
            }
            Err(error) => Err(error),
        }
    }
}
